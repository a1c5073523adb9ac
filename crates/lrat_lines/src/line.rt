ghost use Rattle.std.specs.Prelude.{◌≡◌, ◌<◌, ◌^◌, ◌↔◌, ℕ, [], IsTrue, length};
ghost use Rattle.std.specs.Slice.Iter.{iter_rest, iter_steps};
ghost use Rattle.std.specs.Iterator.Runs.{EveryRun, ItemsMapTo};
ghost use Rattle.lrat_lines.specs.Tidy.{clause_of, hints_of};
ghost use Rattle.lrat_lines.specs.declared.line.LineEnd.TheVariants.{Memory};

use cnf_core::{Clause, Lit};
use std::alloc::AllocFailed;
use std::error::Error;
use std::fmt::{Display, Formatter};
use std::marker::Model;
use std::{fmt, slice};

/// Numbers of clauses, in order.
#[derive(Debug, Drop)]
pub struct Ids {
    pub ids: Vec<u64>,
}

impl Model for Ids {
    ghost use Rattle.std.specs.Prelude.{ℕ, List};

    ghost Value = { List ℕ };

    ghost view = { λ i. i.ids.items };
}

impl Ids {
    /// How many there are.
    pub fn len(&self) -> usize
        ensures { result ≡ length self.now }
    {
        self.ids.len()
    }

    /// Whether there are none.
    pub fn is_empty(&self) -> bool
        ensures { IsTrue result ↔ (self.now ≡ []) }
    {
        self.ids.is_empty()
    }

    /// The numbers, in order.
    pub fn as_slice(&self) -> &[u64]
        ensures { result.now ≡ self.now }
    {
        &self.ids
    }
}

impl<'a> IntoIterator for &'a Ids {
    type Item = &'a u64;

    type IntoIter = slice::Iter<'a, u64>;

    ghost into_iter_gives = { λ ids it. (iter_rest it ≡ ids.now) × (length (iter_rest it) < 2 ^ 64)
        × EveryRun (iter_steps {A = ℕ}) (λ p. ItemsMapTo p (λ y. y.now) (iter_rest p.from)) };

    fn into_iter(self) -> slice::Iter<'a, u64> {
        self.ids.iter()
    }
}

/// A line of a proof. Clauses are called by their numbers, their ids.
#[derive(Debug, Drop)]
pub enum Line {
    /// A clause is added under an id. The clauses of the hints show, one after another, that it
    /// follows.
    Add { id: u64, lits: Clause, hints: Ids },
    /// Clauses are no longer used. The line's own id has no effect.
    Delete { id: u64, ids: Ids },
}

impl Line {
    /// The literals of the clause that the line adds, or none where it deletes.
    pub fn lits(&self) -> &[Lit]
        ensures { result.now ≡ clause_of self.now }
    {
        match self {
            Line::Add { lits, .. } => lits.as_slice(),
            Line::Delete { .. } => &[],
        }
    }

    /// The hints that show that clause, or none where the line deletes.
    pub fn hints(&self) -> &[u64]
        ensures { result.now ≡ hints_of self.now }
    {
        match self {
            Line::Add { hints, .. } => hints.as_slice(),
            Line::Delete { .. } => &[],
        }
    }
}

/// The lines of a proof, in order.
#[derive(Debug, Drop)]
pub struct Proof {
    pub lines: Vec<Line>,
}

impl Model for Proof {
    ghost use Rattle.std.specs.Prelude.{List};
    ghost use Rattle.lrat_lines.specs.declared.line.Line.{Line};

    ghost Value = { List Line };

    ghost view = { λ p. p.lines.items };
}

/// Why a text is no line.
#[derive(Clone, Copy, Debug, PartialEq, Eq)]
pub enum LineEnd {
    /// A token doesn't fit where it stands, or is one too many.
    BadToken,
    /// The text is over before the line's last list is ended.
    NotEnded,
    /// A hint is negative. Such hints are for resolution on a clause that isn't the line's, which this
    /// format leaves out.
    NegativeHint,
    /// There was no memory.
    Memory,
}

impl Display for LineEnd {
    fn fmt<W: fmt::Write>(&self, f: &mut Formatter<W>) -> fmt::Result {
        f.write_str(match self {
            LineEnd::BadToken => "a token doesn't fit",
            LineEnd::NotEnded => "the line isn't ended",
            LineEnd::NegativeHint => "a hint is negative",
            LineEnd::Memory => "out of memory",
        })
    }
}

impl Error for LineEnd {}

impl<T: Drop> From<AllocFailed<T>> for LineEnd {
    ghost from_gives = { λ _ end. end ≡ Memory };

    fn from(_error: AllocFailed<T>) -> LineEnd {
        LineEnd::Memory
    }
}
