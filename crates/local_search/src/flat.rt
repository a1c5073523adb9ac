ghost use Rattle.std.specs.Prelude.{◌≡◌, ◌+◌, ◌*◌, ◌<◌, ◌≤◌, ◌^◌, IfOk, OnOk, length, map};
ghost use Rattle.local_search.specs.Cleaned.{clause_at, IsCleaned};
ghost use Rattle.local_search.specs.Steps.Flat.{part_of, IsLaid};

use crate::clean::clean;
use cnf_core::{Formula, Lit, NoMemory};
use std::alloc::Global;
use std::marker::Model;

/// Where a clause begins and ends among the literals.
#[derive(Clone, Copy, Debug)]
struct Span {
    start: u32,
    end: u32,
}

/// Clauses without always true ones, each literal once, their literals one behind the other.
#[derive(Debug, Drop)]
pub(crate) struct FlatClauses {
    lits: Vec<Lit>,
    spans: Vec<Span>,
}

impl Model for FlatClauses {
    ghost use Rattle.std.specs.Prelude.{List, map};
    ghost use Rattle.cnf_core.specs.Literals.{Literals};
    ghost use Rattle.local_search.specs.Steps.Flat.{part_of, AreSpans};

    ghost Value = { List Literals };

    ghost view = { λ f. map (part_of f.lits.items) f.spans.items };

    ghost invariant = { λ f. AreSpans f.lits.items f.spans.items };
}

impl FlatClauses {
    /// The clauses of the formula, cleaned.
    pub(crate) fn new(alloc: Global, formula: &Formula) -> Result<FlatClauses, NoMemory>
        ensures { IfOk result (λ flat. IsCleaned formula.now flat) }
    {
        let mut lits = Vec::new(alloc);
        let mut spans = Vec::new(alloc);
        let mut kept = Vec::new(alloc);
        let mut seen = vec![in alloc; 0u32; 2 * formula.vars() as usize + 2]?;
        for place in 0..formula.clauses().len() {
            let clause = formula.clauses()[place].as_slice();
            if clean(clause, place as u32 + 1, &mut seen, &mut kept)? {
                lay(&mut lits, &mut spans, &kept)?;
            }
        }
        Ok(FlatClauses { lits, spans })
    }

    /// How many there are.
    pub(crate) fn len(&self) -> usize
        ensures { result ≡ length self.now }
    {
        self.spans.len()
    }

    /// The literals of the clause at a place.
    #[inline(always)]
    pub(crate) fn get(&self, place: u32) -> &[Lit]
        requires { place < length self.now }
        ensures { result.now ≡ clause_at self.now place }
    {
        let span = self.spans[place as usize];
        &self.lits[span.start as usize..span.end as usize]
    }
}

/// Lays a clause behind the others.
fn lay(lits: &mut Vec<Lit>, spans: &mut Vec<Span>, clause: &[Lit]) -> Result<(), NoMemory>
    requires { length lits.old.items + length clause.now ≤ 2 ^ 23 }
    ensures { OnOk result (IsLaid clause.now lits.old.items spans.old.items lits.new.items spans.new.items) }
{
    let start = lits.len() as u32;
    lits.extend_from_slice(clause)?;
    let end = lits.len() as u32;
    spans.push(Span { start, end })?;
    Ok(())
}
