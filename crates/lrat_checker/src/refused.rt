ghost use Rattle.std.specs.Prelude.{◌≡◌};
ghost use Rattle.lrat_checker.specs.declared.refused.Refused.TheVariants.{Memory};

use cnf_core::NoMemory;
use std::error::Error;
use std::fmt;
use std::fmt::{Display, Formatter};

/// Why a line is not taken.
#[derive(Clone, Copy, Debug, PartialEq, Eq)]
pub enum Refused {
    /// The id isn't above the number of the formula's clauses and all ids that were added before.
    IdNotRising(u64),
    /// The literal, as DIMACS writes it, has a variable above the formula's.
    VarRange(i32),
    /// No clause is known by this id: there was none, or it was deleted.
    UnknownHint(u64),
    /// In the clause of this id two or more literals are not false where it is a hint.
    NotUnit(u64),
    /// The hints are over, and no clause of theirs was false.
    NoConflict,
    /// There was no memory.
    Memory,
}

impl Display for Refused {
    fn fmt<W: fmt::Write>(&self, f: &mut Formatter<W>) -> fmt::Result {
        match self {
            Refused::IdNotRising(id) => write!(f, "the id {id} doesn't rise"),
            Refused::VarRange(number) => write!(f, "the formula has no variable of {number}"),
            Refused::UnknownHint(id) => write!(f, "no clause has the id {id}"),
            Refused::NotUnit(id) => write!(f, "the clause {id} isn't a unit"),
            Refused::NoConflict => f.write_str("the hints end without a conflict"),
            Refused::Memory => f.write_str("out of memory"),
        }
    }
}

impl Error for Refused {}

impl From<NoMemory> for Refused {
    ghost from_gives = { λ _ refused. refused ≡ Memory };

    fn from(_error: NoMemory) -> Refused {
        Refused::Memory
    }
}
