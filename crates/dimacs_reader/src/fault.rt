ghost use Rattle.std.specs.Prelude.{◌≡◌};
ghost use Rattle.dimacs_reader.specs.declared.fault.ScanEnd.TheVariants.{Bad, Memory};

use cnf_core::NoMemory;

/// What is wrong with a text.
#[derive(Clone, Copy, Debug, PartialEq, Eq)]
pub enum BadKind {
    /// The first line that says something doesn't begin with the word `p`, or there is none.
    NoHeader,
    /// A word of the header line is wrong, missing or one too many.
    BadHeader,
    /// A word among the clauses is no number.
    BadNumber,
    /// A literal's variable is above the header's number of variables.
    LiteralRange,
    /// A word stands behind all the clauses that the header promises.
    TooManyClauses,
    /// The clauses end before all that the header promises are there.
    TooFewClauses,
    /// The clauses end inside a clause.
    Unended,
    /// There are more than 2^20 variables, 2^21 clauses or 2^23 literals.
    OverLimit,
    /// A word of a show line is none of the variables, or stands behind its end, or the end is missing.
    BadShow,
}

/// The first fault of a text: what is wrong, and the place of the byte where it is, from 0.
#[derive(Clone, Copy, Debug, PartialEq, Eq)]
pub struct Fault {
    pub kind: BadKind,
    pub place: u64,
}

/// Why a scan gives no formula: the text's first fault, with its place from 0, or want of memory.
#[derive(Clone, Copy, Debug, PartialEq, Eq)]
pub enum ScanEnd {
    Bad { kind: BadKind, place: u64 },
    Memory,
}

impl From<Fault> for ScanEnd {
    ghost from_gives = { λ fault end. end ≡ Bad fault.kind fault.place };

    fn from(fault: Fault) -> ScanEnd {
        ScanEnd::Bad {
            kind: fault.kind,
            place: fault.place,
        }
    }
}

impl From<NoMemory> for ScanEnd {
    ghost from_gives = { λ _ end. end ≡ Memory };

    fn from(_error: NoMemory) -> ScanEnd {
        ScanEnd::Memory
    }
}
