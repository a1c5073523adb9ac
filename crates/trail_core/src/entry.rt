use clause_arena::ClauseRef;
use cnf_core::Lit;

/// Why a literal was made true.
#[derive(Clone, Copy, Debug, PartialEq, Eq)]
pub enum Reason {
    /// It was decided.
    Decision,
    /// It is the one literal of this clause that wasn't false.
    Clause(ClauseRef),
    /// It was proved as a unit clause with this id.
    Unit(u64),
}

/// An entry of a trail: a literal that is true.
#[derive(Clone, Copy, Debug)]
pub struct Assigned {
    pub lit: Lit,
    /// How many decisions there were when it came, itself counted.
    pub level: u32,
    pub reason: Reason,
}
