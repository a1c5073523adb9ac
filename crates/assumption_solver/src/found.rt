use cnf_core::{Lit, Values};

/// What a query found.
#[derive(Debug, Drop)]
pub enum Found {
    /// A model in which all assumptions are true and, where there is a chunk, one of its literals is false.
    Model(Values),
    /// The assumptions can't all hold: a clause of negations of some of them, and the id of its entry.
    Core { lits: Vec<Lit>, entry: u64 },
    /// Every literal of the chunk has an entry that shows it by itself.
    AllFixed,
    /// There is no model: the id of the empty clause.
    Unsat { entry: u64 },
    /// The log holds as many learnt clauses as the budget allows.
    Spent,
    /// Want of memory.
    Memory,
}

/// What a slice of a query came to.
#[derive(Debug, Drop)]
pub enum Progress {
    /// The query has its answer.
    Found(Found),
    /// The slice is over, and the query isn't.
    Paused,
}
