use clause_arena::ClauseRef;

/// How a propagation ended.
#[derive(Clone, Copy, Debug, PartialEq, Eq)]
pub enum Step {
    /// Every entry of the trail was propagated.
    Quiet,
    /// This live clause is false.
    Conflict(ClauseRef),
    /// There was no memory to move a watch.
    Memory,
}

/// What became of one watch of a false literal.
#[derive(Clone, Copy)]
pub(crate) enum Fate {
    /// It stays, and a literal of its clause is true.
    Keep,
    /// It was taken out of the list.
    Move,
    /// Its clause is false.
    Falsified(ClauseRef),
    /// There was no memory to move it.
    NoRoom,
}
