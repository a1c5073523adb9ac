use clause_arena::ClauseRef;
use cnf_core::Lit;

/// What a query asks for: assumptions that are to be true, or a chunk of which some literal is to be false.
#[derive(Clone, Copy, Debug)]
pub struct Query<'q> {
    pub assume: &'q [Lit],
    pub chunk: &'q [Lit],
}

/// How far the assumptions were looked at since the last conflict.
#[derive(Clone, Copy, Debug)]
pub struct Sweep {
    /// How many of the first are true or were noted.
    pub passed: usize,
    /// The first of them that is false at the root.
    pub refuted: Option<Lit>,
}

/// The next step of a search on a quiet trail.
#[derive(Clone, Copy, Debug)]
pub enum Next {
    /// To decide an assumption, or the negation of a literal of the chunk.
    Assume(Lit),
    /// To decide another literal.
    Decide(Lit),
    /// None: this assumption is false at the root.
    Refuted(Lit),
    /// None: this assumption is false above the root.
    Failed(Lit),
    /// None: all literals of the chunk are true at the root.
    AllFixed,
    /// None: every variable has a value.
    Complete,
}

/// Where a search comes by propagations and decisions.
#[derive(Clone, Copy, Debug)]
pub enum Course {
    /// This clause is false.
    Conflict(ClauseRef),
    Refuted(Lit),
    Failed(Lit),
    AllFixed,
    Complete,
}

/// How the literals of a chunk stand at the root.
#[derive(Clone, Copy, Debug)]
pub enum Split {
    /// One is false, or there is no chunk.
    Made,
    /// This one has no value, and none is false.
    Open(Lit),
    /// All are true.
    AllFixed,
}
