/// Which lines of an answer may come next.
#[derive(Clone, Copy, Debug, PartialEq, Eq)]
pub enum Stage {
    /// The verdict.
    First,
    /// Literals of a backbone that is known whole, and the end line.
    Backbone,
    /// Literals that are known to be in the backbone, the first of those that may be, and the end line.
    Fixed,
    /// Literals that may be in the backbone, and the end line.
    Still,
    /// None: there is no model.
    Unsat,
    /// None: the backbone is known.
    Sat,
    /// None: a part of the backbone is known.
    Partial,
    /// None: nothing is known.
    Unknown,
}

/// What is wrong with a line.
#[derive(Clone, Copy, Debug, PartialEq, Eq)]
pub enum LineFault {
    /// It may not stand there.
    Bad,
    /// Its variable isn't above that of the line before in the same group.
    NotSorted,
}
