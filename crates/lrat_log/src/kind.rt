/// What an entry of a log is for.
#[derive(Clone, Copy, Debug, PartialEq, Eq)]
pub enum Kind {
    /// A clause that a conflict taught.
    Learnt,
    /// A literal that holds in every model.
    Unit,
    /// A clause over negated assumptions: they can't all hold.
    Core,
    /// The empty clause: there is no model.
    Empty,
    /// A literal that another log shows.
    Import,
}
