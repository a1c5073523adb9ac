use cnf_core::Lit;

/// What is known of a formula.
#[derive(Debug, Drop)]
pub enum Answer {
    /// It has no model.
    Unsat,
    /// It has a model, and this is its backbone, in rising order of variable.
    Sat(Vec<Lit>),
    /// It has a model, and the search for its backbone was not finished. Both lists are in rising
    /// order of variable, and share none.
    Partial {
        /// Literals that are in the backbone.
        fixed: Vec<Lit>,
        /// Literals that may be in it. No other can be.
        still: Vec<Lit>,
    },
    /// Whether it has a model was not found out.
    Unknown,
}
