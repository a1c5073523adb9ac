//! Which variables a model can't do without: those whose flip alone leaves no model. By one pass over the
//! formula, or by the clauses in which one variable occurs; and walks that flip what a model can do without.
#![tactic(auto)]

mod flat;
mod flips;
mod holds;
mod listing;
mod marks;
mod occurrences;
#[cfg(test)]
mod tests;
#[cfg(test)]
mod walk_tests;
mod walker;

pub use flips::critical;
pub use marks::Marks;
pub use occurrences::Occurrences;
pub use walker::{MAX_PASSES, Walker};
