//! When a search restarts, and which learnt clauses it lets go.
#![tactic(auto)]

mod epochs;
mod removals;
mod restarts;
#[cfg(test)]
mod tests;

pub use epochs::Epochs;
pub use removals::choose_removals;
pub use restarts::{Restarts, luby};
