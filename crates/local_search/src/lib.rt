//! Local search over the models of a formula: for a model in which given literals are false, and from a model to one in
//! which more of the wanted literals are true.
//!
//! [`Tables`] are made once for a formula and shared by any number of searches. A [`LocalSearch`] and a [`Descent`] have
//! all their memory from the beginning. What they answer is proved to be a model, by the number of true literals of each
//! clause, which each flip keeps exact (`specs/Tallies`); `specs/Searches` says what else it is.
#![tactic(auto)]

mod clean;
mod counts;
mod descend;
#[cfg(test)]
mod descend_tests;
mod draws;
mod flat;
mod freeze;
mod listing;
mod scores;
mod search;
mod spots;
mod tables;
#[cfg(test)]
mod tests;
mod weights;

pub use descend::{Descended, Descent};
pub use freeze::Frozen;
pub use search::LocalSearch;
pub use tables::Tables;
