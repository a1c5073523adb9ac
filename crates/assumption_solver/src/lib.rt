//! A solver with learnt clauses (Marques-Silva and Sakallah, 1996; Een and Sorensson, 2003) that writes all it derives into
//! a log, each clause with the hints that show it.
//!
//! It is asked for a model under assumptions, for one in which some literal of a chunk is false, or for any model,
//! within a budget of learnt clauses; in one call, or in slices. What each answer says stands in `specs/Answers`, how
//! the log grows in `specs/Logs`, which literals the log shows by themselves in `specs/Units`. `specs/Steps` has what
//! the search keeps from step to step.
#![tactic(auto)]

mod course;
mod found;
mod journal;
mod loading;
#[cfg(test)]
mod long_tests;
mod phases;
mod query;
mod search;
mod solver;
#[cfg(test)]
mod tests;

pub use found::{Found, Progress};
pub use search::Counts;
pub use solver::Solver;
