//! The models of a formula, one bit a variable, and what they are witnesses of.
#![tactic(auto)]

mod packed;
mod store;
#[cfg(test)]
mod tests;
mod witness;

pub use store::ModelStore;
pub use witness::Witness;
