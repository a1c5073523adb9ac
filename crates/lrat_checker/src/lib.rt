//! A checker of proofs. It shares nothing with the search for them but literals, formulas and the
//! lines of a proof, so that whoever distrusts the search has to read only this.
//!
//! What a proof is, is defined in `lrat_lines`. `specs/Checking` says which formula and lines a
//! checker stands for, and what each answer to a line means.
#![tactic(auto)]

mod assignment;
mod checker;
mod hints;
mod known;
mod reached;
mod refused;

pub use checker::Checker;
pub use refused::Refused;

#[cfg(test)]
mod tests;
