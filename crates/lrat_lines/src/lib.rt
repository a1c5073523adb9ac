//! Lines of proofs in the LRAT text format: what they mean, how they are printed, and how they are
//! read.
//!
//! The definitions stand in `specs/`. `Sets` says what a set of literals is, `Propagation` what
//! reverse unit propagation with hints proves, `Proofs` which lines a proof over a formula takes and
//! what it reaches, `Grammar` what a line's text means, and `Printed` the one printed spelling. The
//! statements of the laws are in `Laws`. A [`Line`] is seen by contracts with its lists as lists, and
//! a [`Proof`] as the list of its lines.
#![tactic(auto)]

pub mod laws;
mod line;
mod print;
mod read;
mod token;
mod write;

pub use line::{Ids, Line, LineEnd, Proof};
pub use print::print_line;
pub use read::read_line;
pub use write::{ProofEnd, write_proof};

#[cfg(test)]
mod tests;
