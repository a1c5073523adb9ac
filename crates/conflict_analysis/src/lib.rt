//! Analysis of conflicts: the clause that a conflict teaches, the proof of a conflict at the root, and the
//! core of a literal that is false. Each comes with hints that prove it by reverse unit propagation.
//!
//! The definitions stand in `specs/`: `Members` says what hints may name, `Reasons` what the calls ask of
//! a trail and an arena, and `Answers` what they answer. The others say how a walk over reasons goes:
//! `Walks` what it gathers, `Resolvents` why its hints prove what is left, `Learning` and `Tracing` its
//! two kinds.
#![tactic(auto)]

mod analyser;
#[cfg(test)]
mod tests;
mod walk;

pub use analyser::{Analyser, Learnt};
