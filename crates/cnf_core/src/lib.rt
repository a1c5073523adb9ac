//! Propositional formulas in conjunctive normal form, and what every crate of the workspace means by
//! a literal, a clause, an assignment, a model, and the backbone.
//!
//! The definitions stand in `specs/`: `Literals`, `Formulas`, how a literal is written in `Spelling`,
//! and the statements of the laws in `Laws`. The types here are seen by contracts as those values: a
//! [`Lit`] as a variable with a sign, a [`Clause`] as a list of literals, a [`Formula`] as its number of
//! variables with its list of clauses, [`Values`] as a list of truth values.
#![tactic(auto)]

mod clause;
mod formula;
pub mod laws;
mod literal;
mod memory;
mod numbers;
#[cfg(test)]
mod tests;
mod values;

pub use clause::Clause;
pub use formula::{Formula, MAX_CLAUSES, MAX_LITERALS};
pub use literal::{Lit, MAX_VARS};
pub use memory::NoMemory;
pub use numbers::NumbersError;
pub use values::Values;
