//! Large formulas from three numbers: how many variables, how many clauses, and a seed.
//!
//! Each clause has three different variables. The clauses are drawn so that an assignment that was drawn before
//! them is a model, so every such formula has one ("planted" solutions, as in Achlioptas, Gomes, Kautz and Selman,
//! 2000). The formula is the same on every machine and at every run: its words are those of the generator PCG32
//! (O'Neill, 2014), and `specs/Planted` says which word gives what.
#![tactic(auto)]

mod draws;
mod formula;
#[cfg(test)]
mod tests;

pub use formula::planted;
