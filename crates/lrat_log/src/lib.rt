//! The log of a search: each clause that it derives, with the hints that show it.
//!
//! Contracts see a [`Log`] as its formula and the list of its entries, with the present query number and
//! clock (`specs/Entries`). The type keeps every entry derivable by reverse unit propagation from the
//! formula and the entries before it, learnt clauses new in their epoch of the query (`specs/Fresh`), and their hints
//! tight (`specs/Kept`). `specs/Laws` says why there are few new clauses.
//!
//! In memory an entry is bytes (`specs/Packed`), each whole in one page of many; `specs/Steps` says how they lie there, and how
//! they give the entries back.
#![tactic(auto)]

mod kind;
pub mod laws;
mod log;
mod numbers;
mod packing;
mod store;
#[cfg(test)]
mod tests;

pub use kind::Kind;
pub use log::Log;
