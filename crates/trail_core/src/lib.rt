//! The trail of a search: which literals were made true, in order, with their levels and reasons.
//!
//! Contracts see a [`Trail`] as its list of entries with three numbers (`specs/Trails`). `specs/Steps/Tables`
//! says how they lie. Only [`Trail::new`] takes memory.
#![tactic(auto)]

mod entry;
#[cfg(test)]
mod tests;
mod trail;

pub use entry::{Assigned, Reason};
pub use trail::Trail;
