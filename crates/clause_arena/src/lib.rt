//! Clauses in one arena: the literals of all of them lie together in memory, and a reference is a place.
//!
//! Contracts see an [`Arena`] as the list of its entries, a [`ClauseRef`] as a place in that list, and
//! [`Moves`] as the list of where each entry went (`specs/Entries`). `specs/Layout` says how the entries
//! lie in memory.
#![tactic(auto)]

mod arena;
mod moves;
mod reference;
#[cfg(test)]
mod tests;

pub use arena::Arena;
pub use moves::Moves;
pub use reference::ClauseRef;
