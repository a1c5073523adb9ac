//! The table of candidates that all workers share, as a pure machine over lists of events.
//!
//! Variable v stands in group (v - 1) / 32 at bit i = (v - 1) mod 32. In a group's word bit i says that the
//! variable is alive, that is a candidate that no model was found against, and bit 32 + i that it is fixed.
//! A view is what one worker has done and seen. The definitions stand in `specs/`: words in `Words`, the
//! machine in `Boards`, what it keeps in `Rules`.
#![tactic(auto)]

mod board;
mod event;
pub mod laws;
mod opened;
mod opening;
mod stored;
#[cfg(test)]
mod tests;
mod view;
mod wins;

pub use board::Board;
pub use event::Event;
pub use opened::Opened;
pub use opening::opening_words;
pub use view::{Stamped, View};
