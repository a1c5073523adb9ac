//! The ways in which a search picks the next variable that it decides.
//!
//! Each answers a variable without a value. [`OrderChooser`] takes the least one, [`RandomChooser`] draws one,
//! and [`QueueChooser`] prefers what conflicts met last.
#![tactic(auto)]

mod free;
mod order;
mod queue;
mod random;
#[cfg(test)]
mod tests;
mod weights;

pub use order::OrderChooser;
pub use queue::QueueChooser;
pub use random::RandomChooser;
