//! The table of candidates as atomic words that any number of threads share.
//!
//! Each call of [`Words`] on a [`Seat`] is one atomic step and exactly one event of `board_core`'s machine:
//! a load is one load, a drop one fetch-and, a fix one fetch-or; `look` alone is no event. There is no retry loop,
//! nothing waits, and only `open` and `close` take memory. Between any two steps of any threads the words and all views keep the
//! board's rule and that of its clocks. What a seat knows, its view, is read by contracts alone: a worker keeps
//! beside its seat what it acts on. The words of the groups come first, behind them an origin word for each
//! variable.
#![tactic(auto)]

mod rule;
mod seat;
#[cfg(test)]
mod tests;
mod words;

pub use seat::Seat;
pub use words::Words;
