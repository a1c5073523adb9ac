//! Judges an answer, a proof and a witness from the formula alone.
//!
//! `specs/Verdicts` says which tests there are, in which order they come, and what the verdict on three
//! texts is. That a verified answer is right whatever the other texts hold is the law of
//! `specs/Laws`. Nothing here knows how the texts were made.
#![tactic(auto)]

mod chains;
mod check;
mod cover;
mod drops;
mod evidence;
pub mod laws;
mod line;
mod models;
mod proof;
mod units;
mod verdict;
mod witness;

pub use check::check_all;
pub use proof::MAX_PROOF;
pub use verdict::{CheckEnd, Reason, Verdict};

#[cfg(test)]
mod tests;
