//! The run: from a formula to what is known of its backbone, by one worker or by many on threads of their own.
//!
//! A first search looks for a model. Then the workers take turns over one table of candidates until none is open, and
//! what they hand in is gathered at the root's seat: one report, with a model against each dropped candidate and one
//! proof of the fixed ones. `specs/Outcomes` says what each end of a run says.
#![tactic(auto)]

mod crew;
mod first;
mod gathered;
mod outcome;
mod report;
mod run;
mod settings;
mod slot;
#[cfg(test)]
mod tests;

pub use outcome::{Outcome, Report};
pub use run::{run_many, run_one};
pub use settings::RunSettings;
