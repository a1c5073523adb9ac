//! Workers that decide, turn by turn, which candidates of a shared table belong to the backbone.
//!
//! A turn loads what the others did, asks one core query over a block of open candidates and at most one chunk query
//! over a core, drops candidates by models and their flips, fixes them by refutations, takes over the literals that
//! others have fixed and publishes its own. Each drop is kept with the stored model that shows it, each fix with an
//! entry of the worker's log. Contracts see a worker as `specs/Posts` says; what a turn's answer means stands in
//! `specs/Turns`, what evidence a worker keeps in `specs/Evidence`, and what it hands in at its end in `specs/Runs`.
#![tactic(auto)]

mod asking;
mod choosing;
mod dropping;
mod endings;
mod findings;
mod fixing;
mod gate;
mod jumping;
mod loading;
mod masks;
mod pace;
mod post;
mod question;
mod terrain;
#[cfg(test)]
mod tests;
mod tools;
mod turn;
mod worker;

pub use endings::{End, TurnEnd};
pub use findings::Findings;
pub use gate::{Gate, NoGate};
pub use question::Question;
pub use worker::{Share, Worker};
