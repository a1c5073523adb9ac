//! What the words of a command line ask for.
//!
//! The first word names the command: `extract`, `check` or `sample`. The others are read by the command of that name of
//! the kit's `clap`, and `specs/Settings` says what they ask for by what `clap` is proved to make of them.
#![tactic(auto)]

mod asked;
mod commands;
pub mod laws;
#[cfg(test)]
mod tests;
mod words;

pub use asked::{Settings, WordsEnd};
pub use words::settings;
