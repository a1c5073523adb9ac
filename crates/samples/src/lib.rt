//! Draws for benches: numbers that look random and are the same on every machine and at every run.
#![tactic(auto)]

mod draws;
#[cfg(test)]
mod tests;

pub use draws::Draws;
