//! The trait by which a search is told which variable to decide next.
#![tactic(auto)]

mod chooser;
#[cfg(test)]
mod tests;

pub use chooser::Chooser;
