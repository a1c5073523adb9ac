//! The lines of a feed, one after the other, and texts whose grammar goes line by line.
#![tactic(auto)]

mod feed;
mod read;
mod window;

pub use feed::{FeedEnd, FeedLines};
pub use read::{LineByLine, Refusal, TextEnd, read_lines};

#[cfg(test)]
mod tests;
