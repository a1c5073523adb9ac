//! Two watched literals a clause, and the propagation over them.
//!
//! Each live clause of two or more literals is in the lists of its first two. A clause of just two is never
//! looked at by a propagation, since its watches say all of it.
//!
//! Contracts see [`Watches`] as the lists (`specs/Lists`); `specs/Watching` has the rule that ties arena,
//! watches and trail, and `specs/Propagating` what a propagation does. Lemmas by which callers keep the rule
//! across their own steps stand in `proofs/Kept`, and for a compaction in `proofs/Compacted`.
#![tactic(auto)]

pub mod laws;
mod step;
#[cfg(test)]
mod tests;
mod watch;
mod watches;

pub use step::Step;
pub use watches::Watches;
