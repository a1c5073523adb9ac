//! One proof out of the logs of several searches, and what of it is needed.
//!
//! `specs/Merging` says in which order the entries of several logs stand, which ids they get, and what proof they make;
//! `specs/Trimming` which lines of a proof are needed for some literals; `specs/MergedNeeds` both in one. What the
//! calls keep while they run stands in `specs/Steps`.
#![tactic(auto)]

mod ids;
mod marks;
mod merged;
mod needed;
mod order;
mod place;
mod trimmed;
mod wanted;

pub use merged::merge;
pub use needed::merge_needed;
pub use place::Place;
pub use trimmed::trim;

#[cfg(test)]
mod tests;
