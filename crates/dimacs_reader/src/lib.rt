//! Reads formulas in the DIMACS CNF format: a text that comes in pieces, cut anywhere, gives the
//! formula that it writes, or its first fault with the place of that fault.
//!
//! What a text means is defined in `specs/Reading`, over its lines and tokens; `specs/Examples` has
//! texts that are worked by it. A [`Scan`] gives just that meaning, however the text is cut, and keeps none
//! of its bytes. `specs/Steps` has the same byte by byte, for the proofs alone.
//!
//! Comments say nothing, but for one form: behind the header a line `c p show`, then variables, then `0`
//! names the variables that are shown. It is after the line of the model counting competitions.
//!
//! [`read_formula`] reads the feed `Text` of a desk, of at most 2^27 bytes. `specs/PlainText` has one
//! spelling of each formula, which is read back as that formula.
#![tactic(auto)]

mod course;
mod fault;
pub mod laws;
mod partial;
mod pass;
mod read;
mod scan;
mod word;

pub use fault::{BadKind, Fault, ScanEnd};
pub use read::{ReadEnd, TEXT_LIMIT, read_formula};
pub use scan::Scan;

#[cfg(test)]
mod tests;
