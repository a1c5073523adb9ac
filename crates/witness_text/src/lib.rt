//! Witnesses as text: models, and for each dropped candidate the model that it is false in.
#![tactic(auto)]

mod drops;
pub mod laws;
mod line;
mod lines;
mod models;
mod packing;
mod read;
mod write;

pub use line::WitnessLine;
pub use models::PackedModels;
pub use read::{MAX_WITNESS, WitnessEnd, WitnessText, read_witness};
pub use write::{WriteFault, write_witness};

#[cfg(test)]
mod tests;
