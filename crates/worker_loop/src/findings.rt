use crate::End;
use candidate_words::Seat;
use cnf_core::Lit;
use lrat_log::Log;
use model_store::{ModelStore, Witness};

/// What a worker hands in at its end: its seat, and all that it won there with the evidence.
#[derive(Drop)]
pub struct Findings<'f> {
    /// The worker's number.
    pub worker: u32,
    pub seat: Seat,
    /// The candidates that it dropped, in the order of the seat's list, each with a model against it.
    pub drops: Vec<Witness>,
    /// The phase literals that it fixed, in the order of the seat's list. The log shows each by itself.
    pub fixes: Vec<Lit>,
    pub models: ModelStore<'f>,
    pub log: Log<'f>,
    /// How often its chooser was asked for a decision.
    pub decisions: u64,
    pub end: End,
}
