use cnf_core::Lit;

/// A drop line of a witness: a candidate, and the model against it.
#[derive(Clone, Copy, Debug, PartialEq, Eq)]
pub struct WitnessLine {
    /// The candidate.
    pub lit: Lit,
    /// The number of a model, from 0.
    pub model: u64,
    /// Whether the candidate's variable is flipped in it.
    pub flip: bool,
}
