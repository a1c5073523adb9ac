/// How many workers a run has, and what each may do.
#[derive(Clone, Copy, Debug, PartialEq, Eq)]
pub struct RunSettings {
    /// How many workers take turns, from 1 to 16. A run of one worker doesn't look at it.
    pub workers: u32,
    /// How many clauses each worker may learn over the whole run, from 1 to 2^40. The first worker's count has those
    /// of the search for the first model.
    pub budget: u64,
    /// The seed of the run. Each worker's chooser begins with it plus the worker's number, modulo 2^64.
    pub seed: u64,
}
