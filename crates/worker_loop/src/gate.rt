/// What a worker passes before each turn. A pass tells nothing and changes nothing that the run sees; tests watch
/// by it which workers are at work.
pub trait Gate: Sync {
    /// The worker of this number passes before this turn, counted from 0.
    fn pass(&self, worker: u32, turn: u64);
}

/// A gate that does nothing.
#[derive(Clone, Copy, Debug)]
pub struct NoGate;

impl Gate for NoGate {
    fn pass(&self, _worker: u32, _turn: u64) {}
}
