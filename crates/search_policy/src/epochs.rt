ghost use Rattle.std.specs.Prelude.{◌≡◌, ◌↔◌, ◌^◌, ◌+◌, ◌<◌, IsTrue};
ghost use Rattle.search_policy.specs.Epochs.{first_epoch, ends, next_clause, IsInEpoch, IsEnd};

use std::marker::Model;

/// Counts the clauses that a query learns, and tells where its epochs end: behind 1,000, 3,000, 7,000 clauses and so
/// on, as each epoch is twice as long as the one before.
#[derive(Debug, Drop)]
pub struct Epochs {
    count: u64,
    epoch: u64,
    /// How many clauses there are at the end of the epoch.
    end: u64,
}

impl Model for Epochs {
    ghost use Rattle.std.specs.Prelude.{◌≡◌, ◌≤◌, suc};
    ghost use Rattle.cnf_core.specs.Epochs.{epoch_start};
    ghost use Rattle.search_policy.specs.Epochs.{EpochState, IsInEpoch};

    ghost Value = { EpochState };

    ghost view = { λ e. record { epoch = e.epoch; count = e.count } };

    ghost invariant = { λ e. (e.end ≡ epoch_start (suc e.epoch)) × (e.epoch ≤ e.count)
        × IsInEpoch (record { epoch = e.epoch; count = e.count }) };
}

impl Epochs {
    /// Epochs of a query that has learnt nothing.
    pub fn new() -> Epochs
        ensures { result ≡ first_epoch }
    {
        Epochs {
            count: 0,
            epoch: 0,
            end: 1000,
        }
    }

    /// Begins anew, for another query.
    pub fn begin(&mut self)
        ensures { self.new ≡ first_epoch }
    {
        *self = Epochs::new();
    }

    /// Counts a clause that was learnt, and tells whether it was the last one of its epoch. Fewer than 2^40 were
    /// counted before.
    pub fn due(&mut self) -> bool
        requires { self.old.count < 2 ^ 40 }
        ensures exact { IsTrue result ↔ IsEnd (self.old.count + 1) }
        ensures value { result ≡ ends self.old }
        ensures next { self.new ≡ next_clause self.old }
        ensures epoch { IsInEpoch self.new }
    {
        self.count += 1;
        if self.count < self.end {
            return false;
        }
        self.epoch += 1;
        self.end = 2 * self.end + 1000;
        true
    }
}
