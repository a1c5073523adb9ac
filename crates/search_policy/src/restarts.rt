ghost use Rattle.std.specs.Prelude.{◌≡◌, ◌≤◌, ◌^◌};
ghost use Rattle.search_policy.specs.Luby.{luby_term, first_restart, is_due, next_restart};

use std::marker::Model;

/// The last place in Luby's sequence at which a search arrives.
const LAST_PLACE: u64 = 1_099_511_627_776;

/// The term of Luby's sequence at a place from 1 to 2^40 (Luby, Sinclair and Zuckerman, 1993).
pub fn luby(i: u64) -> u64
    requires { (1 ≤ i) × (i ≤ 2 ^ 40) }
    ensures value { result ≡ luby_term i }
    ensures bounds { (1 ≤ result) × (result ≤ 2 ^ 40) }
{
    let mut place = i;
    let mut rounds: u32 = 41;
    let mut size = 2 * LAST_PLACE;
    while rounds > 0 {
        rounds -= 1;
        size /= 2;
        if place == 2 * size - 1 {
            return size;
        }
        if place >= size {
            place = place + 1 - size;
        }
    }
    1
}

/// Counts conflicts, and tells when a search restarts: after a hundred times each term of Luby's sequence.
#[derive(Debug, Drop)]
pub struct Restarts {
    place: u64,
    count: u64,
    /// How many conflicts make a restart due.
    limit: u64,
}

impl Model for Restarts {
    ghost use Rattle.std.specs.Prelude.{◌≡◌, ◌≤◌, ◌<◌, ◌*◌, ◌^◌};
    ghost use Rattle.search_policy.specs.Luby.{RestartState, luby_term};

    ghost Value = { RestartState };

    ghost view = { λ r. record { place = r.place; count = r.count } };

    ghost invariant = { λ r. (r.limit ≡ 100 * luby_term r.place) × (r.count < r.limit) × (1 ≤ r.place)
        × (r.place ≤ 2 ^ 40) × (r.limit ≤ 100 * 2 ^ 40) };
}

impl Restarts {
    /// Restarts of a search without conflicts.
    pub fn new() -> Restarts
        ensures { result ≡ first_restart }
    {
        Restarts {
            place: 1,
            count: 0,
            limit: 100,
        }
    }

    /// Counts a conflict, and tells whether the search restarts: whether the conflicts since the last restart
    /// have reached a hundred times the present term. Then the next term comes; the place stays at 2^40.
    pub fn due(&mut self) -> bool
        ensures value { result ≡ is_due self.old }
        ensures next { self.new ≡ next_restart self.old }
    {
        self.count += 1;
        if self.count < self.limit {
            return false;
        }
        self.count = 0;
        self.place = (self.place + 1).min(LAST_PLACE);
        self.limit = 100 * luby(self.place);
        true
    }
}
