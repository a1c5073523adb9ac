ghost use Rattle.std.specs.Prelude.{◌≡◌};

use std::marker::Model;

/// A reference to a clause of an arena: its place there, from 0. It stays valid until the arena is
/// compacted.
#[derive(Clone, Copy, Debug, PartialEq, Eq, PartialOrd, Ord, Hash)]
pub struct ClauseRef {
    place: u32,
}

impl Model for ClauseRef {
    ghost use Rattle.std.specs.Prelude.{ℕ};

    ghost Value = { ℕ };

    ghost view = { λ r. r.place };

    ghost inverse = { λ n. record { place = n } };
}

impl ClauseRef {
    /// The reference to the clause at this place.
    #[inline(always)]
    pub fn at(place: u32) -> ClauseRef
        ensures { result ≡ place }
    {
        ClauseRef { place }
    }

    /// The place.
    #[inline(always)]
    pub fn place(self) -> u32
        ensures { result ≡ self }
    {
        self.place
    }
}
