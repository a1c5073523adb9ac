ghost use Rattle.std.specs.Prelude.{◌≡◌, ◌<◌, ◌^◌};
ghost use Rattle.watch_lists.specs.Moving.{GoDown, moved_watch};

use clause_arena::{ClauseRef, Moves};
use cnf_core::Lit;
use std::marker::Model;

/// How many places a watch can name: 2^31.
pub const PLACES: u32 = 1 << 31;

/// A clause that watches a literal, with another of its literals, the blocker (Chu, Harwood and Stuckey,
/// 2009): where the blocker is true, there is no need to look at the clause. A watch also says whether the
/// clause has just these two literals, and then there is never a need.
///
/// It has 8 bytes, since propagation spends its time on lists of watches and on clauses.
#[derive(Clone, Copy, Debug)]
pub struct Watch {
    /// The clause's place, and 2^31 more where the clause has just two literals.
    code: u32,
    blocker: Lit,
}

impl Model for Watch {
    ghost use Rattle.std.specs.Prelude.{ℕ, ◌<◌, ◌^◌};
    ghost use Rattle.std.proofs.Common.{ap};
    ghost use Rattle.watch_lists.specs.Watchers.{Watcher};
    ghost use Rattle.watch_lists.specs.Steps.Packed.{watcher_of_code, watcher_code, watcher_code-of_code};

    ghost Value = { Watcher };

    ghost view = { λ w. watcher_of_code w.code w.blocker };

    ghost invariant = { λ w. w.code < 2 ^ 32 };

    ghost inverse = { λ x. record { code = watcher_code x; blocker = x.blocker } };

    ghost inverse_ok = { λ w h. ap (λ c. record { code = c; blocker = w.blocker }) (watcher_code-of_code w.code w.blocker h) };
}

impl Watch {
    /// A watch of a clause whose place is below 2^31.
    #[inline(always)]
    pub fn new(clause: ClauseRef, blocker: Lit, binary: bool) -> Watch
        requires { clause < 2 ^ 31 }
        ensures { result ≡ record { clause = clause; blocker = blocker; binary = binary } }
    {
        let mark = if binary { PLACES } else { 0 };
        Watch {
            code: clause.place() + mark,
            blocker,
        }
    }

    /// Its clause.
    #[inline(always)]
    pub fn clause(self) -> ClauseRef
        ensures value { result ≡ self.clause }
        ensures range { result < 2 ^ 31 }
    {
        ClauseRef::at(self.code % PLACES)
    }

    /// Another literal of the clause than the watched one.
    #[inline(always)]
    pub fn blocker(self) -> Lit
        ensures { result ≡ self.blocker }
    {
        self.blocker
    }

    /// Whether the clause has just two literals.
    #[inline(always)]
    pub fn is_binary(self) -> bool
        ensures { result ≡ self.binary }
    {
        self.code >= PLACES
    }

    /// The watch with its clause's new place, if the clause stays.
    #[inline(always)]
    pub fn moved(self, moves: &Moves) -> Option<Watch>
        requires { GoDown moves.now }
        ensures { result ≡ moved_watch moves.now self }
    {
        let Some(clause) = moves.to(self.clause()) else {
            return None;
        };
        Some(Watch::new(clause, self.blocker(), self.is_binary()))
    }
}
