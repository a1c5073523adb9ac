ghost use Rattle.std.specs.Prelude.{◌≡◌};
ghost use Rattle.clause_arena.specs.Entries.{move_of};
ghost use Rattle.clause_arena.specs.Steps.Sinking.{moves_of};

use crate::ClauseRef;
use std::marker::Model;

/// Where each clause of an arena went when the arena was compacted.
#[derive(Debug, Drop)]
pub struct Moves {
    /// So many first clauses stayed where they were.
    stayed: u32,
    /// Where those behind them went.
    to: Vec<Option<ClauseRef>>,
}

impl Model for Moves {
    ghost use Rattle.std.specs.Prelude.{ℕ, List, Option};
    ghost use Rattle.clause_arena.specs.Steps.Sinking.{moves_of};

    ghost Value = { List (Option ℕ) };

    ghost view = { λ m. moves_of m.stayed m.to.items };
}

impl Moves {
    /// The moves of an arena whose first clauses stayed, and the others went where a list says.
    pub(crate) fn new(stayed: u32, to: Vec<Option<ClauseRef>>) -> Moves
        ensures { result ≡ moves_of stayed to.items }
    {
        Moves { stayed, to }
    }

    /// The new reference of a clause; none exactly where it wasn't live.
    #[inline(always)]
    pub fn to(&self, old: ClauseRef) -> Option<ClauseRef>
        ensures { result ≡ move_of self.now old }
    {
        if old.place() < self.stayed {
            return Some(old);
        }
        move_at(&self.to, (old.place() - self.stayed) as usize)
    }
}

/// The move at this place of a list, none past its end.
#[inline(always)]
fn move_at(to: &Vec<Option<ClauseRef>>, place: usize) -> Option<ClauseRef>
    ensures { result ≡ move_of to.now.items place }
{
    to.get(place).copied().flatten()
}
