//! The literals that one worker has fixed, handed over to the others by stamps.
//!
//! The table of candidates has an origin word for each variable. A worker that has fixed a variable publishes it
//! with a stamp, and another that finds the stamp may take the variable's phase literal for entailed.
#![tactic(auto)]

ghost use Rattle.std.specs.Prelude.{◌≡◌, ℕ, ◌<◌, ◌≤◌, Some, IfSome};
ghost use Rattle.board_core.specs.Boards.{MayPublish, publish_view, origin_view};
ghost use Rattle.board_core.specs.Rules.{IsOnce};
ghost use Rattle.candidate_words.specs.Seats.{Sits, with_view};
ghost use Rattle.shared_fixed.specs.Stamps.{HasAskedStamp, TellsStamp};

use candidate_words::{Seat, Words};

#[cfg(test)]
mod tests;

/// Publishes a variable that the seat has fixed and not published: the event Publish, by one fetch-or. The stamp is
/// at least 1 and at most 1 above the greatest stamp that the seat has imported, which counts as 0 where there
/// is none.
pub fn publish(words: &Words, seat: &mut Seat, var: u32, stamp: u32)
    requires seat { Sits words.now seat.old }
    requires publishes { MayPublish seat.old.view var stamp }
    ensures published { seat.new ≡ with_view seat.old (publish_view var stamp seat.old.view) }
    ensures sits { Sits words.now seat.new }
    ensures once { IsOnce words.now.about seat.new.view }
{
    words.origin_or(seat, var, u64::from(stamp) + 1);
}

/// The stamp with which one of the variables was published: the event Origin, by one load. None only where this
/// load read 0. A stamp is from 1 to the number of variables, and tells that the formula entails the variable's
/// phase literal.
pub fn origin(words: &Words, seat: &mut Seat, var: u32) -> Option<u32>
    requires seat { Sits words.now seat.old }
    requires var { (0 < var) × (var ≤ words.now.about.formula.vars) }
    ensures asked { HasAskedStamp seat.old var result seat.new }
    ensures stamp { IfSome result (λ stamp. TellsStamp words.now.about var stamp) }
    ensures sits { Sits words.now seat.new }
    ensures once { IsOnce words.now.about seat.new.view }
{
    match words.origin_load(seat, var) {
        0 => None,
        word => Some((word - 1) as u32),
    }
}
