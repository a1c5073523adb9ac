//! Dropping candidates by a model.
ghost use Rattle.std.specs.Prelude.{◌≡◌, ◌↔◌, ◌+◌, ◌^◌, ◌<◌, ◌≤◌, ◌++◌, length, OnOk, OnErr, IsTrue, not, map};
ghost use Rattle.cnf_core.specs.Literals.{value_of};
ghost use Rattle.cnf_core.specs.Formulas.{IsModel};
ghost use Rattle.board_core.specs.Subjects.{groups};
ghost use Rattle.board_core.specs.Words.{vars_of};
ghost use Rattle.candidate_words.specs.Seats.{Sits};
ghost use Rattle.model_check.specs.Flips.{flipped};
ghost use Rattle.model_store.specs.Stores.{with_model};
ghost use Rattle.worker_loop.specs.Evidence.{IsSettled};
ghost use Rattle.worker_loop.specs.Steps.Held.{IsPost};
ghost use Rattle.worker_loop.specs.Steps.Moves.{IsLoaded, IsOnward, IsDropped};
ghost use Rattle.worker_loop.specs.Steps.Dropping.{HasCandidates, AreAgainst, KeepPhases, AreTriedBy, CanBeTried, AreFree, AreWitnessed, AreBitsClosed, IsSameButSeat, IsSameButMarks, IsStoredAt, HasDroppedIn, HasDroppedAll, IsKeepingAt, source_at, witness_of};
ghost use Rattle.std.specs.Vec.{vec_len, vec_capacity};

use crate::masks::{has_bit, open_bits};
use crate::post::Post;
use candidate_words::Words;
use cnf_core::{NoMemory, Values};
use flip_literals::critical;
use model_store::Witness;

/// How the flips of single variables in a model are tried.
#[derive(Clone, Copy, Debug, PartialEq, Eq)]
pub(crate) enum Flips {
    /// No flip of an open candidate is a model.
    None,
    /// By the marks of the variables that the model can't do without.
    Marked,
    /// By the occurrences of each candidate.
    Listed,
}

/// Where the witnesses of drops point to.
#[derive(Clone, Copy, Debug)]
struct Source {
    model: u32,
    flip: bool,
}

impl Source {
    /// A stored model by its place, as it stands or with the dropped variable flipped.
    fn of(place: u32, flip: bool) -> Source
        ensures { result ≡ source_at place flip }
    {
        Source { model: place, flip }
    }
}

impl<'f, 'r> Post<'f, 'r> {
    /// Stores a model, and drops the open candidates to which it gives the value opposite to their phases, and those
    /// whose flip alone is a model. Without memory nothing was dropped.
    pub fn absorb(&mut self, words: &Words, model: &Values, flips: Flips) -> Result<(), NoMemory>
        requires post { IsPost self.old }
        requires sits { Sits words.now self.old.seat }
        requires copied { IsLoaded self.old }
        requires model { IsModel self.old.question.now.formula model.now }
        requires room { length self.old.models.models < 2 ^ 26 }
        requires flips { AreTriedBy flips self.old model.now }
        ensures post { IsPost self.new }
        ensures sits { Sits words.now self.new.seat }
        ensures onward { IsOnward self.old self.new }
        ensures solver { self.new.solver ≡ self.old.solver }
        ensures stored { OnOk result (self.new.models ≡ with_model self.old.models model.now) }
        ensures dropped { OnOk result (IsDropped self.old model.now self.new) }
        ensures keeping { OnOk result (IsKeepingAt self.old.models self.new) }
        ensures settled { OnOk result (IsSettled self.old.question.now self.old.seat.view self.old.models
            → IsSettled self.new.question.now self.new.seat.view self.new.models) }
        ensures err { OnErr result ((self.new.models ≡ self.old.models) × (self.new.seat ≡ self.old.seat)) }
        ensures kept { OnErr result (self.new.drops ≡ self.old.drops) }
    {
        let place = self.models.push(model)?;
        self.make_ready(model, flips);
        self.drop_all(words, model, place, flips);
        Ok(())
    }

    /// Marks the variables that the model can't do without, where the flips are tried by the marks.
    fn make_ready(&mut self, model: &Values, flips: Flips)
        requires post { IsPost self.old }
        requires model { IsModel self.old.question.now.formula model.now }
        requires flips { AreTriedBy flips self.old model.now }
        ensures post { IsPost self.new }
        ensures same { IsSameButMarks self.old self.new }
        ensures flips { CanBeTried flips self.new model.now }
    {
        match flips {
            Flips::None | Flips::Listed => {}
            Flips::Marked => critical(self.question.formula(), model, &mut self.marks),
        }
    }

    /// Drops candidates of all groups by a stored model.
    fn drop_all(&mut self, words: &Words, model: &Values, place: u32, flips: Flips)
        requires post { IsPost self.old }
        requires sits { Sits words.now self.old.seat }
        requires copied { IsLoaded self.old }
        requires model { IsModel self.old.question.now.formula model.now }
        requires stored { IsStoredAt self.old.models place model.now }
        requires flips { CanBeTried flips self.old model.now }
        ensures post { IsPost self.new }
        ensures sits { Sits words.now self.new.seat }
        ensures onward { IsOnward self.old self.new }
        ensures rest { IsSameButSeat self.old self.new }
        ensures dropped { HasDroppedAll self.old model.now self.new }
    {
        for group in 0..self.loaded.len() {
            self.drop_in(words, group as u32, model, place, flips);
        }
    }

    /// Drops candidates of a group by a stored model.
    fn drop_in(&mut self, words: &Words, group: u32, model: &Values, place: u32, flips: Flips)
        requires post { IsPost self.old }
        requires sits { Sits words.now self.old.seat }
        requires copied { IsLoaded self.old }
        requires group { group < groups self.old.question.now.formula.vars }
        requires model { IsModel self.old.question.now.formula model.now }
        requires stored { IsStoredAt self.old.models place model.now }
        requires flips { CanBeTried flips self.old model.now }
        ensures post { IsPost self.new }
        ensures sits { Sits words.now self.new.seat }
        ensures onward { IsOnward self.old self.new }
        ensures rest { IsSameButSeat self.old self.new }
        ensures dropped { HasDroppedIn self.old model.now group self.new }
    {
        let open = open_bits(self.loaded[group as usize]);
        if open == 0 {
            return;
        }
        let against = self.against_bits(group, open, model);
        self.drop_mask(words, group, against, Source::of(place, false));
        let kept = open & !against;
        let free = self.free_bits(group, kept, model, flips);
        self.drop_mask(words, group, free, Source::of(place, true));
    }

    /// Those of the group's open variables to which the model gives the value opposite to their phases.
    fn against_bits(&self, group: u32, among: u32, model: &Values) -> u32
        requires post { IsPost self.now }
        requires among { HasCandidates self.now.question.now group among }
        requires model { length model.now ≡ self.now.question.now.formula.vars }
        ensures { AreAgainst self.now.question.now model.now group among result }
    {
        let mut against = 0;
        for bit in 0..32 {
            if has_bit(among, bit) && self.is_against(model, 32 * group + bit + 1) {
                against |= 1 << bit;
            }
        }
        against
    }

    /// Whether the model gives the variable the value opposite to its phase.
    pub fn is_against(&self, model: &Values, var: u32) -> bool
        requires post { IsPost self.now }
        requires var { (0 < var) × (var ≤ self.now.question.now.formula.vars) }
        requires model { length model.now ≡ self.now.question.now.formula.vars }
        ensures { IsTrue result ↔ (value_of model.now var ≡ not (value_of self.now.question.now.phases var)) }
    {
        model.get(var) != self.question.phase(var)
    }

    /// Those of the group's variables, which keep their phases in the model, whose flip alone is a model.
    fn free_bits(&self, group: u32, kept: u32, model: &Values, flips: Flips) -> u32
        requires post { IsPost self.now }
        requires kept { HasCandidates self.now.question.now group kept }
        requires phases { KeepPhases self.now.question.now model.now group kept }
        requires model { IsModel self.now.question.now.formula model.now }
        requires flips { CanBeTried flips self.now model.now }
        ensures { AreFree self.now model.now group kept result }
    {
        if flips == Flips::None {
            return 0;
        }
        let mut free = 0;
        for bit in 0..32 {
            if has_bit(kept, bit) && self.is_free(model, 32 * group + bit + 1, flips) {
                free |= 1 << bit;
            }
        }
        free
    }

    /// Whether the model with the variable flipped is a model.
    fn is_free(&self, model: &Values, var: u32, flips: Flips) -> bool
        requires post { IsPost self.now }
        requires var { (0 < var) × (var ≤ self.now.question.now.formula.vars) }
        requires kept { value_of model.now var ≡ value_of self.now.question.now.phases var }
        requires model { IsModel self.now.question.now.formula model.now }
        requires flips { CanBeTried flips self.now model.now }
        ensures { IsTrue result ↔ IsModel self.now.question.now.formula (flipped model.now var) }
    {
        match flips {
            Flips::Marked => !self.marks.is(var),
            Flips::None | Flips::Listed => !self.question.is_critical(model, var),
        }
    }

    /// Drops the mask's variables, each of which the source is against, and records those that this worker was the
    /// first to drop.
    fn drop_mask(&mut self, words: &Words, group: u32, mask: u32, source: Source)
        requires post { IsPost self.old }
        requires sits { Sits words.now self.old.seat }
        requires group { group < groups self.old.question.now.formula.vars }
        requires mask { AreWitnessed self.old group mask source }
        ensures post { IsPost self.new }
        ensures sits { Sits words.now self.new.seat }
        ensures onward { IsOnward self.old self.new }
        ensures rest { IsSameButSeat self.old self.new }
        ensures dropped { AreBitsClosed self.new group mask }
    {
        if mask == 0 {
            return;
        }
        let won = words.drop_bits(&mut self.seat, group, mask);
        record_drops(&mut self.drops, group, won, source);
    }
}

/// Records the drops of a group's variables, with the witness that the source gives each.
fn record_drops(drops: &mut Vec<Witness>, group: u32, won: u32, source: Source)
    requires group { group < 2 ^ 15 }
    requires room { vec_len drops.old + length (vars_of group won) ≤ vec_capacity drops.old }
    ensures items { drops.new.items ≡ drops.old.items ++ map (witness_of source) (vars_of group won) }
    ensures room { vec_capacity drops.old ≤ vec_capacity drops.new }
{
    for bit in 0..32 {
        if has_bit(won, bit) {
            drops.push_reserved(Witness {
                var: 32 * group + bit + 1,
                model: source.model,
                flip: source.flip,
            });
        }
    }
}
