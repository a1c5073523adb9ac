ghost use Rattle.std.specs.Prelude.{◌≡◌, ◌<◌, ◌≤◌, ◌^◌, IfOk, IfSome, length};
ghost use Rattle.cnf_core.specs.Literals.{AreWithin, IsWithin};
ghost use Rattle.local_search.specs.Steps.States.{IsFree};
ghost use Rattle.local_search.specs.Scored.{IsScored};
ghost use Rattle.local_search.specs.Steps.Scored.{sizes};

use crate::Tables;
use crate::counts::Counts;
use crate::draws::below;
use crate::spots::NumberSet;
use cnf_core::{Lit, NoMemory, Values};
use rand_core::utils::NextWord;
use rand_pcg::Pcg32;
use std::alloc::Global;
use std::marker::Model;

/// How much weight a clause gains each time that no flip helps and it is broken.
const HARD_STEP: u32 = 3;

/// The most weight of a wish.
const MOST_SOFT: u32 = 10;

/// How many of the variables with a good score are looked at for a flip.
const LOOKED_AT: usize = 15;

/// What a descent knows of each clause and each variable: the weights, the weight that each flip saves, and which flips
/// save some. No answer rests on it.
#[derive(Debug, Drop)]
pub(crate) struct Scores {
    /// The weight of each clause.
    hard: Vec<u32>,
    /// The weight of each variable's wish; 0 where it has none.
    soft: Vec<u32>,
    /// The value that each variable is to have, where it has a wish.
    wished: Vec<bool>,
    /// How much weight each variable's flip saves.
    saved: Vec<i64>,
    /// When each variable was flipped last.
    flipped: Vec<u64>,
    /// Which variables may be flipped and save weight, each less one.
    good: NumberSet,
    /// Which variables don't have the value that they are to have, each less one.
    unwon: NumberSet,
}

impl Model for Scores {
    ghost use Rattle.local_search.specs.Scored.{Sizes};
    ghost use Rattle.local_search.specs.Steps.Scored.{AreScores, sizes};
    ghost use Rattle.std.specs.Prelude.{length};

    ghost Value = { Sizes };

    ghost view = { λ s. sizes (length s.saved.items) (length s.hard.items) };

    ghost invariant = { λ s.
        AreScores (length s.saved.items) s.soft.items s.wished.items s.flipped.items s.good s.unwon };
}

impl Scores {
    /// Scores for so many clauses over so many variables.
    pub(crate) fn new(alloc: Global, clauses: u32, vars: u32) -> Result<Scores, NoMemory>
        requires { vars ≤ 2 ^ 20 }
        ensures { IfOk result (λ s. s ≡ sizes vars clauses) }
    {
        Ok(Scores {
            hard: vec![in alloc; 1u32; clauses as usize]?,
            soft: vec![in alloc; 0u32; vars as usize]?,
            wished: vec![in alloc; false; vars as usize]?,
            saved: vec![in alloc; 0i64; vars as usize]?,
            flipped: vec![in alloc; 0u64; vars as usize]?,
            good: NumberSet::new(alloc, vars)?,
            unwon: NumberSet::new(alloc, vars)?,
        })
    }

    /// Forgets all wishes and weights.
    pub(crate) fn begin(&mut self)
        ensures { self.new ≡ self.old }
    {
        self.hard.fill(1);
        self.soft.fill(0);
        self.saved.fill(0);
        self.flipped.fill(0);
        self.good.clear();
        self.unwon.clear();
    }

    /// How many wishes aren't won.
    pub(crate) fn unwon(&self) -> usize {
        self.unwon.members().len()
    }

    /// Wishes a literal to be true.
    pub(crate) fn wish(&mut self, lit: Lit, values: &Values, held: &Values)
        requires lit { IsWithin self.old.vars lit }
        requires values { length values.now ≡ self.old.vars }
        requires held { length held.now ≡ self.old.vars }
        ensures { self.new ≡ self.old }
    {
        let at = lit.var() as usize - 1;
        if self.soft[at] > 0 || held.get(lit.var()) {
            return;
        }
        self.soft[at] = 1;
        self.wished[at] = lit.positive();
        let unwon = values.get(lit.var()) != lit.positive();
        self.unwon.put(lit.var() - 1, unwon);
        self.add(lit.var(), if unwon { 1 } else { -1 }, held);
    }

    /// Takes into account which clauses rest on one variable, where none is broken.
    pub(crate) fn rest(&mut self, tables: &Tables, counts: &Counts, held: &Values)
        requires scored { IsScored tables.now self.old }
        requires counts { length counts.now.tallies ≡ length tables.now.clauses }
        requires held { length held.now ≡ self.old.vars }
        ensures { self.new ≡ self.old }
    {
        for place in 0..tables.len() as u32 {
            let tally = counts.tally(place);
            if tally.count == 1 {
                self.add_sum(tally.sum, -1, held);
            }
        }
    }

    /// Takes a flip into account, by which one literal became false and its negation true. Answers how many literals of
    /// clauses had their scores changed.
    pub(crate) fn flipped(
        &mut self,
        tables: &Tables,
        counts: &Counts,
        held: &Values,
        lost: Lit,
        time: u64,
    ) -> u64
        requires scored { IsScored tables.now self.old }
        requires counts { length counts.now.tallies ≡ length tables.now.clauses }
        requires held { length held.now ≡ self.old.vars }
        requires lost { IsWithin self.old.vars lost }
        ensures { self.new ≡ self.old }
    {
        let at = lost.var() as usize - 1;
        let saved = self.saved[at];
        let fewer = self.lost(tables, counts, held, lost);
        let more = self.won(tables, counts, held, lost.negated());
        self.flipped[at] = time;
        self.score(lost.var(), saved.saturating_neg(), held);
        if self.soft[at] > 0 {
            let unwon = lost.positive() == self.wished[at];
            self.unwon.put(lost.var() - 1, unwon);
        }
        fewer.saturating_add(more)
    }

    /// The weight of the clause at a place.
    #[inline(always)]
    fn weight(&self, place: u32) -> i64
        requires { place < self.now.clauses }
    {
        i64::from(self.hard[place as usize])
    }

    /// The clauses that lost a true literal.
    fn lost(&mut self, tables: &Tables, counts: &Counts, held: &Values, lit: Lit) -> u64
        requires scored { IsScored tables.now self.old }
        requires counts { length counts.now.tallies ≡ length tables.now.clauses }
        requires held { length held.now ≡ self.old.vars }
        requires lit { IsWithin self.old.vars lit }
        ensures { self.new ≡ self.old }
    {
        let mut changes = 0u64;
        for place in tables.places(lit) {
            let tally = counts.tally(*place);
            if tally.count > 1 {
                continue;
            }
            let weight = self.weight(*place);
            if tally.count == 0 {
                let lits = tables.clause(*place);
                changes = changes.saturating_add(lits.len() as u64);
                self.add_all(lits, weight, held);
            } else {
                self.add_sum(tally.sum, weight.saturating_neg(), held);
            }
        }
        changes
    }

    /// The clauses that won a true literal.
    fn won(&mut self, tables: &Tables, counts: &Counts, held: &Values, lit: Lit) -> u64
        requires scored { IsScored tables.now self.old }
        requires counts { length counts.now.tallies ≡ length tables.now.clauses }
        requires held { length held.now ≡ self.old.vars }
        requires lit { IsWithin self.old.vars lit }
        ensures { self.new ≡ self.old }
    {
        let mut changes = 0u64;
        for place in tables.places(lit) {
            let tally = counts.tally(*place);
            if tally.count > 2 {
                continue;
            }
            let weight = self.weight(*place);
            if tally.count == 1 {
                let lits = tables.clause(*place);
                changes = changes.saturating_add(lits.len() as u64);
                self.add_all(lits, weight.saturating_neg(), held);
            } else if tally.count == 2 {
                self.add_sum(tally.sum.saturating_sub(u64::from(lit.var())), weight, held);
            }
        }
        changes
    }

    /// Adds weight to each clause that is broken, as far as the visits go: one for each of its literals. Answers how many
    /// visits are left.
    pub(crate) fn raise_hard(
        &mut self,
        tables: &Tables,
        counts: &Counts,
        held: &Values,
        visits: u64,
    ) -> u64
        requires scored { IsScored tables.now self.old }
        requires counts { length counts.now.tallies ≡ length tables.now.clauses }
        requires held { length held.now ≡ self.old.vars }
        ensures same { self.new ≡ self.old }
        ensures most { result ≤ visits }
    {
        let mut left = visits;
        for place in counts.broken() {
            let lits = tables.clause(*place);
            let cost = lits.len() as u64;
            if left < cost {
                return left;
            }
            left -= cost;
            let weight = self.hard[*place as usize].saturating_add(HARD_STEP);
            self.hard[*place as usize] = weight;
            self.add_all(lits, i64::from(HARD_STEP), held);
        }
        left
    }

    /// Adds weight to each wish that isn't won, as far as the visits go, one for each. Answers how many are left.
    pub(crate) fn raise_soft(&mut self, held: &Values, visits: u64) -> u64
        requires held { length held.now ≡ self.old.vars }
        ensures same { self.new ≡ self.old }
        ensures most { result ≤ visits }
    {
        let mut left = visits;
        for place in 0..self.unwon.members().len() {
            if left == 0 {
                return left;
            }
            left -= 1;
            if let Some(at) = self.unwon.get(place) {
                self.raise_wish(at + 1, held);
            }
        }
        left
    }

    /// Adds weight to the wish of a variable.
    fn raise_wish(&mut self, var: u32, held: &Values)
        requires var { (0 < var) × (var ≤ self.old.vars) }
        requires held { length held.now ≡ self.old.vars }
        ensures { self.new ≡ self.old }
    {
        let weight = self.soft[var as usize - 1];
        if weight < MOST_SOFT {
            self.soft[var as usize - 1] = weight + 1;
            self.add(var, 1, held);
        }
    }

    /// Adds to the score of a variable.
    #[inline(always)]
    fn add(&mut self, var: u32, by: i64, held: &Values)
        requires var { (0 < var) × (var ≤ self.old.vars) }
        requires held { length held.now ≡ self.old.vars }
        ensures { self.new ≡ self.old }
    {
        let saved = self.saved[var as usize - 1].saturating_add(by);
        self.score(var, saved, held);
    }

    /// Gives a variable its score. A flip that may be made is good just where it saves weight, so that nothing else is
    /// read where that stays.
    #[inline(always)]
    fn score(&mut self, var: u32, saved: i64, held: &Values)
        requires var { (0 < var) × (var ≤ self.old.vars) }
        requires held { length held.now ≡ self.old.vars }
        ensures { self.new ≡ self.old }
    {
        let at = var as usize - 1;
        let was = self.saved[at] > 0;
        self.saved[at] = saved;
        if was == (saved > 0) {
            return;
        }
        self.good.put(var - 1, !was && !held.get(var));
    }

    /// Adds to the score of the variable that is the sum of a clause's true ones.
    #[inline(always)]
    fn add_sum(&mut self, sum: u64, by: i64, held: &Values)
        requires held { length held.now ≡ self.old.vars }
        ensures { self.new ≡ self.old }
    {
        if 0 < sum && sum <= u64::from(held.len()) {
            self.add(sum as u32, by, held);
        }
    }

    /// Adds to the scores of a clause's variables.
    fn add_all(&mut self, lits: &[Lit], by: i64, held: &Values)
        requires lits { AreWithin self.old.vars lits.now }
        requires held { length held.now ≡ self.old.vars }
        ensures { self.new ≡ self.old }
    {
        for lit in lits {
            self.add(lit.var(), by, held);
        }
    }

    /// The best of some variables whose flip saves weight, which are drawn; of all where they are few.
    pub(crate) fn best_good(&self, rng: &mut Pcg32, held: &Values) -> Option<u32>
        requires held { length held.now ≡ self.now.vars }
        ensures { IfSome result (IsFree self.now.vars held.now) }
    {
        let members = self.good.members();
        let mut best = None;
        for place in 0..members.len().min(LOOKED_AT) {
            let at = if members.len() > LOOKED_AT {
                below(rng.next_word(), members.len())
            } else {
                place
            };
            best = self.better(best, members[at] + 1, held);
        }
        best
    }

    /// The best of a clause's variables, if one may be flipped.
    pub(crate) fn best_of(&self, lits: &[Lit], held: &Values) -> Option<u32>
        requires lits { AreWithin self.now.vars lits.now }
        requires held { length held.now ≡ self.now.vars }
        ensures { IfSome result (IsFree self.now.vars held.now) }
    {
        let mut best = None;
        for lit in lits {
            best = self.better(best, lit.var(), held);
        }
        best
    }

    /// One of the variables whose wish isn't won, by a word.
    pub(crate) fn unwon_at(&self, word: u32, held: &Values) -> Option<u32>
        requires held { length held.now ≡ self.now.vars }
        ensures { IfSome result (IsFree self.now.vars held.now) }
    {
        let members = self.unwon.members();
        if members.is_empty() {
            return None;
        }
        self.better(None, members[below(word, members.len())] + 1, held)
    }

    /// The variable, where it may be flipped and is better than the best so far, and otherwise that one: more weight is
    /// better, and of as much weight the flip that was longer ago.
    #[inline(always)]
    fn better(&self, best: Option<u32>, var: u32, held: &Values) -> Option<u32>
        requires best { IfSome best (IsFree self.now.vars held.now) }
        requires var { (0 < var) × (var ≤ self.now.vars) }
        requires held { length held.now ≡ self.now.vars }
        ensures { IfSome result (IsFree self.now.vars held.now) }
    {
        if held.get(var) {
            return best;
        }
        match best {
            Some(other) if !self.beats(var, other) => Some(other),
            _ => Some(var),
        }
    }

    /// Whether a variable is better than another one.
    #[inline(always)]
    fn beats(&self, var: u32, other: u32) -> bool
        requires var { (0 < var) × (var ≤ self.now.vars) }
        requires other { (0 < other) × (other ≤ self.now.vars) }
    {
        let (own, others) = (self.saved[var as usize - 1], self.saved[other as usize - 1]);
        own > others
            || own == others && self.flipped[var as usize - 1] < self.flipped[other as usize - 1]
    }
}
