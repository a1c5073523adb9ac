ghost use Rattle.std.specs.Prelude.{◌≡◌, ◌+◌, ◌<◌, ◌≤◌, ◌^◌, IsTrue, IfSome, false, length};
ghost use Rattle.cnf_core.specs.Literals.{value_of, IsWithin, AreWithin};
ghost use Rattle.cnf_core.specs.Formulas.{IsModel};
ghost use Rattle.local_search.specs.Searches.{IsSearchOf, IsFrozenModel, values_of};
ghost use Rattle.local_search.specs.Tallies.{tally_at};
ghost use Rattle.local_search.specs.Steps.States.{IsState, IsOnward, IsSameButDraws, IsFree, IsHeld};

use crate::draws::below;
use crate::{LocalSearch, Tables};
use cnf_core::{Lit, Values};
use rand_core::utils::NextWord;

/// How often a search flips in vain, since the least number of broken clauses, before it gives up.
const PATIENCE: u32 = 50_000;

/// A clause of more literals has its variable picked by the least number of breaks, and none is drawn.
const MOST_WEIGHED: usize = 64;

/// How a search for a model with frozen literals ended.
#[derive(Clone, Copy, Debug, PartialEq, Eq)]
pub struct Frozen {
    /// Whether the values with which it ended are such a model.
    pub found: bool,
    /// How many visits of its effort it took.
    pub visits: u64,
    /// The least number of broken clauses that it met; `u32::MAX` where it didn't begin.
    pub low: u32,
}

impl LocalSearch {
    /// Searches a model in which the frozen literals are false, from the values of `start` on, in the way of probSAT
    /// (Balint and Schöning 2012): as long as a clause is broken, it draws one, and in it a variable to flip, the
    /// likelier the fewer clauses the flip breaks. Variables that are marked as fixed are never flipped, nor are those
    /// of the frozen literals.
    ///
    /// It ends within its effort, a number of visits: a beginning takes three for each literal of the clauses and two for
    /// each variable, and a flip five, one for each literal of the drawn clause, and one for each clause that has the
    /// variable. It gives up also where the clause has no variable that may be flipped, where frozen and fixed literals
    /// contradict each other, and after 50,000 flips without fewer broken clauses than before. It takes no memory.
    pub fn freeze(
        &mut self,
        tables: &Tables,
        start: &Values,
        fixed: &Values,
        frozen: &[Lit],
        effort: u64,
    ) -> Frozen
        requires sizes { IsSearchOf tables.now self.old }
        requires start { length start.now ≡ tables.now.formula.vars }
        requires fixed { length fixed.now ≡ tables.now.formula.vars }
        requires frozen { AreWithin tables.now.formula.vars frozen.now }
        ensures sizes { IsSearchOf tables.now self.new }
        ensures found { IsTrue result.found
            → IsFrozenModel tables.now.formula start.now fixed.now frozen.now (values_of self.new) }
        ensures effort { result.visits ≤ effort }
        ensures none { effort ≡ 0 → result.found ≡ false }
    {
        let beginning = 3 * u64::from(tables.literals()) + 2 * u64::from(tables.vars());
        if effort <= beginning {
            return given_up(0);
        }
        self.begin(tables, start, fixed);
        if !self.hold_all(frozen) {
            return given_up(beginning);
        }
        self.tally(tables);
        let repaired = self.repair(tables, effort - beginning);
        Frozen {
            found: repaired.found,
            visits: beginning + repaired.visits,
            low: repaired.low,
        }
    }

    /// Makes the literals false and holds their variables, and answers whether it could.
    fn hold_all(&mut self, lits: &[Lit]) -> bool
        requires marks { length self.old.held ≡ length self.old.values }
        requires within { AreWithin (length self.old.values) lits.now }
        ensures counts { self.new.counts ≡ self.old.counts }
        ensures sizes { (length self.new.values ≡ length self.old.values) × (length self.new.held ≡ length self.old.held) }
        ensures held { IsTrue result
            → IsHeld (length self.old.values) self.old.values self.old.held lits.now self.new.held self.new.values }
    {
        for lit in lits {
            if !self.hold(*lit) {
                return false;
            }
        }
        true
    }

    /// Repairs the broken clauses, by flips of variables that aren't held.
    fn repair(&mut self, tables: &Tables, effort: u64) -> Frozen
        requires { IsState tables.now self.old }
        ensures onward { IsOnward tables.now self.old self.new }
        ensures found { IsTrue result.found → IsModel tables.now.formula self.new.values }
        ensures effort { result.visits ≤ effort }
    {
        let mut left = effort;
        let mut low = self.counts.count();
        let mut since = 0;
        while since < PATIENCE {
            if !self.step(tables, &mut left) {
                break;
            }
            since += 1;
            let count = self.counts.count();
            if count < low {
                low = count;
                since = 0;
            }
        }
        Frozen {
            found: self.counts.count() == 0,
            visits: effort - left,
            low,
        }
    }

    /// One flip, where a clause is broken, it has a variable that may be flipped, and the flip costs at most what is left.
    fn step(&mut self, tables: &Tables, left: &mut u64) -> bool
        requires { IsState tables.now self.old }
        ensures onward { IsOnward tables.now self.old self.new }
        ensures less { IsTrue result → left.new < left.old }
        ensures most { left.new ≤ left.old }
    {
        let Some(place) = self.draw_broken() else {
            return false;
        };
        let Some(var) = self.pick(tables.clause(place)) else {
            return false;
        };
        let cost = cost_of(tables, place, var);
        if *left < cost {
            return false;
        }
        *left -= cost;
        self.flip(tables, var);
        true
    }

    /// Draws a broken clause, if there is one.
    pub(crate) fn draw_broken(&mut self) -> Option<u32>
        ensures same { IsSameButDraws self.old self.new }
        ensures broken { IfSome result (λ p. (p < length self.old.counts.tallies) × ((tally_at self.old.counts.tallies p).count ≡ 0)) }
    {
        let word = self.rng.next_word();
        let broken = self.counts.broken();
        if broken.is_empty() {
            return None;
        }
        Some(broken[below(word, broken.len())])
    }

    /// Picks the variable of a clause that is flipped, if one may be.
    fn pick(&mut self, lits: &[Lit]) -> Option<u32>
        requires vars { self.old.counts.vars ≡ length self.old.held }
        requires within { AreWithin (length self.old.held) lits.now }
        ensures same { IsSameButDraws self.old self.new }
        ensures free { IfSome result (IsFree (length self.old.held) self.old.held) }
    {
        if lits.len() > MOST_WEIGHED {
            return self.least(lits);
        }
        let total = self.total(lits);
        if total == 0 {
            return None;
        }
        let drawn = u64::from(self.rng.next_word()) % total;
        self.at_weight(lits, drawn)
    }

    /// The variable with the least number of breaks of those that may be flipped, if there is one.
    fn least(&self, lits: &[Lit]) -> Option<u32>
        requires vars { self.now.counts.vars ≡ length self.now.held }
        requires within { AreWithin (length self.now.held) lits.now }
        ensures { IfSome result (IsFree (length self.now.held) self.now.held) }
    {
        let mut found = None;
        let mut least = u32::MAX;
        for lit in lits {
            let var = lit.var();
            let breaks = self.counts.breaks(var);
            if !self.held.get(var) && breaks < least {
                found = Some(var);
                least = breaks;
            }
        }
        found
    }

    /// The sum of the weights of a clause's variables.
    fn total(&self, lits: &[Lit]) -> u64
        requires vars { self.now.counts.vars ≡ length self.now.held }
        requires within { AreWithin (length self.now.held) lits.now }
        requires few { length lits.now ≤ 64 }
    {
        let mut total = 0;
        for lit in lits {
            total += self.weight(*lit);
        }
        total
    }

    /// The variable at which the sum of the weights so far is more than a number, if there is one.
    fn at_weight(&self, lits: &[Lit], number: u64) -> Option<u32>
        requires vars { self.now.counts.vars ≡ length self.now.held }
        requires within { AreWithin (length self.now.held) lits.now }
        ensures { IfSome result (IsFree (length self.now.held) self.now.held) }
    {
        let mut left = number;
        for lit in lits {
            let weight = self.weight(*lit);
            if left < weight {
                return Some(lit.var());
            }
            left -= weight;
        }
        None
    }

    /// How likely the variable of a literal is flipped; 0 where it may not be.
    #[inline(always)]
    fn weight(&self, lit: Lit) -> u64
        requires vars { self.now.counts.vars ≡ length self.now.held }
        requires within { IsWithin (length self.now.held) lit }
        ensures limit { result < 2 ^ 31 }
        ensures held { IsTrue (value_of self.now.held lit.var) → result ≡ 0 }
    {
        if self.held.get(lit.var()) {
            return 0;
        }
        u64::from(self.weights.of(self.counts.breaks(lit.var())))
    }
}

/// What a search answers that gave up before its first flip.
fn given_up(visits: u64) -> Frozen
    ensures found { result.found ≡ false }
    ensures visits { result.visits ≡ visits }
{
    Frozen {
        found: false,
        visits,
        low: u32::MAX,
    }
}

/// How many visits the flip of a variable takes that was drawn from a clause.
fn cost_of(tables: &Tables, place: u32, var: u32) -> u64
    requires place { place < length tables.now.clauses }
    requires var { (0 < var) × (var ≤ tables.now.formula.vars) }
    ensures { 0 < result }
{
    tables
        .listed(var)
        .saturating_add(tables.clause(place).len() as u64)
        .saturating_add(5)
}
