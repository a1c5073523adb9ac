ghost use Rattle.std.specs.Prelude.{◌≡◌, ◌+◌, ◌<◌, ◌≤◌, ◌^◌, ℕ, IfOk, IsTrue, length};
ghost use Rattle.cnf_core.specs.Literals.{value_of, IsWithin, AreWithin};
ghost use Rattle.model_check.specs.Flips.{flipped};
ghost use Rattle.local_search.specs.Cleaned.{IsTabled};
ghost use Rattle.local_search.specs.Tallies.{true_count, true_sum};
ghost use Rattle.local_search.specs.Searches.{IsSearchOf, values_of};
ghost use Rattle.local_search.specs.Steps.States.{IsState, IsOnward, IsFree, Keeps, AddsPlaces, CanLower, CanRaise, HoldsToo};

use crate::Tables;
use crate::counts::{Counts, Tally};
use crate::weights::Weights;
use cnf_core::{Lit, NoMemory, Values};
use model_check::is_true;
use rand_core::SeedableRng;
use rand_core::utils::NextWord;
use rand_pcg::Pcg32;
use std::alloc::Global;

/// What a search over the tables of a formula remembers. It is made once, with all its memory, and used for any number
/// of searches.
#[derive(Drop)]
pub struct LocalSearch {
    pub(crate) values: Values,
    /// Which variables are never flipped.
    pub(crate) held: Values,
    pub(crate) counts: Counts,
    pub(crate) weights: Weights,
    pub(crate) rng: Pcg32,
}

impl LocalSearch {
    /// A search over these tables, whose draws are those of the generator PCG32 (O'Neill 2014) from this seed on.
    pub fn new(alloc: Global, tables: &Tables, seed: u64) -> Result<LocalSearch, NoMemory>
        requires { IsTabled tables.now }
        ensures { IfOk result (IsSearchOf tables.now) }
    {
        let vars = tables.vars();
        Ok(LocalSearch {
            values: Values::new(alloc, vars)?,
            held: Values::new(alloc, vars)?,
            counts: Counts::new(alloc, tables.len() as u32, vars)?,
            weights: Weights::new(alloc)?,
            rng: Pcg32::seed_from_u64(seed),
        })
    }

    /// The values with which the last search ended: after a success, what it found.
    pub fn values(&self) -> &Values
        ensures { result.now ≡ values_of self.now }
    {
        &self.values
    }

    /// Draws the values of the variables that aren't marked as fixed: a start where there is no model yet.
    pub fn draw(&mut self, tables: &Tables, values: &mut Values, fixed: &Values)
        requires sizes { IsSearchOf tables.now self.old }
        requires values { length values.old ≡ tables.now.formula.vars }
        requires fixed { length fixed.now ≡ tables.now.formula.vars }
        ensures sizes { IsSearchOf tables.now self.new }
        ensures each { length values.new ≡ length values.old }
        ensures keeps { (v : ℕ) → 0 < v → v ≤ length values.old → IsTrue (value_of fixed.now v)
            → value_of values.new v ≡ value_of values.old v }
    {
        for i in 0..tables.vars() {
            let value = self.rng.next_word() >> 31 == 1;
            put_free(values, fixed, i + 1, value);
        }
    }

    /// Flips a variable.
    pub(crate) fn flip(&mut self, tables: &Tables, var: u32)
        requires state { IsState tables.now self.old }
        requires free { IsFree tables.now.formula.vars self.old.held var }
        ensures onward { IsOnward tables.now self.old self.new }
        ensures values { self.new.values ≡ flipped self.old.values var }
    {
        let value = self.values.get(var);
        let lost = Lit::new(var, value);
        self.values.set(var, !value);
        lower(&mut self.counts, tables.places(lost), var);
        raise(&mut self.counts, tables.places(lost.negated()), var);
    }

    /// Begins with the values of `start`, and holds the variables that are marked as fixed.
    pub(crate) fn begin(&mut self, tables: &Tables, start: &Values, fixed: &Values)
        requires sizes { IsSearchOf tables.now self.old }
        requires start { length start.now ≡ tables.now.formula.vars }
        requires fixed { length fixed.now ≡ tables.now.formula.vars }
        ensures sizes { IsSearchOf tables.now self.new }
        ensures values { self.new.values ≡ start.now }
        ensures held { self.new.held ≡ fixed.now }
    {
        copy(start, &mut self.values);
        copy(fixed, &mut self.held);
    }

    /// Makes a literal false and holds its variable, and answers whether it could: a variable that is held already
    /// keeps its value.
    pub(crate) fn hold(&mut self, lit: Lit) -> bool
        requires values { IsWithin (length self.old.values) lit }
        requires held { IsWithin (length self.old.held) lit }
        ensures counts { self.new.counts ≡ self.old.counts }
        ensures held { IsTrue result → HoldsToo lit self.old.held self.old.values self.new.held self.new.values }
        ensures sizes { (length self.new.values ≡ length self.old.values) × (length self.new.held ≡ length self.old.held) }
    {
        if self.held.get(lit.var()) {
            return !is_true(lit, &self.values);
        }
        self.values.set(lit.var(), !lit.positive());
        self.held.set(lit.var(), true);
        true
    }

    /// Tallies all clauses.
    pub(crate) fn tally(&mut self, tables: &Tables)
        requires { IsSearchOf tables.now self.old }
        ensures state { IsState tables.now self.new }
        ensures values { self.new.values ≡ self.old.values }
        ensures held { self.new.held ≡ self.old.held }
    {
        for place in 0..tables.len() as u32 {
            let tally = tallied(tables.clause(place), &self.values);
            self.counts.set(place, tally);
        }
    }
}

/// Sets the value of a variable that isn't marked as fixed.
fn put_free(values: &mut Values, fixed: &Values, var: u32, value: bool)
    requires values { (0 < var) × (var ≤ length values.old) }
    requires fixed { length fixed.now ≡ length values.old }
    ensures { Keeps fixed.now values.old values.new }
{
    if !fixed.get(var) {
        values.set(var, value);
    }
}

/// Copies values to others.
fn copy(from: &Values, to: &mut Values)
    requires { length to.old ≡ length from.now }
    ensures { to.new ≡ from.now }
{
    for i in 0..from.len() {
        to.set(i + 1, from.get(i + 1));
    }
}

/// The tally of a clause's literals.
fn tallied(lits: &[Lit], values: &Values) -> Tally
    requires within { AreWithin (length values.now) lits.now }
    requires limit { length lits.now ≤ 2 ^ 23 }
    ensures count { result.count ≡ true_count values.now lits.now }
    ensures sum { result.sum ≡ true_sum values.now lits.now }
{
    let mut count = 0;
    let mut sum = 0;
    for lit in lits {
        if is_true(*lit, values) {
            count += 1;
            sum += u64::from(lit.var());
        }
    }
    Tally { count, sum }
}

/// Takes a true literal of the variable from each of these clauses.
fn lower(counts: &mut Counts, places: &[u32], var: u32)
    requires { CanLower var places.now counts.old.tallies }
    ensures vars { counts.new.vars ≡ counts.old.vars }
    ensures lowered { AddsPlaces var places.now counts.new.tallies counts.old.tallies }
{
    for place in places {
        let old = counts.tally(*place);
        let tally = Tally {
            count: old.count - 1,
            sum: old.sum - u64::from(var),
        };
        counts.set(*place, tally);
    }
}

/// Gives a true literal of the variable to each of these clauses.
fn raise(counts: &mut Counts, places: &[u32], var: u32)
    requires { CanRaise var places.now counts.old.tallies }
    ensures vars { counts.new.vars ≡ counts.old.vars }
    ensures raised { AddsPlaces var places.now counts.old.tallies counts.new.tallies }
{
    for place in places {
        let old = counts.tally(*place);
        let tally = Tally {
            count: old.count + 1,
            sum: old.sum + u64::from(var),
        };
        counts.set(*place, tally);
    }
}
