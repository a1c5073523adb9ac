ghost use Rattle.std.specs.Prelude.{◌≡◌, ◌<◌, ◌≤◌, ◌↔◌, IsTrue, IfOk, MatchOption, false, length};
ghost use Rattle.cnf_core.specs.Literals.{value_of, is_true as is_true_in, clause_true, IsWithin, AreWithin};
ghost use Rattle.cnf_core.specs.Formulas.{IsFormula, IsModel};
ghost use Rattle.model_check.specs.Flips.{flipped};
ghost use Rattle.flip_literals.specs.Listings.{clause_at, ListsPlaces};
ghost use Rattle.flip_literals.specs.Steps.Listed.{IsOpposite, ListsOthers, IsAround};

use crate::flat::FlatClauses;
use crate::listing::Lists;
use cnf_core::{Formula, Lit, NoMemory, Values};
use model_check::is_true;
use std::alloc::Global;
use std::marker::Model;

/// A clause that rests on a variable alone.
#[derive(Clone, Copy, Debug)]
pub(crate) struct Holder {
    /// Where it stands in the variable's list.
    pub at: usize,
    /// Its place in the formula.
    pub place: u32,
}

/// For each variable the places of the clauses in which the literal of it stands that is true in one
/// assignment, and of those in which the opposite one stands. It has its own copy of the clauses, with the
/// literals one behind the other, and is made once, in linear time.
#[derive(Debug, Drop)]
pub struct Occurrences<'f> {
    clauses: FlatClauses<'f>,
    first: Values,
    /// The places of the true literals.
    own: Lists,
    /// The places of the false ones.
    others: Lists,
}

impl<'f> Model for Occurrences<'f> {
    ghost use Rattle.flip_literals.specs.Listings.{Listing};
    ghost use Rattle.flip_literals.specs.Steps.Listed.{AreIndexes};

    ghost Value = { Listing };

    ghost view = { λ o. record { formula = o.clauses; first = o.first } };

    ghost invariant = { λ o. AreIndexes o.clauses o.first o.own o.others };
}

impl<'f> Occurrences<'f> {
    /// The lists for the literals that `first` makes true, and for those that it makes false.
    pub fn new(
        alloc: Global,
        formula: &'f Formula,
        first: &Values,
    ) -> Result<Occurrences<'f>, NoMemory>
        requires { length first.now ≡ formula.now.vars }
        ensures { IfOk result (λ o. o ≡ record { formula = formula.now; first = first.now }) }
    {
        let second = opposites(alloc, first)?;
        Ok(Occurrences {
            own: Lists::new(alloc, formula, first)?,
            others: Lists::new(alloc, formula, &second)?,
            clauses: FlatClauses::new(alloc, formula)?,
            first: first.copy()?,
        })
    }

    /// The places of the clauses, counted from 0, in which the variable's literal stands that is true in
    /// the first assignment: once for each time that it stands there.
    pub fn places(&self, var: u32) -> &[u32]
        requires { (0 < var) × (var ≤ self.now.formula.vars) }
        ensures places { ListsPlaces self.now var result.now }
        ensures limits { IsFormula self.now.formula }
    {
        self.own.get(var)
    }

    /// The places of the clauses in which the variable's literal stands that is false in the first assignment.
    pub(crate) fn others(&self, var: u32) -> &[u32]
        requires { (0 < var) × (var ≤ self.now.formula.vars) }
        ensures { ListsOthers self.now var result.now }
    {
        self.others.get(var)
    }

    /// Whether the flip of a variable alone leaves no model, where the variable's value in the model is that
    /// of the first assignment. It looks at the clauses that have its literal, up to the first that rests on it.
    pub fn is_critical(&self, model: &Values, var: u32) -> bool
        requires model { IsModel self.now.formula model.now }
        requires within { (0 < var) × (var ≤ self.now.formula.vars) }
        requires first { value_of model.now var ≡ value_of self.now.first var }
        ensures critical { IsTrue result ↔ (IsModel self.now.formula (flipped model.now var) → ⊥) }
        ensures free { result ≡ false → IsModel self.now.formula (flipped model.now var) }
    {
        self.holder(model, var, 0).is_some()
    }

    /// A clause that rests on the variable alone, if there is one: the first from a place of the variable's list on, and
    /// behind the last one from the first on.
    pub(crate) fn holder(&self, model: &Values, var: u32, from: usize) -> Option<Holder>
        requires model { IsModel self.now.formula model.now }
        requires within { (0 < var) × (var ≤ self.now.formula.vars) }
        requires first { value_of model.now var ≡ value_of self.now.first var }
        ensures { MatchOption result (IsModel self.now.formula (flipped model.now var)) (λ _. IsModel self.now.formula (flipped model.now var) → ⊥) }
    {
        let places = self.places(var);
        let from = start(from, places.len());
        for step in 0..places.len() {
            let at = around(from, step, places.len());
            if !is_true_flipped(self.clause(places[at]), model, var) {
                return Some(Holder {
                    at,
                    place: places[at],
                });
            }
        }
        None
    }

    /// Whether the place is that of a clause, and this rests on the variable alone.
    pub(crate) fn is_held_by(&self, place: u32, model: &Values, var: u32) -> bool
        requires model { IsModel self.now.formula model.now }
        requires within { (0 < var) × (var ≤ self.now.formula.vars) }
        ensures { IsTrue result → IsModel self.now.formula (flipped model.now var) → ⊥ }
    {
        (place as usize) < self.clauses.len() && !is_true_flipped(self.clause(place), model, var)
    }

    /// The literals of the clause at a place.
    fn clause(&self, place: u32) -> &[Lit]
        requires { place < length self.now.formula.clauses }
        ensures value { result.now ≡ clause_at self.now.formula place }
        ensures limits { IsFormula self.now.formula }
    {
        self.clauses.get(place)
    }

    /// The value that the first assignment gives a variable.
    pub(crate) fn first(&self, var: u32) -> bool
        requires { (0 < var) × (var ≤ self.now.formula.vars) }
        ensures value { result ≡ value_of self.now.first var }
        ensures each { length self.now.first ≡ self.now.formula.vars }
    {
        self.first.get(var)
    }
}

/// Whether the assignment with the variable flipped makes one of the literals true.
fn is_true_flipped(lits: &[Lit], values: &Values, var: u32) -> bool
    requires within { AreWithin (length values.now) lits.now }
    requires var { (0 < var) × (var ≤ length values.now) }
    ensures { result ≡ clause_true (flipped values.now var) lits.now }
{
    lits.iter()
        .any(|lit| is_literal_true_flipped(*lit, values, var))
}

/// Whether the assignment with the variable flipped makes the literal true.
fn is_literal_true_flipped(lit: Lit, values: &Values, var: u32) -> bool
    requires within { IsWithin (length values.now) lit }
    requires var { (0 < var) × (var ≤ length values.now) }
    ensures { result ≡ is_true_in (flipped values.now var) lit }
{
    is_true(lit, values) != (lit.var() == var)
}

/// The opposite of each value.
fn opposites(alloc: Global, first: &Values) -> Result<Values, NoMemory>
    ensures { IfOk result (IsOpposite first.now) }
{
    let mut values = Values::new(alloc, first.len())?;
    for var in 1..=first.len() {
        values.set(var, !first.get(var));
    }
    Ok(values)
}

/// Where to begin in a list of so many: at a place, or at the first where it has no such place.
fn start(from: usize, count: usize) -> usize
    ensures { 0 < count → result < count }
{
    if from < count { from } else { 0 }
}

/// So many steps on from a place of a list of so many, behind its last one from the first on.
fn around(from: usize, step: usize, count: usize) -> usize
    requires { (from < count) × (step < count) }
    ensures { IsAround from step count result }
{
    if step < count - from {
        from + step
    } else {
        step - (count - from)
    }
}
