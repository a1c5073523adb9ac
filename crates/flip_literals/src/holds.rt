//! Which clause holds which variable, while candidates are flipped one after another.
ghost use Rattle.std.specs.Prelude.{◌≡◌, ℕ, ◌<◌, ◌≤◌, IsTrue, IfOk, IfSome, false, length};
ghost use Rattle.cnf_core.specs.Literals.{value_of};
ghost use Rattle.cnf_core.specs.Formulas.{IsModel};
ghost use Rattle.model_check.specs.Flips.{flipped};
ghost use Rattle.flip_literals.specs.Walks.{AreVars};
ghost use Rattle.flip_literals.specs.Steps.Passes.{Tells, IsPassed};
ghost use Rattle.flip_literals.specs.Steps.Marking.{IsListed, IsMarkedIn};
ghost use Rattle.flip_literals.specs.Steps.Holding.{IsMade, IsHolding, IsAsBefore, IsWork, IsFlip};

use crate::{Marks, Occurrences};
use cnf_core::{Formula, NoMemory, Values};
use std::alloc::Global;
use std::mem;

/// No clause, and no variable, has this place.
const NONE: u32 = u32::MAX;

/// What a walk remembers.
#[derive(Debug, Drop)]
pub(crate) struct Holds {
    /// For each variable the place of the clause that held it last.
    pub holders: Vec<u32>,
    /// For each variable where that clause stands in its list.
    pub begins: Vec<usize>,
    /// For each clause the variable that it held last, counted from 0, until a flip made it true.
    pub held: Vec<u32>,
    /// The candidates of the walk.
    pub listed: Marks,
    /// The variables that were flipped, of which the clauses are to be looked at.
    pub flipped: Vec<u32>,
}

impl Holds {
    /// What a first walk remembers: nothing.
    pub fn new(alloc: Global, formula: &Formula) -> Result<Holds, NoMemory>
        ensures { IfOk result (IsMade formula.now.vars) }
    {
        let vars = formula.vars();
        Ok(Holds {
            holders: vec![in alloc; NONE; vars as usize]?,
            begins: vec![in alloc; 0usize; vars as usize]?,
            held: vec![in alloc; NONE; formula.clauses().len()]?,
            listed: Marks::new(alloc, vars)?,
            flipped: Vec::with_capacity(alloc, vars as usize)?,
        })
    }

    /// A walk begins.
    pub fn begin(&mut self, candidates: &[u32])
        requires made { IsMade (length self.old.holders.items) self.old }
        requires candidates { AreVars (length self.old.holders.items) candidates.now }
        ensures made { IsMade (length self.old.holders.items) self.new }
        ensures listed { IsMarkedIn self.new.listed candidates.now }
        ensures none { length self.new.flipped.items ≡ 0 }
    {
        self.flipped.clear();
        self.listed.set_to(candidates);
    }

    /// One pass over the candidates, which looks again at those that its flips may have freed. Answers whether it
    /// flipped one.
    pub fn pass(
        &mut self,
        occurrences: &Occurrences,
        model: &mut Values,
        candidates: &[u32],
    ) -> bool
        requires holding { IsHolding occurrences.now self.old model.old }
        requires candidates { AreVars occurrences.now.formula.vars candidates.now }
        requires listed { IsMarkedIn self.old.listed candidates.now }
        ensures holding { IsHolding occurrences.now self.new model.new }
        ensures listed { self.new.listed ≡ self.old.listed }
        ensures pass { IsPassed occurrences.now candidates.now model.old model.new result }
    {
        let mut changed = false;
        for var in candidates {
            if self.flip(occurrences, model, *var) {
                self.follow(occurrences, model);
                changed = true;
            }
        }
        changed
    }

    /// Looks again at the candidates that flips may have freed, and at those that their flips may have, to the end.
    fn follow(&mut self, occurrences: &Occurrences, model: &mut Values)
        requires { IsHolding occurrences.now self.old model.old }
        ensures { IsWork occurrences.now self.old model.old self.new model.new }
    {
        while let Some(var) = self.flipped.pop() {
            self.look_behind(occurrences, model, var);
        }
    }

    /// Looks again at the candidates that the flip of a variable may have freed: those that were held by a clause which
    /// it made true.
    fn look_behind(&mut self, occurrences: &Occurrences, model: &mut Values, var: u32)
        requires holding { IsHolding occurrences.now self.old model.old }
        requires var { (0 < var) × (var ≤ occurrences.now.formula.vars) }
        ensures { IsWork occurrences.now self.old model.old self.new model.new }
    {
        for place in occurrences.others(var) {
            self.look_again(occurrences, model, *place);
        }
    }

    /// Looks again at the candidate that the clause at a place held.
    fn look_again(&mut self, occurrences: &Occurrences, model: &mut Values, place: u32)
        requires holding { IsHolding occurrences.now self.old model.old }
        ensures { IsWork occurrences.now self.old model.old self.new model.new }
    {
        if let Some(var) = self.let_go(place) {
            self.flip(occurrences, model, var);
        }
    }

    /// The candidate that the clause at a place held. The clause holds it no more.
    fn let_go(&mut self, place: u32) -> Option<u32>
        ensures same { IsAsBefore self.old self.new }
        ensures listed { IfSome result (IsListed self.old.listed) }
    {
        let Some(entry) = self.held.get_mut(place as usize) else {
            return None;
        };
        let var = mem::replace(entry, NONE);
        if self.listed.has(var) {
            return Some(var + 1);
        }
        None
    }

    /// Flips the variable if it has its first value and no clause rests on it alone, and answers whether it did.
    fn flip(&mut self, occurrences: &Occurrences, model: &mut Values, var: u32) -> bool
        requires holding { IsHolding occurrences.now self.old model.old }
        requires var { (0 < var) × (var ≤ occurrences.now.formula.vars) }
        ensures flip { IsFlip occurrences.now self.old model.old self.new model.new }
        ensures told { Tells occurrences.now var model.old model.new result }
    {
        let value = model.get(var);
        if value != occurrences.first(var) {
            return false;
        }
        if self.is_held(occurrences, model, var) {
            return false;
        }
        model.set(var, !value);
        self.flipped.push_reserved(var);
        true
    }

    /// Whether a clause rests on the variable alone: the one that held it last, or another, which is remembered.
    fn is_held(&mut self, occurrences: &Occurrences, model: &Values, var: u32) -> bool
        requires holding { IsHolding occurrences.now self.old model.now }
        requires var { (0 < var) × (var ≤ occurrences.now.formula.vars) }
        requires first { value_of model.now var ≡ value_of occurrences.now.first var }
        ensures same { IsAsBefore self.old self.new }
        ensures held { IsTrue result → IsModel occurrences.now.formula (flipped model.now var) → ⊥ }
        ensures free { result ≡ false → IsModel occurrences.now.formula (flipped model.now var) }
    {
        let last = self.holders[var as usize - 1];
        if occurrences.is_held_by(last, model, var) {
            self.hold(last, var);
            return true;
        }
        match occurrences.holder(model, var, self.begins[var as usize - 1]) {
            Some(holder) => {
                self.begins[var as usize - 1] = holder.at;
                self.hold(holder.place, var);
                true
            }
            None => false,
        }
    }

    /// Remembers that the clause at a place holds the variable.
    fn hold(&mut self, place: u32, var: u32)
        requires { (0 < var) × (var ≤ length self.old.holders.items) }
        ensures { IsAsBefore self.old self.new }
    {
        self.holders[var as usize - 1] = place;
        if let Some(entry) = self.held.get_mut(place as usize) {
            *entry = var - 1;
        }
    }
}
