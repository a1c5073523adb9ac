ghost use Rattle.std.specs.Prelude.{◌≡◌, ◌^◌, ◌<◌, ◌≤◌, IfOk, IsTrue, false};
ghost use Rattle.cnf_core.specs.Literals.{value_of};
ghost use Rattle.cnf_core.specs.Formulas.{IsModel};
ghost use Rattle.board_core.specs.Subjects.{about};
ghost use Rattle.model_check.specs.Flips.{flipped};
ghost use Rattle.worker_loop.specs.Steps.Questions.{listing_of};
ghost use Rattle.flip_literals.specs.Walks.{AreVars, IsWalked, IsAtRest};

use cnf_core::{Formula, NoMemory, Values};
use flip_literals::{Occurrences, Walker};
use std::alloc::Global;
use std::marker::Model;

/// What all workers of a run ask about: a formula with a variable or more, the model of it that gives each candidate its
/// phase, and where the literals stand that are true in that model.
#[derive(Debug, Drop)]
pub struct Question<'f> {
    formula: &'f Formula,
    phases: Values,
    occurrences: Occurrences<'f>,
}

impl<'f> Model for Question<'f> {
    ghost use Rattle.board_core.specs.Subjects.{About, about};
    ghost use Rattle.worker_loop.specs.Steps.Questions.{IsQuestion};

    ghost Value = { About };

    ghost view = { λ q. about q.formula.now q.phases };

    ghost invariant = { λ q. IsQuestion q.formula.now q.phases q.occurrences };
}

impl<'f> Question<'f> {
    /// The question of a formula and a model of it. It reads the formula once.
    pub fn new(
        alloc: Global,
        formula: &'f Formula,
        phases: Values,
    ) -> Result<Question<'f>, NoMemory>
        requires vars { 0 < formula.now.vars }
        requires phases { IsModel formula.now phases }
        ensures { IfOk result (λ q. q ≡ about formula.now phases) }
    {
        let occurrences = Occurrences::new(alloc, formula, &phases)?;
        Ok(Question {
            formula,
            phases,
            occurrences,
        })
    }

    /// The formula.
    pub fn formula(&self) -> &'f Formula
        ensures { result.now ≡ self.now.formula }
    {
        self.formula
    }

    /// The number of its variables, at least one.
    pub(crate) fn vars(&self) -> u32
        ensures value { result ≡ self.now.formula.vars }
        ensures some { 0 < result }
        ensures limit { result ≤ 2 ^ 20 }
        ensures phases { IsModel self.now.formula self.now.phases }
    {
        self.formula.vars()
    }

    /// The model that the question was made for: it gives each candidate its phase.
    pub fn phases(&self) -> &Values
        ensures { result.now ≡ self.now.phases }
    {
        &self.phases
    }

    /// The phase of a variable: its value in the model that the question was made for.
    pub fn phase(&self, var: u32) -> bool
        requires { (0 < var) × (var ≤ self.now.formula.vars) }
        ensures { result ≡ value_of self.now.phases var }
    {
        self.phases.get(var)
    }

    /// A walker for the models of the formula.
    pub(crate) fn walker(&self, alloc: Global) -> Result<Walker, NoMemory>
        ensures { IfOk result (λ walker. walker ≡ self.now.formula.vars) }
    {
        Walker::new(alloc, self.formula())
    }

    /// Turns candidates in a model, as [`Walker::walk`] does, or leaves it as it is.
    pub(crate) fn walk(
        &self,
        walker: &mut Walker,
        model: &mut Values,
        candidates: &[u32],
        moves: bool,
    ) -> bool
        requires vars { walker.old ≡ self.now.formula.vars }
        requires model { IsModel self.now.formula model.old }
        requires candidates { AreVars self.now.formula.vars candidates.now }
        ensures same { walker.new ≡ walker.old }
        ensures walked { IsWalked (listing_of self.now) candidates.now model.old model.new }
        ensures rest { IsTrue result → IsAtRest (listing_of self.now) candidates.now model.new }
    {
        moves && walker.walk(&self.occurrences, model, candidates)
    }

    /// Whether the flip of a variable that keeps its phase in the model is no model.
    pub(crate) fn is_critical(&self, model: &Values, var: u32) -> bool
        requires model { IsModel self.now.formula model.now }
        requires var { (0 < var) × (var ≤ self.now.formula.vars) }
        requires kept { value_of model.now var ≡ value_of self.now.phases var }
        ensures critical { IsTrue result → IsModel self.now.formula (flipped model.now var) → ⊥ }
        ensures free { result ≡ false → IsModel self.now.formula (flipped model.now var) }
    {
        self.occurrences.is_critical(model, var)
    }
}
