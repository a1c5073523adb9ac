ghost use Rattle.std.specs.Prelude.{◌≡◌, ◌+◌, ◌≤◌, IsTrue, IfOk, false, length};
ghost use Rattle.cnf_core.specs.Formulas.{IsModel};
ghost use Rattle.flip_literals.specs.Walks.{AreVars, IsWalked, IsAtRest, differences};
ghost use Rattle.flip_literals.specs.Steps.Holding.{IsMade};

use crate::Occurrences;
use crate::holds::Holds;
use cnf_core::{Formula, NoMemory, Values};
use std::alloc::Global;
use std::marker::Model;

/// The most passes of a walk.
pub const MAX_PASSES: u32 = 100;

/// What walks over the models of a formula remember: for each variable the clause that held it last, and for
/// each clause the variable. It is made once and used for any number of models.
#[derive(Debug, Drop)]
pub struct Walker {
    holds: Holds,
}

impl Model for Walker {
    ghost use Rattle.std.specs.Prelude.{ℕ, length};
    ghost use Rattle.flip_literals.specs.Steps.Holding.{IsMade};

    ghost Value = { ℕ };

    ghost view = { λ w. length w.holds.holders.items };

    ghost invariant = { λ w. IsMade (length w.holds.holders.items) w.holds };
}

impl Walker {
    /// A walker for the models of a formula.
    pub fn new(alloc: Global, formula: &Formula) -> Result<Walker, NoMemory>
        ensures { IfOk result (λ walker. walker ≡ formula.now.vars) }
    {
        Ok(Walker {
            holds: Holds::new(alloc, formula)?,
        })
    }

    /// Flips for good what the model can do without: goes through the candidates, in their order, and
    /// flips each that has its first value and that no clause rests on alone, until a whole pass flips none,
    /// or for [`MAX_PASSES`] passes. What comes out is a model.
    ///
    /// A flip makes clauses true, and a candidate that one of them held is looked at again at once. So mostly a
    /// second pass flips none, and a walk is linear in the occurrences of the candidates. A look begins
    /// with the clause that held the candidate last, and goes on with those of its occurrences.
    ///
    /// Answers whether it came to rest: then no candidate that kept its first value can be flipped
    /// alone. Otherwise each pass flipped at least one. It takes no memory.
    pub fn walk(
        &mut self,
        occurrences: &Occurrences,
        model: &mut Values,
        candidates: &[u32],
    ) -> bool
        requires vars { self.old ≡ occurrences.now.formula.vars }
        requires model { IsModel occurrences.now.formula model.old }
        requires candidates { AreVars occurrences.now.formula.vars candidates.now }
        ensures same { self.new ≡ self.old }
        ensures walked { IsWalked occurrences.now candidates.now model.old model.new }
        ensures rest { IsTrue result → IsAtRest occurrences.now candidates.now model.new }
        ensures cut { result ≡ false → differences occurrences.now.first model.old + 100 ≤ differences occurrences.now.first model.new }
    {
        self.holds.begin(candidates);
        for _pass in 0..MAX_PASSES {
            if !self.holds.pass(occurrences, model, candidates) {
                return true;
            }
        }
        false
    }
}
