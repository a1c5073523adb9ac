//! The runs: by one worker, and by many.
ghost use Rattle.std.specs.Prelude.{◌≡◌, ◌+◌, ◌^◌, ◌<◌, ◌≤◌, length, IfOk};
ghost use Rattle.std.specs.Vec.Iter.{into_iter_len};
ghost use Rattle.cnf_core.specs.Formulas.{IsModel};
ghost use Rattle.board_core.specs.Subjects.{about};
ghost use Rattle.worker_loop.specs.Posts.{IsFirst};
ghost use Rattle.run_core.specs.Outcomes.{OutcomeSays};
ghost use Rattle.run_core.specs.Steps.Crews.{IsReturned};

use crate::crew::Crew;
use crate::first::{First, search};
use crate::gathered::gather;
use crate::report::outcome;
use crate::{Outcome, RunSettings};
use chooser_core::Chooser;
use cnf_core::{Formula, NoMemory};
use std::alloc::Global;
use std::thread::Threads;
use worker_loop::{Gate, Question};

/// Finds what a formula's models have in common with one worker, in the calling thread. It always returns. The first of
/// the choosers is the worker's; all are dropped by the end.
pub fn run_one<'f>(
    alloc: Global,
    formula: &'f Formula,
    settings: RunSettings,
    choosers: Vec<Box<dyn Chooser>>,
) -> Outcome<'f>
    requires budget { (1 ≤ settings.budget) × (settings.budget ≤ 2 ^ 40) }
    requires choosers { 1 ≤ length choosers.items }
    ensures { OutcomeSays formula.now 1 settings.budget result }
{
    let settings = RunSettings {
        workers: 1,
        ..settings
    };
    match search(alloc, formula, settings, choosers) {
        Ok(first) => match finish_alone(alloc, formula, settings, first) {
            Ok(outcome) => outcome,
            Err(NoMemory) => Outcome::Memory(None),
        },
        Err(outcome) => outcome,
    }
}

/// Finds what a formula's models have in common with so many workers, each on a thread of its own where one can be made.
/// Over more than 256 variables the first goes ahead of the others in the calling thread, as long as its turns are easy, and
/// where it closes all nobody else is called. Then each passes the gate before each of its turns. Worker w asks the chooser
/// at place w; all are dropped by the end.
pub fn run_many<'f, R: Threads + Sync, G: Gate>(
    rt: &R,
    alloc: Global,
    formula: &'f Formula,
    settings: RunSettings,
    choosers: Vec<Box<dyn Chooser>>,
    gate: &G,
) -> Outcome<'f>
    requires workers { (1 ≤ settings.workers) × (settings.workers ≤ 16) }
    requires budget { (1 ≤ settings.budget) × (settings.budget ≤ 2 ^ 40) }
    requires choosers { settings.workers ≤ length choosers.items }
    ensures { OutcomeSays formula.now settings.workers settings.budget result }
{
    match search(alloc, formula, settings, choosers) {
        Ok(first) => match finish_together(rt, alloc, formula, settings, first, gate) {
            Ok(outcome) => outcome,
            Err(NoMemory) => Outcome::Memory(None),
        },
        Err(outcome) => outcome,
    }
}

/// Goes on from the first model with one worker.
fn finish_alone<'f>(
    alloc: Global,
    formula: &'f Formula,
    settings: RunSettings,
    first: First<'f>,
) -> Result<Outcome<'f>, NoMemory>
    requires workers { settings.workers ≡ 1 }
    requires budget { (1 ≤ settings.budget) × (settings.budget ≤ 2 ^ 40) }
    requires vars { (0 < formula.now.vars) × (formula.now.vars ≤ 2 ^ 20) }
    requires model { IsModel formula.now first.model }
    requires solver { IsFirst (about formula.now first.model) settings.budget first.solver }
    ensures { IfOk result (OutcomeSays formula.now settings.workers settings.budget) }
{
    let First {
        model,
        solver,
        chooser,
        others,
    } = first;
    let question = Question::new(alloc, formula, model)?;
    let mut crew: Crew<'f, '_> = Crew::hire(alloc, settings, &question, solver, chooser, others)?;
    crew.run_in_turn(alloc, &question);
    crew.end(alloc, formula)
}

/// Goes on from the first model with many workers.
fn finish_together<'f, R: Threads + Sync, G: Gate>(
    rt: &R,
    alloc: Global,
    formula: &'f Formula,
    settings: RunSettings,
    first: First<'f>,
    gate: &G,
) -> Result<Outcome<'f>, NoMemory>
    requires workers { (1 ≤ settings.workers) × (settings.workers ≤ 16) }
    requires budget { (1 ≤ settings.budget) × (settings.budget ≤ 2 ^ 40) }
    requires vars { (0 < formula.now.vars) × (formula.now.vars ≤ 2 ^ 20) }
    requires model { IsModel formula.now first.model }
    requires solver { IsFirst (about formula.now first.model) settings.budget first.solver }
    requires others { settings.workers ≤ 1 + into_iter_len first.others }
    ensures { IfOk result (OutcomeSays formula.now settings.workers settings.budget) }
{
    let First {
        model,
        solver,
        chooser,
        others,
    } = first;
    let question = Question::new(alloc, formula, model)?;
    let mut crew: Crew<'f, '_> = Crew::hire(alloc, settings, &question, solver, chooser, others)?;
    crew.run_on_threads(rt, alloc, &question, gate);
    crew.end(alloc, formula)
}

impl<'f, 'r> Crew<'f, 'r> {
    /// How the run ends whose workers are all back.
    fn end(self, alloc: Global, formula: &'f Formula) -> Result<Outcome<'f>, NoMemory>
        requires workers { (1 ≤ self.settings.workers) × (self.settings.workers ≤ 16) }
        requires about { self.words.about.formula ≡ formula.now }
        requires limit { formula.now.vars ≤ 2 ^ 20 }
        requires returned { IsReturned self.words self.settings.workers self.settings.budget self.slots.items }
        ensures { IfOk result (OutcomeSays formula.now self.entry.settings.workers self.entry.settings.budget) }
    {
        let Crew {
            settings,
            words,
            slots,
        } = self;
        let gathered = gather(alloc, settings, &words, slots)?;
        outcome(alloc, formula, settings, words, gathered)
    }
}
