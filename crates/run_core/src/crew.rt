//! The table and the workers of a run.
ghost use Rattle.std.specs.Prelude.{◌≡◌, ◌+◌, ◌^◌, ◌<◌, ◌≤◌, [], IsTrue, IfOk, OnOk, slice_index_or};
ghost use Rattle.std.specs.Vec.Iter.{into_iter_len};
ghost use Rattle.cnf_core.specs.Formulas.{IsModel};
ghost use Rattle.core_chunks.specs.Chunks.{open_count};
ghost use Rattle.worker_loop.specs.Posts.{IsFirst};
ghost use Rattle.worker_loop.specs.Runs.{HasFewModels};
ghost use Rattle.run_core.specs.Steps.Crews.{IsRootAt, IsAtRoot, IsReady, IsVacant, IsStaffed, AreVacant, IsHiring, IsCrew, IsReturned, IsClosed};

use crate::RunSettings;
use crate::slot::{Recruit, Slot, run_in_turn, run_on_threads};
use assumption_solver::Solver;
use candidate_words::{Seat, Words};
use chooser_core::Chooser;
use cnf_core::NoMemory;
use std::alloc::Global;
use std::mem;
use std::thread::Threads;
use std::vec::IntoIter;
use worker_loop::{Gate, NoGate, Question, Share, Worker};

/// The table of a run, and its workers in their slots. The slots are all the room that handing over takes.
#[derive(Drop)]
pub(crate) struct Crew<'f, 'r> {
    pub settings: RunSettings,
    pub words: Words,
    pub slots: Vec<Slot<'f, 'r>>,
}

impl<'f, 'r> Crew<'f, 'r> {
    /// Opens the table, splits a seat for each worker but the first, and makes that. It has the solver and the chooser that
    /// found the first model, absorbs it, and works ahead of the others. These are called to their seats if something is
    /// open then, and each is made where it runs.
    #[tactic(auto, using(crate::proofs::Splits::root_opened))]
    pub fn hire(
        alloc: Global,
        settings: RunSettings,
        question: &'r Question<'f>,
        first: Solver<'f>,
        chooser: Box<dyn Chooser>,
        others: IntoIter<Box<dyn Chooser>>,
    ) -> Result<Crew<'f, 'r>, NoMemory>
        requires workers { (1 ≤ settings.workers) × (settings.workers ≤ 16) }
        requires budget { (1 ≤ settings.budget) × (settings.budget ≤ 2 ^ 40) }
        requires vars { 0 < question.now.formula.vars }
        requires phases { IsModel question.now.formula question.now.phases }
        requires first { IsFirst question.now settings.budget first }
        requires others { settings.workers ≤ 1 + into_iter_len others }
        ensures settings { IfOk result (λ crew. crew.settings ≡ settings) }
        ensures about { IfOk result (λ crew. crew.words.about ≡ question.now) }
        ensures crew { IfOk result (λ crew. IsCrew crew.words settings.workers settings.budget crew.slots.items) }
    {
        let (words, mut root) = Words::open(alloc, question.formula(), question.phases())?;
        let mut slots: Vec<Slot<'f, 'r>> = Vec::with_capacity(alloc, settings.workers as usize)?;
        split_seats(&words, &mut root, settings.workers, &mut slots)?;
        let mut crew: Crew<'f, 'r> = Crew {
            settings,
            words,
            slots,
        };
        let is_done = crew.hire_first(alloc, question, first, root, chooser)?;
        if is_done {
            return Ok(crew);
        }
        crew.call_others(others);
        Ok(crew)
    }

    /// Makes the first worker at the root. Answers whether it has closed all ahead of the others.
    fn hire_first(
        &mut self,
        alloc: Global,
        question: &'r Question<'f>,
        solver: Solver<'f>,
        root: Seat,
        chooser: Box<dyn Chooser>,
    ) -> Result<bool, NoMemory>
        requires workers { 1 ≤ self.old.settings.workers }
        requires budget { (1 ≤ self.old.settings.budget) × (self.old.settings.budget ≤ 2 ^ 40) }
        requires about { self.old.words.about ≡ question.now }
        requires phases { IsModel question.now.formula question.now.phases }
        requires solver { IsFirst question.now self.old.settings.budget solver }
        requires root { IsRootAt self.old.words self.old.settings.workers root }
        requires seats { AreVacant self.old.words self.old.settings.workers 1 self.old.settings.workers self.old.slots.items }
        ensures settings { self.new.settings ≡ self.old.settings }
        ensures words { self.new.words ≡ self.old.words }
        ensures hiring { OnOk result (IsHiring self.old.words self.old.settings.workers self.old.settings.budget 1 self.new.slots.items) }
        ensures done { IfOk result (λ done. IsTrue done → (d : _) → IsClosed (slice_index_or self.new.slots.items 0 d)) }
    {
        let mut worker = self.first_worker(alloc, question, solver, root, chooser)?;
        let is_done = self.run_ahead(&mut worker);
        self.slots[0] = Slot::Ready(worker);
        Ok(is_done)
    }

    /// The worker at the root, which has absorbed the first model.
    fn first_worker(
        &self,
        alloc: Global,
        question: &'r Question<'f>,
        solver: Solver<'f>,
        root: Seat,
        chooser: Box<dyn Chooser>,
    ) -> Result<Worker<'f, 'r>, NoMemory>
        requires workers { 1 ≤ self.now.settings.workers }
        requires budget { (1 ≤ self.now.settings.budget) × (self.now.settings.budget ≤ 2 ^ 40) }
        requires about { self.now.words.about ≡ question.now }
        requires phases { IsModel question.now.formula question.now.phases }
        requires solver { IsFirst question.now self.now.settings.budget solver }
        requires root { IsRootAt self.now.words self.now.settings.workers root }
        ensures ready { IfOk result (IsReady self.now.words self.now.settings.budget 0) }
        ensures first { IfOk result (IsAtRoot question.now self.now.settings.workers) }
        ensures few { IfOk result (λ worker. HasFewModels 1 worker.post) }
    {
        let share = Share {
            number: 0,
            workers: self.settings.workers,
            budget: self.settings.budget,
            seed: self.settings.seed,
        };
        let Ok(mut worker) = Worker::new(alloc, share, question, Some(solver), root, chooser) else {
            return Err(NoMemory);
        };
        worker.absorb_model(&self.words, question.phases())?;
        Ok(worker)
    }

    /// Has the first of several workers work ahead of the others. Answers whether nothing was open in the end.
    fn run_ahead(&self, worker: &mut Worker<'f, 'r>) -> bool
        requires ready { IsReady self.now.words self.now.settings.budget 0 worker.old }
        requires first { IsAtRoot self.now.words.about self.now.settings.workers worker.old }
        requires few { HasFewModels 1 worker.old.post }
        ensures ready { IsReady self.now.words self.now.settings.budget 0 worker.new }
        ensures first { IsAtRoot self.now.words.about self.now.settings.workers worker.new }
        ensures done { IsTrue result
            → open_count worker.new.post.seat.view.seen worker.new.post.about.formula.vars ≡ 0 }
    {
        if self.settings.workers == 1 {
            return false;
        }
        worker.run_ahead(&self.words)
    }

    /// Calls the other workers to their seats.
    fn call_others(&mut self, others: IntoIter<Box<dyn Chooser>>)
        requires budget { (1 ≤ self.old.settings.budget) × (self.old.settings.budget ≤ 2 ^ 40) }
        requires others { self.old.settings.workers ≤ 1 + into_iter_len others }
        requires hiring { IsHiring self.old.words self.old.settings.workers self.old.settings.budget 1 self.old.slots.items }
        ensures settings { self.new.settings ≡ self.old.settings }
        ensures words { self.new.words ≡ self.old.words }
        ensures crew { IsCrew self.old.words self.old.settings.workers self.old.settings.budget self.new.slots.items }
    {
        let mut others = others;
        for number in 1..self.settings.workers {
            let Some(chooser) = others.next() else {
                unreachable!()
            };
            self.call_next(number, chooser);
        }
    }

    /// Calls the worker of this number to its seat.
    fn call_next(&mut self, number: u32, chooser: Box<dyn Chooser>)
        requires number { (1 ≤ number) × (number < self.old.settings.workers) }
        requires budget { (1 ≤ self.old.settings.budget) × (self.old.settings.budget ≤ 2 ^ 40) }
        requires hiring { IsHiring self.old.words self.old.settings.workers self.old.settings.budget number self.old.slots.items }
        ensures settings { self.new.settings ≡ self.old.settings }
        ensures words { self.new.words ≡ self.old.words }
        ensures hiring { IsHiring self.old.words self.old.settings.workers self.old.settings.budget (number + 1) self.new.slots.items }
    {
        let share = Share {
            number,
            workers: self.settings.workers,
            budget: self.settings.budget,
            seed: self.settings.seed,
        };
        let slot = &mut self.slots[number as usize];
        let vacant = mem::replace(slot, Slot::Empty);
        *slot = called(&self.words, share, vacant, chooser);
    }

    /// Runs all workers, one after another.
    pub fn run_in_turn(&mut self, alloc: Global, question: &'r Question<'f>)
        requires about { self.old.words.about ≡ question.now }
        requires crew { IsCrew self.old.words self.old.settings.workers self.old.settings.budget self.old.slots.items }
        ensures settings { self.new.settings ≡ self.old.settings }
        ensures words { self.new.words ≡ self.old.words }
        ensures returned { IsReturned self.new.words self.new.settings.workers self.new.settings.budget self.new.slots.items }
    {
        run_in_turn(alloc, question, &self.words, &NoGate, &mut self.slots);
    }

    /// Runs all workers, each on a thread of its own where one can be made.
    pub fn run_on_threads<R: Threads + Sync, G: Gate>(
        &mut self,
        rt: &R,
        alloc: Global,
        question: &'r Question<'f>,
        gate: &G,
    )
        requires about { self.old.words.about ≡ question.now }
        requires crew { IsCrew self.old.words self.old.settings.workers self.old.settings.budget self.old.slots.items }
        ensures settings { self.new.settings ≡ self.old.settings }
        ensures words { self.new.words ≡ self.old.words }
        ensures returned { IsReturned self.new.words self.new.settings.workers self.new.settings.budget self.new.slots.items }
    {
        run_on_threads(rt, alloc, question, &self.words, gate, &mut self.slots);
    }
}

/// Makes a slot for each of so many workers. That of the first is empty, and each other has a seat of its own.
fn split_seats<'f, 'r>(
    words: &Words,
    root: &mut Seat,
    workers: u32,
    slots: &mut Vec<Slot<'f, 'r>>,
) -> Result<(), NoMemory>
    requires workers { (1 ≤ workers) × (workers ≤ 16) }
    requires root { IsRootAt words.now 1 root.old }
    requires empty { slots.old.items ≡ [] }
    ensures root { OnOk result (IsRootAt words.now workers root.new) }
    ensures seats { OnOk result (AreVacant words.now workers 1 workers slots.new.items) }
{
    slots.push(Slot::Empty)?;
    while slots.len() < workers as usize {
        slots.push(Slot::Left(words.split(root)))?;
    }
    Ok(())
}

/// A worker that is called to the seat in a slot.
fn called<'f, 'r>(
    words: &Words,
    share: Share,
    slot: Slot<'f, 'r>,
    chooser: Box<dyn Chooser>,
) -> Slot<'f, 'r>
    requires number { share.number < share.workers }
    requires budget { (1 ≤ share.budget) × (share.budget ≤ 2 ^ 40) }
    requires vacant { IsVacant words.now share.number slot }
    ensures { IsStaffed words.now share.budget share.number result }
{
    match slot {
        Slot::Left(seat) => Slot::Called(Recruit {
            share,
            seat,
            chooser,
        }),
        Slot::Ready(_) | Slot::Called(_) | Slot::Done(_) | Slot::Empty => unreachable!(),
    }
}
