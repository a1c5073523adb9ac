ghost use Rattle.std.specs.Prelude.{◌≡◌, ◌^◌, ◌<◌, ◌≤◌, length, take, IsTrue, IfOk, IfErr, IfSome, IfNone, OnOk, OnErr, true, false, ℕ};
ghost use Rattle.cnf_core.specs.Formulas.{IsModel};
ghost use Rattle.board_core.specs.Words.{open_at};
ghost use Rattle.board_core.specs.Rules.{IsView};
ghost use Rattle.candidate_words.specs.Seats.{Sits};
ghost use Rattle.model_store.specs.Stores.{with_model};
ghost use Rattle.worker_loop.specs.Posts.{IsLater, HasStored, IsFirst, IsUnused, IsNewPost};
ghost use Rattle.worker_loop.specs.Evidence.{IsKeeping};
ghost use Rattle.worker_loop.specs.Turns.{TurnSays, LoadedOnce};
ghost use Rattle.worker_loop.specs.Runs.{HasFewModels, IsFound};
ghost use Rattle.core_chunks.specs.Chunks.{open_count};
ghost use Rattle.worker_loop.specs.Steps.Running.{HasEvidence};
ghost use Rattle.worker_loop.specs.Steps.Handing.{HandsIn};
ghost use Rattle.worker_loop.specs.declared.endings.TurnEnd.{TurnEnd};

use crate::dropping::Flips;
use crate::fixing::prove_units;
use crate::post::Post;
use crate::tools::Tools;
use crate::{End, Findings, Gate, Question, TurnEnd};
use assumption_solver::Solver;
use candidate_words::{Seat, Words};
use chooser_core::Chooser;
use cnf_core::{NoMemory, Values};
use std::alloc::Global;
use std::marker::Model;

/// How a worker stands among the others, and what it may do.
#[derive(Clone, Copy, Debug)]
pub struct Share {
    /// The worker's number, from 0.
    pub number: u32,
    /// How many workers there are.
    pub workers: u32,
    /// How many clauses it may learn, from 1 to 2^40.
    pub budget: u64,
    /// The seed of the run. A worker's chooser and its local search begin with it plus the worker's number,
    /// modulo 2^64.
    pub seed: u64,
}

/// One of the workers of a run: a seat at the shared table, a solver, a chooser, and the evidence of all that it won.
///
/// After want of memory its turns answer `Memory` for good. What it had won until then stays recorded.
#[derive(Drop)]
pub struct Worker<'f, 'r> {
    number: u32,
    post: Post<'f, 'r>,
    chooser: Box<dyn Chooser>,
    failed: bool,
}

impl<'f, 'r> Model for Worker<'f, 'r> {
    ghost use Rattle.worker_loop.specs.Posts.{WorkerState};
    ghost use Rattle.worker_loop.specs.Steps.Held.{seen, IsWorker};

    ghost Value = { WorkerState };

    ghost view = { λ w. seen w.number w.post w.failed };

    ghost invariant = { λ w. IsWorker w.post w.failed };
}

impl<'f, 'r> Worker<'f, 'r> {
    /// A worker with an empty store. With no solver handed in it makes one of its own, and its chooser begins. Without
    /// memory for it the seat comes back, and the rest is dropped.
    pub fn new(
        alloc: Global,
        share: Share,
        question: &'r Question<'f>,
        first: Option<Solver<'f>>,
        seat: Seat,
        chooser: Box<dyn Chooser>,
    ) -> Result<Worker<'f, 'r>, Seat>
        requires number { share.number < share.workers }
        requires budget { (1 ≤ share.budget) × (share.budget ≤ 2 ^ 40) }
        requires seat { IsView question.now seat.view }
        requires unused { IsUnused question.now seat }
        requires first { IfSome first (IsFirst question.now share.budget) }
        ensures made { IfOk result (λ w. IsNewPost question.now seat share.budget w.post) }
        ensures number { IfOk result (λ w. (w.number ≡ share.number) × (w.failed ≡ false)) }
        ensures back { IfErr result (λ s. s ≡ seat) }
    {
        let mut chooser = chooser;
        let tools = match Tools::new(alloc, share, question, first, &mut chooser) {
            Ok(tools) => tools,
            Err(NoMemory) => return Err(seat),
        };
        Ok(Worker {
            number: share.number,
            post: tools.at(alloc, share, question, seat),
            chooser,
            failed: false,
        })
    }

    /// Loads every group, stores a model of the formula, and drops the candidates to which it gives the value opposite
    /// to their phases, and those whose flip alone is a model. Without memory nothing was dropped.
    pub fn absorb_model(&mut self, words: &Words, model: &Values) -> Result<(), NoMemory>
        requires sits { Sits words.now self.old.post.seat }
        requires model { IsModel self.old.post.about.formula model.now }
        requires room { length self.old.post.models.models < 2 ^ 21 }
        ensures sits { Sits words.now self.new.post.seat }
        ensures later { IsLater self.old.post self.new.post }
        ensures number { self.new.number ≡ self.old.number }
        ensures once { LoadedOnce self.old.post.about self.old.post.seat.view self.new.post.seat.view }
        ensures stored { OnOk result (self.new.post.models ≡ with_model self.old.post.models model.now) }
        ensures settled { OnOk result ((x : ℕ) → 0 < x → open_at self.new.post.seat.view.seen x ≡ 1
            → IsKeeping self.new.post.about self.new.post.models x (length self.old.post.models.models)) }
        ensures alive { OnOk result (self.new.failed ≡ self.old.failed) }
        ensures err { OnErr result ((self.new.failed ≡ true) × (self.new.post.models ≡ self.old.post.models)
            × (self.new.post.drops ≡ self.old.post.drops)) }
    {
        self.post.load_all(words);
        match self.post.absorb(words, model, Flips::Marked) {
            Ok(()) => Ok(()),
            Err(NoMemory) => {
                self.failed = true;
                Err(NoMemory)
            }
        }
    }

    /// Takes a turn over the table. It begins by loading every group, each once. Where nothing is open then, it is done.
    /// Otherwise it asks a core query over 256 of the candidates that were open, or over all of them where there are
    /// fewer, and where the core has more than one literal a chunk query over it. Where the solver needs a conflict for the
    /// core query, it may look at other candidates first. It stores at most one model.
    pub fn turn(&mut self, words: &Words) -> TurnEnd
        requires sits { Sits words.now self.old.post.seat }
        requires room { length self.old.post.models.models < 2 ^ 21 }
        ensures sits { Sits words.now self.new.post.seat }
        ensures later { IsLater self.old.post self.new.post }
        ensures stored { HasStored self.old.post.models self.new.post.models }
        ensures number { self.new.number ≡ self.old.number }
        ensures says { TurnSays result self.old.post self.new }
        ensures failed { self.old.failed ≡ true → result ≡ TurnEnd.Memory }
        ensures alive { self.new.failed ≡ true → result ≡ TurnEnd.Memory }
    {
        if self.failed {
            return TurnEnd::Memory;
        }
        match self.post.turn(words, &mut self.chooser) {
            Ok(end) => end,
            Err(NoMemory) => {
                self.failed = true;
                TurnEnd::Memory
            }
        }
    }

    /// Takes turns before there are other workers, as long as they are easy: until the solver doesn't answer a core query
    /// within a few conflicts, or has worked as much as other workers would be worth. Over one block of candidates there is
    /// none. Answers whether nothing was open in the end.
    pub fn run_ahead(&mut self, words: &Words) -> bool
        requires sits { Sits words.now self.old.post.seat }
        requires few { HasFewModels 1 self.old.post }
        ensures sits { Sits words.now self.new.post.seat }
        ensures later { IsLater self.old.post self.new.post }
        ensures number { self.new.number ≡ self.old.number }
        ensures first { take (length self.old.post.models.models) self.new.post.models.models ≡ self.old.post.models.models }
        ensures few { HasFewModels 2 self.new.post }
        ensures done { IsTrue result
            → open_count self.new.post.seat.view.seen self.new.post.about.formula.vars ≡ 0 }
    {
        let most = self.post.most_ahead();
        let mut end = TurnEnd::Going;
        let mut turns: u64 = 0;
        self.prove_evidence();
        while end.is_going() && self.post.work_after(turns) < most {
            match self.easy_turn(words) {
                Some(next) => end = next,
                None => return false,
            }
            self.prove_evidence();
            turns = turns.saturating_add(1);
        }
        end == TurnEnd::Done
    }

    /// Takes a turn, where the core query has its answer within a few conflicts.
    fn easy_turn(&mut self, words: &Words) -> Option<TurnEnd>
        requires sits { Sits words.now self.old.post.seat }
        requires room { length self.old.post.models.models < 2 ^ 21 }
        ensures sits { Sits words.now self.new.post.seat }
        ensures later { IsLater self.old.post self.new.post }
        ensures stored { HasStored self.old.post.models self.new.post.models }
        ensures number { self.new.number ≡ self.old.number }
        ensures says { IfSome result (λ end. TurnSays end self.old.post self.new) }
        ensures vain { IfNone result (self.new.post.models ≡ self.old.post.models) }
        ensures alive { IfSome result (λ end. self.new.failed ≡ true → end ≡ TurnEnd.Memory) }
    {
        if self.failed {
            return Some(TurnEnd::Memory);
        }
        match self.post.easy_turn(words, &mut self.chooser) {
            Ok(taken) => taken,
            Err(NoMemory) => {
                self.failed = true;
                Some(TurnEnd::Memory)
            }
        }
    }

    /// Passes the gate and takes a turn, until one doesn't answer `Going`. It waits for nobody.
    pub fn run<G: Gate>(self, words: &Words, gate: &G) -> Findings<'f>
        requires sits { Sits words.now self.post.seat }
        requires few { HasFewModels 2 self.post }
        ensures { IsFound words.now self.entry result }
    {
        let mut worker = self;
        worker.prove_evidence();
        let mut end = TurnEnd::Going;
        let mut turn: u64 = 0;
        while end.is_going() {
            gate.pass(worker.number, turn);
            end = worker.turn(words);
            worker.prove_evidence();
            turn = turn.saturating_add(1);
        }
        worker.findings(End::from(end))
    }

    /// What a worker holds has its evidence.
    fn prove_evidence(&self)
        ensures { HasEvidence self.now }
    {
        prove_units(self.post.solver.log());
    }

    /// What it hands in.
    fn findings(self, end: End) -> Findings<'f>
        ensures { HandsIn self.entry end result }
    {
        let Worker {
            number,
            post,
            chooser,
            failed: _,
        } = self;
        post.findings(number, &chooser, end)
    }
}
