//! A turn: the loads, a core query, and what follows from its answer.
ghost use Rattle.std.specs.Prelude.{◌≡◌, ◌^◌, ◌<◌, ◌≤◌, length, IfOk, IfSome, IfNone, OnOk, All, map, []};
ghost use Rattle.cnf_core.specs.Literals.{AreWithin};
ghost use Rattle.cnf_core.specs.Formulas.{IsModel};
ghost use Rattle.board_core.specs.Subjects.{groups};
ghost use Rattle.candidate_words.specs.Seats.{Sits};
ghost use Rattle.core_chunks.specs.Chunks.{IsBlockOf};
ghost use Rattle.assumption_solver.specs.Answers.{FoundSays};
ghost use Rattle.worker_loop.specs.Posts.{IsLater, HasStored};
ghost use Rattle.worker_loop.specs.Steps.Held.{IsPost, state_of, IsBetweenTurns};
ghost use Rattle.worker_loop.specs.Steps.Moves.{IsLoaded, IsOnward, IsAskedTimes, against_phase, IsUnmoved, KeepsSettled, IsBlockOfAll, IsInVain, IsAffordable, IsGivenUp};
ghost use Rattle.worker_loop.specs.Turns.{Goes};
ghost use Rattle.worker_loop.specs.Steps.Following.{Follows, PostSays, IsCoreOf};
ghost use Rattle.worker_loop.specs.Steps.Jumps.{Serves};
ghost use Rattle.worker_loop.specs.declared.endings.TurnEnd.{TurnEnd};

use crate::TurnEnd;
use crate::asking::Asked;
use crate::dropping::Flips;
use crate::masks::group_of;
use crate::post::Post;
use crate::terrain::prefer_values;
use assumption_solver::{Found, Solver};
use candidate_words::Words;
use chooser_core::Chooser;
use cnf_core::{Lit, NoMemory, Values};
use core_chunks::block;
use std::alloc::Global;

/// A block has at most so many candidates.
pub(crate) const BLOCK: u32 = 256;

/// So many open candidates are decided against their phases, beside the block.
const DOSE: u32 = 1024;

/// A core query is easy that has at most so many conflicts.
const EASY: u64 = 1000;

/// So much work, propagations and variables of a turn, pays for a worker more: for each literal and variable of the formula,
/// and at least.
const AHEAD: u64 = 20;

const LEAST_AHEAD: u64 = 200_000;

/// A jump is tried over at most so many open candidates.
const MOST_LEFT: usize = 512;

impl<'f, 'r> Post<'f, 'r> {
    /// Takes a turn.
    pub fn turn(
        &mut self,
        words: &Words,
        chooser: &mut Box<dyn Chooser>,
    ) -> Result<TurnEnd, NoMemory>
        requires post { IsPost self.old }
        requires sits { Sits words.now self.old.seat }
        requires room { length self.old.models.models < 2 ^ 26 }
        ensures post { IsPost self.new }
        ensures sits { Sits words.now self.new.seat }
        ensures later { IsLater (state_of self.old) (state_of self.new) }
        ensures stored { HasStored self.old.models self.new.models }
        ensures says { IfOk result (λ end. PostSays end (state_of self.old) (state_of self.new)) }
        ensures between { OnOk result (IsBetweenTurns (state_of self.old) → IsBetweenTurns (state_of self.new)) }
    {
        self.load_all(words);
        let block = self.open_block(self.first_group, BLOCK)?;
        if block.is_empty() {
            return Ok(TurnEnd::Done);
        }
        self.begin_behind(&block);
        self.hear(words)?;
        self.work(words, block, chooser)
    }

    /// Takes a turn where the solver answers the core query within a few conflicts. Otherwise it gives that query up.
    pub fn easy_turn(
        &mut self,
        words: &Words,
        chooser: &mut Box<dyn Chooser>,
    ) -> Result<Option<TurnEnd>, NoMemory>
        requires post { IsPost self.old }
        requires sits { Sits words.now self.old.seat }
        requires room { length self.old.models.models < 2 ^ 26 }
        ensures post { IsPost self.new }
        ensures sits { Sits words.now self.new.seat }
        ensures later { IsLater (state_of self.old) (state_of self.new) }
        ensures stored { HasStored self.old.models self.new.models }
        ensures says { IfOk result (λ taken. IfSome taken (λ end. PostSays end (state_of self.old) (state_of self.new))) }
        ensures vain { IfOk result (λ taken. IfNone taken (self.new.models ≡ self.old.models)) }
        ensures between { OnOk result (IsBetweenTurns (state_of self.old) → IsBetweenTurns (state_of self.new)) }
    {
        self.load_all(words);
        let block = self.open_block(self.first_group, BLOCK)?;
        if block.is_empty() {
            return Ok(Some(TurnEnd::Done));
        }
        self.begin_behind(&block);
        self.hear(words)?;
        self.work_easily(words, block, chooser)
    }

    /// How many conflicts a core query may have before it is given up: none where too few candidates are closed to pay for
    /// a query more.
    fn easy_conflicts(&self) -> Result<u64, NoMemory>
        requires post { IsPost self.now }
        requires copied { IsLoaded self.now }
        ensures { IfOk result (λ conflicts. IsAffordable conflicts self.now) }
    {
        let vars = self.question.vars();
        let open = self.open_block(0, vars)?.len() as u64;
        let closed = u64::from(vars).saturating_sub(open);
        if self.solver.log().count_learnt() <= 2 * closed {
            Ok(EASY)
        } else {
            Ok(0)
        }
    }

    /// So much work the worker may do before there are others. With one block of candidates they begin at once.
    pub fn most_ahead(&self) -> u64 {
        let vars = self.question.vars();
        if vars <= BLOCK {
            return 0;
        }
        let size = self.jumper.literals().saturating_add(u64::from(vars));
        size.saturating_mul(AHEAD).max(LEAST_AHEAD)
    }

    /// How much work the solver and so many turns were.
    pub fn work_after(&self, turns: u64) -> u64 {
        turns
            .saturating_mul(u64::from(self.question.vars()))
            .saturating_add(self.solver.counts().propagations)
    }

    /// The first open candidates of the loaded words, at most so many, with the groups taken from this one on.
    pub fn open_block(&self, from: u32, size: u32) -> Result<Vec<u32>, NoMemory>
        requires post { IsPost self.now }
        requires copied { IsLoaded self.now }
        requires from { from < groups self.now.question.now.formula.vars }
        ensures { IfOk result (λ block. IsBlockOf self.now.loaded.items self.now.question.now.formula.vars size block.items) }
    {
        open_from(self.alloc, &self.loaded, from, size)
    }

    /// The next block begins at the group of this one's last variable.
    pub fn begin_behind(&mut self, block: &[u32])
        requires post { IsPost self.old }
        requires block { All (λ x. (0 < x) × (x ≤ self.old.question.now.formula.vars)) block.now }
        ensures post { IsPost self.new }
        ensures same { IsUnmoved self.old self.new }
    {
        let [.., last] = block else {
            return;
        };
        self.first_group = group_of(*last);
    }

    /// Asks whether all of the block can be against their phases. Where the solver doesn't say so at once, it asks about
    /// this or another block until it has an answer. It goes on by that.
    fn work(
        &mut self,
        words: &Words,
        block: Vec<u32>,
        chooser: &mut Box<dyn Chooser>,
    ) -> Result<TurnEnd, NoMemory>
        requires post { IsPost self.old }
        requires sits { Sits words.now self.old.seat }
        requires copied { IsLoaded self.old }
        requires block { IsBlockOf self.old.loaded.items self.old.question.now.formula.vars 256 block.items }
        requires some { 0 < length block.items }
        requires room { length self.old.models.models < 2 ^ 26 }
        ensures post { IsPost self.new }
        ensures sits { Sits words.now self.new.seat }
        ensures onward { IsOnward self.old self.new }
        ensures asked { IsAskedTimes 2 self.old.solver.log self.new.solver.log }
        ensures stored { HasStored self.old.models self.new.models }
        ensures follows { IfOk result (λ end. Follows end self.new) }
        ensures settled { OnOk result (KeepsSettled self.old self.new) }
    {
        match self.try_block(words, &block, chooser, 0)? {
            Some(end) => Ok(end),
            None => {
                let chosen = self.choose_block(block, chooser)?;
                self.work_on(words, &chosen, chooser)
            }
        }
    }

    /// As `work`, but that it gives the query up after a few conflicts.
    fn work_easily(
        &mut self,
        words: &Words,
        block: Vec<u32>,
        chooser: &mut Box<dyn Chooser>,
    ) -> Result<Option<TurnEnd>, NoMemory>
        requires post { IsPost self.old }
        requires sits { Sits words.now self.old.seat }
        requires copied { IsLoaded self.old }
        requires block { IsBlockOf self.old.loaded.items self.old.question.now.formula.vars 256 block.items }
        requires some { 0 < length block.items }
        requires room { length self.old.models.models < 2 ^ 26 }
        ensures post { IsPost self.new }
        ensures sits { Sits words.now self.new.seat }
        ensures onward { IsOnward self.old self.new }
        ensures asked { IsAskedTimes 2 self.old.solver.log self.new.solver.log }
        ensures stored { HasStored self.old.models self.new.models }
        ensures follows { IfOk result (λ tried. IfSome tried (λ end. Follows end self.new)) }
        ensures vain { IfOk result (λ tried. IfNone tried (IsGivenUp self.old self.new)) }
        ensures settled { OnOk result (KeepsSettled self.old self.new) }
    {
        match self.try_block(words, &block, chooser, 0)? {
            Some(end) => Ok(Some(end)),
            None => {
                let conflicts = self.easy_conflicts()?;
                let chosen = self.choose_block(block, chooser)?;
                self.try_block(words, &chosen, chooser, conflicts)
            }
        }
    }

    /// Asks whether all of the block can be against their phases, and goes on by that where the solver says so within so
    /// many conflicts.
    fn try_block(
        &mut self,
        words: &Words,
        block: &[u32],
        chooser: &mut Box<dyn Chooser>,
        conflicts: u64,
    ) -> Result<Option<TurnEnd>, NoMemory>
        requires post { IsPost self.old }
        requires sits { Sits words.now self.old.seat }
        requires copied { IsLoaded self.old }
        requires block { IsBlockOf self.old.loaded.items self.old.question.now.formula.vars 256 block.now }
        requires some { 0 < length block.now }
        requires room { length self.old.models.models < 2 ^ 26 }
        ensures post { IsPost self.new }
        ensures sits { Sits words.now self.new.seat }
        ensures onward { IsOnward self.old self.new }
        ensures asked { IsAskedTimes 2 self.old.solver.log self.new.solver.log }
        ensures stored { HasStored self.old.models self.new.models }
        ensures follows { IfOk result (λ tried. IfSome tried (λ end. Follows end self.new)) }
        ensures vain { IfOk result (λ tried. IfNone tried (IsInVain conflicts self.old self.new)) }
        ensures settled { OnOk result (KeepsSettled self.old self.new) }
    {
        let assume = self.against(block)?;
        self.prefer(&assume)?;
        let Some(found) = self.look(words, &assume, chooser, conflicts) else {
            return Ok(None);
        };
        Ok(Some(self.follow(words, block, found, chooser)?))
    }

    /// Asks whether all of the block can be against their phases until there is an answer, and goes on by that.
    fn work_on(
        &mut self,
        words: &Words,
        block: &[u32],
        chooser: &mut Box<dyn Chooser>,
    ) -> Result<TurnEnd, NoMemory>
        requires post { IsPost self.old }
        requires sits { Sits words.now self.old.seat }
        requires copied { IsLoaded self.old }
        requires block { IsBlockOf self.old.loaded.items self.old.question.now.formula.vars 256 block.now }
        requires some { 0 < length block.now }
        requires room { length self.old.models.models < 2 ^ 26 }
        ensures post { IsPost self.new }
        ensures sits { Sits words.now self.new.seat }
        ensures onward { IsOnward self.old self.new }
        ensures asked { IsAskedTimes 2 self.old.solver.log self.new.solver.log }
        ensures stored { HasStored self.old.models self.new.models }
        ensures follows { IfOk result (λ end. Follows end self.new) }
        ensures settled { OnOk result (KeepsSettled self.old self.new) }
    {
        let assume = self.against(block)?;
        self.prefer(&assume)?;
        match self.ask(words, &assume, &[], chooser) {
            Asked::Closed => Ok(TurnEnd::Going),
            Asked::Answered(found) => self.follow(words, block, found, chooser),
        }
    }

    /// Goes on by what the solver has found about the block.
    fn follow(
        &mut self,
        words: &Words,
        block: &[u32],
        found: Found,
        chooser: &mut Box<dyn Chooser>,
    ) -> Result<TurnEnd, NoMemory>
        requires post { IsPost self.old }
        requires sits { Sits words.now self.old.seat }
        requires copied { IsLoaded self.old }
        requires block { IsBlockOf self.old.loaded.items self.old.question.now.formula.vars 256 block.now }
        requires some { 0 < length block.now }
        requires found { FoundSays found (map (against_phase self.old.question.now.phases) block.now) [] self.old.budget self.old.solver.log }
        requires room { length self.old.models.models < 2 ^ 26 }
        ensures post { IsPost self.new }
        ensures sits { Sits words.now self.new.seat }
        ensures onward { IsOnward self.old self.new }
        ensures asked { IsAskedTimes 1 self.old.solver.log self.new.solver.log }
        ensures stored { HasStored self.old.models self.new.models }
        ensures follows { IfOk result (λ end. Follows end self.new) }
        ensures settled { OnOk result (KeepsSettled self.old self.new) }
    {
        match found {
            Found::Model(model) => {
                self.take_model(words, model, &[])?;
                Ok(TurnEnd::Going)
            }
            Found::Core { lits, .. } => self.take_core(words, &lits, chooser),
            Found::Spent => Ok(TurnEnd::Spent),
            Found::Memory => Err(NoMemory),
            Found::AllFixed => unreachable!(),
            Found::Unsat { .. } => unreachable!(),
        }
    }

    /// The literals of the block's variables that are opposite to their phases.
    pub fn against(&self, block: &[u32]) -> Result<Vec<Lit>, NoMemory>
        requires post { IsPost self.now }
        requires block { All (λ x. (0 < x) × (x ≤ self.now.question.now.formula.vars)) block.now }
        ensures { IfOk result (λ lits. lits.items ≡ map (against_phase self.now.question.now.phases) block.now) }
    {
        let mut lits = Vec::with_capacity(self.alloc, block.len())?;
        for var in block {
            lits.push(self.phase_literal(*var).negated())?;
        }
        Ok(lits)
    }

    /// From here on the solver decides the variables of these literals by their signs, and those of the first open
    /// candidates against their phases.
    fn prefer(&mut self, lits: &[Lit]) -> Result<(), NoMemory>
        requires post { IsPost self.old }
        requires copied { IsLoaded self.old }
        ensures post { IsPost self.new }
        ensures same { IsUnmoved self.old self.new }
    {
        let candidates = self.open_block(0, DOSE)?;
        let dose = self.against(&candidates)?;
        prefer_all(&mut self.solver, &dose);
        prefer_all(&mut self.solver, lits);
        self.jumper.begin_core_query(&self.solver, lits.len());
        Ok(())
    }

    /// Stores a model and drops candidates by it, after candidates that keep their phases in it were turned as far as
    /// that goes by single flips, or a model to which it jumps from there. By its drops the turn goes on.
    fn take_model(&mut self, words: &Words, model: Values, core: &[Lit]) -> Result<(), NoMemory>
        requires post { IsPost self.old }
        requires sits { Sits words.now self.old.seat }
        requires copied { IsLoaded self.old }
        requires model { IsModel self.old.question.now.formula model }
        requires core { AreWithin self.old.question.now.formula.vars core.now }
        requires refuted { 0 < length core.now → IsCoreOf self.old core.now }
        requires serves { Serves self.old core.now model }
        requires room { length self.old.models.models < 2 ^ 26 }
        ensures post { IsPost self.new }
        ensures sits { Sits words.now self.new.seat }
        ensures onward { IsOnward self.old self.new }
        ensures solver { self.new.solver ≡ self.old.solver }
        ensures stored { HasStored self.old.models self.new.models }
        ensures goes { OnOk result (Goes (state_of self.new)) }
        ensures settled { OnOk result (KeepsSettled self.old self.new) }
    {
        let candidates = self.open_block(0, self.question.formula().vars())?;
        let moves = !self.jumper.is_in_zone();
        let mut model = model;
        let rests = self
            .question
            .walk(&mut self.walker, &mut model, &candidates, moves);
        if let Some(better) = self.jump(&model, &candidates, core) {
            return self.absorb(words, &better, Flips::Listed);
        }
        let flips = if rests { Flips::None } else { Flips::Listed };
        self.absorb(words, &model, flips)
    }

    /// A model that leaves fewer of the open candidates than this one, where few are left and a search by flips finds one
    /// that leaves none, or also a model against all that are left, by whose signs the solver then goes on.
    fn jump(&mut self, model: &Values, candidates: &[u32], core: &[Lit]) -> Option<Values>
        requires post { IsPost self.old }
        requires model { IsModel self.old.question.now.formula model.now }
        requires candidates { IsBlockOf self.old.loaded.items self.old.question.now.formula.vars self.old.question.now.formula.vars candidates.now }
        requires core { AreWithin self.old.question.now.formula.vars core.now }
        requires refuted { 0 < length core.now → IsCoreOf self.old core.now }
        ensures post { IsPost self.new }
        ensures same { IsUnmoved self.old self.new }
        ensures model { IfSome result (IsModel self.old.question.now.formula) }
        ensures serves { IfSome result (Serves self.old core.now) }
    {
        let left = self.count_left(model, candidates);
        if left == 0 || left > MOST_LEFT {
            return None;
        }
        if !self.jumper.is_due(&self.solver, left) {
            return None;
        }
        let Ok(wanted) = self.against(candidates) else {
            return None;
        };
        self.jumper
            .jump(self.alloc, &mut self.solver, model, &wanted, core)
    }

    /// How many of the candidates keep their phases in a model.
    fn count_left(&self, model: &Values, candidates: &[u32]) -> usize
        requires post { IsPost self.now }
        requires model { length model.now ≡ self.now.question.now.formula.vars }
        requires candidates { All (λ x. (0 < x) × (x ≤ self.now.question.now.formula.vars)) candidates.now }
    {
        let mut left: usize = 0;
        for var in candidates {
            if !self.is_against(model, *var) {
                left = left.saturating_add(1);
            }
        }
        left
    }

    /// Fixes a core of one literal. Of a core of more it asks for a model in which one of them is false.
    fn take_core(
        &mut self,
        words: &Words,
        core: &[Lit],
        chooser: &mut Box<dyn Chooser>,
    ) -> Result<TurnEnd, NoMemory>
        requires post { IsPost self.old }
        requires sits { Sits words.now self.old.seat }
        requires copied { IsLoaded self.old }
        requires core { IsCoreOf self.old core.now }
        requires room { length self.old.models.models < 2 ^ 26 }
        ensures post { IsPost self.new }
        ensures sits { Sits words.now self.new.seat }
        ensures onward { IsOnward self.old self.new }
        ensures asked { IsAskedTimes 1 self.old.solver.log self.new.solver.log }
        ensures stored { HasStored self.old.models self.new.models }
        ensures follows { IfOk result (λ end. Follows end self.new) }
        ensures settled { OnOk result (KeepsSettled self.old self.new) }
    {
        if core.len() == 1 {
            self.fix_core(words, core);
            return Ok(TurnEnd::Going);
        }
        self.split_core(words, core, chooser)
    }

    /// Fixes the one literal of a core.
    fn fix_core(&mut self, words: &Words, core: &[Lit])
        requires post { IsPost self.old }
        requires sits { Sits words.now self.old.seat }
        requires copied { IsLoaded self.old }
        requires core { IsCoreOf self.old core.now }
        requires one { length core.now ≡ 1 }
        ensures post { IsPost self.new }
        ensures sits { Sits words.now self.new.seat }
        ensures onward { IsOnward self.old self.new }
        ensures models { self.new.models ≡ self.old.models }
        ensures solver { self.new.solver ≡ self.old.solver }
        ensures goes { Goes (state_of self.new) }
        ensures settled { KeepsSettled self.old self.new }
    {
        self.fix_all(words, core);
    }

    /// From here on the solver decides the variables of a core against it. In the zone of the last candidates it goes on by
    /// the signs of a model that differs little from the last one but splits the core, so that few are dropped by it and
    /// the next block still has a core that is easily found.
    fn prefer_split(&mut self, core: &[Lit])
        requires post { IsPost self.old }
        requires core { AreWithin self.old.question.now.formula.vars core.now }
        ensures post { IsPost self.new }
        ensures same { IsUnmoved self.old self.new }
    {
        prefer_against(&mut self.solver, core);
        if self.jumper.begin_split(&self.solver) {
            self.step(core);
        }
    }

    /// Has the solver go on by the signs of a model that splits the core, where a search from the last model finds one, or
    /// else by those of the last model.
    fn step(&mut self, core: &[Lit])
        requires post { IsPost self.old }
        requires core { AreWithin self.old.question.now.formula.vars core.now }
        ensures post { IsPost self.new }
        ensures same { IsUnmoved self.old self.new }
    {
        let Ok(start) = self.recent_model() else {
            return;
        };
        let Some(lit) = self.first_unfixed(core) else {
            return;
        };
        if !self.jumper.step(self.alloc, &mut self.solver, &start, lit) {
            prefer_values(&mut self.solver, &start);
        }
    }

    /// Asks for a model in which some literal of a core is false, and fixes all of them where there is none.
    fn split_core(
        &mut self,
        words: &Words,
        core: &[Lit],
        chooser: &mut Box<dyn Chooser>,
    ) -> Result<TurnEnd, NoMemory>
        requires post { IsPost self.old }
        requires sits { Sits words.now self.old.seat }
        requires copied { IsLoaded self.old }
        requires core { IsCoreOf self.old core.now }
        requires room { length self.old.models.models < 2 ^ 26 }
        ensures post { IsPost self.new }
        ensures sits { Sits words.now self.new.seat }
        ensures onward { IsOnward self.old self.new }
        ensures asked { IsAskedTimes 1 self.old.solver.log self.new.solver.log }
        ensures stored { HasStored self.old.models self.new.models }
        ensures follows { IfOk result (λ end. Follows end self.new) }
        ensures settled { OnOk result (KeepsSettled self.old self.new) }
    {
        self.prefer_split(core);
        match self.ask(words, &[], core, chooser) {
            Asked::Closed => Ok(TurnEnd::Going),
            Asked::Answered(Found::Model(model)) => {
                self.take_model(words, model, core)?;
                Ok(TurnEnd::Going)
            }
            Asked::Answered(Found::AllFixed) => {
                self.fix_all(words, core);
                Ok(TurnEnd::Going)
            }
            Asked::Answered(Found::Spent) => Ok(TurnEnd::Spent),
            Asked::Answered(Found::Memory) => Err(NoMemory),
            Asked::Answered(Found::Core { .. }) => unreachable!(),
            Asked::Answered(Found::Unsat { .. }) => unreachable!(),
        }
    }
}

/// The first open candidates of the words.
fn open_from(alloc: Global, words: &[u64], from: u32, size: u32) -> Result<Vec<u32>, NoMemory>
    requires words { length words.now ≤ 2 ^ 15 }
    requires from { from < length words.now }
    ensures { IfOk result (λ block. IsBlockOfAll words.now size block.items) }
{
    block(alloc, words, from, size)
}

/// From here on the solver decides the variables of these literals by their signs.
fn prefer_all(solver: &mut Solver, lits: &[Lit])
    ensures { solver.new ≡ solver.old }
{
    for lit in lits {
        solver.prefer(*lit);
    }
}

/// From here on the solver decides the variables of these literals by the other signs.
fn prefer_against(solver: &mut Solver, lits: &[Lit])
    ensures { solver.new ≡ solver.old }
{
    for lit in lits {
        solver.prefer(lit.negated());
    }
}
