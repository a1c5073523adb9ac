ghost use Rattle.std.specs.Prelude.{◌≡◌, ◌+◌, ◌^◌, ◌⊎◌, ◌<◌, ◌≤◌, ◌↔◌, ◌≢◌, [], length, IfOk, OnOk, OnErr, IsTrue, true};
ghost use Rattle.cnf_core.specs.Literals.{AreWithin, IsWithin};
ghost use Rattle.cnf_core.specs.Formulas.{Entails, models};
ghost use Rattle.lrat_log.specs.Entries.{learnt_count, with_import};
ghost use Rattle.assumption_solver.specs.Units.{HasUnit};
ghost use Rattle.assumption_solver.specs.Logs.{IsContinued, IsQueried};
ghost use Rattle.assumption_solver.specs.Answers.{FoundSays, ProgressSays, IsBegun};
ghost use Rattle.assumption_solver.specs.declared.found.Found.{Found};
ghost use Rattle.assumption_solver.specs.declared.found.Progress.{Progress};

use crate::query::Query;
use crate::search::{Counts, Search};
use crate::{Found, Progress};
use chooser_core::Chooser;
use cnf_core::{Formula, Lit, NoMemory};
use lrat_log::Log;
use std::alloc::Global;
use std::marker::Model;

/// How a solver stands between calls.
#[derive(Clone, Copy, Debug)]
pub(crate) enum State {
    /// At the root.
    Searching,
    /// There is no model: the id of the empty clause.
    Refuted(u64),
    /// It had no memory.
    NoMemory,
}

/// A solver for one formula, which is asked one query after another.
///
/// All that it derives stands in its log, each clause with its hints. Whatever the chooser answers, what is found is
/// right. After want of memory it answers `Memory` for good, and its log stays readable and true.
#[derive(Debug, Drop)]
pub struct Solver<'f> {
    search: Search<'f>,
    state: State,
}

impl<'f> Model for Solver<'f> {
    ghost use Rattle.assumption_solver.specs.SolverStates.{SolverState};
    ghost use Rattle.assumption_solver.specs.Steps.Held.{seen, IsHeld};

    ghost Value = { SolverState };

    ghost view = { λ s. seen s.search s.state };

    ghost invariant = { λ s. IsHeld s.search s.state };
}

impl<'f> Solver<'f> {
    /// A solver of the formula. Tautologies aren't watched, and a doubled literal counts once.
    pub fn new(alloc: Global, formula: &'f Formula) -> Result<Solver<'f>, NoMemory>
        ensures { IfOk result (λ s. IsBegun formula.now s) }
    {
        let mut search = Search::begun(alloc, formula)?;
        let state = match search.load(formula)? {
            Some(entry) => State::Refuted(entry),
            None => State::Searching,
        };
        Ok(Solver { search, state })
    }

    /// Asks for a model in which all assumptions are true, or one in which some literal of the chunk is false, or any
    /// model where both lists are empty. It begins a query, and ends where the log holds `budget` learnt clauses and
    /// another is due. After `Spent` the same call with a greater budget goes on.
    pub fn solve(
        &mut self,
        assume: &[Lit],
        chunk: &[Lit],
        chooser: &mut Box<dyn Chooser>,
        budget: u64,
    ) -> Found
        requires assume { AreWithin self.old.log.formula.vars assume.now }
        requires chunk { AreWithin self.old.log.formula.vars chunk.now }
        requires apart { 0 < length assume.now → length chunk.now ≡ 0 }
        requires limit { budget ≤ 2 ^ 40 }
        requires few { learnt_count self.old.log.entries ≤ budget }
        ensures found { FoundSays result assume.now chunk.now budget self.new.log }
        ensures dead { self.old.dead ≡ true → result ≡ Found.Memory }
        ensures memory { result ≡ Found.Memory → self.new.dead ≡ true }
        ensures alive { self.new.dead ≡ true → result ≡ Found.Memory }
        ensures log { IsQueried self.old.log self.new.log }
        ensures most { learnt_count self.new.log.entries ≤ budget }
        ensures asked { asks chooser.old ≤ asks chooser.new }
    {
        let query = Query { assume, chunk };
        match self.state {
            State::Searching => match self.search.answer(&query, chooser, budget) {
                Ok(Found::Unsat { entry }) => {
                    self.state = State::Refuted(entry);
                    Found::Unsat { entry }
                }
                Ok(Found::Memory) | Err(NoMemory) => {
                    self.state = State::NoMemory;
                    Found::Memory
                }
                Ok(found) => found,
            },
            State::Refuted(entry) => {
                self.search.journal.begin_query();
                Found::Unsat { entry }
            }
            State::NoMemory => {
                self.search.journal.begin_query();
                Found::Memory
            }
        }
    }

    /// Begins a query that is asked for in slices, by [`Solver::go_on`].
    pub fn begin(&mut self, chooser: &mut Box<dyn Chooser>)
        ensures log { IsQueried self.old.log self.new.log }
        ensures count { learnt_count self.new.log.entries ≡ learnt_count self.old.log.entries }
        ensures dead { self.old.dead ≡ true → self.new.dead ≡ true }
        ensures asked { asks chooser.new ≡ asks chooser.old }
    {
        match self.state {
            State::Searching => match self.search.begin_query(chooser) {
                Ok(()) => {}
                Err(NoMemory) => self.state = State::NoMemory,
            },
            State::Refuted(_) | State::NoMemory => self.search.journal.begin_query(),
        }
    }

    /// Goes on with a query for at most so many conflicts that teach a clause: as [`Solver::solve`], but that it may
    /// answer that the slice is over. Then the next one goes on, in the same query.
    pub fn go_on(
        &mut self,
        assume: &[Lit],
        chunk: &[Lit],
        chooser: &mut Box<dyn Chooser>,
        budget: u64,
        conflicts: u64,
    ) -> Progress
        requires assume { AreWithin self.old.log.formula.vars assume.now }
        requires chunk { AreWithin self.old.log.formula.vars chunk.now }
        requires apart { 0 < length assume.now → length chunk.now ≡ 0 }
        requires limit { budget ≤ 2 ^ 40 }
        requires few { learnt_count self.old.log.entries ≤ budget }
        ensures progress { ProgressSays result assume.now chunk.now budget
            (learnt_count self.old.log.entries + conflicts) self.new.log }
        ensures dead { self.old.dead ≡ true → result ≡ Progress.Found Found.Memory }
        ensures memory { result ≡ Progress.Found Found.Memory → self.new.dead ≡ true }
        ensures alive { self.new.dead ≡ true → result ≡ Progress.Found Found.Memory }
        ensures log { IsContinued self.old.log self.new.log }
        ensures most { learnt_count self.new.log.entries ≤ budget }
        ensures slice { learnt_count self.new.log.entries ≤ learnt_count self.old.log.entries + conflicts }
        ensures asked { asks chooser.old ≤ asks chooser.new }
    {
        let query = Query { assume, chunk };
        match self.state {
            State::Searching => {}
            State::Refuted(entry) => return Progress::Found(Found::Unsat { entry }),
            State::NoMemory => return Progress::Found(Found::Memory),
        }
        let count = self.search.journal.count_learnt();
        if conflicts >= budget - count {
            return match self.search.go_on(&query, chooser, budget) {
                Ok(Found::Unsat { entry }) => {
                    self.state = State::Refuted(entry);
                    Progress::Found(Found::Unsat { entry })
                }
                Ok(Found::Memory) | Err(NoMemory) => {
                    self.state = State::NoMemory;
                    Progress::Found(Found::Memory)
                }
                Ok(found) => Progress::Found(found),
            };
        }
        match self.search.go_on(&query, chooser, count + conflicts) {
            Ok(Found::Spent) => Progress::Paused,
            Ok(Found::Unsat { entry }) => {
                self.state = State::Refuted(entry);
                Progress::Found(Found::Unsat { entry })
            }
            Ok(Found::Memory) | Err(NoMemory) => {
                self.state = State::NoMemory;
                Progress::Found(Found::Memory)
            }
            Ok(found) => Progress::Found(found),
        }
    }

    /// Takes a literal that another log shows, at its stamp. It holds in every model, and there is one. After want of
    /// memory as after `Memory`.
    pub fn add_unit(&mut self, lit: Lit, stamp: u32) -> Result<(), NoMemory>
        requires within { IsWithin self.old.log.formula.vars lit }
        requires entailed { Entails self.old.log.formula lit }
        requires has_model { models self.old.log.formula ≢ [] }
        ensures known { HasUnit self.old.log lit → self.new ≡ self.old }
        ensures added { OnOk result ((HasUnit self.old.log lit → ⊥) → self.new.log ≡ with_import self.old.log lit stamp) }
        ensures alive { OnOk result (self.new.dead ≡ self.old.dead) }
        ensures err { OnErr result ((self.new.log ≡ self.old.log) × (self.new.dead ≡ true)) }
    {
        match self.state {
            State::Searching => {
                if self.search.journal.unit_id(lit).is_some() {
                    return Ok(());
                }
                match self.search.take_unit(lit, stamp) {
                    Ok(()) => Ok(()),
                    Err(error) => {
                        self.state = State::NoMemory;
                        Err(error)
                    }
                }
            }
            State::Refuted(_) => unreachable!(),
            State::NoMemory => Err(NoMemory),
        }
    }

    /// Whether the log has an entry that shows the literal by itself.
    pub fn is_root(&self, lit: Lit) -> bool
        ensures { IsTrue result ↔ HasUnit self.now.log lit }
    {
        self.search.journal.unit_id(lit).is_some()
    }

    /// How many literals can be read off by [`Solver::root_at`]: those that are true at the root of the search, and
    /// that its log shows. None where it answers `Unsat` or `Memory` for good.
    pub fn root_count(&self) -> u32
        ensures { result ≡ self.now.roots }
    {
        match self.state {
            State::Searching => self.search.settled,
            State::Refuted(_) | State::NoMemory => 0,
        }
    }

    /// One of the literals that are true at the root, by its place from 0. New ones come behind the others, so that a
    /// caller goes on from where it was.
    pub fn root_at(&self, place: u32) -> Lit
        requires { place < self.now.roots }
        ensures { HasUnit self.now.log result }
    {
        self.search.trail.lit_at(place)
    }

    /// From here on, until it gets another value, the variable is decided by this literal's sign.
    pub fn prefer(&mut self, lit: Lit)
        ensures { self.new ≡ self.old }
    {
        self.search.phases.save(lit);
    }

    /// What was done so far.
    pub fn counts(&self) -> Counts {
        self.search.counts
    }

    /// The log.
    pub fn log(&self) -> &Log<'f>
        ensures { result.now ≡ self.now.log }
    {
        self.search.journal.log()
    }

    /// The log alone.
    pub fn into_log(self) -> Log<'f>
        ensures { result ≡ self.entry.log }
    {
        self.search.journal.into_log()
    }
}
