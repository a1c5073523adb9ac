//! The course of a query.
ghost use Rattle.std.specs.Prelude.{◌≡◌, ◌+◌, ◌-◌, ◌^◌, ◌<◌, ◌≤◌, ◌↔◌, ℕ, ℤ, pos, [], length, Contains, IfOk, OnOk, OnErr, IsTrue, slice_index_or};
ghost use Rattle.cnf_core.specs.Literals.{Literal, AreWithin, IsWithin, negated};
ghost use Rattle.trail_core.specs.Trails.{IsTrail, IsFree, HasLiteral};
ghost use Rattle.watch_lists.specs.Laws.{Agrees};
ghost use Rattle.cnf_core.specs.Formulas.{Entails};
ghost use Rattle.lrat_log.specs.Entries.{learnt_count, with_import};
ghost use Rattle.assumption_solver.specs.Logs.{IsContinued, IsQueried};
ghost use Rattle.assumption_solver.specs.Answers.{IsModelFor, FoundSays};
ghost use Rattle.assumption_solver.specs.Steps.Searching.{HaveUnits};
ghost use Rattle.assumption_solver.specs.Steps.Noted.{IsNoted};
ghost use Rattle.assumption_solver.specs.Steps.Queries.{IsGuided, IsFound, IsSwept, HasSplit, IsAllFixed, MayDecide, NextSays, CourseSays, SplitSays, SweepSays};
ghost use Rattle.assumption_solver.specs.Steps.States.{Solves, StaysGuided, IsUnlogged, IsGrown};

use crate::Found;
use crate::query::{Course, Next, Query, Split, Sweep};
use crate::search::Search;
use chooser_core::Chooser;
use cnf_core::{Lit, NoMemory, Values};
use watch_lists::Step;

impl<'f> Search<'f> {
    /// Begins a query: the search is at the root. Clauses that were learnt before are removed where enough were
    /// learnt since the last time.
    pub fn begin_query(&mut self, chooser: &mut Box<dyn Chooser>) -> Result<(), NoMemory>
        requires solves { Solves self.old }
        requires root { self.old.trail.level ≡ 0 }
        ensures solves { OnOk result (Solves self.new) }
        ensures root { OnOk result (self.new.trail.level ≡ 0) }
        ensures queried { IsQueried self.old.journal self.new.journal }
        ensures count { learnt_count self.new.journal.entries ≡ learnt_count self.old.journal.entries }
        ensures asked { asks chooser.new ≡ asks chooser.old }
    {
        self.journal.begin_query();
        self.epochs.begin();
        if self.is_crowded() {
            self.tidy(chooser)?;
        }
        Ok(())
    }

    /// Whether so many clauses were learnt since the last removal that a query begins with one.
    fn is_crowded(&self) -> bool {
        let learnt = self
            .journal
            .count_learnt()
            .saturating_sub(self.removals.learnt);
        learnt >= 1000 + 100 * u64::from(self.removals.done)
    }

    /// Goes on with a query from the root until there is an answer, or so many clauses were learnt. However it ends, the
    /// search is at the root again.
    pub fn go_on(
        &mut self,
        query: &Query,
        chooser: &mut Box<dyn Chooser>,
        stop: u64,
    ) -> Result<Found, NoMemory>
        requires solves { Solves self.old }
        requires root { self.old.trail.level ≡ 0 }
        requires assume { AreWithin self.old.journal.formula.vars query.now.assume.now }
        requires chunk { AreWithin self.old.journal.formula.vars query.now.chunk.now }
        requires apart { 0 < length query.now.assume.now → length query.now.chunk.now ≡ 0 }
        requires limit { stop ≤ 2 ^ 40 }
        requires few { learnt_count self.old.journal.entries ≤ stop }
        ensures solves { OnOk result (Solves self.new) }
        ensures root { OnOk result (self.new.trail.level ≡ 0) }
        ensures found { IfOk result (λ f. FoundSays f query.now.assume.now query.now.chunk.now stop self.new.journal) }
        ensures continued { IsContinued self.old.journal self.new.journal }
        ensures most { learnt_count self.new.journal.entries ≤ stop }
        ensures asked { asks chooser.old ≤ asks chooser.new }
    {
        let _level = self.trail.level();
        let found = self.run(query, chooser, stop)?;
        self.go_back(0, chooser);
        Ok(found)
    }

    /// Begins a query, and goes on with it until there is an answer, or so many clauses were learnt.
    pub fn answer(
        &mut self,
        query: &Query,
        chooser: &mut Box<dyn Chooser>,
        stop: u64,
    ) -> Result<Found, NoMemory>
        requires solves { Solves self.old }
        requires root { self.old.trail.level ≡ 0 }
        requires assume { AreWithin self.old.journal.formula.vars query.now.assume.now }
        requires chunk { AreWithin self.old.journal.formula.vars query.now.chunk.now }
        requires apart { 0 < length query.now.assume.now → length query.now.chunk.now ≡ 0 }
        requires limit { stop ≤ 2 ^ 40 }
        requires few { learnt_count self.old.journal.entries ≤ stop }
        ensures solves { OnOk result (Solves self.new) }
        ensures root { OnOk result (self.new.trail.level ≡ 0) }
        ensures found { IfOk result (λ f. FoundSays f query.now.assume.now query.now.chunk.now stop self.new.journal) }
        ensures queried { IsQueried self.old.journal self.new.journal }
        ensures most { learnt_count self.new.journal.entries ≤ stop }
        ensures asked { asks chooser.old ≤ asks chooser.new }
    {
        self.begin_query(chooser)?;
        self.go_on(query, chooser, stop)
    }

    /// Takes a literal that another log shows.
    pub fn take_unit(&mut self, lit: Lit, stamp: u32) -> Result<(), NoMemory>
        requires solves { Solves self.old }
        requires root { self.old.trail.level ≡ 0 }
        requires within { IsWithin self.old.journal.formula.vars lit }
        requires entailed { Entails self.old.journal.formula lit }
        ensures solves { OnOk result (Solves self.new) }
        ensures root { OnOk result (self.new.trail.level ≡ 0) }
        ensures log { OnOk result (self.new.journal ≡ with_import self.old.journal lit stamp) }
        ensures err { OnErr result (self.new.journal ≡ self.old.journal) }
    {
        let id = self.journal.import(lit, stamp)?;
        if self.trail.value(lit).is_some() {
            return Ok(());
        }
        self.take_root(lit, id);
        Ok(())
    }

    /// Searches until there is an answer, or so many clauses were learnt.
    fn run(
        &mut self,
        query: &Query,
        chooser: &mut Box<dyn Chooser>,
        stop: u64,
    ) -> Result<Found, NoMemory>
        requires solves { Solves self.old }
        requires guided { IsGuided query.now.assume.now query.now.chunk.now self.old.trail }
        requires assume { AreWithin self.old.journal.formula.vars query.now.assume.now }
        requires chunk { AreWithin self.old.journal.formula.vars query.now.chunk.now }
        requires apart { 0 < length query.now.assume.now → length query.now.chunk.now ≡ 0 }
        requires limit { stop ≤ 2 ^ 40 }
        requires few { learnt_count self.old.journal.entries ≤ stop }
        ensures solves { OnOk result (Solves self.new) }
        ensures found { IfOk result (λ f. FoundSays f query.now.assume.now query.now.chunk.now stop self.new.journal) }
        ensures continued { IsContinued self.old.journal self.new.journal }
        ensures most { learnt_count self.new.journal.entries ≤ stop }
        ensures asked { asks chooser.old ≤ asks chooser.new }
    {
        loop {
            let conflict = match self.advance(query, chooser)? {
                Course::Conflict(conflict) => conflict,
                Course::Refuted(lit) => return self.root_core(lit, query),
                Course::Failed(lit) => return self.core(lit, query),
                Course::AllFixed => return Ok(Found::AllFixed),
                Course::Complete => return Ok(Found::Model(self.model()?)),
            };
            if self.trail.level() == 0 {
                let entry = self.refute(conflict)?;
                return Ok(Found::Unsat { entry });
            }
            if self.journal.count_learnt() >= stop {
                return Ok(Found::Spent);
            }
            self.learn(conflict, chooser)?;
            self.restart(chooser);
        }
    }

    /// Counts a conflict. Where a restart is due, goes back to the levels of the assumptions, or of the chunk.
    fn restart(&mut self, chooser: &mut Box<dyn Chooser>)
        requires { Solves self.old }
        ensures solves { Solves self.new }
        ensures guided { StaysGuided self.old self.new }
        ensures unlogged { IsUnlogged self.old self.new }
        ensures asked { asks chooser.new ≡ asks chooser.old }
    {
        self.counts.conflicts = self.counts.conflicts.saturating_add(1);
        if self.restarts.due() {
            self.counts.restarts = self.counts.restarts.saturating_add(1);
            let level = self.base.min(self.trail.level());
            self.go_back(level, chooser);
        }
    }

    /// Propagates and decides until there is a conflict, or nothing to decide.
    fn advance(&mut self, query: &Query, chooser: &mut Box<dyn Chooser>) -> Result<Course, NoMemory>
        requires solves { Solves self.old }
        requires guided { IsGuided query.now.assume.now query.now.chunk.now self.old.trail }
        requires assume { AreWithin self.old.trail.vars query.now.assume.now }
        requires chunk { AreWithin self.old.trail.vars query.now.chunk.now }
        requires apart { 0 < length query.now.assume.now → length query.now.chunk.now ≡ 0 }
        ensures solves { OnOk result (Solves self.new) }
        ensures trail { OnOk result (IsTrail self.new.trail) }
        ensures guided { OnOk result (IsGuided query.now.assume.now query.now.chunk.now self.new.trail) }
        ensures vars { OnOk result (self.new.trail.vars ≡ self.old.trail.vars) }
        ensures epochs { OnOk result (self.new.epochs ≡ self.old.epochs) }
        ensures course { IfOk result (λ course. CourseSays course query.now.assume.now query.now.chunk.now self.new.arena self.new.trail) }
        ensures noted { IsNoted self.old.journal self.new.journal }
        ensures asked { asks chooser.old ≤ asks chooser.new }
    {
        let mut sweep = Sweep {
            passed: 0,
            refuted: None,
        };
        loop {
            match self.propagate() {
                Step::Quiet => {}
                Step::Conflict(r) => return Ok(Course::Conflict(r)),
                Step::Memory => return Err(NoMemory),
            }
            self.settle_roots()?;
            match self.next_step(query, &mut sweep, chooser) {
                Next::Assume(lit) => {
                    self.decide(lit);
                    self.base = self.trail.level();
                }
                Next::Decide(lit) => self.decide(lit),
                Next::Refuted(lit) => return Ok(Course::Refuted(lit)),
                Next::Failed(lit) => return Ok(Course::Failed(lit)),
                Next::AllFixed => return Ok(Course::AllFixed),
                Next::Complete => return Ok(Course::Complete),
            }
        }
    }

    /// The next step on a quiet trail: the assumptions come first, in their order. One that is false at the root doesn't
    /// end them: the first such is noted, and the others are decided.
    fn next_step(&self, query: &Query, sweep: &mut Sweep, chooser: &mut Box<dyn Chooser>) -> Next
        requires trail { IsTrail self.now.trail }
        requires quiet { self.now.trail.gone ≡ length self.now.trail.entries }
        requires guided { IsGuided query.now.assume.now query.now.chunk.now self.now.trail }
        requires assume { AreWithin self.now.trail.vars query.now.assume.now }
        requires chunk { AreWithin self.now.trail.vars query.now.chunk.now }
        requires apart { 0 < length query.now.assume.now → length query.now.chunk.now ≡ 0 }
        requires swept { IsSwept query.now.assume.now self.now.trail sweep.old }
        ensures next { NextSays result query.now.assume.now query.now.chunk.now self.now.trail }
        ensures swept { IsSwept query.now.assume.now self.now.trail sweep.new }
        ensures asked { asks chooser.old ≤ asks chooser.new }
    {
        if let Some(next) = self.next_assumption(query, sweep) {
            return next;
        }
        if let Some(lit) = sweep.refuted {
            return Next::Refuted(lit);
        }
        match self.split(query) {
            Split::Made => self.pick(query, chooser),
            Split::Open(lit) => Next::Assume(lit.negated()),
            Split::AllFixed => Next::AllFixed,
        }
    }

    /// Goes on along the assumptions to one that is without value, or false above the root. There the core is that of the
    /// first that is false at the root, if one was noted: its unit stands already.
    fn next_assumption(&self, query: &Query, sweep: &mut Sweep) -> Option<Next>
        requires trail { IsTrail self.now.trail }
        requires guided { IsGuided query.now.assume.now query.now.chunk.now self.now.trail }
        requires assume { AreWithin self.now.trail.vars query.now.assume.now }
        requires apart { 0 < length query.now.assume.now → length query.now.chunk.now ≡ 0 }
        requires swept { IsSwept query.now.assume.now self.now.trail sweep.old }
        ensures { SweepSays result query.now.assume.now query.now.chunk.now self.now.trail sweep.new }
    {
        while sweep.passed < query.assume.len() {
            let lit = query.assume[sweep.passed];
            match self.trail.value(lit) {
                Some(true) => {}
                Some(false) => {
                    if self.trail.level_of(lit.var()) > 0 {
                        return Some(match sweep.refuted {
                            Some(first) => Next::Refuted(first),
                            None => Next::Failed(lit),
                        });
                    }
                    if sweep.refuted.is_none() {
                        sweep.refuted = Some(lit);
                    }
                }
                None => return Some(Next::Assume(lit)),
            }
            sweep.passed += 1;
        }
        None
    }

    /// Whether the chunk is split, or which of its literals can be made false.
    fn split(&self, query: &Query) -> Split
        requires trail { IsTrail self.now.trail }
        requires guided { IsGuided query.now.assume.now query.now.chunk.now self.now.trail }
        requires chunk { AreWithin self.now.trail.vars query.now.chunk.now }
        ensures { SplitSays result query.now.chunk.now self.now.trail }
    {
        if self.trail.level() > 0 {
            return Split::Made;
        }
        if query.chunk.is_empty() {
            return Split::Made;
        }
        let mut open = None;
        for lit in query.chunk {
            match self.trail.value(*lit) {
                Some(true) => {}
                Some(false) => return Split::Made,
                None => {
                    if open.is_none() {
                        open = Some(*lit);
                    }
                }
            }
        }
        match open {
            Some(lit) => Split::Open(lit),
            None => Split::AllFixed,
        }
    }

    /// The variable that the chooser picks, or the least that is free where its answer isn't.
    fn pick(&self, query: &Query, chooser: &mut Box<dyn Chooser>) -> Next
        requires trail { IsTrail self.now.trail }
        requires quiet { self.now.trail.gone ≡ length self.now.trail.entries }
        requires guided { IsGuided query.now.assume.now query.now.chunk.now self.now.trail }
        requires assumed { (x : Literal) → Contains query.now.assume.now x → HasLiteral self.now.trail.entries x }
        requires split { 0 < length query.now.chunk.now → HasSplit self.now.trail.entries query.now.chunk.now }
        ensures next { NextSays result query.now.assume.now query.now.chunk.now self.now.trail }
        ensures asked { asks chooser.old ≤ asks chooser.new }
    {
        let Some(free) = self.trail.first_free() else {
            return Next::Complete;
        };
        let _asked = chooser.asked();
        let picked = chooser.pick(self.trail.values(), free);
        let var = if self.is_free(picked) { picked } else { free };
        Next::Decide(Lit::new(var, self.phases.sign(var)))
    }

    /// Whether the number is a variable without value.
    fn is_free(&self, var: u32) -> bool
        requires { IsTrail self.now.trail }
        ensures { IsTrue result → (0 < var) × (var ≤ self.now.trail.vars) × IsFree self.now.trail.entries var }
    {
        if var == 0 || var > self.trail.vars() {
            return false;
        }
        self.trail.value(Lit::new(var, true)).is_none()
    }

    /// The values of a trail that has one for each variable.
    fn model(&self) -> Result<Values, NoMemory>
        requires { IsTrail self.now.trail }
        ensures agrees { IfOk result (λ m. Agrees m self.now.trail) }
        ensures count { IfOk result (λ m. length m ≡ self.now.trail.vars) }
    {
        let mut model = Values::new(self.alloc, self.trail.vars())?;
        for place in 0..self.trail.len() {
            let lit = self.trail.lit_at(place);
            model.set(lit.var(), lit.positive());
        }
        Ok(model)
    }
}
