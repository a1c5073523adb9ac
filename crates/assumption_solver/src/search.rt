ghost use Rattle.std.specs.Prelude.{◌≡◌, ◌+◌, ◌^◌, ◌<◌, ◌≤◌, ℕ, [], ◌∷◌, length, Contains, Some, IfOk, IfSome, IfNone, OnOk, slice_index_or, true};
ghost use Rattle.cnf_core.specs.Literals.{Assignment, AreWithin, IsWithin};
ghost use Rattle.cnf_core.specs.Formulas.{models};
ghost use Rattle.cnf_core.specs.Epochs.{epoch_start};
ghost use Rattle.clause_arena.specs.Entries.{no_literal};
ghost use Rattle.trail_core.specs.declared.entry.Reason.TheVariants.{Decision};
ghost use Rattle.trail_core.specs.Trails.{HasVariable, IsFree, IsTrail, with_entry, IsBacktracked};
ghost use Rattle.watch_lists.specs.Clauses.{IsFalsified};
ghost use Rattle.watch_lists.specs.Laws.{Agrees};
ghost use Rattle.watch_lists.specs.Propagating.{StepSays};
ghost use Rattle.watch_lists.specs.Steps.Compacting.{IsCleared, IsCompacted};
ghost use Rattle.lrat_log.specs.Entries.{learnt_count, known_after, with_new_query};
ghost use Rattle.lrat_log.specs.Fresh.{learnt_in};
ghost use Rattle.assumption_solver.specs.Units.{IsUnitAt};
ghost use Rattle.assumption_solver.specs.Logs.{IsContinued, IsQueried};
ghost use Rattle.assumption_solver.specs.Answers.{IsModelFor, IsEmptyAt, FoundSays};
ghost use Rattle.assumption_solver.specs.Steps.Searching.{HaveUnits};
ghost use Rattle.assumption_solver.specs.Steps.Asserting.{IsUnitNow, IsSecond};
ghost use Rattle.assumption_solver.specs.Steps.Noted.{IsNoted};
ghost use Rattle.assumption_solver.specs.Steps.Standing.{KeepsLearnt, Stands, IsThinned};
ghost use Rattle.assumption_solver.specs.Steps.Queries.{IsGuided, IsRefuted, IsFailed, IsFound, IsSwept, NextSays, CourseSays};
ghost use Rattle.assumption_solver.specs.Steps.States.{Bears, Solves, StaysLearnt, StaysGuided, IsUnlogged, IsSameButTrail, IsGrown};

use crate::Found;
use crate::journal::Journal;
use crate::phases::Phases;
use crate::query::{Course, Next, Query, Sweep};
use chooser_core::Chooser;
use clause_arena::{Arena, ClauseRef, Moves};
use cnf_core::{Lit, NoMemory, Values};
use conflict_analysis::{Analyser, Learnt};
use lrat_log::laws::logged_clause_is_entailed;
use search_policy::{Epochs, Restarts, choose_removals};
use std::alloc::Global;
use trail_core::{Reason, Trail};
use watch_lists::{Step, Watches};

/// How much was done.
#[derive(Clone, Copy, Debug, PartialEq, Eq, Default)]
pub struct Counts {
    pub decisions: u64,
    /// Entries of the trail that were propagated.
    pub propagations: u64,
    pub conflicts: u64,
    pub restarts: u64,
    pub removals: u64,
}

/// When clauses were removed last.
#[derive(Debug, Drop)]
pub struct Removals {
    pub done: u32,
    /// How many clauses had been learnt by then.
    pub learnt: u64,
}

/// A search with a log, between queries and within one.
#[derive(Debug, Drop)]
pub struct Search<'f> {
    pub alloc: Global,
    pub arena: Arena,
    pub watches: Watches,
    pub trail: Trail,
    pub analyser: Analyser,
    pub phases: Phases,
    pub journal: Journal<'f>,
    pub epochs: Epochs,
    pub restarts: Restarts,
    pub removals: Removals,
    /// So many of the first entries of the trail have units as reasons.
    pub settled: u32,
    /// The levels up to this one were opened for assumptions or for the chunk.
    pub base: u32,
    pub counts: Counts,
}

impl<'f> Search<'f> {
    /// Propagates.
    pub fn propagate(&mut self) -> Step
        requires { Solves self.old }
        ensures solves { Solves self.new }
        ensures trail { IsTrail self.new.trail }
        ensures step { StepSays result self.new.arena self.new.trail }
        ensures more { length self.old.trail.entries ≤ length self.new.trail.entries }
        ensures grown { IsGrown self.old.trail.entries self.new.trail.entries }
        ensures level { self.new.trail.level ≡ self.old.trail.level }
        ensures unlogged { IsUnlogged self.old self.new }
        ensures guided { StaysGuided self.old self.new }
    {
        let before = self.trail.gone();
        let step = self.watches.propagate(&mut self.arena, &mut self.trail);
        let propagated = u64::from(self.trail.gone() - before);
        self.counts.propagations = self.counts.propagations.saturating_add(propagated);
        step
    }

    /// At the root, proves each literal that was not yet as a unit clause, so that hints name it by one id. Above
    /// the root that was done before.
    pub fn settle_roots(&mut self) -> Result<(), NoMemory>
        requires { Solves self.old }
        ensures solves { OnOk result (Solves self.new) }
        ensures trail { OnOk result (IsTrail self.new.trail) }
        ensures units { OnOk result (HaveUnits self.new.trail.entries) }
        ensures gone { OnOk result (self.new.trail.gone ≡ self.old.trail.gone) }
        ensures count { OnOk result (length self.new.trail.entries ≡ length self.old.trail.entries) }
        ensures grown { OnOk result (IsGrown self.old.trail.entries self.new.trail.entries) }
        ensures level { OnOk result (self.new.trail.level ≡ self.old.trail.level) }
        ensures vars { OnOk result (self.new.trail.vars ≡ self.old.trail.vars) }
        ensures epochs { OnOk result (self.new.epochs ≡ self.old.epochs) }
        ensures guided { OnOk result (StaysGuided self.old self.new) }
        ensures noted { IsNoted self.old.journal self.new.journal }
    {
        if self.trail.level() > 0 {
            return Ok(());
        }
        while self.settled < self.trail.len() {
            self.settle_next()?;
        }
        Ok(())
    }

    /// Proves the literal of the next root entry as a unit clause, if its reason is another clause.
    fn settle_next(&mut self) -> Result<(), NoMemory>
        requires solves { Solves self.old }
        requires trail { IsTrail self.old.trail }
        requires root { self.old.trail.level ≡ 0 }
        requires within { self.old.settled < length self.old.trail.entries }
        ensures solves { OnOk result (Solves self.new) }
        ensures trail { OnOk result (IsTrail self.new.trail) }
        ensures settled { OnOk result (self.new.settled ≡ self.old.settled + 1) }
        ensures gone { OnOk result (self.new.trail.gone ≡ self.old.trail.gone) }
        ensures count { OnOk result (length self.new.trail.entries ≡ length self.old.trail.entries) }
        ensures grown { OnOk result (IsGrown self.old.trail.entries self.new.trail.entries) }
        ensures level { OnOk result (self.new.trail.level ≡ self.old.trail.level) }
        ensures vars { OnOk result (self.new.trail.vars ≡ self.old.trail.vars) }
        ensures epochs { OnOk result (self.new.epochs ≡ self.old.epochs) }
        ensures guided { OnOk result (StaysGuided self.old self.new) }
        ensures noted { IsNoted self.old.journal self.new.journal }
    {
        let lit = self.trail.lit_at(self.settled);
        let Reason::Clause(_reason) = self.trail.reason_of(lit.var()) else {
            self.settled += 1;
            return Ok(());
        };
        let hints = self.analyser.unit_hints(&self.arena, &self.trail, lit)?;
        let id = self.journal.unit(lit, hints.as_slice())?;
        self.trail.root(lit.var(), id);
        let _level = self.trail.level();
        self.settled += 1;
        Ok(())
    }

    /// Opens a level, and makes a literal without value true there.
    pub fn decide(&mut self, lit: Lit)
        requires solves { Solves self.old }
        requires trail { IsTrail self.old.trail }
        requires quiet { self.old.trail.gone ≡ length self.old.trail.entries }
        requires units { HaveUnits self.old.trail.entries }
        requires within { IsWithin self.old.trail.vars lit }
        requires free { IsFree self.old.trail.entries lit.var }
        ensures solves { Solves self.new }
        ensures trail { self.new.trail ≡ with_entry self.old.trail lit (self.old.trail.level + 1) Decision }
        ensures unlogged { IsUnlogged self.old self.new }
    {
        self.trail.decide(lit);
        self.counts.decisions = self.counts.decisions.saturating_add(1);
    }

    /// Learns a clause from a conflict above the root, goes back, and makes its first literal true. At an epoch's
    /// end clauses are removed.
    pub fn learn(
        &mut self,
        conflict: ClauseRef,
        chooser: &mut Box<dyn Chooser>,
    ) -> Result<(), NoMemory>
        requires solves { Solves self.old }
        requires trail { IsTrail self.old.trail }
        requires conflict { IsFalsified self.old.arena self.old.trail.entries conflict }
        requires above_root { 0 < self.old.trail.level }
        requires room { learnt_count self.old.journal.entries < 2 ^ 40 }
        ensures solves { OnOk result (Solves self.new) }
        ensures guided { OnOk result (StaysGuided self.old self.new) }
        ensures vars { OnOk result (self.new.trail.vars ≡ self.old.trail.vars) }
        ensures count { OnOk result (learnt_count self.new.journal.entries ≡ learnt_count self.old.journal.entries + 1) }
        ensures continued { IsContinued self.old.journal self.new.journal }
        ensures few { learnt_count self.new.journal.entries ≤ learnt_count self.old.journal.entries + 1 }
        ensures asked { asks chooser.new ≡ asks chooser.old }
    {
        let Learnt {
            lits: mut clause,
            back,
            hints,
        } = self.analyser.analyse(&self.arena, &self.trail, conflict)?;
        bump_all(self.analyser.seen(), chooser);
        let id = self.journal.learnt(&clause.lits, hints.as_slice())?;
        self.go_back(back, chooser);
        self.assert_first(&mut clause.lits, id)?;
        self.recycle(Learnt {
            lits: clause,
            back,
            hints,
        });
        self.count_clause(chooser)
    }

    /// Gives the memory of a clause that was learnt back, for the next one.
    fn recycle(&mut self, learnt: Learnt)
        ensures { self.new ≡ self.old }
    {
        self.analyser.recycle(learnt);
    }

    /// Goes back to a level. The variables that lose their values keep their signs.
    pub fn go_back(&mut self, level: u32, chooser: &mut Box<dyn Chooser>)
        requires { level ≤ self.old.trail.level }
        ensures back { IsBacktracked level self.old.trail self.new.trail }
        ensures trail { IsTrail self.new.trail }
        ensures same { IsSameButTrail self.old self.new }
        ensures asked { asks chooser.new ≡ asks chooser.old }
    {
        free_above(&self.trail, level, &mut self.phases, chooser);
        self.base = self.base.min(level);
        self.trail.backtrack(level);
        let _level = self.trail.level();
    }

    /// Makes the first literal of a learnt clause true, which implies it. A clause of more literals is
    /// added and watched.
    fn assert_first(&mut self, lits: &mut [Lit], id: u64) -> Result<(), NoMemory>
        requires bears { Bears self.old }
        requires unit { IsUnitNow self.old.trail lits.old }
        requires known { known_after self.old.journal.formula self.old.journal.entries id ≡ Some lits.old }
        ensures bears { OnOk result (Bears self.new) }
        ensures learnt { OnOk result (StaysLearnt self.old self.new) }
        ensures stands { OnOk result (Stands self.new.arena self.new.trail.entries true lits.old) }
        ensures guided { OnOk result (StaysGuided self.old self.new) }
        ensures vars { OnOk result (self.new.trail.vars ≡ self.old.trail.vars) }
        ensures epochs { OnOk result (self.new.epochs ≡ self.old.epochs) }
        ensures noted { IsNoted self.old.journal self.new.journal }
    {
        let first = lits[0];
        if lits.len() == 1 {
            let unit = self.journal.unit(first, &[id])?;
            self.trail.push(first, Reason::Unit(unit));
            return Ok(());
        }
        let second = second_watch(&self.trail, lits);
        lits.swap(1, second);
        let r = self.arena.add(lits, id, true)?;
        self.watches.attach(&self.arena, r)?;
        self.trail.push(first, Reason::Clause(r));
        Ok(())
    }

    /// Counts a clause that was learnt. At its epoch's end clauses are removed.
    fn count_clause(&mut self, chooser: &mut Box<dyn Chooser>) -> Result<(), NoMemory>
        requires bears { Bears self.old }
        requires learnt { KeepsLearnt self.old.arena self.old.trail.entries
            (learnt_in self.old.journal.entries self.old.journal.query) self.old.epochs.epoch }
        requires counted { self.old.epochs.count + 1 ≡ length (learnt_in self.old.journal.entries self.old.journal.query) }
        requires room { self.old.epochs.count < 2 ^ 40 }
        ensures solves { OnOk result (Solves self.new) }
        ensures guided { OnOk result (StaysGuided self.old self.new) }
        ensures vars { OnOk result (self.new.trail.vars ≡ self.old.trail.vars) }
        ensures noted { IsNoted self.old.journal self.new.journal }
        ensures asked { asks chooser.new ≡ asks chooser.old }
    {
        if self.epochs.due() {
            return self.tidy(chooser);
        }
        Ok(())
    }

    /// Goes back to the root and removes clauses that were learnt. The others stay watched, and what was propagated
    /// stays so.
    pub fn tidy(&mut self, chooser: &mut Box<dyn Chooser>) -> Result<(), NoMemory>
        requires solves { Solves self.old }
        requires over { length (learnt_in self.old.journal.entries self.old.journal.query) ≤ epoch_start self.old.epochs.epoch }
        ensures solves { OnOk result (Solves self.new) }
        ensures root { OnOk result (self.new.trail.level ≡ 0) }
        ensures guided { OnOk result (StaysGuided self.old self.new) }
        ensures vars { OnOk result (self.new.trail.vars ≡ self.old.trail.vars) }
        ensures noted { IsNoted self.old.journal self.new.journal }
        ensures asked { asks chooser.new ≡ asks chooser.old }
    {
        self.go_back(0, chooser);
        self.settle_roots()?;
        let moves = thin(self.alloc, &mut self.arena, &self.trail)?;
        self.watches.follow(&moves);
        self.removals = Removals {
            done: self.removals.done.saturating_add(1),
            learnt: self.journal.count_learnt(),
        };
        self.counts.removals = self.counts.removals.saturating_add(1);
        Ok(())
    }

    /// Proves the empty clause from a conflict at the root, and answers its id.
    pub fn refute(&mut self, conflict: ClauseRef) -> Result<u64, NoMemory>
        requires solves { Solves self.old }
        requires trail { IsTrail self.old.trail }
        requires conflict { IsFalsified self.old.arena self.old.trail.entries conflict }
        requires root { self.old.trail.level ≡ 0 }
        ensures solves { OnOk result (Solves self.new) }
        ensures empty { IfOk result (λ id. IsEmptyAt self.new.journal id × (models self.new.journal.formula ≡ [])) }
        ensures noted { IsNoted self.old.journal self.new.journal }
    {
        let hints = self
            .analyser
            .refute_root(&self.arena, &self.trail, conflict)?;
        let id = self.journal.empty(hints.as_slice())?;
        self.journal.prove_log();
        logged_clause_is_entailed();
        Ok(id)
    }

    /// The core of an assumption that is false above the root.
    pub fn core(&mut self, lit: Lit, query: &Query) -> Result<Found, NoMemory>
        requires solves { Solves self.old }
        requires trail { IsTrail self.old.trail }
        requires failed { IsFailed query.now.assume.now self.old.trail lit }
        requires guided { IsGuided query.now.assume.now query.now.chunk.now self.old.trail }
        ensures solves { OnOk result (Solves self.new) }
        ensures found { (budget : ℕ) → IfOk result (λ f. FoundSays f query.now.assume.now query.now.chunk.now budget self.new.journal) }
        ensures noted { IsNoted self.old.journal self.new.journal }
    {
        let Learnt {
            lits,
            back: _,
            hints,
        } = self.analyser.final_core(&self.arena, &self.trail, lit)?;
        if lits.len() == 1 {
            let entry = self.journal.unit(lits.lits[0], hints.as_slice())?;
            return Ok(Found::Core {
                lits: lits.lits,
                entry,
            });
        }
        let entry = self.journal.core(lits.as_slice(), hints.as_slice())?;
        Ok(Found::Core {
            lits: lits.lits,
            entry,
        })
    }

    /// The core of an assumption that is false at the root.
    pub fn root_core(&mut self, lit: Lit, query: &Query) -> Result<Found, NoMemory>
        requires solves { Solves self.old }
        requires trail { IsTrail self.old.trail }
        requires within { AreWithin self.old.journal.formula.vars query.now.assume.now }
        requires units { HaveUnits self.old.trail.entries }
        requires refuted { IsRefuted query.now.assume.now self.old.trail lit }
        ensures solves { OnOk result (Solves self.new) }
        ensures found { (budget : ℕ) → IfOk result (λ f. FoundSays f query.now.assume.now query.now.chunk.now budget self.new.journal) }
        ensures noted { IsNoted self.old.journal self.new.journal }
    {
        let fixed = lit.negated();
        let Some(id) = self.journal.unit_id(fixed) else {
            unreachable!()
        };
        let entry = self.journal.unit(fixed, &[id])?;
        let lits = vec![in self.alloc; fixed]?;
        Ok(Found::Core { lits, entry })
    }

    /// Makes a literal true at the root that an entry shows by itself.
    pub fn take_root(&mut self, lit: Lit, id: u64)
        requires solves { Solves self.old }
        requires root { self.old.trail.level ≡ 0 }
        requires within { IsWithin self.old.trail.vars lit }
        requires free { IsFree self.old.trail.entries lit.var }
        requires unit { IsUnitAt self.old.journal id lit }
        ensures solves { Solves self.new }
        ensures root { self.new.trail.level ≡ 0 }
        ensures unlogged { IsUnlogged self.old self.new }
    {
        self.trail.push(lit, Reason::Unit(id));
    }
}

/// Tells the chooser of each variable.
fn bump_all(vars: &[u32], chooser: &mut Box<dyn Chooser>)
    ensures { asks chooser.new ≡ asks chooser.old }
{
    for var in vars {
        chooser.bump(*var);
    }
}

/// Keeps the signs of the literals above a level, and tells the chooser that they lose their values.
fn free_above(trail: &Trail, level: u32, phases: &mut Phases, chooser: &mut Box<dyn Chooser>)
    ensures { asks chooser.new ≡ asks chooser.old }
{
    let mut place = trail.len();
    while place > 0 {
        let lit = trail.lit_at(place - 1);
        if trail.level_of(lit.var()) <= level {
            return;
        }
        phases.save(lit);
        chooser.freed(lit.var());
        place -= 1;
    }
}

/// Removes learnt clauses, keeps the others alone, and says where they went.
fn thin(alloc: Global, arena: &mut Arena, trail: &Trail) -> Result<Moves, NoMemory>
    ensures thinned { OnOk result (IsThinned arena.old arena.new) }
    ensures compacted { IfOk result (λ moves. IsCompacted arena.old arena.new moves) }
{
    for r in &choose_removals(alloc, arena, trail)? {
        remove_learnt(arena, *r);
    }
    let moves = arena.compact()?;
    Ok(moves)
}

/// Removes a clause if it is a live one that was learnt.
fn remove_learnt(arena: &mut Arena, r: ClauseRef)
    ensures thinned { IsThinned arena.old arena.new }
    ensures cleared { IsCleared arena.old arena.new }
{
    if r.place() >= arena.len() {
        return;
    }
    if !arena.is_live(r) {
        return;
    }
    if !arena.is_learnt(r) {
        return;
    }
    arena.remove(r);
}

/// The place of a literal behind the first that has a value of the present level, or 1 where none has.
fn second_watch(trail: &Trail, lits: &[Lit]) -> usize
    requires long { 1 < length lits.now }
    requires valued { (i : ℕ) → 0 < i → i < length lits.now → HasVariable trail.now.entries (slice_index_or lits.now i no_literal).var }
    ensures { IsSecond trail.now.entries lits.now trail.now.level result }
{
    let level = trail.level();
    for i in 1..lits.len() {
        if trail.level_of(lits[i].var()) == level {
            return i;
        }
    }
    1
}
