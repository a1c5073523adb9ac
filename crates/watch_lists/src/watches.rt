ghost use Rattle.std.specs.Prelude.{◌≡◌, ◌+◌, ◌^◌, ◌<◌, ◌≤◌, length, IfOk, IfSome, IfNone, OnOk, OnErr};
ghost use Rattle.cnf_core.specs.Literals.{IsWithin, negated};
ghost use Rattle.clause_arena.specs.Entries.{entry_at, len_of, literal_of};
ghost use Rattle.trail_core.specs.Trails.{HasLiteral};
ghost use Rattle.watch_lists.specs.Clauses.{IsLong, IsClean, AreClean, IsReordered};
ghost use Rattle.watch_lists.specs.Lists.{IsSized, list_of, watch_at, empty_lists, with_watch, with_clause, with_clauses, IsAttached};
ghost use Rattle.watch_lists.specs.Moving.{GoDown, moved_list, moved_lists};
ghost use Rattle.watch_lists.specs.Steps.Lists.{with_watch_at, without_watch};
ghost use Rattle.watch_lists.specs.Watching.{IsReady};
ghost use Rattle.watch_lists.specs.Steps.Visiting.{IsOther, IsWatchPlace, AreFalseBelow, IsAdvanced, IsVisiting, FateSays, ForceSays, VisitSays};
ghost use Rattle.watch_lists.specs.Propagating.{IsPropagated, StepSays};

use crate::Step;
use crate::step::Fate;
use crate::watch::{PLACES, Watch};
use clause_arena::{Arena, ClauseRef, Moves};
use cnf_core::{Lit, NoMemory};
use std::alloc::Global;
use std::marker::Model;
use trail_core::{Reason, Trail};

/// For each literal the clauses that watch it.
///
/// The lists are indexed by the packed form of the literal that is watched, and gone through where it
/// becomes false.
#[derive(Debug, Drop)]
pub struct Watches {
    lists: Vec<Vec<Watch>>,
    vars: u32,
}

impl Model for Watches {
    ghost use Rattle.std.specs.Prelude.{◌≡◌, ◌+◌, ◌*◌, length, map};
    ghost use Rattle.watch_lists.specs.Lists.{WatchLists};

    ghost Value = { WatchLists };

    ghost view = { λ w. record { lists = map (λ v. v.items) w.lists.items; vars = w.vars } };

    ghost invariant = { λ w. length w.lists.items ≡ 2 * w.vars + 2 };
}

impl Watches {
    /// Lists without watches, for the variables 1 to so many, at most 2^20.
    pub fn new(alloc: Global, vars: u32) -> Result<Watches, NoMemory>
        requires { vars ≤ 2 ^ 20 }
        ensures { IfOk result (λ w. w ≡ empty_lists vars) }
    {
        let count = 2 * vars as usize + 2;
        let mut lists = Vec::with_capacity(alloc, count)?;
        for _place in 0..count {
            lists.push_reserved(Vec::new(alloc));
        }
        Ok(Watches { lists, vars })
    }

    /// How many watches a literal has.
    #[inline(always)]
    fn count(&self, lit: Lit) -> usize
        requires { IsWithin self.now.vars lit }
        ensures value { result ≡ length (list_of self.now lit) }
        ensures sized { IsSized self.now }
    {
        self.lists[lit.code() as usize].len()
    }

    /// One of a literal's watches.
    #[inline(always)]
    fn get(&self, lit: Lit, at: usize) -> Watch
        requires within { IsWithin self.now.vars lit }
        requires place { at < length (list_of self.now lit) }
        ensures { result ≡ watch_at self.now lit at }
    {
        self.lists[lit.code() as usize][at]
    }

    /// Puts another watch at a place of a literal's list.
    #[inline(always)]
    fn set(&mut self, lit: Lit, at: usize, watch: Watch)
        requires within { IsWithin self.old.vars lit }
        requires place { at < length (list_of self.old lit) }
        ensures { self.new ≡ with_watch_at self.old lit at watch }
    {
        self.lists[lit.code() as usize][at] = watch;
    }

    /// Puts a watch behind the others of a literal.
    #[inline(always)]
    fn add(&mut self, lit: Lit, watch: Watch) -> Result<(), NoMemory>
        requires { IsWithin self.old.vars lit }
        ensures ok { OnOk result (self.new ≡ with_watch self.old lit watch) }
        ensures err { OnErr result (self.new ≡ self.old) }
    {
        self.lists[lit.code() as usize].push(watch)?;
        Ok(())
    }

    /// Takes a watch out of a literal's list, and puts the last one of the list into its place.
    #[inline(always)]
    fn take_out(&mut self, lit: Lit, at: usize)
        requires within { IsWithin self.old.vars lit }
        requires place { at < length (list_of self.old lit) }
        ensures { self.new ≡ without_watch self.old lit at }
    {
        self.lists[lit.code() as usize].swap_remove(at);
    }

    /// Attaches a live clause of two or more literals: puts it into the lists of its first two. Without
    /// memory for it the lists stay as they were. A place from 2^31 on, which no watch can name, is refused
    /// as want of memory.
    pub fn attach(&mut self, arena: &Arena, r: ClauseRef) -> Result<(), NoMemory>
        requires long { IsLong arena.now r }
        requires clean { IsClean self.old.vars (entry_at arena.now r).lits }
        ensures ok { OnOk result (self.new ≡ with_clause self.old arena.now r) }
        ensures err { OnErr result (self.new ≡ self.old) }
    {
        if r.place() >= PLACES {
            return Err(NoMemory);
        }
        let first = arena.lit(r, 0);
        let second = arena.lit(r, 1);
        let binary = arena.len_of(r) == 2;
        let place = self.count(first);
        self.add(first, Watch::new(r, second, binary))?;
        match self.add(second, Watch::new(r, first, binary)) {
            Ok(()) => {}
            Err(error) => {
                self.take_out(first, place);
                return Err(error);
            }
        }
        Ok(())
    }

    /// Attaches just the live clauses of two or more literals, in their order, whatever was attached before.
    /// Without memory for it nothing is attached.
    pub fn rebuild(&mut self, arena: &Arena) -> Result<(), NoMemory>
        requires { AreClean self.old.vars arena.now }
        ensures ok { OnOk result (self.new ≡ with_clauses (empty_lists self.old.vars) arena.now (length arena.now)) }
        ensures attached { OnOk result (IsAttached arena.now self.new) }
        ensures err { OnErr result (self.new ≡ empty_lists self.old.vars) }
        ensures vars { self.new.vars ≡ self.old.vars }
    {
        self.clear();
        for place in 0..arena.len() {
            match self.attach_long(arena, ClauseRef::at(place)) {
                Ok(()) => {}
                Err(error) => {
                    self.clear();
                    return Err(error);
                }
            }
        }
        Ok(())
    }

    /// Attaches a clause if it is live and has two or more literals.
    fn attach_long(&mut self, arena: &Arena, r: ClauseRef) -> Result<(), NoMemory>
        requires present { r < length arena.now }
        requires clean { IsLong arena.now r → IsClean self.old.vars (entry_at arena.now r).lits }
        ensures long { OnOk result (IsLong arena.now r → self.new ≡ with_clause self.old arena.now r) }
        ensures short { OnOk result ((IsLong arena.now r → ⊥) → self.new ≡ self.old) }
        ensures err { OnErr result (self.new ≡ self.old) }
    {
        if arena.is_live(r) && arena.len_of(r) >= 2 {
            self.attach(arena, r)?;
        }
        Ok(())
    }

    /// Takes all watches out.
    fn clear(&mut self)
        ensures { self.new ≡ empty_lists self.old.vars }
    {
        for list in self.lists.iter_mut() {
            list.clear();
        }
    }

    /// Follows the moves of a compaction: takes out the watches of clauses that are gone, and gives the others the
    /// new places of their clauses. Nothing is attached anew, and no memory is asked for.
    pub fn follow(&mut self, moves: &Moves)
        requires { GoDown moves.now }
        ensures { self.new ≡ moved_lists moves.now self.old }
    {
        for list in self.lists.iter_mut() {
            follow_moves(list, moves);
        }
    }

    /// Propagates the entries of the trail that weren't yet, in their order: where a live clause of two or
    /// more literals has one literal without value and all others are false, that one is pushed with the
    /// clause as its reason. It ends where nothing is left, where a live clause is false, or without memory
    /// to move a watch. However it ends, the rule of the watches holds of the entries that count as
    /// propagated, and of the arena nothing changed but the order of literals within clauses.
    pub fn propagate(&mut self, arena: &mut Arena, trail: &mut Trail) -> Step
        requires { IsReady arena.old self.old trail.old }
        ensures ready { IsReady arena.new self.new trail.new }
        ensures arena { IsReordered arena.old arena.new }
        ensures trail { IsPropagated arena.new trail.old trail.new }
        ensures step { StepSays result arena.new trail.new }
    {
        while trail.gone() < trail.len() {
            let lit = trail.lit_at(trail.gone()).negated();
            match self.visit(arena, trail, lit) {
                Step::Quiet => {}
                step => return step,
            }
            trail.set_gone(trail.gone() + 1);
        }
        Step::Quiet
    }

    /// Goes through the list of a literal that became false.
    fn visit(&mut self, arena: &mut Arena, trail: &mut Trail, lit: Lit) -> Step
        requires ready { IsReady arena.old self.old trail.old }
        requires made_false { HasLiteral trail.old.entries (negated lit) }
        requires within { IsWithin self.old.vars lit }
        ensures advanced { IsAdvanced arena.old trail.old arena.new trail.new }
        ensures step { VisitSays result arena.new self.new trail.new lit }
    {
        let mut at = 0;
        while at < self.count(lit) {
            match self.look(arena, trail, lit, at) {
                Fate::Keep => at += 1,
                Fate::Move => {}
                Fate::Falsified(r) => return Step::Conflict(r),
                Fate::NoRoom => return Step::Memory,
            }
        }
        Step::Quiet
    }

    /// Looks at one watch of a false literal, and at its clause where the watch doesn't say enough. Where the
    /// literal is in neither of the clause's first two places, the watch is out of date.
    #[inline(always)]
    fn look(&mut self, arena: &mut Arena, trail: &mut Trail, lit: Lit, at: usize) -> Fate
        requires visiting { IsVisiting arena.old self.old trail.old lit at }
        requires within { IsWithin self.old.vars lit }
        requires place { at < length (list_of self.old lit) }
        ensures advanced { IsAdvanced arena.old trail.old arena.new trail.new }
        ensures fate { FateSays result arena.new self.old self.new trail.new lit at }
    {
        let watch = self.get(lit, at);
        let blocker = watch.blocker();
        if trail.is_true(blocker) {
            return Fate::Keep;
        }
        let r = watch.clause();
        if watch.is_binary() {
            return force(trail, blocker, r);
        }
        let place = watch_place(arena, r, lit);
        if arena.lit(r, place) != lit {
            self.take_out(lit, at);
            return Fate::Move;
        }
        self.settle(arena, trail, lit, at, r, place)
    }

    /// Looks at a clause whose literal at one of the first two places is false: keeps its watch where the other
    /// of the two is true, moves it to a literal that isn't false where there is one, and else makes the other
    /// literal true.
    #[inline(always)]
    fn settle(
        &mut self,
        arena: &mut Arena,
        trail: &mut Trail,
        lit: Lit,
        at: usize,
        r: ClauseRef,
        place: u64,
    ) -> Fate
        requires visiting { IsVisiting arena.old self.old trail.old lit at }
        requires within { IsWithin self.old.vars lit }
        requires place { at < length (list_of self.old lit) }
        requires watch { (watch_at self.old lit at).clause ≡ r }
        requires named { r < 2 ^ 31 }
        requires watched { place < 2 }
        requires held { literal_of arena.old r place ≡ lit }
        ensures advanced { IsAdvanced arena.old trail.old arena.new trail.new }
        ensures fate { FateSays result arena.new self.old self.new trail.new lit at }
    {
        let other = arena.lit(r, 1 - place);
        if trail.is_true(other) {
            self.set(lit, at, Watch::new(r, other, false));
            return Fate::Keep;
        }
        match find_other(arena, trail, r) {
            Some(k) => {
                match self.add(arena.lit(r, k), Watch::new(r, other, false)) {
                    Ok(()) => {}
                    Err(_) => return Fate::NoRoom,
                }
                arena.swap(r, place, k);
                self.take_out(lit, at);
                Fate::Move
            }
            None => force(trail, other, r),
        }
    }
}

/// Takes the watches of clauses that are gone out of a list, and gives the others the new places of their clauses.
fn follow_moves(list: &mut Vec<Watch>, moves: &Moves)
    requires { GoDown moves.now }
    ensures { list.new.items ≡ moved_list moves.now list.old.items }
{
    let mut kept = 0;
    for at in 0..list.len() {
        let Some(watch) = list[at].moved(moves) else {
            continue;
        };
        list[kept] = watch;
        kept += 1;
    }
    list.truncate(kept);
}

/// The place of a literal that a clause watches, 0 or 1; 1 too where the clause watches it no more.
#[inline(always)]
fn watch_place(arena: &Arena, r: ClauseRef, lit: Lit) -> u64
    requires { IsLong arena.now r }
    ensures { IsWatchPlace arena.now r lit result }
{
    u64::from(arena.lit(r, 0) != lit)
}

/// Makes the one literal of a clause true whose others are all false; where it is false too, so is the clause.
#[inline(always)]
fn force(trail: &mut Trail, lit: Lit, r: ClauseRef) -> Fate
    requires within { IsWithin trail.old.vars lit }
    requires not_true { HasLiteral trail.old.entries lit → ⊥ }
    ensures { ForceSays result trail.old trail.new lit r }
{
    if trail.is_true(lit.negated()) {
        return Fate::Falsified(r);
    }
    trail.push(lit, Reason::Clause(r));
    Fate::Keep
}

/// The first place behind the watches with a literal that isn't false, if there is one.
#[inline(always)]
fn find_other(arena: &Arena, trail: &Trail, r: ClauseRef) -> Option<u64>
    requires long { IsLong arena.now r }
    requires clean { IsClean trail.now.vars (entry_at arena.now r).lits }
    ensures some { IfSome result (λ k. IsOther arena.now trail.now.entries r k) }
    ensures none { IfNone result (AreFalseBelow arena.now trail.now.entries r (len_of arena.now r)) }
{
    let lits = arena.lits(r);
    for k in 2..lits.len() {
        if !trail.is_true(lits[k].negated()) {
            return Some(k as u64);
        }
    }
    None
}
