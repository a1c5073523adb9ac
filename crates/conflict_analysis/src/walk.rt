ghost use Rattle.std.specs.Prelude.{◌≡◌, ◌≢◌, ◌+◌, ◌-◌, ◌^◌, ◌<◌, ◌≤◌, ℕ, [], ◌∷◌, ◌++◌, length, reverse, slice_index, slice_set, Contains};
ghost use Rattle.std.specs.Prelude.{true, IfOk, OnOk};
ghost use Rattle.std.specs.Vec.{vec_len};
ghost use Rattle.cnf_core.specs.Literals.{Literal, negated};
ghost use Rattle.clause_arena.specs.Entries.{IsLive, entry_at};
ghost use Rattle.trail_core.specs.Trails.{assigned_at, IsTrail};
ghost use Rattle.trail_core.specs.TrueAndFalse.{IsFalse};
ghost use Rattle.trail_core.specs.declared.entry.Reason.TheVariants.{Unit as ByUnit};
ghost use Rattle.lrat_lines.specs.Propagation.{Known};
ghost use Rattle.conflict_analysis.specs.Members.{IsMapOf, IsProof};
ghost use Rattle.conflict_analysis.specs.Reasons.{IsReasoned, IsRootLiteral, IsConflict, IsRootConflict};
ghost use Rattle.conflict_analysis.specs.Answers.{IsHighest, IsLearnt, IsCore};
ghost use Rattle.conflict_analysis.specs.Steps.Walks.{is_seen, IsStarted, HasSeen, IsLastSeen};
ghost use Rattle.conflict_analysis.specs.Steps.Learning.{CanTake, IsTaken, CanAdd, IsAdded, CanWalk, CanResolve, IsWalked, IsFound};
ghost use Rattle.conflict_analysis.specs.Steps.Learning.{IsFalseByUnit, ResolvesRoots, ResolvesOthers, CanLearn, IsDerived, CanShow};
ghost use Rattle.conflict_analysis.specs.Steps.Learning.{ShowsLiteral};
ghost use Rattle.conflict_analysis.specs.Steps.Tracing.{CanMark, IsMarked, IsCounted, CanTrace, CanVisit, IsVisited, IsAllTraced};
ghost use Rattle.conflict_analysis.specs.Steps.Tracing.{IsFalseBy, IsCoreBegun};

use crate::Learnt;
use clause_arena::{Arena, ClauseRef};
use cnf_core::{Clause, Lit, NoMemory};
use lrat_lines::Ids;
use std::alloc::Global;
use std::marker::Model;
use std::mem;
use trail_core::{Reason, Trail};

/// What a walk over reasons gathers.
#[derive(Debug, Drop)]
pub struct Walk {
    /// A variable was met in this walk where its stamp is the present one.
    stamps: Vec<u32>,
    stamp: u32,
    /// Literals of the clause to come.
    lits: Vec<Lit>,
    /// Literals that are false at the root.
    roots: Vec<Lit>,
    /// The ids of what was resolved, the first hint last.
    hints: Vec<u64>,
    /// The variables above the root that were met, in the order of meeting.
    seen: Vec<u32>,
    /// How many of the met literals are left to look at: of those of the present level where a clause is
    /// learnt, and of all where reasons are followed down to decisions.
    count: u32,
    /// Memory for the next answer's literals and hints, which an answer gave back.
    spare_lits: Vec<Lit>,
    spare_hints: Vec<u64>,
}

impl Model for Walk {
    ghost use Rattle.conflict_analysis.specs.Steps.Walks.{WalkView, IsStamped};

    ghost Value = { WalkView };

    ghost view = { λ w. record {
      stamps = w.stamps.items;
      stamp = w.stamp;
      lits = w.lits.items;
      roots = w.roots.items;
      hints = w.hints.items;
      count = w.count;
    } };

    ghost invariant = { λ w. IsStamped w.stamps.items w.stamp };
}

/// Sets all stamps to 0.
fn clear(stamps: &mut Vec<u32>)
    ensures zero { (v : ℕ) → slice_index stamps.new.items v ≡ 0 }
    ensures size { length stamps.new.items ≡ length stamps.old.items }
{
    for stamp in stamps.iter_mut() {
        *stamp = 0;
    }
}

/// The reason of the entry at this place.
#[inline(always)]
fn reason_at(trail: &Trail, place: u32) -> Reason
    requires { place < length trail.now.entries }
    ensures { result ≡ (assigned_at trail.now.entries place).reason }
{
    trail.entry(place).reason
}

/// The id of the unit that makes a literal false.
fn unit_id(trail: &Trail, lit: Lit) -> u64
    requires { IsFalseByUnit trail.now.entries lit }
    ensures { (k : ℕ) → k < length trail.now.entries → (assigned_at trail.now.entries k).lit.var ≡ lit.var
        → (assigned_at trail.now.entries k).reason ≡ ByUnit result }
{
    match trail.reason_of(lit.var()) {
        Reason::Unit(id) => id,
        _ => unreachable!(),
    }
}

/// Puts the ids of the units of these literals to the hints.
fn push_units(trail: &Trail, roots: &[Lit], hints: &mut Vec<u64>) -> Result<(), NoMemory>
    requires trail { IsTrail trail.now }
    requires units { (x : Literal) → Contains roots.now x → IsFalseByUnit trail.now.entries x }
    ensures { OnOk result (ResolvesRoots trail.now.entries roots.now hints.old.items hints.new.items) }
{
    for lit in roots {
        hints.push(unit_id(trail, *lit))?;
    }
    Ok(())
}

/// The highest level at which a literal is false, or 0.
fn highest_level(trail: &Trail, lits: &[Lit]) -> u32
    requires trail { IsTrail trail.now }
    requires falsified { (x : Literal) → Contains lits.now x → IsFalse trail.now.entries x }
    ensures { IsHighest trail.now.entries lits.now result }
{
    let mut highest = 0;
    for lit in lits {
        highest = highest.max(trail.level_of(lit.var()));
    }
    highest
}

impl Walk {
    /// A walk for the variables 1 to so many.
    pub fn new(alloc: Global, vars: u32) -> Result<Walk, NoMemory>
        requires { vars ≤ 2 ^ 20 }
        ensures { IfOk result (λ w. length w.stamps ≡ vars + 1) }
    {
        Ok(Walk {
            stamps: vec![in alloc; 0; vars as usize + 1]?,
            stamp: 0,
            lits: Vec::new(alloc),
            roots: Vec::new(alloc),
            hints: Vec::new(alloc),
            seen: Vec::new(alloc),
            count: 0,
            spare_lits: Vec::new(alloc),
            spare_hints: Vec::new(alloc),
        })
    }

    /// The clause that a conflict teaches.
    pub fn learn(
        &mut self,
        arena: &Arena,
        trail: &Trail,
        conflict: ClauseRef,
    ) -> Result<Learnt, NoMemory>
        requires size { length self.old.stamps ≡ trail.now.vars + 1 }
        requires reasons { IsReasoned arena.now trail.now.entries }
        requires conflict { IsConflict arena.now trail.now conflict }
        ensures learnt { IfOk result (λ l. IsLearnt arena.now trail.now l.lits l.back l.hints) }
        ensures size { length self.new.stamps ≡ length self.old.stamps }
    {
        let end = trail.len();
        self.start();
        self.add_clause(arena, trail, conflict)?;
        let first = self.find_first(arena, trail, end)?;
        self.learnt(trail, first)
    }

    /// The hints that prove the empty clause.
    pub fn refute(
        &mut self,
        arena: &Arena,
        trail: &Trail,
        conflict: ClauseRef,
    ) -> Result<Ids, NoMemory>
        requires size { length self.old.stamps ≡ trail.now.vars + 1 }
        requires reasons { IsReasoned arena.now trail.now.entries }
        requires conflict { IsRootConflict arena.now trail.now.entries conflict }
        ensures proved { IfOk result (λ hints. (known : Known) → IsMapOf arena.now trail.now.entries known
            → IsProof known hints []) }
        ensures size { length self.new.stamps ≡ length self.old.stamps }
    {
        let end = trail.len();
        self.start();
        self.mark_clause(arena, trail, conflict)?;
        self.trace(arena, trail, end)?;
        self.hints_in_order()
    }

    /// The core of a literal that is false.
    pub fn core(&mut self, arena: &Arena, trail: &Trail, lit: Lit) -> Result<Learnt, NoMemory>
        requires size { length self.old.stamps ≡ trail.now.vars + 1 }
        requires reasons { IsReasoned arena.now trail.now.entries }
        requires falsified { IsFalse trail.now.entries lit }
        ensures core { IfOk result (λ l. IsCore arena.now trail.now lit l.lits l.hints) }
        ensures back { IfOk result (λ l. l.back ≡ 0) }
        ensures size { length self.new.stamps ≡ length self.old.stamps }
    {
        let place = trail.place_of(lit.var());
        self.start();
        self.mark(lit.var());
        self.add_literal(lit.negated())?;
        self.find_core(arena, trail, lit, place)?;
        Ok(Learnt {
            lits: Clause {
                lits: Vec::from_slice(self.allocator(), &self.lits)?,
            },
            back: 0,
            hints: self.hints_in_order()?,
        })
    }

    /// The hints that prove a literal that is true at the root as a unit clause.
    pub fn unit(&mut self, arena: &Arena, trail: &Trail, lit: Lit) -> Result<Ids, NoMemory>
        requires reasons { IsReasoned arena.now trail.now.entries }
        requires root { IsRootLiteral trail.now.entries lit }
        ensures proved { IfOk result (λ hints. ShowsLiteral arena.now trail.now.entries lit hints) }
        ensures size { length self.new.stamps ≡ length self.old.stamps }
    {
        let place = trail.place_of(lit.var());
        self.start();
        self.find_unit(arena, trail, lit, place)?;
        self.hints_in_order()
    }

    /// Takes back the memory of an answer, for the next one.
    pub fn recycle(&mut self, learnt: Learnt)
        ensures { self.new ≡ self.old }
    {
        self.spare_lits = learnt.lits.lits;
        self.spare_hints = learnt.hints.ids;
    }

    /// The variables above the root that the walk for a clause met.
    pub fn seen(&self) -> &[u32] {
        &self.seen
    }

    /// Begins anew: nothing is met or gathered.
    fn start(&mut self)
        ensures started { IsStarted self.new }
        ensures size { length self.new.stamps ≡ length self.old.stamps }
    {
        if self.stamp == u32::MAX {
            clear(&mut self.stamps);
            self.stamp = 0;
        }
        self.stamp += 1;
        self.lits.clear();
        self.roots.clear();
        self.hints.clear();
        self.seen.clear();
        self.count = 0;
    }

    /// Whether the variable was met.
    #[inline(always)]
    fn is_seen(&self, var: u32) -> bool
        requires { var < length self.now.stamps }
        ensures { result ≡ is_seen self.now var }
    {
        self.stamps[var as usize] == self.stamp
    }

    /// From here on the variable was met.
    #[inline(always)]
    fn mark(&mut self, var: u32)
        requires { var < length self.old.stamps }
        ensures { self.new ≡ record self.old { stamps = slice_set self.old.stamps var self.old.stamp } }
    {
        self.stamps[var as usize] = self.stamp;
    }

    fn add_literal(&mut self, lit: Lit) -> Result<(), NoMemory>
        ensures added { OnOk result (self.new ≡ record self.old { lits = self.old.lits ++ lit ∷ [] }) }
        ensures size { length self.new.stamps ≡ length self.old.stamps }
    {
        self.lits.push(lit)?;
        self.seen.push(lit.var())?;
        Ok(())
    }

    /// Notes a variable that was met above the root.
    #[inline(always)]
    fn note(&mut self, var: u32) -> Result<(), NoMemory>
        ensures noted { OnOk result (self.new ≡ self.old) }
        ensures size { length self.new.stamps ≡ length self.old.stamps }
    {
        self.seen.push(var)?;
        Ok(())
    }

    fn add_root(&mut self, lit: Lit) -> Result<(), NoMemory>
        ensures added { OnOk result (self.new ≡ record self.old { roots = self.old.roots ++ lit ∷ [] }) }
        ensures size { length self.new.stamps ≡ length self.old.stamps }
    {
        self.roots.push(lit)?;
        Ok(())
    }

    fn add_hint(&mut self, id: u64) -> Result<(), NoMemory>
        ensures added { OnOk result (self.new ≡ record self.old { hints = self.old.hints ++ id ∷ [] }) }
        ensures size { length self.new.stamps ≡ length self.old.stamps }
    {
        self.hints.push(id)?;
        Ok(())
    }

    /// How many met literals are left to look at.
    fn count(&self) -> u32
        ensures { result ≡ self.now.count }
    {
        self.count
    }

    fn count_up(&mut self)
        requires { self.old.count + 1 < 2 ^ 32 }
        ensures { self.new ≡ record self.old { count = self.old.count + 1 } }
    {
        self.count += 1;
    }

    fn count_down(&mut self)
        requires { 0 < self.old.count }
        ensures { self.new ≡ record self.old { count = self.old.count - 1 } }
    {
        self.count -= 1;
    }

    /// Takes up a false literal whose variable was not met.
    fn take(&mut self, trail: &Trail, lit: Lit) -> Result<(), NoMemory>
        requires { CanTake trail.now self.old lit }
        ensures taken { OnOk result (IsTaken trail.now lit self.old self.new) }
        ensures size { length self.new.stamps ≡ length self.old.stamps }
    {
        self.mark(lit.var());
        let level = trail.level_of(lit.var());
        if level == trail.level() {
            self.count_up();
            return self.note(lit.var());
        }
        if level == 0 {
            return self.add_root(lit);
        }
        self.add_literal(lit)
    }

    /// Takes up the literals of a clause whose variables were not met, and adds its id.
    fn add_clause(&mut self, arena: &Arena, trail: &Trail, r: ClauseRef) -> Result<(), NoMemory>
        requires { CanAdd arena.now trail.now self.old r }
        ensures added { OnOk result (IsAdded arena.now trail.now r self.old self.new) }
        ensures size { length self.new.stamps ≡ length self.old.stamps }
    {
        for lit in arena.lits(r) {
            if !self.is_seen(lit.var()) {
                self.take(trail, *lit)?;
            }
        }
        self.add_hint(arena.id(r))
    }

    /// The last place before the end whose variable was met.
    fn last_seen(&self, trail: &Trail, end: u32) -> u32
        requires trail { IsTrail trail.now }
        requires size { length self.now.stamps ≡ trail.now.vars + 1 }
        requires within { end ≤ length trail.now.entries }
        requires some { HasSeen trail.now.entries (is_seen self.now) end }
        ensures { IsLastSeen trail.now.entries (is_seen self.now) end result }
    {
        let mut place = end - 1;
        while !self.is_seen(trail.lit_at(place).var()) {
            place -= 1;
        }
        place
    }

    /// Takes up the reason of the entry at this place instead of its literal.
    fn resolve(&mut self, arena: &Arena, trail: &Trail, place: u32) -> Result<(), NoMemory>
        requires { CanResolve arena.now trail.now self.old place }
        ensures walked { OnOk result (IsWalked arena.now trail.now place self.new) }
        ensures size { length self.new.stamps ≡ length self.old.stamps }
    {
        self.count_down();
        match reason_at(trail, place) {
            Reason::Clause(r) => self.add_clause(arena, trail, r),
            _ => unreachable!(),
        }
    }

    /// Resolves until one literal of the present level is left, and gives that one.
    fn find_first(&mut self, arena: &Arena, trail: &Trail, len: u32) -> Result<Lit, NoMemory>
        requires can_walk { CanWalk arena.now trail.now self.old }
        requires walked { IsWalked arena.now trail.now len self.old }
        ensures found { IfOk result (λ first. IsFound arena.now trail.now first self.new) }
        ensures size { length self.new.stamps ≡ length self.old.stamps }
    {
        let mut end = len;
        while self.count() > 1 {
            end = self.last_seen(trail, end);
            self.resolve(arena, trail, end)?;
        }
        let place = self.last_seen(trail, end);
        Ok(trail.lit_at(place).negated())
    }

    /// What was learnt, once the first unique implication point is found.
    fn learnt(&mut self, trail: &Trail, first: Lit) -> Result<Learnt, NoMemory>
        requires { CanLearn trail.now first self.old }
        ensures learnt { IfOk result (λ l. IsDerived trail.now first self.old l.lits l.back l.hints) }
        ensures size { length self.new.stamps ≡ length self.old.stamps }
    {
        push_units(trail, &self.roots, &mut self.hints)?;
        let back = highest_level(trail, &self.lits);
        Ok(Learnt {
            lits: self.clause(first)?,
            back,
            hints: self.hints_in_order()?,
        })
    }

    /// The clause of this literal and those gathered, in the memory that was given back.
    fn clause(&mut self, first: Lit) -> Result<Clause, NoMemory>
        ensures clause { IfOk result (λ c. c ≡ first ∷ self.old.lits) }
        ensures same { self.new ≡ self.old }
    {
        let none = Vec::new(self.allocator());
        let mut lits = mem::replace(&mut self.spare_lits, none);
        lits.clear();
        lits.reserve(self.lits.len() + 1)?;
        lits.push_reserved(first);
        lits.extend_from_slice(&self.lits)?;
        Ok(Clause { lits })
    }

    /// The hints in the order in which a checker takes them, in the memory that was given back.
    fn hints_in_order(&mut self) -> Result<Ids, NoMemory>
        ensures hints { IfOk result (λ ids. ids ≡ reverse self.old.hints) }
        ensures same { self.new ≡ self.old }
    {
        let none = Vec::new(self.allocator());
        let mut ids = mem::replace(&mut self.spare_hints, none);
        ids.clear();
        ids.extend_from_slice(&self.hints)?;
        ids.reverse();
        Ok(Ids { ids })
    }

    /// From here on the variable was met, and its entry is to be looked at.
    fn meet(&mut self, var: u32)
        requires within { var < length self.old.stamps }
        requires room { self.old.count + 1 < 2 ^ 32 }
        ensures { self.new ≡ record self.old { stamps = slice_set self.old.stamps var self.old.stamp; count = self.old.count + 1 } }
    {
        self.mark(var);
        self.count_up();
    }

    /// Marks the variables of a clause, counts those that were not met, and adds its id.
    fn mark_clause(&mut self, arena: &Arena, trail: &Trail, r: ClauseRef) -> Result<(), NoMemory>
        requires { CanMark arena.now trail.now self.old r }
        ensures marked { OnOk result (IsMarked arena.now trail.now r self.old self.new) }
        ensures size { length self.new.stamps ≡ length self.old.stamps }
    {
        for lit in arena.lits(r) {
            if !self.is_seen(lit.var()) {
                self.meet(lit.var());
            }
        }
        self.add_hint(arena.id(r))
    }

    /// Follows the reason of an entry whose variable was met; a decision's negation is gathered.
    fn visit(&mut self, arena: &Arena, trail: &Trail, place: u32) -> Result<(), NoMemory>
        requires { CanVisit arena.now trail.now self.old place }
        ensures visited { OnOk result (IsVisited arena.now trail.now.entries place self.old self.new) }
        ensures counted { OnOk result (IsCounted trail.now.entries place self.new) }
        ensures size { length self.new.stamps ≡ length self.old.stamps }
    {
        self.count_down();
        match reason_at(trail, place) {
            Reason::Decision => self.add_literal(trail.lit_at(place).negated()),
            Reason::Unit(id) => self.add_hint(id),
            Reason::Clause(r) => self.mark_clause(arena, trail, r),
        }
    }

    /// Follows the reasons of all entries before the top whose variables were met, down to decisions. It ends
    /// at the last such entry, and not at the trail's beginning.
    fn trace(&mut self, arena: &Arena, trail: &Trail, top: u32) -> Result<(), NoMemory>
        requires can_trace { CanTrace arena.now trail.now self.old }
        requires within { top ≤ length trail.now.entries }
        requires counted { IsCounted trail.now.entries top self.old }
        ensures traced { OnOk result (IsAllTraced arena.now trail.now.entries top self.old self.new) }
        ensures size { length self.new.stamps ≡ length self.old.stamps }
    {
        let mut end = top;
        while self.count() > 0 {
            end = self.last_seen(trail, end);
            self.visit(arena, trail, end)?;
        }
        Ok(())
    }

    /// Follows the reason of the entry that makes a literal false, whose negation is gathered already.
    fn find_core(
        &mut self,
        arena: &Arena,
        trail: &Trail,
        lit: Lit,
        place: u32,
    ) -> Result<(), NoMemory>
        requires can_trace { CanTrace arena.now trail.now self.old }
        requires falsified { IsFalseBy trail.now.entries place lit }
        requires begun { IsCoreBegun lit self.old }
        ensures core { OnOk result (IsCore arena.now trail.now lit self.new.lits (reverse self.new.hints)) }
        ensures size { length self.new.stamps ≡ length self.old.stamps }
    {
        match reason_at(trail, place) {
            Reason::Decision => self.add_literal(lit),
            Reason::Unit(id) => self.add_hint(id),
            Reason::Clause(r) => {
                self.mark_clause(arena, trail, r)?;
                self.trace(arena, trail, place)
            }
        }
    }

    /// Gathers the hints of a literal of the root by its reason: a unit, or a clause and the units of its other
    /// literals.
    fn find_unit(
        &mut self,
        arena: &Arena,
        trail: &Trail,
        lit: Lit,
        place: u32,
    ) -> Result<(), NoMemory>
        requires can_show { CanShow arena.now trail.now lit place }
        requires no_hints { self.old.hints ≡ [] }
        ensures proved { OnOk result (ShowsLiteral arena.now trail.now.entries lit (reverse self.new.hints)) }
        ensures size { length self.new.stamps ≡ length self.old.stamps }
    {
        match reason_at(trail, place) {
            Reason::Decision => unreachable!(),
            Reason::Unit(id) => self.add_hint(id),
            Reason::Clause(r) => {
                self.add_hint(arena.id(r))?;
                self.add_units(arena, trail, r, lit)
            }
        }
    }

    /// Adds the ids of the units that make the literals of a clause false, but for this one.
    fn add_units(
        &mut self,
        arena: &Arena,
        trail: &Trail,
        r: ClauseRef,
        own: Lit,
    ) -> Result<(), NoMemory>
        requires trail { IsTrail trail.now }
        requires live { IsLive arena.now r }
        requires own { Contains (entry_at arena.now r).lits own }
        requires units { (x : Literal) → Contains (entry_at arena.now r).lits x → x ≢ own → IsFalseByUnit trail.now.entries x }
        ensures resolved { OnOk result (ResolvesOthers trail.now.entries (entry_at arena.now r).lits own self.old.hints self.new.hints) }
        ensures size { length self.new.stamps ≡ length self.old.stamps }
    {
        for lit in arena.lits(r) {
            if *lit != own {
                self.add_hint(unit_id(trail, *lit))?;
            }
        }
        Ok(())
    }

    fn allocator(&self) -> Global {
        *self.lits.allocator()
    }
}
