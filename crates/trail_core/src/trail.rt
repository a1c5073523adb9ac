ghost use Rattle.std.specs.Prelude.{◌≡◌, ◌≢◌, ◌↔◌, ◌+◌, ◌<◌, ◌≤◌, ◌-◌, ◌^◌, ℕ, pos, false, length, slice_set, if◌then◌else◌, IfOk};
ghost use Rattle.std.specs.Prelude.{IfSome, IfNone, MatchOption, IsTrue};
ghost use Rattle.cnf_core.specs.Literals.{IsWithin, negated, code_of};
ghost use Rattle.trail_core.specs.Trails.{assigned_at, HasLiteral, HasVariable, IsFree, IsTrail, empty_trail, with_entry, with_root};
ghost use Rattle.trail_core.specs.Trails.{IsBacktracked, AreValues, sign_of, IsFirstFree};
ghost use Rattle.trail_core.specs.Steps.Tables.{opened, sign_at};
ghost use Rattle.std.specs.Vec.{vec_len, vec_capacity};
ghost use Rattle.trail_core.specs.declared.entry.Reason.TheVariants.{Decision};

use crate::{Assigned, Reason};
use cnf_core::{Lit, NoMemory};
use std::alloc::Global;
use std::marker::Model;

/// What a variable's entry says beside its literal, and where the entry stands. Where the variable has no
/// value it is out of date.
#[derive(Clone, Copy, Debug)]
struct Origin {
    level: u32,
    place: u32,
    reason: Reason,
}

/// The literals that are true, in the order of their coming, with their levels and reasons.
///
/// The value of a literal is one read of a table by its packed form; level, place and reason of a variable
/// lie side by side; the first entry of a level is found by a table of starts.
#[derive(Debug, Drop)]
pub struct Trail {
    /// The literal of each entry.
    lits: Vec<Lit>,
    /// Where each variable's value comes from.
    origins: Vec<Origin>,
    /// Which packed literals are true.
    truth: Vec<bool>,
    /// 1, -1 or 0 per variable.
    signs: Vec<i8>,
    /// How many entries there were when each level from 1 on was opened.
    starts: Vec<u32>,
    gone: u32,
    /// No variable before it is without a value.
    free: u32,
    vars: u32,
}

impl Model for Trail {
    ghost use Rattle.trail_core.specs.Trails.{TrailState};
    ghost use Rattle.trail_core.specs.Steps.Tables.{IsHeld, laid_entries, state_of};
    ghost use Rattle.std.specs.Vec.{vec_capacity};

    ghost Value = { TrailState };

    ghost view = { λ t. state_of (laid_entries t.origins.items t.lits.items) t.starts.items t.gone t.vars };

    ghost invariant = { λ t.
        IsHeld t.vars (laid_entries t.origins.items t.lits.items) t.starts.items t.gone t.origins.items t.truth.items
        t.signs.items t.free (vec_capacity t.lits) (vec_capacity t.starts) };
}

/// The sign of a literal: 1, and -1 for a negation.
#[inline(always)]
fn sign(lit: Lit) -> i8
    ensures { result ≡ sign_of lit }
{
    if lit.positive() { 1 } else { -1 }
}

/// Opens a level before so many entries, unless it is open already.
#[inline(always)]
fn open(starts: &mut Vec<u32>, level: u32, count: u32)
    requires { vec_len starts.old < level → vec_len starts.old < vec_capacity starts.old }
    ensures items { starts.new.items ≡ opened starts.old.items level count }
    ensures room { vec_capacity starts.new ≡ vec_capacity starts.old }
{
    if starts.len() < level as usize {
        starts.push_reserved(count);
    }
}

/// Takes a literal's value out of the tables.
#[inline(always)]
fn erase(truth: &mut Vec<bool>, signs: &mut Vec<i8>, lit: Lit)
    requires truth { code_of lit < vec_len truth.old }
    requires signs { lit.var - 1 < vec_len signs.old }
    ensures truth { truth.new.items ≡ slice_set truth.old.items (code_of lit) false }
    ensures signs { signs.new.items ≡ slice_set signs.old.items (lit.var - 1) (pos 0) }
{
    truth[lit.code() as usize] = false;
    signs[lit.var() as usize - 1] = 0;
}

impl Trail {
    /// The trail without entries for the variables 1 to so many, at most 2^20.
    pub fn new(alloc: Global, vars: u32) -> Result<Trail, NoMemory>
        requires { vars ≤ 2 ^ 20 }
        ensures { IfOk result (λ t. t ≡ empty_trail vars) }
    {
        let count = vars as usize;
        let none = Origin {
            level: 0,
            place: 0,
            reason: Reason::Decision,
        };
        Ok(Trail {
            lits: Vec::with_capacity(alloc, count)?,
            origins: vec![in alloc; none; count + 1]?,
            truth: vec![in alloc; false; 2 * count + 2]?,
            signs: vec![in alloc; 0; count]?,
            starts: Vec::with_capacity(alloc, count)?,
            gone: 0,
            free: 1,
            vars,
        })
    }

    /// Opens a level and makes a literal true there. Its variable has no value yet.
    pub fn decide(&mut self, lit: Lit)
        requires within { IsWithin self.old.vars lit }
        requires free { IsFree self.old.entries lit.var }
        ensures { self.new ≡ with_entry self.old lit (self.old.level + 1) Decision }
    {
        self.free = next_free(&self.signs, self.free);
        let level = self.level() + 1;
        self.put(lit, level, Reason::Decision);
    }

    /// Makes a literal true at the present level. Its variable has no value yet.
    #[inline(always)]
    pub fn push(&mut self, lit: Lit, reason: Reason)
        requires within { IsWithin self.old.vars lit }
        requires free { IsFree self.old.entries lit.var }
        ensures { self.new ≡ with_entry self.old lit self.old.level reason }
    {
        let level = self.level();
        self.put(lit, level, reason);
    }

    /// Makes a literal true at the present level or the next one, which it opens.
    #[inline(always)]
    fn put(&mut self, lit: Lit, level: u32, reason: Reason)
        requires within { IsWithin self.old.vars lit }
        requires free { IsFree self.old.entries lit.var }
        requires level { (self.old.level ≤ level) × (level ≤ self.old.level + 1) }
        ensures { self.new ≡ with_entry self.old lit level reason }
    {
        let var = lit.var() as usize;
        let place = self.lits.len() as u32;
        open(&mut self.starts, level, place);
        self.lits.push_reserved(lit);
        self.origins[var] = Origin {
            level,
            place,
            reason,
        };
        self.truth[lit.code() as usize] = true;
        self.signs[var - 1] = sign(lit);
    }

    /// Sets the reason of a variable of level 0 to a unit clause with this id.
    pub fn root(&mut self, var: u32, id: u64)
        requires valued { HasVariable self.old.entries var }
        requires root { (k : ℕ) → k < length self.old.entries → (assigned_at self.old.entries k).lit.var ≡ var
            → (assigned_at self.old.entries k).level ≡ 0 }
        ensures { (k : ℕ) → k < length self.old.entries → (assigned_at self.old.entries k).lit.var ≡ var
            → self.new ≡ with_root self.old k id }
    {
        self.origins[var as usize].reason = Reason::Unit(id);
    }

    /// Takes away the entries of the levels above this one, which is at most the present level. No more
    /// entries count as propagated than are left.
    pub fn backtrack(&mut self, level: u32)
        requires { level ≤ self.old.level }
        ensures { IsBacktracked level self.old self.new }
    {
        if level as usize >= self.starts.len() {
            return;
        }
        let start = self.starts[level as usize];
        while self.lits.len() > start as usize {
            let count = self.lits.len() - 1;
            let lit = self.lits[count];
            self.lits.truncate(count);
            erase(&mut self.truth, &mut self.signs, lit);
            self.free = self.free.min(lit.var());
        }
        self.starts.truncate(level as usize);
        self.gone = self.gone.min(start);
    }

    /// How many of the first entries were propagated.
    pub fn gone(&self) -> u32
        ensures value { result ≡ self.now.gone }
        ensures trail { IsTrail self.now }
    {
        self.gone
    }

    /// Sets how many of the first entries were propagated, at most all of them.
    pub fn set_gone(&mut self, count: u32)
        requires { count ≤ length self.old.entries }
        ensures { self.new ≡ record self.old { gone = count } }
    {
        self.gone = count;
    }

    /// Whether the literal is true.
    #[inline(always)]
    pub fn is_true(&self, lit: Lit) -> bool
        requires { IsWithin self.now.vars lit }
        ensures { IsTrue result ↔ HasLiteral self.now.entries lit }
    {
        self.truth[lit.code() as usize]
    }

    /// The literal's value; none exactly where its variable has none.
    pub fn value(&self, lit: Lit) -> Option<bool>
        requires { IsWithin self.now.vars lit }
        ensures { MatchOption result (IsFree self.now.entries lit.var)
            (λ b. HasLiteral self.now.entries (if b then lit else negated lit)) }
    {
        if self.is_true(lit) {
            return Some(true);
        }
        if self.is_true(lit.negated()) {
            return Some(false);
        }
        None
    }

    /// Per variable from 1 on, 1 where it is true, -1 where it is false, and 0 where it has no value.
    pub fn values(&self) -> &[i8]
        ensures { AreValues self.now.vars self.now.entries result.now }
    {
        &self.signs
    }

    /// The level of a variable's entry. The variable has a value.
    pub fn level_of(&self, var: u32) -> u32
        requires { HasVariable self.now.entries var }
        ensures { (k : ℕ) → k < length self.now.entries → (assigned_at self.now.entries k).lit.var ≡ var
            → result ≡ (assigned_at self.now.entries k).level }
    {
        self.origins[var as usize].level
    }

    /// The reason of a variable's entry. The variable has a value.
    pub fn reason_of(&self, var: u32) -> Reason
        requires { HasVariable self.now.entries var }
        ensures { (k : ℕ) → k < length self.now.entries → (assigned_at self.now.entries k).lit.var ≡ var
            → result ≡ (assigned_at self.now.entries k).reason }
    {
        self.origins[var as usize].reason
    }

    /// The place of a variable's entry, from 0. The variable has a value.
    pub fn place_of(&self, var: u32) -> u32
        requires { HasVariable self.now.entries var }
        ensures place { (k : ℕ) → k < length self.now.entries → (assigned_at self.now.entries k).lit.var ≡ var
            → result ≡ k }
        ensures trail { IsTrail self.now }
    {
        self.origins[var as usize].place
    }

    /// The present level: how many decisions are on the trail.
    #[inline(always)]
    pub fn level(&self) -> u32
        ensures value { result ≡ self.now.level }
        ensures trail { IsTrail self.now }
    {
        self.starts.len() as u32
    }

    /// How many entries there are.
    pub fn len(&self) -> u32
        ensures value { result ≡ length self.now.entries }
        ensures trail { IsTrail self.now }
    {
        self.lits.len() as u32
    }

    /// How many variables the trail was made for.
    pub fn vars(&self) -> u32
        ensures value { result ≡ self.now.vars }
        ensures trail { IsTrail self.now }
    {
        self.vars
    }

    /// The literal of the entry at this place, from 0.
    #[inline(always)]
    pub fn lit_at(&self, i: u32) -> Lit
        requires { i < length self.now.entries }
        ensures { result ≡ (assigned_at self.now.entries i).lit }
    {
        self.lits[i as usize]
    }

    /// The entry at this place, from 0.
    pub fn entry(&self, i: u32) -> Assigned
        requires { i < length self.now.entries }
        ensures { result ≡ assigned_at self.now.entries i }
    {
        let lit = self.lits[i as usize];
        let origin = self.origins[lit.var() as usize];
        Assigned {
            lit,
            level: origin.level,
            reason: origin.reason,
        }
    }

    /// The least variable without a value; none exactly where each one has a value.
    pub fn first_free(&self) -> Option<u32>
        ensures some { IfSome result (λ v. IsFirstFree self.now v) }
        ensures none { IfNone result ((u : ℕ) → 0 < u → u ≤ self.now.vars → HasVariable self.now.entries u) }
    {
        let free = next_free(&self.signs, self.free);
        if free <= self.vars { Some(free) } else { None }
    }
}

/// The first variable from this one on without a value, or the one behind the last.
fn next_free(signs: &Vec<i8>, from: u32) -> u32
    requires { (0 < from) × (from ≤ vec_len signs.now + 1) × (vec_len signs.now < 2 ^ 21) }
    ensures bounds { (from ≤ result) × (result ≤ vec_len signs.now + 1) }
    ensures unset { result ≤ vec_len signs.now → sign_at signs.now.items result ≡ pos 0 }
    ensures passed { (u : ℕ) → from ≤ u → u < result → sign_at signs.now.items u ≢ pos 0 }
{
    let mut var = from;
    while (var as usize) <= signs.len() && signs[var as usize - 1] != 0 {
        var += 1;
    }
    var
}
