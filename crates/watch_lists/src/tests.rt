ghost use Rattle.std.specs.Prelude.{◌≡◌, ◌<◌, ◌≤◌, ◌^◌, IsTrue, IfOk, OnOk};
ghost use Rattle.cnf_core.specs.Literals.{IsWithin};
ghost use Rattle.clause_arena.specs.Entries.{IsLive};
ghost use Rattle.trail_core.specs.Trails.{IsFree};
ghost use Rattle.watch_lists.specs.Clauses.{AreClean};
ghost use Rattle.watch_lists.specs.Steps.Compacting.{IsCleared};
ghost use Rattle.watch_lists.specs.Watching.{IsReady};

use crate::{Step, Watches};
use clause_arena::{Arena, ClauseRef};
use cnf_core::Lit;
use std::process::Abort;
use std::test::Fail;
use trail_core::{Reason, Trail};

/// What threads may share, as each type of this crate.
fn shared<T: Send + Sync>(value: &T) -> &T {
    value
}

/// The literal of a number, of the variables 1 to so many.
fn literal(rt: &impl Abort, vars: u32, number: i32) -> Result<Lit, Fail>
    ensures { IfOk result (λ l. IsWithin vars l) }
{
    let lit = Lit::of(number).ok_or("a literal")?;
    assert!(rt; lit.var() <= vars);
    Ok(lit)
}

/// Adds a clause of two literals, or of three where the last number isn't 0.
fn add(rt: &impl Abort, arena: &mut Arena, vars: u32, numbers: [i32; 3]) -> Result<ClauseRef, Fail>
    requires { AreClean vars arena.old }
    ensures { OnOk result (AreClean vars arena.new) }
{
    let [first, second, third] = numbers;
    let first = literal(rt, vars, first)?;
    let second = literal(rt, vars, second)?;
    if third == 0 {
        return add_two(rt, arena, vars, first, second);
    }
    let third = literal(rt, vars, third)?;
    add_three(rt, arena, vars, first, second, third)
}

fn add_two(
    rt: &impl Abort,
    arena: &mut Arena,
    vars: u32,
    first: Lit,
    second: Lit,
) -> Result<ClauseRef, Fail>
    requires clean { AreClean vars arena.old }
    requires first { IsWithin vars first }
    requires second { IsWithin vars second }
    ensures { OnOk result (AreClean vars arena.new) }
{
    assert!(rt; first.var() != second.var());
    let lits = [first, second];
    Ok(arena.add(&lits, 0, false)?)
}

fn add_three(
    rt: &impl Abort,
    arena: &mut Arena,
    vars: u32,
    first: Lit,
    second: Lit,
    third: Lit,
) -> Result<ClauseRef, Fail>
    requires clean { AreClean vars arena.old }
    requires first { IsWithin vars first }
    requires second { IsWithin vars second }
    requires third { IsWithin vars third }
    ensures { OnOk result (AreClean vars arena.new) }
{
    assert!(rt; first.var() != second.var());
    assert!(rt; first.var() != third.var());
    assert!(rt; second.var() != third.var());
    let lits = [first, second, third];
    Ok(arena.add(&lits, 0, false)?)
}

fn is_live(arena: &Arena, r: ClauseRef) -> bool
    ensures { IsTrue result → IsLive arena.now r }
{
    r.place() < arena.len() && arena.is_live(r)
}

/// Removes a live clause.
fn remove(rt: &impl Abort, arena: &mut Arena, vars: u32, r: ClauseRef)
    requires { AreClean vars arena.old }
    ensures clean { AreClean vars arena.new }
    ensures cleared { IsCleared arena.old arena.new }
{
    assert!(rt; is_live(arena, r));
    arena.remove(r);
}

fn is_free(trail: &Trail, lit: Lit) -> bool
    requires { IsWithin trail.now.vars lit }
    ensures { IsTrue result → IsFree trail.now.entries lit.var }
{
    match trail.value(lit) {
        None => true,
        Some(_) => false,
    }
}

/// Propagates, decides the literal if that was quiet, and propagates again.
fn decide(
    rt: &impl Abort,
    watches: &mut Watches,
    arena: &mut Arena,
    trail: &mut Trail,
    number: i32,
) -> Result<Step, Fail>
    requires { IsReady arena.old watches.old trail.old }
    ensures ready { OnOk result (IsReady arena.new watches.new trail.new) }
    ensures vars { OnOk result (trail.new.vars ≡ trail.old.vars) }
{
    match watches.propagate(arena, trail) {
        Step::Quiet => {}
        step => return Ok(step),
    }
    let lit = literal(rt, trail.vars(), number)?;
    assert!(rt; is_free(trail, lit));
    trail.decide(lit);
    Ok(watches.propagate(arena, trail))
}

/// Adds a clause of two literals and attaches it, before anything was propagated.
fn attach_two(
    rt: &impl Abort,
    watches: &mut Watches,
    arena: &mut Arena,
    trail: &Trail,
    first: i32,
    second: i32,
) -> Result<ClauseRef, Fail>
    requires ready { IsReady arena.old watches.old trail.now }
    requires start { trail.now.gone ≡ 0 }
    ensures { OnOk result (IsReady arena.new watches.new trail.now) }
{
    let first = literal(rt, trail.vars(), first)?;
    let second = literal(rt, trail.vars(), second)?;
    assert!(rt; first.var() != second.var());
    let lits = [first, second];
    let r = arena.add(&lits, 0, false)?;
    watches.attach(arena, r)?;
    Ok(r)
}

/// The place of the clause that is the reason.
fn clause_place(reason: Reason) -> Option<u32> {
    match reason {
        Reason::Clause(r) => Some(r.place()),
        _ => None,
    }
}

/// The trail's literals, with their levels and the places of the clauses that are their reasons.
fn listing(rt: &impl Abort, trail: &Trail) -> [(i32, u32, Option<u32>); 3] {
    let mut list = [(0, 0, None); 3];
    for i in 0..trail.len() {
        assert!(rt; i < 3);
        let entry = trail.entry(i);
        list[i as usize] = (entry.lit.number(), entry.level, clause_place(entry.reason));
    }
    list
}

#[test]
fn a_chain_is_propagated_and_a_removed_clause_no_more(rt: HostRuntime) -> Result<(), Fail> {
    let mut arena = Arena::new(rt.alloc());
    let first = add(&rt, &mut arena, 3, [-1, 2, 0])?;
    let second = add(&rt, &mut arena, 3, [-2, 3, 0])?;
    let mut watches = Watches::new(rt.alloc(), 3)?;
    watches.rebuild(&arena)?;
    let mut trail = Trail::new(rt.alloc(), 3)?;
    let step = decide(&rt, &mut watches, &mut arena, &mut trail, 1)?;
    assert_eq!(rt; step, Step::Quiet);
    assert_eq!(rt;
        listing(&rt, &trail),
        [(1, 1, None), (2, 1, Some(0)), (3, 1, Some(1))]
    );
    trail.backtrack(0);
    assert_eq!(rt; trail.len(), 0);
    remove(&rt, &mut arena, 3, second);
    let moves = arena.compact()?;
    assert_eq!(rt; shared(&moves).to(second), None);
    assert_eq!(rt; moves.to(first), Some(ClauseRef::at(0)));
    watches.follow(&moves);
    let step = decide(&rt, &mut watches, &mut arena, &mut trail, 1)?;
    assert_eq!(rt; step, Step::Quiet);
    assert_eq!(rt;
        listing(&rt, &trail),
        [(1, 1, None), (2, 1, Some(0)), (0, 0, None)]
    );
    Ok(())
}

#[test]
fn a_conflict_names_a_false_clause(rt: HostRuntime) -> Result<(), Fail> {
    let mut arena = Arena::new(rt.alloc());
    let mut watches = Watches::new(rt.alloc(), 3)?;
    let mut trail = Trail::new(rt.alloc(), 3)?;
    attach_two(&rt, &mut watches, &mut arena, &trail, -1, 2)?;
    let second = attach_two(&rt, &mut watches, &mut arena, &trail, -2, 3)?;
    let third = attach_two(&rt, &mut watches, &mut arena, &trail, -2, -3)?;
    shared(&watches);
    let step = decide(&rt, &mut watches, &mut arena, &mut trail, 1)?;
    assert!(rt; step == Step::Conflict(second) || step == Step::Conflict(third));
    Ok(())
}

/// How many variables the generated clauses have. In their numbers 0 stands for no literal.
const VARS: u32 = 6;

/// The values of the variables, by their numbers.
type Found = [Option<bool>; 7];

fn value(found: &Found, number: i32) -> Option<bool> {
    if number == 0 {
        return Some(false);
    }
    found[number.unsigned_abs() as usize % 7].map(|positive| positive == (number > 0))
}

fn make_true(found: &mut Found, number: i32) {
    found[number.unsigned_abs() as usize % 7] = Some(number > 0);
}

/// Makes the one literal without value true where the others are false. Whether all are false.
fn imply(found: &mut Found, clause: &[i32; 3]) -> bool {
    let mut open = None;
    for number in clause {
        match value(found, *number) {
            Some(true) => return false,
            Some(false) => {}
            None if open == None => open = Some(*number),
            None => return false,
        }
    }
    match open {
        Some(number) => make_true(found, number),
        None => return true,
    }
    false
}

/// Goes over all clauses until nothing is left to imply. Whether one was found false.
fn closure(found: &mut Found, clauses: &[[i32; 3]]) -> bool {
    for _turn in 0..=VARS {
        for clause in clauses {
            if imply(found, clause) {
                return true;
            }
        }
    }
    false
}

/// 1, -1 and 0 for the values.
fn signs(found: &Found) -> [i8; 6] {
    let mut signs = [0; 6];
    for i in 0..6 {
        signs[i] = match found[i + 1] {
            Some(true) => 1,
            Some(false) => -1,
            None => 0,
        };
    }
    signs
}

/// A number below so many, the next of a multiplicative congruential generator.
fn below(state: &mut u64, bound: u32) -> u32
    requires { 0 < bound }
    ensures { result < bound }
{
    *state = state.wrapping_mul(0xd134_2543_de82_ef95);
    (*state >> 32) as u32 % bound
}

/// A literal of the variable, with a sign by lot.
fn signed(state: &mut u64, var: u32) -> i32
    requires { var ≤ 2 ^ 20 }
{
    let number = var as i32;
    if below(state, 2) == 0 {
        number
    } else {
        -number
    }
}

/// Two literals of different variables, or three.
fn clause_by_lot(state: &mut u64) -> [i32; 3] {
    let first = below(state, VARS);
    let second = (first + 1 + below(state, 2)) % VARS;
    let third = (first + 3 + below(state, 3)) % VARS;
    let last = if below(state, 3) == 0 {
        0
    } else {
        signed(state, third + 1)
    };
    [signed(state, first + 1), signed(state, second + 1), last]
}

/// Decides until a conflict or until each variable has a value, and compares each step.
fn descend(
    rt: &impl Abort,
    watches: &mut Watches,
    arena: &mut Arena,
    trail: &mut Trail,
    clauses: &[[i32; 3]],
    state: &mut u64,
) -> Result<(), Fail>
    requires { IsReady arena.old watches.old trail.old }
    ensures { OnOk result (IsReady arena.new watches.new trail.new) }
{
    let mut found = [None; 7];
    for _decision in 0..VARS {
        let Some(var) = trail.first_free() else {
            break;
        };
        assert!(rt; var <= VARS);
        let number = signed(state, var);
        make_true(&mut found, number);
        let step = decide(rt, watches, arena, trail, number)?;
        let conflict = closure(&mut found, clauses);
        assert_eq!(rt; step == Step::Quiet, !conflict);
        if conflict {
            break;
        }
        assert_eq!(rt; trail.values(), signs(&found).as_slice());
    }
    Ok(())
}

/// One set of clauses, gone down into twice.
fn compare(rt: &(impl Abort + AllocGlobal), state: &mut u64) -> Result<(), Fail> {
    let mut arena = Arena::new(rt.alloc());
    let mut clauses = Vec::new(rt.alloc());
    for _clause in 0..14 {
        let numbers = clause_by_lot(state);
        add(rt, &mut arena, VARS, numbers)?;
        clauses.push(numbers)?;
    }
    let mut watches = Watches::new(rt.alloc(), VARS)?;
    watches.rebuild(&arena)?;
    let mut trail = Trail::new(rt.alloc(), VARS)?;
    descend(rt, &mut watches, &mut arena, &mut trail, &clauses, state)?;
    trail.backtrack(0);
    descend(rt, &mut watches, &mut arena, &mut trail, &clauses, state)
}

#[test]
fn propagation_ends_where_a_plain_closure_ends(rt: HostRuntime) -> Result<(), Fail> {
    let mut state = 0x9e37_79b9_7f4a_7c15;
    for _formula in 0..200 {
        compare(&rt, &mut state)?;
    }
    Ok(())
}
