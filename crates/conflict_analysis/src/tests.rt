//! The calls on small settings that were worked by hand.
ghost use Rattle.std.specs.Prelude.{◌≡◌, ◌+◌, ℕ, IfOk, IsTrue, true};
ghost use Rattle.cnf_core.specs.Literals.{IsWithin};
ghost use Rattle.trail_core.specs.Trails.{IsFree, with_entry};
ghost use Rattle.trail_core.specs.declared.entry.Reason.TheVariants.{Decision};
ghost use Rattle.conflict_analysis.specs.Examples.{deep_clauses, deep_trail, wide_clauses, wide_trail, root_clauses, root_trail};
ghost use Rattle.conflict_analysis.specs.Examples.{ExamplesAreReady};

use crate::{Analyser, Learnt};
use clause_arena::{Arena, ClauseRef};
use cnf_core::{Formula, Lit, NoMemory};
use lrat_checker::Checker;
use lrat_lines::{Ids, Line};
use std::alloc::{AllocError, Global};
use std::process::Abort;
use std::test::Fail;
use trail_core::{Reason, Trail};

/// What threads may share, as each type of this crate.
fn shared<T: Send + Sync>(value: &T) -> &T {
    value
}

/// The examples meet the conditions of the calls.
fn examples_are_ready()
    ensures { ExamplesAreReady }
{}

fn is_free(trail: &Trail, lit: Lit) -> bool
    ensures { IsTrue result → IsWithin trail.now.vars lit × IsFree trail.now.entries lit.var }
{
    lit.var() <= trail.vars() && trail.value(lit).is_none()
}

/// Decides a literal without value.
fn decide(rt: &impl Abort, trail: &mut Trail, lit: Lit)
    ensures { trail.new ≡ with_entry trail.old lit (trail.old.level + 1) Decision }
{
    assert!(rt; is_free(trail, lit));
    trail.decide(lit);
}

/// Pushes a literal without value.
fn push(rt: &impl Abort, trail: &mut Trail, lit: Lit, reason: Reason)
    ensures { trail.new ≡ with_entry trail.old lit trail.old.level reason }
{
    assert!(rt; is_free(trail, lit));
    trail.push(lit, reason);
}

/// The clauses `-1 -2 3` and `-1 -2 -3` with the ids 1 and 2.
#[tactic(auto, unfolding(crate::specs::Examples::deep_clauses))]
fn deep_clauses(alloc: Global) -> Result<Arena, NoMemory>
    ensures { IfOk result (λ a. a ≡ deep_clauses) }
{
    let mut arena = Arena::new(alloc);
    let [first, second] = [Lit::new(1, false), Lit::new(2, false)];
    arena.add(&[first, second, Lit::new(3, true)], 1, false)?;
    arena.add(&[first, second, Lit::new(3, false)], 2, false)?;
    Ok(arena)
}

/// The decisions 1 and 2, and 3 by the first clause.
#[tactic(auto, unfolding(crate::specs::Examples::deep_trail))]
fn deep_trail(rt: &impl Abort, alloc: Global) -> Result<Trail, NoMemory>
    ensures trail { IfOk result (λ t. t ≡ deep_trail) }
    ensures vars { IfOk result (λ t. t.vars ≡ 3) }
{
    let mut trail = Trail::new(alloc, 3)?;
    decide(rt, &mut trail, Lit::new(1, true));
    decide(rt, &mut trail, Lit::new(2, true));
    push(
        rt,
        &mut trail,
        Lit::new(3, true),
        Reason::Clause(ClauseRef::at(0)),
    );
    Ok(trail)
}

/// The clauses `-1 -2 -4 5` and `-1 -2 -4 -5` with the ids 1 and 2.
#[tactic(auto, unfolding(crate::specs::Examples::wide_clauses))]
fn wide_clauses(alloc: Global) -> Result<Arena, NoMemory>
    ensures { IfOk result (λ a. a ≡ wide_clauses) }
{
    let mut arena = Arena::new(alloc);
    let [first, second, third] = [Lit::new(1, false), Lit::new(2, false), Lit::new(4, false)];
    arena.add(&[first, second, third, Lit::new(5, true)], 1, false)?;
    arena.add(&[first, second, third, Lit::new(5, false)], 2, false)?;
    Ok(arena)
}

/// 1 by a unit with the id 3, the decisions 2, 3 and 4, and 5 by the first clause.
#[tactic(auto, unfolding(crate::specs::Examples::wide_trail))]
fn wide_trail(rt: &impl Abort, alloc: Global) -> Result<Trail, NoMemory>
    ensures trail { IfOk result (λ t. t ≡ wide_trail) }
    ensures vars { IfOk result (λ t. t.vars ≡ 5) }
{
    let mut trail = Trail::new(alloc, 5)?;
    push(rt, &mut trail, Lit::new(1, true), Reason::Unit(3));
    decide(rt, &mut trail, Lit::new(2, true));
    decide(rt, &mut trail, Lit::new(3, true));
    decide(rt, &mut trail, Lit::new(4, true));
    push(
        rt,
        &mut trail,
        Lit::new(5, true),
        Reason::Clause(ClauseRef::at(0)),
    );
    Ok(trail)
}

/// The clauses `-1 2` and `-1 -2` with the ids 1 and 2.
#[tactic(auto, unfolding(crate::specs::Examples::root_clauses))]
fn root_clauses(alloc: Global) -> Result<Arena, NoMemory>
    ensures { IfOk result (λ a. a ≡ root_clauses) }
{
    let mut arena = Arena::new(alloc);
    arena.add(&[Lit::new(1, false), Lit::new(2, true)], 1, false)?;
    arena.add(&[Lit::new(1, false), Lit::new(2, false)], 2, false)?;
    Ok(arena)
}

/// 1 by a unit with the id 3, and 2 by the first clause.
#[tactic(auto, unfolding(crate::specs::Examples::root_trail))]
fn root_trail(rt: &impl Abort, alloc: Global) -> Result<Trail, NoMemory>
    ensures trail { IfOk result (λ t. t ≡ root_trail) }
    ensures vars { IfOk result (λ t. t.vars ≡ 2) }
{
    let mut trail = Trail::new(alloc, 2)?;
    push(rt, &mut trail, Lit::new(1, true), Reason::Unit(3));
    push(
        rt,
        &mut trail,
        Lit::new(2, true),
        Reason::Clause(ClauseRef::at(0)),
    );
    Ok(trail)
}

/// What the conflict below two decisions teaches.
fn deep_learnt(rt: &impl Abort, alloc: Global) -> Result<Learnt, NoMemory> {
    examples_are_ready();
    let arena = deep_clauses(alloc)?;
    let trail = deep_trail(rt, alloc)?;
    let mut analyser = Analyser::new(alloc, 3)?;
    analyser.analyse(&arena, &trail, ClauseRef::at(1))
}

/// What the conflict with a root literal teaches.
fn wide_learnt(rt: &impl Abort, alloc: Global) -> Result<Learnt, NoMemory> {
    examples_are_ready();
    let arena = wide_clauses(alloc)?;
    let trail = wide_trail(rt, alloc)?;
    let mut analyser = Analyser::new(alloc, 5)?;
    shared(&analyser);
    analyser.analyse(&arena, &trail, ClauseRef::at(1))
}

/// The same, in memory that an answer gave back.
fn wide_again(rt: &impl Abort, alloc: Global) -> Result<Learnt, NoMemory> {
    examples_are_ready();
    let arena = wide_clauses(alloc)?;
    let trail = wide_trail(rt, alloc)?;
    let mut analyser = Analyser::new(alloc, 5)?;
    let learnt = analyser.analyse(&arena, &trail, ClauseRef::at(1))?;
    analyser.recycle(learnt);
    analyser.analyse(&arena, &trail, ClauseRef::at(1))
}

/// Why -3 is false below them.
fn deep_core(rt: &impl Abort, alloc: Global) -> Result<Learnt, NoMemory> {
    examples_are_ready();
    let arena = deep_clauses(alloc)?;
    let trail = deep_trail(rt, alloc)?;
    let mut analyser = Analyser::new(alloc, 3)?;
    analyser.final_core(&arena, &trail, Lit::new(3, false))
}

/// The hints of the conflict at the root.
fn root_hints(rt: &impl Abort, alloc: Global) -> Result<Ids, NoMemory> {
    examples_are_ready();
    let arena = root_clauses(alloc)?;
    let trail = root_trail(rt, alloc)?;
    let mut analyser = Analyser::new(alloc, 2)?;
    analyser.refute_root(&arena, &trail, ClauseRef::at(1))
}

/// The hints of 2 as a unit clause.
fn root_unit_hints(rt: &impl Abort, alloc: Global) -> Result<Ids, NoMemory> {
    examples_are_ready();
    let arena = root_clauses(alloc)?;
    let trail = root_trail(rt, alloc)?;
    let mut analyser = Analyser::new(alloc, 2)?;
    analyser.unit_hints(&arena, &trail, Lit::new(2, true))
}

/// Why -2 is false at the root, by a clause and a unit.
fn root_core(rt: &impl Abort, alloc: Global) -> Result<Learnt, NoMemory> {
    examples_are_ready();
    let arena = root_clauses(alloc)?;
    let trail = root_trail(rt, alloc)?;
    let mut analyser = Analyser::new(alloc, 2)?;
    analyser.final_core(&arena, &trail, Lit::new(2, false))
}

/// The clause as DIMACS numbers.
fn numbers(alloc: Global, learnt: &Learnt) -> Result<Vec<i32>, AllocError> {
    let mut numbers = Vec::new(alloc);
    for lit in learnt.lits.as_slice() {
        numbers.push(lit.number())?;
    }
    Ok(numbers)
}

/// Whether the clause, the level and the hints are these.
fn is_answer(
    alloc: Global,
    learnt: &Learnt,
    clause: &[i32],
    back: u32,
    hints: &[u64],
) -> Result<bool, AllocError> {
    let same = numbers(alloc, learnt)?.as_slice() == clause;
    Ok(same && learnt.back == back && learnt.hints.as_slice() == hints)
}

/// Whether the separate checker takes the clause as the third line, behind the two clauses of the deep example.
fn is_taken(alloc: Global, learnt: Learnt) -> Result<bool, Fail> {
    let formula = Formula::of_numbers(alloc, 3, [-1, -2, 3, 0, -1, -2, -3, 0].as_slice())?;
    let mut checker = Checker::new(alloc, &formula)?;
    let line = Line::Add {
        id: 3,
        lits: learnt.lits,
        hints: learnt.hints,
    };
    Ok(checker.line(&line).is_ok())
}

#[test]
fn a_conflict_below_two_decisions_teaches_that_one_is_wrong(rt: HostRuntime) -> Result<(), Fail> {
    let learnt = deep_learnt(&rt, rt.alloc())?;
    assert!(rt; is_answer(rt.alloc(), shared(&learnt), &[-2, -1], 1, &[1, 2])?);
    assert!(rt; is_taken(rt.alloc(), learnt)?);
    Ok(())
}

#[test]
fn root_literals_stay_out_and_a_level_between_is_jumped_over(rt: HostRuntime) -> Result<(), Fail> {
    let learnt = wide_learnt(&rt, rt.alloc())?;
    assert!(rt; is_answer(rt.alloc(), &learnt, &[-4, -2], 1, &[3, 1, 2])?);
    Ok(())
}

#[test]
fn an_answer_that_was_given_back_leaves_nothing_in_the_next(rt: HostRuntime) -> Result<(), Fail> {
    let learnt = wide_again(&rt, rt.alloc())?;
    assert!(rt; is_answer(rt.alloc(), &learnt, &[-4, -2], 1, &[3, 1, 2])?);
    Ok(())
}

#[test]
fn the_core_of_a_literal_below_two_decisions_has_both(rt: HostRuntime) -> Result<(), Fail> {
    let core = deep_core(&rt, rt.alloc())?;
    assert!(rt; is_answer(rt.alloc(), &core, &[3, -2, -1], 0, &[1])?);
    Ok(())
}

#[test]
fn a_conflict_at_the_root_is_refuted_from_the_unit_on(rt: HostRuntime) -> Result<(), Fail> {
    let hints = root_hints(&rt, rt.alloc())?;
    assert!(rt; hints.as_slice() == [3u64, 1, 2].as_slice());
    Ok(())
}

#[test]
fn a_root_literal_is_shown_by_the_unit_of_the_other_and_its_reason(
    rt: HostRuntime,
) -> Result<(), Fail> {
    let hints = root_unit_hints(&rt, rt.alloc())?;
    assert!(rt; hints.as_slice() == [3u64, 1].as_slice());
    Ok(())
}

#[test]
fn the_core_of_a_root_literal_is_its_negation_alone(rt: HostRuntime) -> Result<(), Fail> {
    let core = root_core(&rt, rt.alloc())?;
    assert!(rt; is_answer(rt.alloc(), &core, &[2], 0, &[3, 1])?);
    Ok(())
}
