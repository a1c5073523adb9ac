//! Queries of many conflicts, and of several assumptions that are false at once.
ghost use Rattle.std.specs.Prelude.{◌<◌, ◌≤◌};

use crate::tests::{Steady, ask, check, literals, name};
use crate::{Found, Progress, Solver};
use chooser_core::Chooser;
use cnf_core::{Clause, Formula, Lit};
use lrat_log::Kind;
use samples::Draws;
use std::alloc::Global;
use std::boxed::Box;
use std::test::Fail;

/// More learnt clauses than a query here needs.
const BUDGET: u64 = 100_000;

/// The literal that says that a pigeon sits in a hole, one of at most five.
fn sits(pigeon: u32, hole: u32) -> Lit
    requires { (pigeon ≤ 5) × (hole < 5) }
{
    Lit::new(5 * pigeon + hole + 1, true)
}

/// Adds a clause, where the formula has room for it.
fn add(formula: &mut Formula, lits: Vec<Lit>) -> Result<(), Fail> {
    if formula.room(&lits) {
        formula.push(Clause { lits })?;
    }
    Ok(())
}

/// Each of six pigeons sits in one of five holes, and no two in the same.
fn pigeons(alloc: Global) -> Result<Formula, Fail> {
    let mut formula = Formula::new(alloc, 30);
    for pigeon in 0..6 {
        let mut lits = Vec::new(alloc);
        for hole in 0..5 {
            lits.push(sits(pigeon, hole))?;
        }
        add(&mut formula, lits)?;
    }
    for hole in 0..5 {
        for second in 0..6 {
            for first in 0..second {
                let mut lits = Vec::new(alloc);
                lits.push(sits(first, hole).negated())?;
                lits.push(sits(second, hole).negated())?;
                add(&mut formula, lits)?;
            }
        }
    }
    Ok(formula)
}

/// A chooser that picks the least variable without value.
fn in_order(alloc: Global) -> Result<Box<dyn Chooser>, Fail> {
    Ok(Box::new(
        alloc,
        Steady {
            number: None,
            count: 0,
        },
    )?)
}

#[test]
fn six_pigeons_have_no_place_in_five_holes_and_the_log_shows_it(
    rt: HostRuntime,
) -> Result<(), Fail> {
    let alloc = rt.alloc();
    let formula = pigeons(alloc)?;
    let mut chooser = in_order(alloc)?;
    let mut solver = Solver::new(alloc, &formula)?;
    solver.begin(&mut chooser);
    let ended = solver.go_on(&[], &[], &mut chooser, BUDGET, BUDGET);
    assert!(rt; matches!(&ended, Progress::Found(Found::Unsat { .. })));
    let log = solver.into_log();
    assert!(rt; log.count_learnt() > 20);
    let checker = check(alloc, &formula, &log)?;
    assert!(rt; checker.has_empty());
    Ok(())
}

/// Clauses of three literals over 220 variables, about as many as have no model.
fn drawn(alloc: Global) -> Result<Formula, Fail> {
    let mut draws = Draws::new(1);
    let mut formula = Formula::new(alloc, 220);
    for _clause in 0..940 {
        let mut lits = Vec::new(alloc);
        for _place in 0..3 {
            lits.push(draws.literal(220))?;
        }
        add(&mut formula, lits)?;
    }
    Ok(formula)
}

/// How often clauses were removed, behind so many conflicts more.
fn removals_behind(
    solver: &mut Solver,
    chooser: &mut Box<dyn Chooser>,
    conflicts: u64,
) -> Result<u64, Fail> {
    if solver.log().count_learnt() > BUDGET {
        return Err(Fail::from("more clauses than the budget"));
    }
    match solver.go_on(&[], &[], chooser, BUDGET, conflicts) {
        Progress::Paused => Ok(solver.counts().removals),
        Progress::Found(_) => Err(Fail::from("an answer")),
    }
}

#[test]
fn a_long_query_removes_clauses_behind_1000_3000_and_7000(rt: HostRuntime) -> Result<(), Fail> {
    let alloc = rt.alloc();
    let formula = drawn(alloc)?;
    let mut chooser = in_order(alloc)?;
    let mut solver = Solver::new(alloc, &formula)?;
    solver.begin(&mut chooser);
    let mut removals = Vec::new(alloc);
    for slice in [999, 1, 1_999, 1, 3_999, 1] {
        removals.push(removals_behind(&mut solver, &mut chooser, slice)?)?;
    }
    assert_eq!(rt; removals.as_slice(), [0, 1, 1, 2, 2, 3].as_slice());
    check(alloc, &formula, solver.log())?;
    Ok(())
}

#[test]
fn the_core_is_that_of_the_first_assumption_that_is_false_at_the_root(
    rt: HostRuntime,
) -> Result<(), Fail> {
    let alloc = rt.alloc();
    let formula = Formula::of_numbers(alloc, 4, &[1, 0, 2, 0, -3, -4, 0])?;
    let assume = literals(alloc, &[3, -2, -1, 4])?;
    let mut chooser = in_order(alloc)?;
    let mut solver = Solver::new(alloc, &formula)?;
    let found = ask(&formula, &mut solver, &mut chooser, &assume, &[], 10)?;
    assert_eq!(rt; name(&found), "a core");
    let log = solver.into_log();
    check(alloc, &formula, &log)?;
    assert!(rt; log.len() > 0);
    let last = log.len() - 1;
    assert_eq!(rt; (log.kind(last), log.lit_count(last)), (Kind::Unit, 1));
    assert_eq!(rt; log.lit(last, 0).number(), 2);
    Ok(())
}
