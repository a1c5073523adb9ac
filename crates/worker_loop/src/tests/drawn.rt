//! A worker alone on small formulas, against trying every assignment.
use crate::End;
use crate::tests::{ENOUGH, fixes, run_alone, value};
use cnf_core::{Clause, Formula};
use samples::Draws;
use std::alloc::Global;
use std::test::Fail;

const VARS: u32 = 5;

fn draw(alloc: Global, pick: u32) -> Result<Formula, Fail> {
    let mut draws = Draws::new(pick);
    let mut formula = Formula::new(alloc, VARS);
    for _clause in 0..8 + draws.below(12) {
        let mut lits = Vec::new(alloc);
        for _place in 0..3_usize {
            lits.push(draws.literal(VARS))?;
        }
        if formula.room(&lits) {
            formula.push(Clause { lits })?;
        }
    }
    Ok(formula)
}

/// Whether the assignment makes each clause true.
fn holds(formula: &Formula, bits: u32) -> bool {
    formula.clauses().iter().all(|clause| {
        clause
            .lits
            .iter()
            .any(|lit| value(bits, lit.var()) == lit.positive())
    })
}

/// What trying every assignment tells of a formula's models.
#[derive(Clone, Copy)]
struct Tried {
    /// One of them.
    first: u32,
    /// The variables that are true in all of them.
    always: u32,
    /// The variables that are true in some.
    ever: u32,
}

fn try_all(formula: &Formula) -> Option<Tried> {
    let mut tried: Option<Tried> = None;
    for bits in 0..1 << VARS {
        if holds(formula, bits) {
            let before = tried.unwrap_or(Tried {
                first: bits,
                always: bits,
                ever: bits,
            });
            tried = Some(Tried {
                first: before.first,
                always: before.always & bits,
                ever: before.ever | bits,
            });
        }
    }
    tried
}

/// The literals that are true in all models, in order.
fn common(alloc: Global, tried: Tried) -> Result<Vec<i32>, Fail> {
    let mut numbers = Vec::new(alloc);
    for place in 0..VARS {
        let var = place + 1;
        if value(tried.always, var) {
            numbers.push(var as i32)?;
        } else if !value(tried.ever, var) {
            numbers.push(-(var as i32))?;
        }
    }
    numbers.sort_unstable();
    Ok(numbers)
}

/// What a worker alone fixes, in order, where it drops all else.
fn fixed(alloc: Global, formula: &Formula, model: u32) -> Result<Vec<i32>, Fail> {
    let findings = run_alone(alloc, formula, model, ENOUGH)?;
    let mut numbers = fixes(alloc, &findings)?;
    numbers.sort_unstable();
    if findings.end == End::Done && findings.drops.len() == 5 - numbers.len().min(5) {
        Ok(numbers)
    } else {
        Err(Fail::from("not complete"))
    }
}

#[test]
fn drawn_formulas_are_answered_as_by_trying_every_assignment(rt: HostRuntime) -> Result<(), Fail> {
    let alloc = rt.alloc();
    let mut some = false;
    for pick in 0..60 {
        let formula = draw(alloc, pick)?;
        if let Some(tried) = try_all(&formula) {
            let wanted = common(alloc, tried)?;
            let numbers = fixed(alloc, &formula, tried.first)?;
            assert_eq!(rt; numbers.as_slice(), wanted.as_slice());
            some |= !wanted.is_empty();
        }
    }
    assert!(rt; some);
    Ok(())
}
