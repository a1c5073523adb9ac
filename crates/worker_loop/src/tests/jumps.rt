//! Jumps over worked formulas.
ghost use Rattle.std.specs.Prelude.{IsTrue};
ghost use Rattle.cnf_core.specs.Literals.{AreWithin};

use crate::jumping::Jumper;
use crate::tests::{fits, value, values};
use assumption_solver::Solver;
use cnf_core::{Formula, Lit, Values};
use std::alloc::Global;
use std::test::Fail;

/// Six variables of one value.
const RING: [i32; 18] = [-1, 2, 0, -2, 3, 0, -3, 4, 0, -4, 5, 0, -5, 6, 0, -6, 1, 0];

/// The same, and the first of them is true.
const LED: [i32; 20] = [
    1, 0, -1, 2, 0, -2, 3, 0, -3, 4, 0, -4, 5, 0, -5, 6, 0, -6, 1, 0,
];

/// One of two variables is true, and a third is as the first.
const EITHER: [i32; 9] = [1, 2, 0, -1, 3, 0, 1, -3, 0];

/// Whether each literal's variable is one of 1 to so many.
fn are_within(vars: u32, lits: &[Lit]) -> bool
    ensures { IsTrue result → AreWithin vars lits.now }
{
    lits.iter().all(|lit| lit.var() <= vars)
}

/// The literals of these numbers.
fn literals(alloc: Global, numbers: &[i32]) -> Result<Vec<Lit>, Fail> {
    let mut lits = Vec::new(alloc);
    for number in numbers {
        lits.push(Lit::of(*number).ok_or("a literal")?)?;
    }
    Ok(lits)
}

/// Where a jump lands from the model in which all is true, if it does: the numbers of the true variables.
fn landing(
    alloc: Global,
    formula: &Formula,
    wanted: &[i32],
    core: &[i32],
) -> Result<Option<Values>, Fail> {
    let vars = formula.vars();
    let start = values(alloc, vars, u32::MAX)?;
    let wanted = literals(alloc, wanted)?;
    let core = literals(alloc, core)?;
    if !fits(formula, &start) || !are_within(vars, &wanted) || !are_within(vars, &core) {
        return Err(Fail::from("no model"));
    }
    let mut solver = Solver::new(alloc, formula)?;
    let mut jumper = Jumper::new(formula, 1);
    Ok(jumper.jump(alloc, &mut solver, &start, &wanted, &core))
}

/// Whether exactly the variables with a bit are true.
fn has_bits(values: &Option<Values>, bits: u32) -> bool {
    let Some(values) = values else {
        return false;
    };
    (1..=values.len()).all(|var| values.get(var) == value(bits, var))
}

#[test]
fn a_jump_turns_together_what_no_flip_turns(rt: HostRuntime) -> Result<(), Fail> {
    let alloc = rt.alloc();
    let formula = Formula::of_numbers(alloc, 6, &RING)?;
    let found = landing(alloc, &formula, &[-1, -2, -3, -4, -5, -6], &[])?;
    assert!(rt; has_bits(&found, 0));
    Ok(())
}

#[test]
fn no_jump_leaves_a_literal_of_all_models_open(rt: HostRuntime) -> Result<(), Fail> {
    let alloc = rt.alloc();
    let formula = Formula::of_numbers(alloc, 7, &LED)?;
    let found = landing(alloc, &formula, &[-1, -2, -3, -4, -5, -6, -7], &[1, 7])?;
    assert!(rt; found.is_none());
    Ok(())
}

#[test]
fn a_jump_closes_as_many_as_a_block_has_or_splits_the_core(rt: HostRuntime) -> Result<(), Fail> {
    let alloc = rt.alloc();
    let formula = Formula::of_numbers(alloc, 3, &EITHER)?;
    let found = landing(alloc, &formula, &[-1, -2, -3], &[])?;
    assert!(rt; found.is_none());
    let found = landing(alloc, &formula, &[-1, -2, -3], &[1, 2])?;
    assert!(rt; has_bits(&found, 0b010));
    Ok(())
}
