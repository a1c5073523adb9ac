//! Generated formulas of up to twelve variables, whose assignments are all looked at.
ghost use Rattle.std.specs.Prelude.{◌≤◌};

use super::{NO_MODEL, run_both};
use crate::enumeration::{MOST_VARS, solve};
use cnf_core::Formula;
use samples::Draws;
use std::alloc::Global;
use std::test::Fail;

/// The numbers of so many clauses of one to three literals, each ended by 0.
fn drawn(alloc: Global, draws: &mut Draws, vars: u32, clauses: u32) -> Result<Vec<i32>, Fail>
    requires { (1 ≤ vars) × (vars ≤ MOST_VARS) }
{
    let mut numbers = Vec::new(alloc);
    for _ in 0..clauses {
        for _ in 0..=draws.below(3) {
            numbers.push(draws.literal(vars).number())?;
        }
        numbers.push(0)?;
    }
    Ok(numbers)
}

/// The text of a formula: a header and the clauses' numbers.
fn text_of(alloc: Global, vars: u32, clauses: u32, numbers: &[i32]) -> Result<Vec<u8>, Fail> {
    let mut digits = itoa::Buffer::new();
    let mut text = b"p cnf ".to_vec(alloc)?;
    text.extend_from_slice(digits.format(vars).as_bytes())?;
    text.push(b' ')?;
    text.extend_from_slice(digits.format(clauses).as_bytes())?;
    text.push(b'\n')?;
    for number in numbers {
        text.extend_from_slice(digits.format(*number).as_bytes())?;
        text.push(b'\n')?;
    }
    Ok(text)
}

/// The status and the answer's text by all assignments.
fn expected(alloc: Global, formula: &Formula) -> Result<(u8, Vec<u8>), Fail> {
    if formula.vars() > MOST_VARS {
        return Err(Fail::from("too many variables"));
    }
    let Some(fixed) = solve(alloc, formula)? else {
        return Ok((20, NO_MODEL.to_vec(alloc)?));
    };
    let mut digits = itoa::Buffer::new();
    let mut text = b"s SATISFIABLE\n".to_vec(alloc)?;
    for lit in &fixed {
        text.extend_from_slice(b"b ")?;
        text.extend_from_slice(digits.format(lit.number()).as_bytes())?;
        text.push(b'\n')?;
    }
    text.extend_from_slice(b"b 0\n")?;
    Ok((10, text))
}

#[test]
fn runs_agree_with_all_assignments_of_generated_formulas(rt: HostRuntime) -> Result<(), Fail> {
    let alloc = rt.alloc();
    let mut draws = Draws::new(18);
    for round in 0..120 {
        let vars = 1 + round % 12;
        let clauses = 1 + draws.below(3 * vars);
        let numbers = drawn(alloc, &mut draws, vars, clauses)?;
        let formula = Formula::of_numbers(alloc, vars, &numbers)?;
        let (status, known) = expected(alloc, &formula)?;
        let text = text_of(alloc, vars, clauses, &numbers)?;
        for (number, desk) in run_both(&rt, alloc, &["extract", "f"], &text, 64)? {
            assert_eq!(rt; number, status, "{numbers:?}");
            assert_eq!(rt; desk.out_answer.as_slice(), known.as_slice(), "{numbers:?}");
        }
    }
    Ok(())
}
