ghost use Rattle.std.specs.Prelude.{◌<◌, ◌≤◌};

use crate::tests::{are_within, bits_of, draw_formula, holds, of_bits};
use crate::{Descended, Descent, LocalSearch, Tables};
use cnf_core::{Formula, Lit};
use model_check::is_model;
use samples::Draws;
use std::alloc::Global;
use std::test::Fail;

/// How a descent from a model ended, with the fixed values held and the literals wanted, and with which values.
fn descended(
    alloc: Global,
    formula: &Formula,
    start: u32,
    fixed: u32,
    wanted: &[Lit],
    effort: u64,
) -> Result<(Descended, u32), Fail> {
    let vars = formula.vars();
    let start = of_bits(alloc, vars, start)?;
    let fixed = of_bits(alloc, vars, fixed)?;
    if start.len() != vars || fixed.len() != vars || !are_within(vars, wanted) {
        return Err("other variables".into());
    }
    if !is_model(formula, &start) {
        return Err("no model".into());
    }
    let tables = Tables::new(alloc, formula)?;
    let mut search = LocalSearch::new(alloc, &tables, 5)?;
    let mut descent = Descent::new(alloc, &tables)?;
    let end = descent.descend(&mut search, &tables, &start, &fixed, wanted, effort);
    Ok((end, bits_of(search.values())))
}

/// The literal of one of the variables 1 to 6 that the bits make false.
fn other(bits: u32, var: u32) -> Lit
    requires { (0 < var) × (var ≤ 6) }
{
    Lit::new(var, bits >> (var - 1) & 1 == 0)
}

/// How many of the literals the bits make false.
fn unmet(lits: &[Lit], bits: u32) -> usize {
    lits.iter()
        .filter(|lit| (bits >> (lit.var() - 1).min(31) & 1 == 1) != lit.positive())
        .count()
}

/// The least number of the literals that a model makes false which has the start's values at the marks.
fn least_unmet(
    alloc: Global,
    formula: &Formula,
    start: u32,
    fixed: u32,
    lits: &[Lit],
) -> Result<usize, Fail> {
    let mut least = usize::MAX;
    for bits in 0..64 {
        if (bits ^ start) & fixed == 0 && holds(alloc, formula, bits)? {
            least = least.min(unmet(lits, bits));
        }
    }
    Ok(least)
}

/// Whether a descent from the first model ends with the best one, and whether that is better than the first.
fn ends_best(alloc: Global, pick: u32, formula: &Formula, start: u32) -> Result<bool, Fail> {
    let mut draws = Draws::new(pick.saturating_add(1));
    let wanted = [
        other(start, 1),
        other(start, 2),
        other(start, 3),
        other(start, 4),
        other(start, 5),
    ];
    let fixed = 1 << draws.below(6);
    let (end, bits) = descended(alloc, formula, start, fixed, &wanted, 2_000_000)?;
    let least = least_unmet(alloc, formula, start, fixed, &wanted)?;
    let better = holds(alloc, formula, bits)? && (bits ^ start) & fixed == 0;
    Ok(
        end.visits <= 2_000_000
            && end.found == (least < 5)
            && end.left == least
            && (!end.found || better && unmet(&wanted, bits) == least),
    )
}

#[test]
fn a_descent_ends_with_the_best_model(rt: HostRuntime) -> Result<(), Fail> {
    let alloc = rt.alloc();
    for pick in 0..40 {
        let mut draws = Draws::new(pick);
        let formula = draw_formula(alloc, &mut draws)?;
        for bits in 0..64 {
            if holds(alloc, &formula, bits)? {
                assert!(rt; ends_best(alloc, pick, &formula, bits)?, "{pick} {bits}");
                break;
            }
        }
    }
    Ok(())
}

#[test]
fn a_descent_finds_nothing_by_no_effort(rt: HostRuntime) -> Result<(), Fail> {
    let alloc = rt.alloc();
    let formula = Formula::of_numbers(alloc, 2, &[1, 2, 0])?;
    let wanted = [Lit::of(-1).ok_or("a literal")?];
    let (end, _bits) = descended(alloc, &formula, 0b11, 0, &wanted, 0)?;
    assert_eq!(rt; (end.found, end.visits, end.left), (false, 0, 1));
    let (end, bits) = descended(alloc, &formula, 0b11, 0, &wanted, 1_000)?;
    assert_eq!(rt; (end.found, end.left, bits), (true, 0, 0b10));
    let (end, _bits) = descended(alloc, &formula, 0b11, 0b01, &wanted, 1_000)?;
    assert_eq!(rt; (end.found, end.left), (false, 1));
    Ok(())
}
