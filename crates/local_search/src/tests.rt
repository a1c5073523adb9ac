ghost use Rattle.std.specs.Prelude.{IsTrue};
ghost use Rattle.cnf_core.specs.Literals.{AreWithin};

use crate::{Frozen, LocalSearch, Tables};
use cnf_core::{Clause, Formula, Lit, Values};
use model_check::is_model;
use samples::Draws;
use std::alloc::Global;
use std::test::Fail;

/// What threads may share.
fn shared<T: Send + Sync>(value: &T) -> &T {
    value
}

/// Values by the bits of a number, the lowest bit for variable 1.
pub(crate) fn of_bits(alloc: Global, vars: u32, bits: u32) -> Result<Values, Fail> {
    let mut values = Values::new(alloc, vars)?;
    for var in 1..=vars.min(6) {
        if var <= values.len() {
            values.set(var, bits >> (var - 1) & 1 == 1);
        }
    }
    Ok(values)
}

/// The number with the bits of the values.
pub(crate) fn bits_of(values: &Values) -> u32 {
    let mut bits = 0;
    for var in 1..=values.len().min(6) {
        if values.get(var) {
            bits |= 1 << (var - 1);
        }
    }
    bits
}

/// Whether the bits are a model.
pub(crate) fn holds(alloc: Global, formula: &Formula, bits: u32) -> Result<bool, Fail> {
    let values = of_bits(alloc, formula.vars(), bits)?;
    Ok(values.len() == formula.vars() && is_model(formula, &values))
}

/// Whether the bits make each literal false.
fn are_false(lits: &[Lit], bits: u32) -> bool {
    lits.iter().all(|lit| (bits >> (lit.var() - 1).min(31) & 1 == 1) != lit.positive())
}

/// Whether each literal's variable is one of 1 to so many.
pub(crate) fn are_within(vars: u32, lits: &[Lit]) -> bool
    ensures { IsTrue result → AreWithin vars lits.now }
{
    lits.iter().all(|lit| lit.var() <= vars)
}

/// How a search from these values ended, with the fixed ones held and the literals frozen, and with which values.
fn frozen(
    alloc: Global,
    formula: &Formula,
    seed: u64,
    start: u32,
    fixed: u32,
    lits: &[Lit],
    effort: u64,
) -> Result<(Frozen, u32), Fail> {
    let vars = formula.vars();
    let start = of_bits(alloc, vars, start)?;
    let fixed = of_bits(alloc, vars, fixed)?;
    if start.len() != vars || fixed.len() != vars || !are_within(vars, lits) {
        return Err("other variables".into());
    }
    let tables = Tables::new(alloc, formula)?;
    let mut search = LocalSearch::new(alloc, &tables, seed)?;
    let end = search.freeze(&tables, &start, &fixed, lits, effort);
    let _ = shared(&tables);
    let _ = shared(&search);
    Ok((end, bits_of(search.values())))
}

/// A formula over the variables 1 to 6, of clauses of up to four literals.
pub(crate) fn draw_formula(alloc: Global, draws: &mut Draws) -> Result<Formula, Fail> {
    let mut formula = Formula::new(alloc, 6);
    for _i in 0..6 + draws.below(16) {
        let mut lits = Vec::new(alloc);
        for _j in 0..2 + draws.below(3) {
            lits.push(draws.literal(6))?;
        }
        if formula.room(&lits) {
            formula.push(Clause { lits })?;
        }
    }
    Ok(formula)
}

/// Whether one of all assignments is a model that makes the literals false and has these values at the marks.
fn exists(
    alloc: Global,
    formula: &Formula,
    start: u32,
    fixed: u32,
    lits: &[Lit],
) -> Result<bool, Fail> {
    for bits in 0..64 {
        if (bits ^ start) & fixed == 0 && are_false(lits, bits) && holds(alloc, formula, bits)? {
            return Ok(true);
        }
    }
    Ok(false)
}

#[test]
fn what_freeze_finds_is_a_frozen_model_and_it_finds_one_where_there_is_one(
    rt: HostRuntime,
) -> Result<(), Fail> {
    let alloc = rt.alloc();
    let mut found = [0u32, 0];
    for pick in 0..60 {
        let mut draws = Draws::new(pick);
        let formula = draw_formula(alloc, &mut draws)?;
        let lits = [draws.literal(6), draws.literal(6)];
        let start = draws.below(64);
        let fixed = 1 << draws.below(6);
        let (end, bits) = frozen(alloc, &formula, 7, start, fixed, &lits, 100_000)?;
        assert!(rt; end.visits <= 100_000);
        if end.found {
            assert!(rt; holds(alloc, &formula, bits)?, "{pick}");
            assert!(rt; are_false(&lits, bits), "{pick}");
            assert!(rt; (bits ^ start) & fixed == 0, "{pick}");
        }
        let expected = exists(alloc, &formula, start, fixed, &lits)?;
        assert_eq!(rt; end.found, expected, "{pick}");
        let count = &mut found[usize::from(expected)];
        *count = count.saturating_add(1);
    }
    assert!(rt; found[0] > 10 && found[1] > 10, "{found:?}");
    Ok(())
}

/// Each of the eight clauses over three variables: no assignment makes all of them true.
const UNSATISFIABLE: [i32; 32] = [
    1, 2, 3, 0, 1, 2, -3, 0, 1, -2, 3, 0, 1, -2, -3, 0, -1, 2, 3, 0, -1, 2, -3, 0, -1, -2, 3, 0,
    -1, -2, -3, 0,
];

#[test]
fn freeze_ends_by_its_effort_where_there_is_no_model(rt: HostRuntime) -> Result<(), Fail> {
    let formula = Formula::of_numbers(rt.alloc(), 3, &UNSATISFIABLE)?;
    for effort in [0, 78, 79, 1_000, 100_000] {
        let (end, _bits) = frozen(rt.alloc(), &formula, 1, 0b101, 0, &[], effort)?;
        assert!(rt; !end.found && end.visits <= effort, "{end:?}");
        if effort >= 1_000 {
            assert!(rt; end.visits > effort - 20, "{end:?}");
            assert_eq!(rt; end.low, 1);
        }
    }
    Ok(())
}

#[test]
fn freeze_finds_nothing_by_no_effort_nor_against_itself(rt: HostRuntime) -> Result<(), Fail> {
    let alloc = rt.alloc();
    let formula = Formula::of_numbers(alloc, 2, &[1, 2, 0, -1, 1, 0])?;
    let first = Lit::of(1).ok_or("a literal")?;
    let (end, _bits) = frozen(alloc, &formula, 1, 0b01, 0, &[], 0)?;
    assert_eq!(rt; (end.found, end.visits), (false, 0));
    let (end, bits) = frozen(alloc, &formula, 1, 0b01, 0, &[], 11)?;
    assert_eq!(rt; (end.found, end.visits, end.low, bits), (true, 10, 0, 0b01));
    let (end, bits) = frozen(alloc, &formula, 1, 0b01, 0, &[first], 100)?;
    assert_eq!(rt; (end.found, bits), (true, 0b10));
    let (end, _bits) = frozen(alloc, &formula, 1, 0b01, 0b01, &[first], 100)?;
    assert_eq!(rt; (end.found, end.visits, end.low), (false, 10, u32::MAX));
    let (end, _bits) = frozen(alloc, &formula, 1, 0b01, 0, &[first, first.negated()], 100)?;
    assert!(rt; !end.found);
    Ok(())
}

#[test]
fn the_same_seed_gives_the_same_answer(rt: HostRuntime) -> Result<(), Fail> {
    let mut draws = Draws::new(3);
    let formula = draw_formula(rt.alloc(), &mut draws)?;
    for seed in 0..4 {
        let once = frozen(rt.alloc(), &formula, seed, 0, 0, &[], 10_000)?;
        let again = frozen(rt.alloc(), &formula, seed, 0, 0, &[], 10_000)?;
        assert_eq!(rt; once, again);
    }
    Ok(())
}

/// Whether a search from false values finds the one variable that may be flipped in a clause of so many.
fn finds_the_free_one(alloc: Global, vars: u32, free: u32) -> Result<bool, Fail> {
    let mut lits = Vec::new(alloc);
    let mut fixed = Values::new(alloc, vars)?;
    for var in 1..=vars.min(100) {
        lits.push(Lit::of(var as i32).ok_or("a literal")?)?;
        if var != free && var <= fixed.len() {
            fixed.set(var, true);
        }
    }
    let mut formula = Formula::new(alloc, vars.min(100));
    if formula.room(&lits) {
        formula.push(Clause { lits })?;
    }
    let start = Values::new(alloc, vars)?;
    let tables = Tables::new(alloc, &formula)?;
    let mut search = LocalSearch::new(alloc, &tables, 1)?;
    if start.len() != tables.vars() || fixed.len() != tables.vars() {
        return Err("other variables".into());
    }
    let end = search.freeze(&tables, &start, &fixed, &[], 10_000);
    let values = search.values();
    Ok(end.found && (1..=values.len()).all(|var| values.get(var) == (var == free)))
}

#[test]
fn a_variable_is_picked_in_short_and_in_long_clauses(rt: HostRuntime) -> Result<(), Fail> {
    for vars in [1, 64, 65, 100] {
        assert!(rt; finds_the_free_one(rt.alloc(), vars, vars)?, "{vars}");
        assert!(rt; finds_the_free_one(rt.alloc(), vars, 1)?, "{vars}");
    }
    Ok(())
}

/// The values that a seed draws from true ones, where the marked ones are fixed.
fn drawn(alloc: Global, seed: u64, fixed: u32) -> Result<u32, Fail> {
    let formula = Formula::new(alloc, 6);
    let mut values = of_bits(alloc, 6, 0b11_1111)?;
    let fixed = of_bits(alloc, 6, fixed)?;
    let tables = Tables::new(alloc, &formula)?;
    let mut search = LocalSearch::new(alloc, &tables, seed)?;
    if values.len() != tables.vars() || fixed.len() != tables.vars() {
        return Err("other variables".into());
    }
    search.draw(&tables, &mut values, &fixed);
    Ok(bits_of(&values))
}

#[test]
fn drawn_values_differ_by_their_seed_but_for_the_fixed_ones(rt: HostRuntime) -> Result<(), Fail> {
    let first = drawn(rt.alloc(), 1, 0b00_0101)?;
    assert_eq!(rt; drawn(rt.alloc(), 1, 0b00_0101)?, first);
    let mut other = false;
    for seed in 2..20 {
        let bits = drawn(rt.alloc(), seed, 0b00_0101)?;
        assert_eq!(rt; bits & 0b00_0101, 0b00_0101);
        other = other || bits != first;
    }
    assert!(rt; other);
    Ok(())
}
