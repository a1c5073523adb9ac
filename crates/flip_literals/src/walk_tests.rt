ghost use Rattle.std.specs.Prelude.{IsTrue};
ghost use Rattle.flip_literals.specs.Walks.{AreVars};

use crate::{Occurrences, Walker};
use cnf_core::{Clause, Formula, Values};
use model_check::is_model;
use samples::Draws;
use std::alloc::Global;
use std::test::Fail;

/// What threads may share.
fn shared<T: Send + Sync>(value: &T) -> &T {
    value
}

/// Values by the bits of a number, the lowest bit for variable 1.
fn of_bits(alloc: Global, vars: u32, bits: u32) -> Result<Values, Fail> {
    let mut values = Values::new(alloc, vars)?;
    for var in 1..=vars.min(6) {
        if var <= values.len() {
            values.set(var, bits >> (var - 1) & 1 == 1);
        }
    }
    Ok(values)
}

/// The number with the bits of the values.
fn bits_of(values: &Values) -> u32 {
    let mut bits = 0;
    for var in 1..=values.len().min(6) {
        if values.get(var) {
            bits |= 1 << (var - 1);
        }
    }
    bits
}

/// How many values are true.
fn count_true(values: &Values) -> usize {
    (1..=values.len()).filter(|var| values.get(*var)).count()
}

/// Whether the bits are a model.
fn holds(alloc: Global, formula: &Formula, bits: u32) -> Result<bool, Fail> {
    let values = of_bits(alloc, formula.vars(), bits)?;
    Ok(values.len() == formula.vars() && is_model(formula, &values))
}

/// Whether each is one of the variables 1 to so many.
fn are_vars(vars: u32, list: &[u32]) -> bool
    ensures { IsTrue result → AreVars vars list.now }
{
    list.iter().all(|var| 0 < *var && *var <= vars)
}

/// What a walk over the candidates leaves of the model, and whether it came to rest.
fn walked(
    alloc: Global,
    formula: &Formula,
    first: &Values,
    model: &Values,
    candidates: &[u32],
) -> Result<(Values, bool), Fail> {
    let vars = formula.vars();
    let mut left = model.copy()?;
    if first.len() != vars || left.len() != vars || !are_vars(vars, candidates) {
        return Err("other variables".into());
    }
    if !is_model(formula, &left) {
        return Err("no model".into());
    }
    let occurrences = Occurrences::new(alloc, formula, first)?;
    let mut walker = Walker::new(alloc, formula)?;
    let rest = walker.walk(&occurrences, &mut left, candidates);
    let _ = shared(&occurrences);
    let _ = shared(&walker);
    Ok((left, rest))
}

/// Whether the model can't do without the variable, which has its first value, by its occurrences.
fn is_critical(
    alloc: Global,
    formula: &Formula,
    first: &Values,
    model: &Values,
    var: u32,
) -> Result<bool, Fail> {
    let vars = formula.vars();
    if first.len() != vars || model.len() != vars || !is_model(formula, model) {
        return Err("no model".into());
    }
    if var == 0 || var > vars || model.get(var) != first.get(var) {
        return Err("not its first value".into());
    }
    Ok(Occurrences::new(alloc, formula, first)?.is_critical(model, var))
}

/// Each implies the next; the last clause holds nothing.
const CHAIN: [i32; 12] = [-1, 2, 0, -2, 3, 0, -3, 4, 0, 4, -4, 0];

#[test]
fn a_flip_frees_the_next(rt: HostRuntime) -> Result<(), Fail> {
    let alloc = rt.alloc();
    let formula = Formula::of_numbers(alloc, 4, &CHAIN)?;
    for (first, model, candidates, left) in [
        (0b1111, 0b1111, [1, 2, 3, 4], 0b0000),
        (0b1111, 0b1111, [4, 3, 2, 1], 0b0000),
        (0b1111, 0b1111, [2, 3, 4, 4], 0b1111),
        (0b1111, 0b1111, [1, 1, 3, 3], 0b1110),
        (0b1111, 0b1110, [4, 3, 4, 3], 0b1110),
        (0b0000, 0b1111, [1, 2, 3, 4], 0b1111),
        (0b0000, 0b0000, [1, 2, 3, 4], 0b1111),
    ] {
        let first = of_bits(alloc, 4, first)?;
        let model = of_bits(alloc, 4, model)?;
        let (values, rest) = walked(alloc, &formula, &first, &model, &candidates)?;
        assert_eq!(rt; (bits_of(&values), rest), (left, true), "{candidates:?}");
    }
    Ok(())
}

#[test]
fn a_chain_is_flipped_from_either_end(rt: HostRuntime) -> Result<(), Fail> {
    let alloc = rt.alloc();
    let mut numbers = Vec::new(alloc);
    let mut first = Values::new(alloc, 120)?;
    let mut candidates = Vec::new(alloc);
    for var in 1..120u32 {
        numbers.push(-(var as i32))?;
        numbers.push(var as i32 + 1)?;
        numbers.push(0)?;
    }
    for var in 1..=120 {
        if var <= first.len() {
            first.set(var, true);
        }
        candidates.push(121 - var)?;
    }
    let formula = Formula::of_numbers(alloc, 120, &numbers)?;
    let (left, rest) = walked(alloc, &formula, &first, &first, &candidates)?;
    assert_eq!(rt; (count_true(&left), rest), (0, true));
    candidates.reverse();
    let (left, rest) = walked(alloc, &formula, &first, &first, &candidates)?;
    assert_eq!(rt; (count_true(&left), rest), (0, true));
    Ok(())
}

/// A formula over the variables 1 to 6.
fn draw_formula(alloc: Global, draws: &mut Draws) -> Result<Formula, Fail> {
    let mut formula = Formula::new(alloc, 6);
    for _i in 0..4 + draws.below(12) {
        let mut lits = Vec::new(alloc);
        for _j in 0..3 {
            lits.push(draws.literal(6))?;
        }
        if formula.room(&lits) {
            formula.push(Clause { lits })?;
        }
    }
    Ok(formula)
}

/// Whether a walk, and each single flip after it, are what the test of a model says.
fn agrees(
    alloc: Global,
    formula: &Formula,
    first: u32,
    model: u32,
    candidates: &[u32],
) -> Result<bool, Fail> {
    let first_values = of_bits(alloc, 6, first)?;
    let values = of_bits(alloc, 6, model)?;
    let (left, rest) = walked(alloc, formula, &first_values, &values, candidates)?;
    let end = bits_of(&left);
    let mut agree = rest && holds(alloc, formula, end)?;
    for var in 1..=6 {
        let bit = 1 << (var - 1);
        let candidate = candidates.contains(&var);
        if (end ^ model) & bit != 0 {
            agree = agree && candidate && (model ^ first) & bit == 0;
        } else if (end ^ first) & bit == 0 {
            let free = holds(alloc, formula, end ^ bit)?;
            let critical = is_critical(alloc, formula, &first_values, &left, var)?;
            agree = agree && critical != free && !(candidate && free);
        }
    }
    Ok(agree)
}

#[test]
fn walks_end_as_the_test_of_a_model_says(rt: HostRuntime) -> Result<(), Fail> {
    for pick in 0..30 {
        let mut draws = Draws::new(pick);
        let formula = draw_formula(rt.alloc(), &mut draws)?;
        let candidates = [1 + draws.below(6), 1 + draws.below(6), 1 + draws.below(6)];
        let mut first = None;
        for bits in 0..64 {
            if holds(rt.alloc(), &formula, bits)? {
                let first = *first.get_or_insert(bits);
                assert!(rt;
                    agrees(rt.alloc(), &formula, first, bits, &candidates)?,
                    "{pick}"
                );
            }
        }
    }
    Ok(())
}
