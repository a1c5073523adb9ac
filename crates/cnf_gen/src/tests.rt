//! Words and formulas whose expected values come from a separate script, with PCG32 as its reference code has it.
use crate::draws::{draw, generator};
use crate::planted;
use cnf_core::Formula;
use std::alloc::Global;
use std::test::Fail;

/// The numbers that write the first clauses.
fn first_numbers(alloc: Global, formula: &Formula, count: usize) -> Result<Vec<i32>, Fail> {
    let mut numbers = Vec::new(alloc);
    for clause in formula.clauses().iter().take(count) {
        for lit in clause {
            numbers.push(lit.number())?;
        }
        numbers.push(0)?;
    }
    Ok(numbers)
}

#[test]
fn a_seed_gives_its_known_words(rt: HostRuntime) {
    for (seed, words) in [
        (0, [298_703_107, 4_236_525_527, 336_081_875, 1_056_616_254]),
        (
            7,
            [2_442_223_337, 414_063_806, 2_743_600_285, 3_524_868_804],
        ),
    ] {
        let mut rng = generator(seed);
        for word in words {
            assert_eq!(rt; draw(&mut rng), word, "{seed}");
        }
    }
}

#[test]
fn small_formulas_have_their_known_clauses(rt: HostRuntime) -> Result<(), Fail> {
    let rows: [(u32, u32, u64, &[i32]); 4] = [
        (3, 0, 5, &[]),
        (3, 1, 0, &[-1, 3, 2, 0]),
        (
            5,
            4,
            0,
            &[5, -3, -2, 0, 4, -1, 2, 0, -4, -2, -1, 0, 4, 3, 2, 0],
        ),
        (20, 3, 7, &[9, 5, 4, 0, 2, -12, -3, 0, 14, -9, 20, 0]),
    ];
    for (vars, clauses, seed, numbers) in rows {
        let formula = planted(rt.alloc(), vars, clauses, seed)?;
        assert_eq!(rt; formula.vars(), vars);
        let found = first_numbers(rt.alloc(), &formula, 4)?;
        assert_eq!(rt; found.as_slice(), numbers);
    }
    Ok(())
}

#[test]
fn the_largest_formula_is_made(rt: HostRuntime) -> Result<(), Fail> {
    let formula = planted(rt.alloc(), 1_048_576, 2_097_152, u64::MAX)?;
    assert_eq!(rt; formula.clauses().len(), 2_097_152);
    let found = first_numbers(rt.alloc(), &formula, 2)?;
    assert_eq!(rt;
        found.as_slice(),
        [159_697, -191_096, 990_425, 0, 974_208, 650_950, -499_078, 0].as_slice()
    );
    Ok(())
}
