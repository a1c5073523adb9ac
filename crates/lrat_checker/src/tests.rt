//! Lines over small formulas, with answers that were worked by hand, and generated lines against a
//! plain program.
ghost use Rattle.std.specs.Prelude.{◌<◌};

use crate::{Checker, Refused};
use cnf_core::{Formula, Lit};
use lrat_lines::read_line;
use std::alloc::Global;
use std::test::Fail;

mod draws;
mod plain;

use draws::Draws;
use plain::PlainProof;

/// What threads may share, as each type of this crate.
fn shared<T: Send + Sync>(value: &T) -> &T {
    value
}

/// The answer to the last of the lines of a text.
fn last_answer(
    alloc: Global,
    checker: &mut Checker,
    text: &[u8],
) -> Result<Result<(), Refused>, Fail> {
    let mut answer = Ok(());
    for line in text.split(|byte| *byte == b'\n') {
        answer = checker.line(&read_line(alloc, line)?);
    }
    Ok(answer)
}

#[test]
fn lines_over_an_implied_literal_are_taken_or_refused(rt: HostRuntime) -> Result<(), Fail> {
    let alloc = rt.alloc();
    let formula = Formula::of_numbers(alloc, 2, &[1, 2, 0, 1, -2, 0])?;
    for (text, answer, unit) in [
        (b"3 1 0 1 2 0".as_slice(), Ok(()), true),
        (b"3 1 0 1 0", Err(Refused::NoConflict), false),
        (b"3 1 0 2 0", Err(Refused::NoConflict), false),
        (b"2 1 0 1 2 0", Err(Refused::IdNotRising(2)), false),
        (b"3 3 0 0", Err(Refused::VarRange(3)), false),
        (b"3 1 -1 0 0", Ok(()), false),
        (b"3 0 1 0", Err(Refused::NotUnit(1)), false),
        (
            b"3 1 0 1 2 0\n4 d 1 0\n5 1 0 1 2 0",
            Err(Refused::UnknownHint(1)),
            true,
        ),
        (b"3 1 0 1 2 0\n4 d 3 0", Ok(()), true),
        (b"3 1 0 1 2 0\n4 d 9 0", Err(Refused::UnknownHint(9)), true),
        (b"3 1 0 3 0", Err(Refused::UnknownHint(3)), false),
        (b"3 1 0 1 0\n3 1 0 1 2 0", Ok(()), true),
        (
            b"4 1 1 0 1 2 0\n3 1 0 1 2 0",
            Err(Refused::IdNotRising(3)),
            true,
        ),
    ] {
        let mut checker = Checker::new(alloc, &formula)?;
        assert_eq!(rt; last_answer(alloc, &mut checker, text)?, answer, "{text:?}");
        assert_eq!(rt;
            shared(&checker).has_unit(Lit::new(1, true)),
            unit,
            "{text:?}"
        );
        assert!(rt; !checker.has_unit(Lit::new(1, false)));
        assert!(rt; !checker.has_unit(Lit::new(1_048_576, true)));
        assert!(rt; !checker.has_empty());
    }
    Ok(())
}

#[test]
fn the_empty_clause_is_reached_as_an_input_or_by_a_line(rt: HostRuntime) -> Result<(), Fail> {
    let alloc = rt.alloc();
    let empty = Formula::of_numbers(alloc, 1, &[0])?;
    let mut checker = Checker::new(alloc, &empty)?;
    assert!(rt; checker.has_empty());
    assert_eq!(rt; last_answer(alloc, &mut checker, b"2 0 1 0")?, Ok(()));
    assert!(rt; checker.has_empty());

    let opposite = Formula::of_numbers(alloc, 1, &[1, 0, -1, 0])?;
    let mut checker = Checker::new(alloc, &opposite)?;
    assert!(rt; checker.has_unit(Lit::new(1, true)));
    assert!(rt; checker.has_unit(Lit::new(1, false)));
    assert!(rt; !checker.has_empty());
    let lines = b"3 0 2 1 0\n4 d 3 1 3 0";
    assert_eq!(rt; last_answer(alloc, &mut checker, lines)?, Ok(()));
    assert!(rt; checker.has_empty());
    Ok(())
}

/// The place of an answer in a table of all kinds.
fn place_of(answer: &Result<(), Refused>) -> usize
    ensures { result < 6 }
{
    match answer {
        Ok(()) => 0,
        Err(Refused::IdNotRising(_)) => 1,
        Err(Refused::VarRange(_)) => 2,
        Err(Refused::UnknownHint(_)) => 3,
        Err(Refused::NotUnit(_)) => 4,
        Err(_) => 5,
    }
}

#[test]
fn generated_lines_are_taken_as_the_definition_says(rt: HostRuntime) -> Result<(), Fail> {
    let alloc = rt.alloc();
    let mut tally = [0u32; 6];
    for seed in 0..400 {
        let mut draws = Draws::new(alloc, seed);
        let formula = draws.formula(5)?;
        let mut checker = Checker::new(alloc, &formula)?;
        let mut plain = PlainProof::new(alloc, &formula)?;
        for next in 5..17 {
            let line = draws.line(next)?;
            let answer = checker.line(&line);
            assert_eq!(rt; answer, plain.line(&line)?, "seed {seed}: {line:?}");
            let place = place_of(&answer);
            tally[place] = tally[place].saturating_add(1);
            for code in 2..8 {
                let lit = Lit::from_code(code);
                assert_eq!(rt;
                    checker.has_unit(lit),
                    plain.has_reached(&[lit]),
                    "seed {seed}: {line:?}"
                );
            }
            assert_eq!(rt;
                checker.has_empty(),
                plain.has_reached(&[]),
                "seed {seed}: {line:?}"
            );
        }
    }
    assert!(rt; tally.iter().all(|count| *count > 50), "{tally:?}");
    Ok(())
}
