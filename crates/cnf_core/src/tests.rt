use crate::{Clause, Formula, Lit, MAX_VARS, NoMemory, NumbersError, Values};
use std::alloc::Global;
use std::test::Fail;

/// What threads may share, as each type of this crate.
fn shared<T: Send + Sync>(value: &T) -> &T {
    value
}

#[test]
fn literals_are_their_dimacs_numbers(rt: HostRuntime) -> Result<(), Fail> {
    for (number, var, positive, code) in [
        (1, 1, true, 2),
        (-1, 1, false, 3),
        (7, 7, true, 14),
        (-1_048_576, 1_048_576, false, 2_097_153),
        (1_048_576, 1_048_576, true, 2_097_152),
    ] {
        let lit = *shared(&Lit::of(number).ok_or("a literal")?);
        assert_eq!(rt;
            (lit.var(), lit.positive(), lit.code()),
            (var, positive, code),
            "{number}"
        );
        assert_eq!(rt; lit.number(), number);
        assert_eq!(rt; lit.negated().number(), -number);
        assert_eq!(rt; Lit::from_code(lit.code()), lit, "{number}");
    }
    for number in [0, 1_048_577, -1_048_577, i32::MAX, i32::MIN] {
        assert_eq!(rt; Lit::of(number), None, "{number}");
    }
    Ok(())
}

#[test]
fn literals_are_ordered_by_variable(rt: HostRuntime) {
    let rising = [
        Lit::new(1, true),
        Lit::new(1, false),
        Lit::new(2, true),
        Lit::new(MAX_VARS, false),
    ];
    assert!(rt; rising.is_sorted_by(|a, b| a < b));
}

#[test]
fn a_formula_takes_what_it_has_room_for(rt: HostRuntime) -> Result<(), Fail> {
    let mut formula = Formula::new(rt.alloc(), 2);
    let lits = vec![in rt.alloc(); Lit::new(2, false), Lit::new(1, true)]?;
    assert!(rt; formula.room(&lits));
    formula.push(Clause { lits })?;
    assert!(rt; formula.room(&[]));
    formula.push(Clause {
        lits: Vec::new(rt.alloc()),
    })?;
    assert!(rt; !formula.room(&[Lit::new(1, true), Lit::new(3, true)]));
    assert_eq!(rt; shared(&formula).vars(), 2);
    let numbers = numbers_of(rt.alloc(), &formula)?;
    assert_eq!(rt; numbers.as_slice(), [-2, 1, 0, 0].as_slice());
    Ok(())
}

#[test]
fn a_formula_shows_all_its_variables_until_it_is_told_which(rt: HostRuntime) -> Result<(), Fail> {
    let mut formula = Formula::new(rt.alloc(), 3);
    for (var, shown) in [(0, false), (1, true), (3, true), (4, false)] {
        assert_eq!(rt; formula.is_shown(var), shown, "{var}");
    }
    formula.restrict()?;
    formula.show(2);
    formula.restrict()?;
    for (var, shown) in [(1, false), (2, true), (3, false), (4, false)] {
        assert_eq!(rt; formula.is_shown(var), shown, "{var}");
    }
    Ok(())
}

#[test]
fn numbers_write_a_formula_or_say_why_not(rt: HostRuntime) -> Result<(), Fail> {
    let formula = Formula::of_numbers(rt.alloc(), 2, &[1, -2, 0, 0, 2, 0])?;
    let numbers = numbers_of(rt.alloc(), &formula)?;
    assert_eq!(rt; numbers.as_slice(), [1, -2, 0, 0, 2, 0].as_slice());
    assert_eq!(rt; formula.vars(), 2);
    assert!(rt; refused(rt.alloc(), 1_048_577, &[]) == Some(NumbersError::TooManyVars));
    assert!(rt; refused(rt.alloc(), 2, &[1, 0, 3, 0]) == Some(NumbersError::NoLiteral(2)));
    assert!(rt; refused(rt.alloc(), 2, &[i32::MIN, 0]) == Some(NumbersError::NoLiteral(0)));
    assert!(rt; refused(rt.alloc(), 2, &[1, 0, 2]) == Some(NumbersError::Unended));
    Ok(())
}

/// The numbers that write a formula's clauses.
fn numbers_of(alloc: Global, formula: &Formula) -> Result<Vec<i32>, Fail> {
    let mut numbers = Vec::new(alloc);
    for clause in formula.clauses() {
        for lit in shared(clause) {
            numbers.push(lit.number())?;
        }
        numbers.push(0)?;
    }
    Ok(numbers)
}

/// Why the numbers write no formula.
fn refused(alloc: Global, vars: u32, numbers: &[i32]) -> Option<NumbersError> {
    Formula::of_numbers(alloc, vars, numbers).err()
}

#[test]
fn values_keep_what_is_set(rt: HostRuntime) -> Result<(), Fail> {
    let mut values = Values::new(rt.alloc(), 3)?;
    let before = values.copy()?;
    values.set(2, true);
    values.set(3, true);
    values.set(3, false);
    for (values, expected) in [
        (&before, (false, false, false)),
        (&values, (false, true, false)),
    ] {
        let values = shared(values);
        assert_eq!(rt; values.len(), 3);
        let found = (values.get(1), values.get(2), values.get(3));
        assert_eq!(rt; found, expected);
    }
    Ok(())
}

#[test]
fn want_of_memory_says_so(rt: HostRuntime) -> Result<(), Fail> {
    let text = format!(in rt.alloc(); "{NoMemory}")?;
    assert_eq!(rt; text.as_str(), "out of memory");
    Ok(())
}
