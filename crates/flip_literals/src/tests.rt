ghost use Rattle.std.specs.Prelude.{◌≡◌, length, IfOk};

use crate::{Marks, critical};
use cnf_core::{Formula, Values};
use model_check::is_model;
use std::alloc::Global;
use std::test::Fail;

/// The marks of a model, made over those of the model before.
fn marks_of(alloc: Global, numbers: &[i32], values: &[bool]) -> Result<Marks, Fail>
    ensures { IfOk result (λ marks. length marks ≡ length values.now) }
{
    if values.len() > 9 {
        return Err("too many values".into());
    }
    let vars = values.len() as u32;
    let formula = Formula::of_numbers(alloc, vars, numbers)?;
    let mut model = Values::new(alloc, vars)?;
    let mut marks = Marks::new(alloc, vars)?;
    for (i, value) in values.iter().enumerate() {
        let var = i as u32 + 1;
        if model.len() < var {
            return Err("too many values".into());
        }
        model.set(var, *value);
    }
    if formula.vars() != vars || model.len() != vars {
        return Err("too many values".into());
    }
    if !is_model(&formula, &model) {
        return Err("no model".into());
    }
    critical(&formula, &model, &mut marks);
    critical(&formula, &model, &mut marks);
    Ok(marks)
}

/// What threads may share, as the marks.
fn shared<T: Send + Sync>(value: &T) -> &T {
    value
}

/// Models of formulas, with the variables that they can't do without.
const ROWS: [(&[i32], &[bool], &[bool]); 8] = [
    (
        &[
            1, 2, 3, 4, 0, 1, 2, 3, -4, 0, 1, 2, -3, 4, 0, 1, 2, -3, -4, 0, 1, -2, 3, 4, 0, 1, -2,
            3, -4, 0, 1, -2, -3, 4, 0, 1, -2, -3, -4, 0,
        ],
        &[true, true, true, true],
        &[true, false, false, false],
    ),
    (&[2, 2, 0], &[true, true], &[false, true]),
    (&[1, -1, 0], &[true, true, true], &[false, false, false]),
    (&[-1, 1, 0], &[true], &[false]),
    (&[-1, 2, 0, 2, 1, 0], &[true, true], &[false, true]),
    (&[-2, 0, 1, -2, 0], &[true, false], &[false, true]),
    (&[], &[true, false], &[false, false]),
    (&[], &[], &[]),
];

#[test]
fn marks_are_the_variables_of_sole_true_literals(rt: HostRuntime) -> Result<(), Fail> {
    for (numbers, values, expected) in ROWS {
        let marks = marks_of(rt.alloc(), numbers, values)?;
        assert!(rt; values.len() == expected.len());
        let _ = shared(&marks);
        for (i, expected) in expected.iter().enumerate() {
            let var = i as u32 + 1;
            assert_eq!(rt; marks.is(var), *expected, "{var} of {numbers:?}");
        }
    }
    Ok(())
}
