use crate::is_model;
use cnf_core::{Formula, Values};
use std::alloc::Global;
use std::test::Fail;

#[test]
fn a_model_makes_a_literal_of_each_clause_true(rt: HostRuntime) -> Result<(), Fail> {
    let chain = [1, 0, -1, 2, 0, 2, 3, 0];
    for (vars, numbers, values, expected) in [
        (3, chain.as_slice(), [true, true, false].as_slice(), true),
        (3, chain.as_slice(), [true, true, true].as_slice(), true),
        (3, chain.as_slice(), [true, false, true].as_slice(), false),
        (3, chain.as_slice(), [false, true, true].as_slice(), false),
        (1, [1, -1, 0].as_slice(), [false].as_slice(), true),
        (2, [2, 2, 0].as_slice(), [true, false].as_slice(), false),
        (2, [].as_slice(), [false, false].as_slice(), true),
        (0, [].as_slice(), [].as_slice(), true),
        (0, [0].as_slice(), [].as_slice(), false),
    ] {
        let formula = Formula::of_numbers(rt.alloc(), vars, numbers)?;
        let mut assignment = Values::new(rt.alloc(), vars)?;
        for (i, value) in values.iter().enumerate() {
            let var = i as u32 + 1;
            assert!(rt; var <= assignment.len());
            assignment.set(var, *value);
        }
        assert!(rt; assignment.len() == formula.vars());
        assert_eq!(rt;
            is_model(&formula, &assignment),
            expected,
            "{numbers:?} {values:?}"
        );
    }
    Ok(())
}
