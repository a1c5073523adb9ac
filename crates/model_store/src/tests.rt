ghost use Rattle.std.specs.Prelude.{◌≡◌};

use crate::{ModelStore, Witness};
use cnf_core::{Formula, Values};
use model_check::is_model;
use std::alloc::Global;
use std::test::Fail;

/// What threads may share, as a store.
fn shared<T: Send + Sync>(value: &T) -> &T {
    value
}

/// Stores the model that makes just these variables true.
fn push(alloc: Global, store: &mut ModelStore, formula: &Formula, vars: &[u32]) -> Result<u32, Fail>
    requires { store.old.formula ≡ formula.now }
    ensures { store.new.formula ≡ store.old.formula }
{
    let mut model = Values::new(alloc, formula.vars())?;
    for var in vars {
        if *var == 0 || model.len() < *var {
            return Err("no variable".into());
        }
        model.set(*var, true);
    }
    if model.len() != formula.vars() || !is_model(formula, &model) || store.len() > 9 {
        return Err("no model".into());
    }
    Ok(store.push(&model)?)
}

/// The value of a variable in the model at a place, if they are there.
fn value(store: &ModelStore, formula: &Formula, model: u32, var: u32) -> Option<bool>
    requires { store.now.formula ≡ formula.now }
{
    (model < store.len() && 0 < var && var <= formula.vars()).then(|| store.value(model, var))
}

/// Whether the witness is against the value, if its model and variable are there.
fn against(store: &ModelStore, formula: &Formula, w: Witness, phase: bool) -> Option<bool>
    requires { store.now.formula ≡ formula.now }
{
    (w.model < store.len() && 0 < w.var && w.var <= formula.vars()).then(|| store.against(w, phase))
}

#[test]
fn models_come_back_as_they_went_in(rt: HostRuntime) -> Result<(), Fail> {
    let alloc = rt.alloc();
    for last in [3, 63, 64, 65, 128, 130] {
        let formula = Formula::of_numbers(alloc, last, [1, 2, 0].as_slice())?;
        let mut store = ModelStore::new(alloc, &formula);
        let first = push(alloc, &mut store, &formula, [1, last].as_slice())?;
        assert_eq!(rt; first, 0, "{last}");
        let mut other = ModelStore::new(alloc, &formula);
        let second = push(alloc, &mut other, &formula, [2].as_slice())?;
        let third = push(alloc, &mut other, &formula, [1, 2, last].as_slice())?;
        assert_eq!(rt; (second, third), (0, 1), "{last}");
        assert!(rt; store.len() < 9 && other.len() < 9);
        assert_eq!(rt; store.append(other)?, 1, "{last}");
        assert_eq!(rt; shared(&store).len(), 3, "{last}");
        for (model, expected) in [
            (0, [Some(true), Some(false), Some(true), None]),
            (1, [Some(false), Some(true), Some(false), None]),
            (2, [Some(true), Some(true), Some(true), None]),
        ] {
            for (var, expected) in [1, 2, last, last + 1].into_iter().zip(expected) {
                let found = value(&store, &formula, model, var);
                assert_eq!(rt; found, expected, "{model} {var}");
            }
        }
    }
    Ok(())
}

#[test]
fn a_witness_is_a_model_with_the_other_value(rt: HostRuntime) -> Result<(), Fail> {
    let alloc = rt.alloc();
    let formula = Formula::of_numbers(alloc, 2, [1, 2, 0, 1, -2, 0].as_slice())?;
    let mut store = ModelStore::new(alloc, &formula);
    assert_eq!(rt; push(alloc, &mut store, &formula, [1, 2].as_slice())?, 0);
    assert_eq!(rt; push(alloc, &mut store, &formula, [1].as_slice())?, 1);
    for (var, model, flip, phase, expected) in [
        (2, 0, true, true, true),
        (2, 0, true, false, false),
        (2, 0, false, true, false),
        (2, 0, false, false, true),
        (2, 1, false, true, true),
        (2, 1, true, true, false),
        (1, 0, true, true, false),
        (1, 1, true, true, false),
        (1, 1, false, false, true),
    ] {
        let w = Witness { var, model, flip };
        assert_eq!(rt;
            against(&store, &formula, w, phase),
            Some(expected),
            "{w:?} {phase}"
        );
    }
    Ok(())
}
