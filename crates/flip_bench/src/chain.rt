ghost use Rattle.std.specs.Prelude.{◌<◌, ◌≤◌, ◌^◌, length};

use cnf_core::{Clause, Formula, Lit, MAX_VARS, NoMemory, Values};
use std::alloc::Global;

/// A chain of so many implications over the variables, each variable implying the next one, and the model
/// that makes all of them true. It ends where the variables or the limits of a formula end.
pub fn chain(alloc: Global, vars: u32, clauses: u32) -> Result<(Formula, Values), NoMemory> {
    let vars = vars.clamp(1, MAX_VARS);
    let mut model = Values::new(alloc, vars)?;
    for var in 1..=vars {
        model.set(var, true);
    }
    let mut formula = Formula::new(alloc, vars);
    for var in 1..vars {
        let lits = implication(alloc, var)?;
        if var > clauses || !formula.room(&lits) {
            break;
        }
        formula.push(Clause { lits })?;
    }
    Ok((formula, model))
}

/// The clause by which the variable implies the next one.
fn implication(alloc: Global, var: u32) -> Result<Vec<Lit>, NoMemory>
    requires { (0 < var) × (var < 2 ^ 20) }
{
    let mut lits = Vec::with_capacity(alloc, 2)?;
    lits.push(Lit::new(var, false))?;
    lits.push(Lit::new(var + 1, true))?;
    Ok(lits)
}
