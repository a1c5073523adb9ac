ghost use Rattle.std.specs.Prelude.{◌<◌, ◌≤◌, ◌^◌, length};

use cnf_core::{Clause, Formula, Lit, MAX_VARS, NoMemory, Values};
use samples::Draws;
use std::alloc::Global;

/// A formula of clauses of three literals over the variables, and an assignment that it was made to have
/// as a model. It has fewer clauses where the limits of a formula leave no room.
pub fn planted(alloc: Global, vars: u32, clauses: u32) -> Result<(Formula, Values), NoMemory> {
    let vars = vars.clamp(1, MAX_VARS);
    let mut draws = Draws::new(0);
    let mut model = Values::new(alloc, vars)?;
    for var in 1..=vars {
        model.set(var, draws.next() % 2 == 0);
    }
    let mut formula = Formula::new(alloc, vars);
    for _clause in 0..clauses {
        let lits = three(alloc, &model, &mut draws)?;
        if !formula.room(&lits) {
            break;
        }
        formula.push(Clause { lits })?;
    }
    Ok((formula, model))
}

/// Three literals, of which the model makes one true.
fn three(alloc: Global, model: &Values, draws: &mut Draws) -> Result<Vec<Lit>, NoMemory>
    requires { (0 < length model.now) × (length model.now ≤ 2 ^ 20) }
{
    let mut lits = Vec::with_capacity(alloc, 3)?;
    let kept = draws.below(3);
    for i in 0..3 {
        let var = 1 + draws.below(model.len());
        let value = model.get(var);
        let positive = if i == kept {
            value
        } else {
            draws.next() % 2 == 0
        };
        lits.push(Lit::new(var, positive))?;
    }
    Ok(lits)
}
