ghost use Rattle.std.specs.Prelude.{◌≡◌, ◌+◌, ◌<◌, ◌≤◌, ◌^◌, IfOk};
ghost use Rattle.cnf_core.specs.Literals.{AreWithin};

use cnf_core::{Clause, Formula, Lit, MAX_VARS, NoMemory};
use samples::Draws;
use std::alloc::Global;

/// A random formula of clauses of three literals. There are three variables at least, and fewer clauses
/// where the limits of a formula leave no room.
pub fn random_formula(
    alloc: Global,
    vars: u32,
    clauses: u32,
    pick: u32,
) -> Result<Formula, NoMemory> {
    let vars = vars.clamp(3, MAX_VARS);
    let mut draws = Draws::new(pick);
    let mut formula = Formula::new(alloc, vars);
    for _clause in 0..clauses {
        let lits = three(alloc, vars, &mut draws)?;
        if !formula.room(&lits) {
            break;
        }
        formula.push(Clause { lits })?;
    }
    Ok(formula)
}

/// Three literals of different variables.
fn three(alloc: Global, vars: u32, draws: &mut Draws) -> Result<Vec<Lit>, NoMemory>
    requires { (3 ≤ vars) × (vars ≤ 2 ^ 20) }
    ensures { IfOk result (λ c. AreWithin vars c.items) }
{
    let first = draws.below(vars);
    let second = skip(draws.below(vars - 1), first);
    let third = skip(draws.below(vars - 2), first.min(second));
    let third = skip(third, first.max(second));
    let lits = vec![in alloc;
        literal(draws, first + 1),
        literal(draws, second + 1),
        literal(draws, third + 1),
    ]?;
    Ok(lits)
}

/// The literal of a variable, with a drawn sign.
fn literal(draws: &mut Draws, var: u32) -> Lit
    requires { (0 < var) × (var ≤ 2 ^ 20) }
    ensures { result.var ≡ var }
{
    Lit::new(var, draws.next() % 2 == 0)
}

/// The number, or from a taken one on the next.
fn skip(number: u32, taken: u32) -> u32
    requires { number < 2 ^ 20 }
    ensures below { number < taken → result ≡ number }
    ensures above { taken ≤ number → result ≡ number + 1 }
{
    if number < taken { number } else { number + 1 }
}
