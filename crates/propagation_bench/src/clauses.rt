ghost use Rattle.std.specs.Prelude.{◌≢◌, ℕ, ◌<◌, ◌≤◌, ◌^◌, IfOk, IsTrue, OnOk};
ghost use Rattle.cnf_core.specs.Literals.{IsWithin};
ghost use Rattle.watch_lists.specs.Clauses.{AreClean};

use clause_arena::Arena;
use cnf_core::{Lit, NoMemory};
use samples::Draws;
use std::alloc::Global;

/// Random clauses: of so many draws each, those of three literals and then those of two. Draws with a
/// variable twice are left out.
pub fn random_clauses(
    alloc: Global,
    vars: u32,
    threes: u32,
    twos: u32,
    draws: &mut Draws,
) -> Result<Arena, NoMemory>
    requires { (0 < vars) × (vars ≤ 2 ^ 20) }
    ensures { IfOk result (λ a. AreClean vars a) }
{
    let mut arena = Arena::new(alloc);
    for _draw in 0..threes {
        let first = draws.literal(vars);
        let second = draws.literal(vars);
        let third = draws.literal(vars);
        add_three(&mut arena, first, second, third)?;
    }
    for _draw in 0..twos {
        let first = draws.literal(vars);
        let second = draws.literal(vars);
        add_two(&mut arena, first, second)?;
    }
    Ok(arena)
}

/// Adds a clause of three literals, unless a variable stands in it twice.
fn add_three(arena: &mut Arena, first: Lit, second: Lit, third: Lit) -> Result<(), NoMemory>
    ensures { OnOk result ((n : ℕ) → AreClean n arena.old → IsWithin n first → IsWithin n second → IsWithin n third
        → AreClean n arena.new) }
{
    if !are_apart(first, second, third) {
        return Ok(());
    }
    let lits = [first, second, third];
    let id = u64::from(arena.len());
    arena.add(&lits, id, false)?;
    Ok(())
}

/// Adds a clause of two literals, unless they have the same variable.
fn add_two(arena: &mut Arena, first: Lit, second: Lit) -> Result<(), NoMemory>
    ensures { OnOk result ((n : ℕ) → AreClean n arena.old → IsWithin n first → IsWithin n second → AreClean n arena.new) }
{
    if first.var() == second.var() {
        return Ok(());
    }
    let lits = [first, second];
    let id = u64::from(arena.len());
    arena.add(&lits, id, false)?;
    Ok(())
}

/// Whether the three variables differ.
fn are_apart(first: Lit, second: Lit, third: Lit) -> bool
    ensures { IsTrue result → (first.var ≢ second.var) × (first.var ≢ third.var) × (second.var ≢ third.var) }
{
    first.var() != second.var() && first.var() != third.var() && second.var() != third.var()
}
