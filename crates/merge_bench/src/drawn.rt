//! Clauses and hints of entries.
ghost use Rattle.std.specs.Prelude.{◌≡◌, ◌+◌, ◌<◌, ◌≤◌, ◌^◌, All, OnOk};
ghost use Rattle.cnf_core.specs.Literals.{AreWithin};
ghost use Rattle.lrat_lines.specs.Tidy.{IsHint};
ghost use Rattle.merge_bench.specs.Drawn.{BeginsWithOne, BeginWithFirst};

use cnf_core::{Lit, NoMemory};
use samples::Draws;

/// Puts the literal 1 and so many drawn ones in the place of what the list has.
pub fn draw_lits(
    draws: &mut Draws,
    vars: u32,
    count: u32,
    lits: &mut Vec<Lit>,
) -> Result<(), NoMemory>
    requires { (0 < vars) × (vars ≤ 2 ^ 20) }
    ensures first { OnOk result (BeginsWithOne lits.new.items) }
    ensures within { OnOk result (AreWithin vars lits.new.items) }
{
    lits.clear();
    lits.push(Lit::new(1, true))?;
    for _k in 0..count {
        lits.push(draws.literal(vars))?;
    }
    Ok(())
}

/// Puts the id 1 and so many drawn ones below this one in the place of what the list has: near ones often, far ones
/// seldom, and such as are 1 more than a multiple of the step.
pub fn draw_hints(
    draws: &mut Draws,
    id: u32,
    step: u32,
    count: u32,
    hints: &mut Vec<u64>,
) -> Result<(), NoMemory>
    requires id { 1 < id }
    requires step { 0 < step }
    ensures first { OnOk result (BeginWithFirst hints.new.items) }
    ensures low { OnOk result (All (IsHint id) hints.new.items) }
{
    hints.clear();
    hints.push(1)?;
    for _k in 0..count {
        hints.push(u64::from(draw_hint(draws, id, step)))?;
    }
    Ok(())
}

/// An id below this one.
fn draw_hint(draws: &mut Draws, id: u32, step: u32) -> u32
    requires id { 1 < id }
    requires step { 0 < step }
    ensures { (0 < result) × (result < id) }
{
    let reach = reach_of(draws.below(17)).min(id - 1);
    let drawn = id - 1 - draws.below(reach);
    drawn - (drawn - 1) % step
}

/// How far hints go.
fn reach_of(power: u32) -> u32
    requires { power < 17 }
    ensures { 0 < result }
{
    1 << power
}
