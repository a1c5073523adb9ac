//! Logs of drawn entries.
ghost use Rattle.std.specs.Prelude.{◌≡◌, ◌+◌, ◌<◌, ◌≤◌, ◌^◌, length, IfOk, OnOk};
ghost use Rattle.cnf_core.specs.Formulas.{Cnf};
ghost use Rattle.lrat_log.specs.Entries.{empty_log};
ghost use Rattle.merge_bench.specs.Drawn.{HasOnlyOne, IsDrawn, IsWhole};

use crate::drawn::{draw_hints, draw_lits};
use crate::tasks::Size;
use cnf_core::{Clause, Formula, Lit, NoMemory};
use lrat_log::Log;
use samples::Draws;
use std::alloc::Global;

/// How many variables the formula has.
pub const VARS: u32 = 1000;

/// The formula of the clause `1`.
pub fn only_one(alloc: Global) -> Result<Formula, NoMemory>
    ensures { IfOk result (λ f. HasOnlyOne f) }
{
    let mut formula = Formula::new(alloc, VARS);
    let lits = vec![in alloc; Lit::new(1, true)]?;
    if !formula.room(&lits) {
        return Err(NoMemory);
    }
    formula.push(Clause { lits })?;
    Ok(formula)
}

/// Lists that are filled for one entry after the other.
#[derive(Drop)]
pub struct Entry {
    pub lits: Vec<Lit>,
    pub hints: Vec<u64>,
}

impl Entry {
    /// Empty lists. They take no memory.
    pub fn new(alloc: Global) -> Entry {
        Entry {
            lits: Vec::new(alloc),
            hints: Vec::new(alloc),
        }
    }
}

/// A log of drawn clauses, with the literal 1 as its last entry.
pub fn drawn_log<'f>(
    alloc: Global,
    formula: &'f Formula,
    size: Size,
    draws: &mut Draws,
) -> Result<Log<'f>, NoMemory>
    requires formula { HasOnlyOne formula.now }
    requires room { size.entries < 2 ^ 31 }
    requires step { 0 < size.step }
    ensures { IfOk result (λ log. IsWhole formula.now log) }
{
    let mut log = Log::new(alloc, formula);
    let mut entry = Entry::new(alloc);
    for k in 0..size.entries {
        draw_lits(draws, VARS, size.lits, &mut entry.lits)?;
        draw_hints(draws, k + 2, size.step, size.hints, &mut entry.hints)?;
        log.core(&entry.lits, &entry.hints)?;
    }
    draw_hints(
        draws,
        size.entries + 2,
        size.step,
        size.hints,
        &mut entry.hints,
    )?;
    log.unit(Lit::new(1, true), &entry.hints)?;
    Ok(log)
}
