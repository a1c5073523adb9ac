ghost use Rattle.std.specs.Prelude.{◌≡◌, ◌+◌, ◌<◌, ◌≤◌, ◌⊎◌, length, IfSome, OnOk};
ghost use Rattle.cnf_core.specs.Literals.{IsWithin};
ghost use Rattle.trail_core.specs.Trails.{IsFree};
ghost use Rattle.watch_lists.specs.Watching.{IsReady};

use crate::clauses::random_clauses;
use clause_arena::Arena;
use cnf_core::{Lit, MAX_VARS, NoMemory};
use samples::Draws;
use std::alloc::Global;
use trail_core::Trail;
use watch_lists::{Step, Watches};

/// What was counted in all rounds.
#[derive(Clone, Copy, Debug)]
pub struct Counts {
    pub clauses: u32,
    pub decisions: u64,
    /// Literals that were made true, decided or not.
    pub assigned: u64,
    pub conflicts: u64,
}

/// Makes clauses of so many draws, of three literals and of two, and does so many rounds.
pub fn run(
    alloc: Global,
    vars: u32,
    threes: u32,
    twos: u32,
    rounds: u32,
) -> Result<Counts, NoMemory> {
    let vars = vars.clamp(1, MAX_VARS);
    let mut draws = Draws::new(0);
    let mut arena = random_clauses(alloc, vars, threes, twos, &mut draws)?;
    let mut watches = Watches::new(alloc, vars)?;
    watches.rebuild(&arena)?;
    let mut trail = Trail::new(alloc, vars)?;
    let mut counts = Counts {
        clauses: arena.len(),
        decisions: 0,
        assigned: 0,
        conflicts: 0,
    };
    for _round in 0..rounds {
        descend(
            &mut watches,
            &mut arena,
            &mut trail,
            &mut draws,
            &mut counts,
        )?;
        counts.assigned = counts.assigned.saturating_add(u64::from(trail.len()));
        trail.backtrack(0);
    }
    Ok(counts)
}

/// Decides and propagates until a clause is false or every variable has a value.
fn descend(
    watches: &mut Watches,
    arena: &mut Arena,
    trail: &mut Trail,
    draws: &mut Draws,
    counts: &mut Counts,
) -> Result<(), NoMemory>
    requires ready { IsReady arena.old watches.old trail.old }
    requires quiet { trail.old.gone ≡ length trail.old.entries }
    ensures ready { IsReady arena.new watches.new trail.new }
    ensures quiet { OnOk result ((0 < trail.new.level) ⊎ (trail.new.gone ≡ length trail.new.entries)) }
{
    for _decision in 0..trail.vars() {
        let Some(lit) = free_literal(trail, draws) else {
            return Ok(());
        };
        trail.decide(lit);
        counts.decisions = counts.decisions.saturating_add(1);
        match watches.propagate(arena, trail) {
            Step::Quiet => {}
            Step::Conflict(_) => {
                counts.conflicts = counts.conflicts.saturating_add(1);
                return Ok(());
            }
            Step::Memory => return Err(NoMemory),
        }
    }
    Ok(())
}

/// A literal without value: a random one, or after a few that have one the first, if there is any.
fn free_literal(trail: &Trail, draws: &mut Draws) -> Option<Lit>
    ensures { IfSome result (λ l. IsWithin trail.now.vars l × IsFree trail.now.entries l.var) }
{
    let vars = trail.vars();
    if vars == 0 {
        return None;
    }
    for _try in 0..TRIES {
        let lit = draws.literal(vars);
        match trail.value(lit) {
            None => return Some(lit),
            Some(_) => {}
        }
    }
    let var = trail.first_free()?;
    Some(Lit::new(var, true))
}

/// How many random literals are tried.
const TRIES: u32 = 8;
