//! What is made of gathered findings: a report, and how the run ends.
ghost use Rattle.std.specs.Prelude.{◌≡◌, ℕ, ◌+◌, ◌/◌, ◌^◌, ◌<◌, ◌≤◌, ◌==◌, IfOk, MatchOption, length};
ghost use Rattle.board_core.specs.Words.{fixed, open_at};
ghost use Rattle.board_core.specs.Laws.{fixed_literals};
ghost use Rattle.model_store.specs.Stores.{model_at};
ghost use Rattle.run_core.specs.Outcomes.{OutcomeSays};
ghost use Rattle.run_core.specs.Steps.Gathers.{IsGathered};

use crate::gathered::Gathered;
use crate::{Outcome, Report, RunSettings};
use candidate_words::Words;
use cert_merge::merge_needed;
use cnf_core::{Formula, Lit, NoMemory};
use core_chunks::is_open;
use model_store::{ModelStore, Witness};
use std::alloc::Global;

/// Closes the words and says how the run ends: complete where nothing is open. Otherwise it is partial where each worker
/// ran until its budget was spent, and else it had no memory.
pub(crate) fn outcome<'f>(
    alloc: Global,
    formula: &'f Formula,
    settings: RunSettings,
    words: Words,
    gathered: Gathered<'f>,
) -> Result<Outcome<'f>, NoMemory>
    requires formula { words.about.formula ≡ formula.now }
    requires gathered { IsGathered words settings.workers settings.budget settings.workers gathered }
    ensures { IfOk result (OutcomeSays formula.now settings.workers settings.budget) }
{
    let Gathered {
        seat,
        models,
        mut drops,
        fixes: _,
        logs,
        failed,
    } = gathered;
    let words = words.close(alloc, seat)?;
    let fixes = fixed_literals(alloc, &models, &words, formula.vars())?;
    let proof = merge_needed(alloc, formula, &logs, &fixes)?;
    drops.sort_unstable_by_key(
        |drop: &Witness| -> u32
            ensures { result ≡ drop.now.var }
        { drop.var },
    );
    let report = Report {
        proof,
        models,
        drops,
        fixes,
    };
    if first_open(&words, formula.vars()).is_none() {
        return Ok(Outcome::Complete(report));
    }
    if failed || logs.len() != settings.workers as usize {
        return Ok(Outcome::Memory(Some(report)));
    }
    Ok(Outcome::Partial(report, logs))
}

/// The phase literals of the variables that are fixed in the words, by variable. The first model gives the phases.
fn fixed_literals(
    alloc: Global,
    models: &ModelStore,
    words: &[u64],
    vars: u32,
) -> Result<Vec<Lit>, NoMemory>
    requires vars { vars ≡ models.now.formula.vars }
    requires limit { vars ≤ 2 ^ 20 }
    requires some { 0 < length models.now.models }
    requires words { (vars + 31) / 32 ≤ length words.now }
    ensures { IfOk result (λ fixes. fixes.items ≡ fixed_literals (model_at models.now 0) words.now vars) }
{
    let mut fixes = Vec::new(alloc);
    for place in 0..vars {
        if is_fixed(words, place) {
            fixes.push(Lit::new(place + 1, models.value(0, place + 1)))?;
        }
    }
    Ok(fixes)
}

/// Whether the variable after so many is fixed in the words.
fn is_fixed(words: &[u64], place: u32) -> bool
    requires { place / 32 < length words.now }
    ensures { result ≡ (fixed words.now (place + 1) == 1) }
{
    (words[(place / 32) as usize] >> (32 + place % 32)) & 1 == 1
}

/// The first of so many variables that is open in the words.
fn first_open(words: &[u64], vars: u32) -> Option<u32>
    ensures { MatchOption result ((x : ℕ) → 0 < x → x ≤ vars → open_at words.now x ≡ 0) (λ x. open_at words.now x ≡ 1) }
{
    for var in 1..=vars {
        if is_open(words, var) {
            return Some(var);
        }
    }
    None
}
