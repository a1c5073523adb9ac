//! The command `sample`: makes a formula from numbers, runs it, and tells what was found out.
ghost use Rattle.std.specs.Prelude.{◌≡◌, ◌≤◌, ℕ, IfOk, length, Some};
ghost use Rattle.run_core.specs.Outcomes.{OutcomeSays};
ghost use Rattle.bone_words.specs.Settings.{to_sample};
ghost use Rattle.backbone_main.specs.Texts.{HasModel};
ghost use Rattle.backbone_main.specs.Sampling.{formula_of};
ghost use Rattle.backbone_main.specs.Steps.Findings.{ending_of, IsFinding};
ghost use Rattle.backbone_main.specs.Steps.Finish.{asked_sample, HasSampleLimits, Runs};
ghost use Rattle.backbone_main.specs.Steps.Replies.{HasEnded};

use crate::ending::Ending;
use crate::sample_text::{Finding, summary_of, write_finding};
use bone_desk::{Act, Desk, Failed, Port};
use chooser_core::Chooser;
use cnf_core::{Formula, NoMemory};
use cnf_gen::planted;
use run_core::{Outcome, RunSettings, run_many, run_one};
use std::alloc::Global;
use std::thread::Threads;
use worker_loop::Gate;

/// A sample: how its formula is made, and how a run over it goes.
#[derive(Clone, Copy, Debug, PartialEq, Eq)]
pub struct Sampling {
    /// How many variables the formula has, from 3 to 2^20.
    pub vars: u32,
    /// How many clauses it has, at most 2^21.
    pub clauses: u32,
    /// How a run over it goes. The formula is made by the same seed.
    pub settings: RunSettings,
}

/// Does what a sample is asked for, but for the note.
pub fn sample<R: Threads + Sync, D: Desk, G: Gate>(
    rt: &R,
    alloc: Global,
    sampling: Sampling,
    desk: &mut D,
    choosers: Vec<Box<dyn Chooser>>,
    gate: &G,
) -> Ending
    requires limits { HasSampleLimits sampling }
    requires choosers { length choosers.items ≡ 16 }
    ensures { Runs sampling.settings.workers (Some (to_sample (asked_sample sampling))) result (D.told desk.old) (D.told desk.new) }
{
    match formula_of(alloc, sampling) {
        Ok(formula) => {
            let outcome = run_many(rt, alloc, &formula, sampling.settings, choosers, gate);
            tell(sampling, &formula, outcome, desk)
        }
        Err(NoMemory) => Ending::OutOfMemory,
    }
}

/// The same with one worker.
pub fn sample_alone<D: Desk>(
    alloc: Global,
    sampling: Sampling,
    desk: &mut D,
    choosers: Vec<Box<dyn Chooser>>,
) -> Ending
    requires limits { HasSampleLimits sampling }
    requires choosers { length choosers.items ≡ 16 }
    ensures { Runs 1 (Some (to_sample (asked_sample sampling))) result (D.told desk.old) (D.told desk.new) }
{
    match formula_of(alloc, sampling) {
        Ok(formula) => {
            let outcome = run_one(alloc, &formula, sampling.settings, choosers);
            tell(sampling, &formula, outcome, desk)
        }
        Err(NoMemory) => Ending::OutOfMemory,
    }
}

/// The formula of a sample, which has a model.
fn formula_of(alloc: Global, sampling: Sampling) -> Result<Formula, NoMemory>
    requires limits { HasSampleLimits sampling }
    ensures value { IfOk result (λ F. F ≡ formula_of (asked_sample sampling)) }
    ensures model { IfOk result HasModel }
{
    planted(
        alloc,
        sampling.vars,
        sampling.clauses,
        sampling.settings.seed,
    )
}

/// Writes what the outcome tells of a sample.
fn tell<D: Desk>(sampling: Sampling, formula: &Formula, outcome: Outcome, desk: &mut D) -> Ending
    requires model { HasModel formula.now }
    requires ended { HasEnded formula.now outcome }
    ensures { (workers : ℕ) → 1 ≤ workers → formula.now ≡ formula_of (asked_sample sampling)
        → OutcomeSays formula.now workers sampling.settings.budget outcome.entry
        → Runs workers (Some (to_sample (asked_sample sampling))) result (D.told desk.old) (D.told desk.new) }
{
    match finding_of(formula, outcome) {
        Ok(finding) => put_finding(sampling, finding, desk),
        Err(NoMemory) => Ending::OutOfMemory,
    }
}

/// Writes a finding, and gives the ending that goes with it, unless a write fails.
fn put_finding<D: Desk>(sampling: Sampling, finding: Finding, desk: &mut D) -> Ending
    ensures { (workers : ℕ) → IsFinding workers sampling.settings.budget (formula_of (asked_sample sampling)) finding
        → Runs workers (Some (to_sample (asked_sample sampling))) result (D.told desk.old) (D.told desk.new) }
{
    match write_finding(desk, sampling, finding) {
        Ok(()) => ending_of(finding),
        Err(Failed) => Ending::Failed(Act::Write(Port::Answer)),
    }
}

/// What a run over a formula that has a model found out.
fn finding_of(formula: &Formula, outcome: Outcome) -> Result<Finding, NoMemory>
    requires model { HasModel formula.now }
    requires ended { HasEnded formula.now outcome }
    ensures { IfOk result (λ finding. (workers budget : ℕ) → 1 ≤ workers → OutcomeSays formula.now workers budget outcome.entry
        → IsFinding workers budget formula.now finding) }
{
    match outcome {
        Outcome::Complete(report) => Ok(Finding::Backbone(summary_of(
            formula.vars(),
            &report.fixes,
        ))),
        Outcome::Partial(_report, _logs) => Ok(Finding::Part),
        Outcome::Unknown(_log) => Ok(Finding::Nothing),
        Outcome::Memory(_report) => Err(NoMemory),
        Outcome::Unsat(_proof) => unreachable!(),
    }
}

/// The ending that goes with a finding.
fn ending_of(finding: Finding) -> Ending
    ensures { result ≡ ending_of finding }
{
    match finding {
        Finding::Backbone(_summary) => Ending::Sampled,
        Finding::Part => Ending::Unfinished,
        Finding::Nothing => Ending::Unknown,
    }
}
