//! What is timed.
ghost use Rattle.std.specs.Prelude.{◌≡◌, ◌<◌, ◌≤◌, ◌^◌, length, All, IfOk, OnOk};
ghost use Rattle.merge_bench.specs.Drawn.{HasOnlyOne, IsWhole};

use crate::drawn::{draw_hints, draw_lits};
use crate::logs::{Entry, VARS, drawn_log, only_one};
use cert_merge::{merge, merge_needed, trim};
use cnf_core::{Formula, Lit, NoMemory};
use lrat_checker::Checker;
use lrat_lines::Proof;
use lrat_log::Log;
use samples::Draws;
use std::alloc::Global;

/// What to do.
#[derive(Clone, Copy, Debug, PartialEq, Eq)]
pub enum Task {
    /// Draw the entries.
    Draw,
    /// Write them to logs too.
    Write,
    /// Read them back too.
    Read,
    /// Merge the logs too.
    Merge,
    /// Trim the merged proof too.
    Trim,
    /// Merge and trim the logs in one pass.
    Needed,
    /// Merge the logs, and have the separate checker take each line.
    Check,
}

impl Task {
    /// The task of this name.
    pub fn of(name: &str) -> Option<Task> {
        match name {
            "draw" => Some(Task::Draw),
            "write" => Some(Task::Write),
            "read" => Some(Task::Read),
            "merge" => Some(Task::Merge),
            "trim" => Some(Task::Trim),
            "needed" => Some(Task::Needed),
            "check" => Some(Task::Check),
            _ => None,
        }
    }
}

/// How much is drawn.
#[derive(Clone, Copy, Debug)]
pub struct Size {
    pub logs: u32,
    pub entries: u32,
    pub lits: u32,
    pub hints: u32,
    pub step: u32,
}

/// How many lines or entries there were, and how many hints they had.
#[derive(Clone, Copy, Debug)]
pub struct Counts {
    pub lines: u64,
    pub hints: u64,
}

/// Does the task. Sizes that are too large, and a step of 0, are made to fit.
pub fn run(alloc: Global, task: Task, size: Size) -> Result<Counts, NoMemory> {
    let size = Size {
        logs: size.logs.max(1),
        entries: size.entries.min(1 << 30),
        step: size.step.max(1),
        ..size
    };
    if task == Task::Draw {
        return draw(alloc, size);
    }
    let formula = only_one(alloc)?;
    let logs = drawn_logs(alloc, &formula, size)?;
    match task {
        Task::Draw | Task::Write => Ok(written(&logs)),
        Task::Read => read(alloc, &logs),
        Task::Merge => merged(alloc, &formula, &logs),
        Task::Trim => trimmed(alloc, &formula, &logs),
        Task::Needed => needed(alloc, &formula, &logs),
        Task::Check => checked(alloc, &formula, &logs),
    }
}

/// Draws all entries.
fn draw(alloc: Global, size: Size) -> Result<Counts, NoMemory>
    requires room { size.entries < 2 ^ 31 }
    requires step { 0 < size.step }
{
    let mut draws = Draws::new(1);
    let mut entry = Entry::new(alloc);
    let mut counts = Counts { lines: 0, hints: 0 };
    for _g in 0..size.logs {
        for k in 0..size.entries {
            draw_lits(&mut draws, VARS, size.lits, &mut entry.lits)?;
            draw_hints(&mut draws, k + 2, size.step, size.hints, &mut entry.hints)?;
            counts.lines = counts.lines.saturating_add(1);
            counts.hints = counts.hints.saturating_add(entry.hints.len() as u64);
        }
    }
    Ok(counts)
}

/// Logs of drawn entries.
fn drawn_logs<'f>(alloc: Global, formula: &'f Formula, size: Size) -> Result<Vec<Log<'f>>, NoMemory>
    requires formula { HasOnlyOne formula.now }
    requires some { 0 < size.logs }
    requires room { size.entries < 2 ^ 31 }
    requires step { 0 < size.step }
    ensures some { IfOk result (λ logs. 0 < length logs.items) }
    ensures whole { IfOk result (λ logs. All (IsWhole formula.now) logs.items) }
{
    let mut draws = Draws::new(1);
    let mut logs = Vec::new(alloc);
    for _g in 0..size.logs {
        logs.push(drawn_log(alloc, formula, size, &mut draws)?)?;
    }
    Ok(logs)
}

/// How many entries there are.
fn written(logs: &[Log]) -> Counts {
    let mut counts = Counts { lines: 0, hints: 0 };
    for log in logs {
        counts.lines = counts.lines.saturating_add(log.len());
    }
    counts
}

/// Reads each entry.
fn read(alloc: Global, logs: &[Log]) -> Result<Counts, NoMemory> {
    let mut entry = Entry::new(alloc);
    let mut counts = Counts { lines: 0, hints: 0 };
    for log in logs {
        for k in 0..log.len() {
            entry.lits.clear();
            entry.hints.clear();
            log.append_lits(k, &mut entry.lits)?;
            log.append_hints(k, &mut entry.hints)?;
            counts.lines = counts.lines.saturating_add(1);
            counts.hints = counts.hints.saturating_add(entry.hints.len() as u64);
        }
    }
    Ok(counts)
}

/// The counts of a proof.
fn counts_of(proof: &Proof) -> Counts {
    let mut counts = Counts { lines: 0, hints: 0 };
    for line in &proof.lines {
        counts.lines = counts.lines.saturating_add(1);
        counts.hints = counts.hints.saturating_add(line.hints().len() as u64);
    }
    counts
}

/// The counts of the merged proof.
fn merged(alloc: Global, formula: &Formula, logs: &[Log]) -> Result<Counts, NoMemory>
    requires { All (IsWhole formula.now) logs.now }
{
    Ok(counts_of(&merge(alloc, formula, logs)?))
}

/// How many lines of the merged proof the separate checker takes, and how many hints these have.
fn checked(alloc: Global, formula: &Formula, logs: &[Log]) -> Result<Counts, NoMemory>
    requires { All (IsWhole formula.now) logs.now }
{
    let proof = merge(alloc, formula, logs)?;
    let mut checker = Checker::new(alloc, formula)?;
    let mut counts = Counts { lines: 0, hints: 0 };
    for line in &proof.lines {
        if checker.line(line).is_err() {
            break;
        }
        counts.lines = counts.lines.saturating_add(1);
        counts.hints = counts.hints.saturating_add(line.hints().len() as u64);
    }
    Ok(counts)
}

/// The counts of what the literal 1 needs of the merged proof.
fn trimmed(alloc: Global, formula: &Formula, logs: &[Log]) -> Result<Counts, NoMemory>
    requires some { 0 < length logs.now }
    requires whole { All (IsWhole formula.now) logs.now }
{
    let proof = merge(alloc, formula, logs)?;
    Ok(counts_of(&trim(alloc, formula, proof, &[Lit::new(1, true)])?))
}

/// The same in one pass.
fn needed(alloc: Global, formula: &Formula, logs: &[Log]) -> Result<Counts, NoMemory>
    requires some { 0 < length logs.now }
    requires whole { All (IsWhole formula.now) logs.now }
{
    let kept = merge_needed(alloc, formula, logs, &[Lit::new(1, true)])?;
    Ok(counts_of(&kept))
}
