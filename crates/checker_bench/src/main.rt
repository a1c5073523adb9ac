//! Times the checker of proofs: takes the lines of a proof over a formula, and prints how many were taken
//! and how many were not, the same on every run and machine.
//!
//! The words are the names of the formula and of the proof. `bench/checker.sh` makes both, runs it and
//! measures.
#![tactic(auto)]

ghost use Rattle.std.specs.Prelude.{◌^◌, ◌≤◌, length};

use cnf_core::Formula;
use dimacs_reader::{Scan, ScanEnd};
use lrat_checker::Checker;
use lrat_lines::read_line;
use std::alloc::Global;
use std::process::ExitCode;
use std::{env, fs, io};

/// The most bytes of a formula's text: 2^27.
const MOST_BYTES: usize = 134_217_728;

/// How many lines of a proof were taken, and how many were not.
#[derive(Clone, Copy, Debug, PartialEq, Eq)]
struct Counts {
    taken: u64,
    refused: u64,
}

fn formula_of(alloc: Global, text: &[u8]) -> Result<Formula, ScanEnd>
    requires { length text.now ≤ 2 ^ 27 }
{
    let mut scan = Scan::new(alloc);
    scan.feed(text)?;
    scan.finish()
}

/// Checks each line of the text that isn't empty.
fn check(alloc: Global, checker: &mut Checker, proof: &[u8]) -> Counts {
    let mut counts = Counts {
        taken: 0,
        refused: 0,
    };
    for text in proof.split(|byte| *byte == b'\n') {
        if text.is_empty() {
            continue;
        }
        if is_taken(alloc, checker, text) {
            counts.taken = counts.taken.saturating_add(1);
        } else {
            counts.refused = counts.refused.saturating_add(1);
        }
    }
    counts
}

/// Whether the text is a line that the checker takes.
fn is_taken(alloc: Global, checker: &mut Checker, text: &[u8]) -> bool {
    match read_line(alloc, text) {
        Ok(line) => checker.line(&line).is_ok(),
        Err(_) => false,
    }
}

fn main(rt: HostRuntime) -> io::Result<ExitCode> {
    let mut words = env::args(&rt)?.skip(1);
    let (Some(formula_name), Some(proof_name)) = (words.next(), words.next()) else {
        return Ok(ExitCode::from(2));
    };
    let text = fs::read(&rt, formula_name.as_str())?;
    let proof = fs::read(&rt, proof_name.as_str())?;
    if text.len() > MOST_BYTES {
        return Ok(ExitCode::from(3));
    }
    let Ok(formula) = formula_of(rt.alloc(), &text) else {
        return Ok(ExitCode::from(4));
    };
    let Ok(mut checker) = Checker::new(rt.alloc(), &formula) else {
        return Ok(ExitCode::from(5));
    };
    let counts = check(rt.alloc(), &mut checker, &proof);
    let taken = counts.taken;
    let refused = counts.refused;
    println!(rt; "{taken} lines taken, {refused} not")?;
    Ok(ExitCode::SUCCESS)
}
