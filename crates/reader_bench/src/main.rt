//! Times the reader: reads a DIMACS text from a file, and prints how many variables, clauses and
//! literals its formula has, the same on every run and machine.
//!
//! The word is the name of the file. `bench/reader.sh` makes one, runs it and measures.
#![tactic(auto)]

use bone_desk::{Desk, Feed, RealDesk};
use cnf_core::{Clause, Formula};
use dimacs_reader::{ReadEnd, read_formula};
use std::process::ExitCode;
use std::{env, io};

/// The status where there is no formula.
fn status_of(end: ReadEnd) -> u8 {
    match end {
        ReadEnd::Memory => 40,
        ReadEnd::Bad { .. } => 50,
        ReadEnd::TooLong => 51,
        ReadEnd::Fault => 60,
    }
}

/// How many literals the formula has.
fn literals(formula: &Formula) -> usize {
    let mut literals = 0_usize;
    for Clause { lits } in formula.clauses() {
        literals = literals.saturating_add(lits.len());
    }
    literals
}

fn main(rt: HostRuntime) -> io::Result<ExitCode> {
    let Some(name) = env::args(&rt)?.nth(1) else {
        return Ok(ExitCode::from(64));
    };
    let mut desk = RealDesk::new(rt);
    if desk.open_feed(Feed::Text, name.as_str()).is_err() {
        return Ok(ExitCode::from(62));
    }
    match read_formula(rt.alloc(), &mut desk) {
        Ok(formula) => {
            let vars = formula.vars();
            let clauses = formula.clauses().len();
            let literals = literals(&formula);
            println!(rt; "{vars} variables, {clauses} clauses, {literals} literals")?;
            Ok(ExitCode::SUCCESS)
        }
        Err(end) => Ok(ExitCode::from(status_of(end))),
    }
}
