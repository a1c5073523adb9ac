//! Times the table of candidates: loads all its groups, drops a variable and fixes one, each so many times. What it
//! prints is the same at every run and on every machine.
//!
//! The words are how often all 32,768 groups are loaded, how many drops are made, and how many fixes.
//! `bench/table.sh` runs it and measures.
#![tactic(auto)]

ghost use Rattle.std.specs.Prelude.{◌≤◌, ◌^◌};

mod rounds;

use anyhow::anyhow;
use cnf_core::{Clause, Formula, Lit, NoMemory, Values};
use rounds::{Counts, Rounds, run};
use std::alloc::Global;
use std::env;
use table_cases::Case;

/// The variables of the table, 32 to a group.
const VARS: u32 = 1_048_576;

/// The formula that says that variable 1 is false, its model where all are false, and that where 2 alone is true.
fn make_case(alloc: Global, vars: u32) -> Result<Case, NoMemory>
    requires { (2 ≤ vars) × (vars ≤ 2 ^ 20) }
{
    let mut lits = Vec::new(alloc);
    lits.push(Lit::new(1, false))?;
    let mut formula = Formula::new(alloc, vars);
    formula.push(Clause { lits })?;
    let phases = Values::new(alloc, vars)?;
    let mut other = phases.copy()?;
    other.set(2, true);
    Ok(Case {
        formula,
        phases,
        other,
    })
}

fn main(rt: HostRuntime) -> anyhow::Result<()> {
    let mut words = env::args(&rt)?.skip(1);
    let mut numbers = [0u32; 3];
    for number in numbers.iter_mut() {
        if let Some(word) = words.next() {
            *number = word.parse()?;
        }
    }
    let [loads, drops, fixes] = numbers;
    let rounds = Rounds {
        loads,
        drops,
        fixes,
    };
    let case = make_case(rt.alloc(), VARS)?;
    let Some(counts) = run(rt.alloc(), &case, rounds)? else {
        return Err(anyhow!("the formula has no such models"));
    };
    let Counts {
        alive,
        dropped,
        fixed,
    } = counts;
    println!(rt; "{alive} found alive, {dropped} dropped, {fixed} fixed")?;
    Ok(())
}
