//! Times the solver: one query without assumptions, with the chooser that prefers what conflicts met last. What it
//! prints is the same at every run and on every machine.
//!
//! The words `random VARIABLES CLAUSES PICK BUDGET` solve a random formula of clauses of three literals, which the
//! number PICK picks; `print VARIABLES CLAUSES PICK` prints it in the DIMACS format; `read BUDGET` solves the DIMACS
//! text on standard input. The solver learns at most BUDGET clauses. `load` reads such a text and makes the solver
//! alone, so that what the query takes can be told. `bench/solver.sh` runs it and measures.
#![tactic(auto)]

mod print;
mod threes;

use anyhow::anyhow;
use assumption_solver::{Counts, Found, Solver};
use bone_desk::{Desk, Feed, RealDesk};
use chooser_core::Chooser;
use choosers::QueueChooser;
use cnf_core::{Formula, NoMemory};
use dimacs_reader::read_formula;
use print::print_formula;
use std::alloc::Global;
use std::env;
use threes::random_formula;

/// What is to be done.
#[derive(Clone, Copy, Debug)]
enum Task {
    /// Solve the formula on standard input.
    Read,
    /// Make a solver for it.
    Load,
    /// Solve a random formula.
    Random,
    /// Print it.
    Print,
}

impl Task {
    /// The task of this name.
    fn of(name: &str) -> Option<Task> {
        match name {
            "read" => Some(Task::Read),
            "load" => Some(Task::Load),
            "random" => Some(Task::Random),
            "print" => Some(Task::Print),
            _ => None,
        }
    }
}

fn main(rt: HostRuntime) -> anyhow::Result<()> {
    let mut words = env::args(&rt)?.skip(1);
    let task = words.next().and_then(|word| Task::of(&word));
    let mut numbers = [0u32; 4];
    for number in numbers.iter_mut() {
        if let Some(word) = words.next() {
            *number = word.parse()?;
        }
    }
    match task {
        Some(Task::Read) => {
            let [budget, ..] = numbers;
            report(&rt, &read(rt)?, budget)
        }
        Some(Task::Load) => { report_loading(&rt, &read(rt)?) }
        Some(Task::Random) => {
            let [vars, clauses, pick, budget] = numbers;
            report(
                &rt,
                &random_formula(rt.alloc(), vars, clauses, pick)?,
                budget,
            )
        }
        Some(Task::Print) => {
            let [vars, clauses, pick, _] = numbers;
            print_formula(&rt, &random_formula(rt.alloc(), vars, clauses, pick)?)?;
            Ok(())
        }
        None => Err(anyhow!("the words are read, load, random or print, and numbers")),
    }
}

/// The formula on standard input.
fn read(rt: HostRuntime) -> anyhow::Result<Formula> {
    let mut desk = RealDesk::new(rt);
    desk.open_feed(Feed::Text, "")?;
    read_formula(rt.alloc(), &mut desk).map_err(|_| anyhow!("no formula on standard input"))
}

/// What a query gave.
#[derive(Debug, Drop)]
struct Outcome {
    found: &'static str,
    counts: Counts,
    entries: u64,
}

/// Asks for any model.
fn solved(alloc: Global, formula: &Formula, budget: u32) -> Result<Outcome, NoMemory> {
    let mut solver = Solver::new(alloc, formula)?;
    let mut chooser: Box<dyn Chooser> = Box::new(alloc, QueueChooser::new(alloc))?;
    chooser.begin(formula.vars(), 0)?;
    let found = solver.solve(&[], &[], &mut chooser, u64::from(budget));
    Ok(Outcome {
        found: name_of(&found),
        counts: solver.counts(),
        entries: solver.log().len(),
    })
}

/// How many entries the log has of the loading alone.
fn loaded(alloc: Global, formula: &Formula) -> Result<u64, NoMemory> {
    let solver = Solver::new(alloc, formula)?;
    Ok(solver.log().len())
}

/// Solves, and prints what came of it.
fn report(rt: &HostRuntime, formula: &Formula, budget: u32) -> anyhow::Result<()> {
    let outcome = solved(rt.alloc(), formula, budget)?;
    println!(rt; "{}", outcome.found)?;
    print_counts(rt, &outcome.counts)?;
    println!(rt; "{} log entries", outcome.entries)?;
    Ok(())
}

/// Makes a solver, and prints how long its log is.
fn report_loading(rt: &HostRuntime, formula: &Formula) -> anyhow::Result<()> {
    println!(rt; "{} log entries", loaded(rt.alloc(), formula)?)?;
    Ok(())
}

/// Prints what the search did.
fn print_counts(rt: &HostRuntime, counts: &Counts) -> anyhow::Result<()> {
    println!(rt; "{} decisions", counts.decisions)?;
    println!(rt; "{} propagations", counts.propagations)?;
    println!(rt; "{} conflicts", counts.conflicts)?;
    println!(rt; "{} restarts", counts.restarts)?;
    println!(rt; "{} removals", counts.removals)?;
    Ok(())
}

/// The answer in a word or two.
fn name_of(found: &Found) -> &'static str {
    match found {
        Found::Model(_) => "satisfiable",
        Found::Unsat { .. } => "unsatisfiable",
        Found::Spent => "budget spent",
        Found::Memory => "no memory",
        Found::Core { .. } | Found::AllFixed => "answers no query without assumptions",
    }
}
