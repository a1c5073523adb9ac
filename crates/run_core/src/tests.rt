//! Runs over worked formulas, with one worker and with three.
use crate::{Outcome, Report, RunSettings, run_many, run_one};
use chooser_core::Chooser;
use choosers::{OrderChooser, QueueChooser};
use cnf_core::Formula;
use std::alloc::Global;
use std::test::Fail;
use std::thread::Threads;
use worker_loop::NoGate;

const SETTINGS: RunSettings = RunSettings {
    workers: 3,
    budget: 1_000,
    seed: 0,
};

/// How a run with one worker ends, or with three on threads of their own. The second chooser
/// prefers what conflicts met, the others take the variables in order.
fn run<'f, R: Threads + Sync>(
    rt: &R,
    alloc: Global,
    formula: &'f Formula,
    workers: u32,
) -> Result<Outcome<'f>, Fail> {
    let mut choosers: Vec<Box<dyn Chooser>> = Vec::with_capacity(alloc, 3)?;
    for place in 0..3_usize {
        let chooser: Box<dyn Chooser> = if place == 1 {
            Box::new(alloc, QueueChooser::new(alloc))?
        } else {
            Box::new(alloc, OrderChooser::new())?
        };
        choosers.push(chooser)?;
    }
    Ok(if workers == 1 {
        run_one(alloc, formula, SETTINGS, choosers)
    } else {
        run_many(rt, alloc, formula, SETTINGS, choosers, &NoGate)
    })
}

/// The report of a complete run.
fn complete<'f>(outcome: Outcome<'f>) -> Result<Report<'f>, Fail> {
    match outcome {
        Outcome::Complete(report) => Ok(report),
        _ => Err(Fail::from("not complete")),
    }
}

/// The numbers of the fixed literals.
fn fixes(alloc: Global, report: &Report) -> Result<Vec<i32>, Fail> {
    let mut numbers = Vec::new(alloc);
    for lit in &report.fixes {
        numbers.push(lit.number())?;
    }
    Ok(numbers)
}

/// The dropped variables.
fn drops(alloc: Global, report: &Report) -> Result<Vec<u32>, Fail> {
    let mut vars = Vec::new(alloc);
    for drop in &report.drops {
        vars.push(drop.var)?;
    }
    Ok(vars)
}

#[test]
fn a_literal_that_no_clause_names_alone_is_fixed_by_one_line(rt: HostRuntime) -> Result<(), Fail> {
    let alloc = rt.alloc();
    let formula = Formula::of_numbers(alloc, 2, &[1, 2, 0, 1, -2, 0])?;
    let report = complete(run(&rt, alloc, &formula, 1)?)?;
    assert_eq!(rt; fixes(alloc, &report)?.as_slice(), [1].as_slice());
    assert_eq!(rt; drops(alloc, &report)?.as_slice(), [2].as_slice());
    let mut hints = Vec::new(alloc);
    for line in &report.proof.lines {
        hints.extend_from_slice(line.hints())?;
    }
    assert_eq!(rt;
        (report.proof.lines.len(), hints.as_slice()),
        (1, [1, 2].as_slice())
    );
    Ok(())
}

#[test]
fn three_workers_find_what_one_finds(rt: HostRuntime) -> Result<(), Fail> {
    let alloc = rt.alloc();
    let formula = Formula::of_numbers(alloc, 35, &[32, 0, -33, 0, 34, 35, 0])?;
    let alone = complete(run(&rt, alloc, &formula, 1)?)?;
    let many = complete(run(&rt, alloc, &formula, 3)?)?;
    assert_eq!(rt; fixes(alloc, &alone)?.as_slice(), [32, -33].as_slice());
    assert_eq!(rt; fixes(alloc, &many)?.as_slice(), [32, -33].as_slice());
    assert_eq!(rt;
        drops(alloc, &many)?.as_slice(),
        drops(alloc, &alone)?.as_slice()
    );
    assert_eq!(rt; many.drops.len(), 33);
    Ok(())
}
