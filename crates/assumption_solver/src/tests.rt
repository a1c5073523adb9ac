//! The answers on worked formulas, and on small ones against trying every assignment.
ghost use Rattle.std.specs.Prelude.{◌≡◌};
ghost use Rattle.chooser_core.specs.Choosing.{IsLeastFree, once_more};

use crate::{Found, Progress, Solver};
use chooser_core::Chooser;
use cnf_core::{Clause, Formula, Lit, NoMemory, Values};
use lrat_checker::Checker;
use lrat_lines::{Ids, Line};
use lrat_log::{Kind, Log};
use samples::Draws;
use std::alloc::Global;
use std::boxed::Box;
use std::process::Abort;
use std::test::Fail;

/// More learnt clauses than any query here needs.
const ENOUGH: u64 = 1_000;

/// The eight clauses over three variables, of which each assignment makes one false.
const EIGHT: [i32; 32] = [
    1, 2, 3, 0, 1, 2, -3, 0, 1, -2, 3, 0, 1, -2, -3, 0, //
    -1, 2, 3, 0, -1, 2, -3, 0, -1, -2, 3, 0, -1, -2, -3, 0,
];

/// Always picks one number, or the least variable without value.
#[derive(Drop)]
pub(crate) struct Steady {
    pub number: Option<u32>,
    pub count: u64,
}

impl Chooser for Steady {
    ghost asks = { λ s. s.count };

    fn begin(&mut self, _vars: u32, _seed: u64) -> Result<(), NoMemory> {
        self.count = 0;
        Ok(())
    }

    fn pick(&mut self, values: &[i8], free: u32) -> u32
        requires { IsLeastFree values.now free }
        ensures { self.new.count ≡ once_more self.old.count }
    {
        self.count = self.count.saturating_add(1);
        self.number.unwrap_or(free)
    }

    fn bump(&mut self, _var: u32) {}

    fn freed(&mut self, _var: u32) {}

    fn asked(&self) -> u64 {
        self.count
    }
}

/// The literals of these numbers.
pub(crate) fn literals(alloc: Global, numbers: &[i32]) -> Result<Vec<Lit>, Fail> {
    let mut lits = Vec::new(alloc);
    for number in numbers {
        lits.push(Lit::of(*number).ok_or("a literal")?)?;
    }
    Ok(lits)
}

/// What kind of answer it is.
pub(crate) fn name(found: &Found) -> &'static str {
    match found {
        Found::Model(_) => "a model",
        Found::Core { .. } => "a core",
        Found::AllFixed => "all fixed",
        Found::Unsat { .. } => "no model",
        Found::Spent => "spent",
        Found::Memory => "no memory",
    }
}

/// Asks, where a solver may be asked so.
pub(crate) fn ask(
    formula: &Formula,
    solver: &mut Solver,
    chooser: &mut Box<dyn Chooser>,
    assume: &[Lit],
    chunk: &[Lit],
    budget: u64,
) -> Result<Found, Fail>
    requires { solver.old.log.formula ≡ formula.now }
    ensures { solver.new.log.formula ≡ formula.now }
{
    if !formula.room(assume) || !formula.room(chunk) {
        return Err(Fail::from("another variable"));
    }
    if !assume.is_empty() && !chunk.is_empty() {
        return Err(Fail::from("two lists"));
    }
    if budget > ENOUGH || solver.log().count_learnt() > budget {
        return Err(Fail::from("a budget out of range"));
    }
    Ok(solver.solve(assume, chunk, chooser, budget))
}

/// Has a checker take each entry of a log that has no imports.
pub(crate) fn check(alloc: Global, formula: &Formula, log: &Log) -> Result<Checker, Fail> {
    let mut checker = Checker::new(alloc, formula)?;
    let first = formula.clauses().len() as u64 + 1;
    for i in 0..log.len() {
        let mut lits = Vec::new(alloc);
        for k in 0..log.lit_count(i) {
            lits.push(log.lit(i, k))?;
        }
        let mut ids = Vec::new(alloc);
        for k in 0..log.hint_count(i) {
            ids.push(log.hint(i, k))?;
        }
        checker.line(&Line::Add {
            id: first.saturating_add(i),
            lits: Clause { lits },
            hints: Ids { ids },
        })?;
    }
    Ok(checker)
}

/// Whether the assignment, a bit for each variable, makes the literal true.
fn is_true(bits: u32, lit: Lit) -> bool {
    (bits >> (lit.var() % 32)) % 2 == u32::from(lit.positive())
}

fn is_model(formula: &Formula, bits: u32) -> bool {
    formula
        .clauses()
        .iter()
        .all(|clause| clause.lits.iter().any(|lit| is_true(bits, *lit)))
}

/// Whether the assignment is what a query asks for.
fn serves(formula: &Formula, assume: &[Lit], chunk: &[Lit], bits: u32) -> bool {
    is_model(formula, bits)
        && assume.iter().all(|lit| is_true(bits, *lit))
        && (chunk.is_empty() || chunk.iter().any(|lit| !is_true(bits, *lit)))
}

fn bits_of(values: &Values) -> u32 {
    let mut bits = 0;
    for place in 0..values.len() {
        if values.get(place + 1) {
            bits |= 1 << ((place + 1) % 32);
        }
    }
    bits
}

/// The answer to a query on a formula of at most six variables.
fn answer_of(formula: &Formula, assume: &[Lit], chunk: &[Lit]) -> &'static str {
    let mut has_model = false;
    for half in 0..64 {
        let bits = 2 * half;
        if serves(formula, assume, chunk, bits) {
            return "a model";
        }
        has_model |= is_model(formula, bits);
    }
    if !has_model {
        "no model"
    } else if assume.is_empty() {
        "all fixed"
    } else {
        "a core"
    }
}

/// A query's answer is the right one. Of a formula without models it may be a core, or that all are fixed.
fn try_query(
    rt: &impl Abort,
    formula: &Formula,
    solver: &mut Solver,
    chooser: &mut Box<dyn Chooser>,
    assume: &[Lit],
    chunk: &[Lit],
) -> Result<(), Fail>
    requires { solver.old.log.formula ≡ formula.now }
    ensures { solver.new.log.formula ≡ formula.now }
{
    let found = ask(formula, solver, chooser, assume, chunk, ENOUGH)?;
    let wanted = answer_of(formula, assume, chunk);
    let likewise = wanted == "no model"
        && (name(&found) == "a core" || name(&found) == "all fixed");
    assert!(rt;
        name(&found) == wanted || likewise,
        "{} for {wanted}",
        name(&found)
    );
    if let Found::Model(values) = &found {
        assert!(rt; serves(formula, assume, chunk, bits_of(values)));
    }
    Ok(())
}

/// So many literals of the variables 1 to 6, some of them twice.
fn draw(alloc: Global, draws: &mut Draws, count: u32) -> Result<Vec<Lit>, Fail> {
    let mut lits = Vec::new(alloc);
    for _i in 0..count {
        lits.push(draws.literal(6))?;
    }
    Ok(lits)
}

fn draw_formula(alloc: Global, draws: &mut Draws) -> Result<Formula, Fail> {
    let mut formula = Formula::new(alloc, 6);
    for _i in 0..10 + draws.below(30) {
        let lits = draw(alloc, draws, 3)?;
        if formula.room(&lits) {
            formula.push(Clause { lits })?;
        }
    }
    Ok(formula)
}

#[test]
fn small_formulas_are_answered_as_by_trying_every_assignment(rt: HostRuntime) -> Result<(), Fail> {
    let alloc = rt.alloc();
    for pick in 0..60 {
        let mut draws = Draws::new(pick);
        let formula = draw_formula(alloc, &mut draws)?;
        let number = if pick % 2 == 0 { None } else { Some(0) };
        let mut chooser: Box<dyn Chooser> = Box::new(alloc, Steady { number, count: 0 })?;
        let mut solver = Solver::new(alloc, &formula)?;
        let count = draws.below(5);
        let assume = draw(alloc, &mut draws, count)?;
        try_query(&rt, &formula, &mut solver, &mut chooser, &assume, &[])?;
        let chunk = draw(alloc, &mut draws, count / 2)?;
        try_query(&rt, &formula, &mut solver, &mut chooser, &[], &chunk)?;
        try_query(&rt, &formula, &mut solver, &mut chooser, &[], &[])?;
        check(alloc, &formula, solver.log())?;
    }
    Ok(())
}

/// What a new solver of a formula answers: the kind of the answer, and the literals of the last entry.
fn answer(
    alloc: Global,
    numbers: &[i32],
    lists: [&[i32]; 2],
    number: Option<u32>,
    budget: u64,
) -> Result<(&'static str, Option<Kind>, Vec<i32>), Fail> {
    let formula = Formula::of_numbers(alloc, 3, numbers)?;
    let assume = literals(alloc, lists[0])?;
    let chunk = literals(alloc, lists[1])?;
    let mut chooser: Box<dyn Chooser> = Box::new(alloc, Steady { number, count: 0 })?;
    let mut solver = Solver::new(alloc, &formula)?;
    let found = ask(&formula, &mut solver, &mut chooser, &assume, &chunk, budget)?;
    let log = solver.into_log();
    check(alloc, &formula, &log)?;
    let mut last = Vec::new(alloc);
    let mut kind = None;
    if log.len() > 0 {
        kind = Some(log.kind(log.len() - 1));
        for k in 0..log.lit_count(log.len() - 1) {
            last.push(log.lit(log.len() - 1, k).number())?;
        }
    }
    Ok((name(&found), kind, last))
}

#[test]
fn worked_queries_have_their_answers(rt: HostRuntime) -> Result<(), Fail> {
    let alloc = rt.alloc();
    for number in [None, Some(0)] {
        let chain = [1, 0, -1, 2, 0, 2, 3, 0];
        let (kind, _, _) = answer(alloc, &chain, [&[], &[1, 2]], number, ENOUGH)?;
        assert_eq!(rt; kind, "all fixed");
        let (kind, last, _) = answer(alloc, &[1, 0, -1, 0], [&[], &[]], number, ENOUGH)?;
        assert_eq!(rt; (kind, last), ("no model", Some(Kind::Empty)));
        let (kind, last, lits) = answer(alloc, &[1, 2, 0, 1, -2, 0], [&[-1], &[]], number, ENOUGH)?;
        assert_eq!(rt; (kind, last), ("a core", Some(Kind::Unit)));
        assert_eq!(rt; lits.as_slice(), [1].as_slice());
        let (kind, last, mut lits) = answer(alloc, &[1, 2, 0], [&[-1, -2], &[]], number, ENOUGH)?;
        assert_eq!(rt; (kind, last), ("a core", Some(Kind::Core)));
        lits.sort_unstable();
        assert_eq!(rt; lits.as_slice(), [1, 2].as_slice());
        let (kind, _, _) = answer(alloc, &[1, 2, 0], [&[], &[1, 2]], number, ENOUGH)?;
        assert_eq!(rt; kind, "a model");
        let (kind, _, _) = answer(alloc, &EIGHT, [&[], &[]], number, 1)?;
        assert_eq!(rt; kind, "spent");
    }
    Ok(())
}

#[test]
fn a_query_goes_on_with_a_greater_budget(rt: HostRuntime) -> Result<(), Fail> {
    let alloc = rt.alloc();
    let formula = Formula::of_numbers(alloc, 3, &EIGHT)?;
    let mut chooser: Box<dyn Chooser> = Box::new(
        alloc,
        Steady {
            number: None,
            count: 0,
        },
    )?;
    let mut solver = Solver::new(alloc, &formula)?;
    let found = ask(&formula, &mut solver, &mut chooser, &[], &[], 1)?;
    assert_eq!(rt; (name(&found), solver.log().count_learnt()), ("spent", 1));
    let found = ask(&formula, &mut solver, &mut chooser, &[], &[], ENOUGH)?;
    assert_eq!(rt; name(&found), "no model");
    let checker = check(alloc, &formula, solver.log())?;
    assert!(rt; checker.has_empty());
    Ok(())
}

#[test]
fn a_query_goes_on_in_slices(rt: HostRuntime) -> Result<(), Fail> {
    let alloc = rt.alloc();
    let formula = Formula::of_numbers(alloc, 3, &EIGHT)?;
    let mut chooser: Box<dyn Chooser> = Box::new(
        alloc,
        Steady {
            number: None,
            count: 0,
        },
    )?;
    let mut solver = Solver::new(alloc, &formula)?;
    solver.begin(&mut chooser);
    let paused = solver.go_on(&[], &[], &mut chooser, ENOUGH, 1);
    assert!(rt; matches!(&paused, Progress::Paused));
    assert_eq!(rt; solver.log().count_learnt(), 1);
    let ended = solver.go_on(&[], &[], &mut chooser, ENOUGH, ENOUGH);
    assert!(rt; matches!(&ended, Progress::Found(Found::Unsat { .. })));
    Ok(())
}

#[test]
fn root_literals_can_be_read_off(rt: HostRuntime) -> Result<(), Fail> {
    let alloc = rt.alloc();
    let formula = Formula::of_numbers(alloc, 3, &[1, 0, -1, 2, 0, 2, 3, 0])?;
    let mut chooser: Box<dyn Chooser> = Box::new(
        alloc,
        Steady {
            number: None,
            count: 0,
        },
    )?;
    let mut solver = Solver::new(alloc, &formula)?;
    let third = Lit::new(3, false);
    solver.prefer(third);
    let found = ask(&formula, &mut solver, &mut chooser, &[], &[], ENOUGH)?;
    if let Found::Model(values) = &found {
        assert_eq!(rt; bits_of(values), 6);
    }
    assert_eq!(rt; (name(&found), solver.counts().decisions), ("a model", 1));
    assert_eq!(rt; solver.root_count(), 2);
    assert_eq!(rt; solver.root_at(0).number(), 1);
    assert_eq!(rt; solver.root_at(1).number(), 2);
    assert!(rt; solver.is_root(Lit::new(2, true)) && !solver.is_root(third));
    Ok(())
}
