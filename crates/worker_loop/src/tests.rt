//! Workers on worked formulas.
ghost use Rattle.std.specs.Prelude.{◌≡◌, ◌<◌, ◌≤◌, IsTrue, IfOk};
ghost use Rattle.cnf_core.specs.Formulas.{IsModel};
ghost use Rattle.board_core.specs.Boards.{root_view};
ghost use Rattle.board_core.specs.Rules.{IsView};
ghost use Rattle.candidate_words.specs.Seats.{Sits};
ghost use Rattle.worker_loop.specs.Posts.{IsUnused, IsNewPost};
ghost use Rattle.worker_loop.specs.Runs.{HasFewModels};

use crate::{End, Findings, NoGate, Question, Share, Worker};
use candidate_words::{Seat, Words};
use chooser_core::Chooser;
use choosers::OrderChooser;
use cnf_core::{Formula, Values};
use lrat_log::{Kind, Log};
use model_check::is_model;
use std::alloc::Global;
use std::boxed::Box;
use std::test::Fail;

mod drawn;
mod jumps;
mod turns;

/// More learnt clauses than any worker here needs.
const ENOUGH: u64 = 1_000;

/// Variable 4, or one of eight clauses of which each assignment of the others makes one false.
const LEADING: [i32; 40] = [
    1, 2, 3, 4, 0, 1, 2, -3, 4, 0, 1, -2, 3, 4, 0, 1, -2, -3, 4, 0, //
    -1, 2, 3, 4, 0, -1, 2, -3, 4, 0, -1, -2, 3, 4, 0, -1, -2, -3, 4, 0,
];

/// The assignment of so many variables by the bits of a number, from variable 1 on.
fn values(alloc: Global, vars: u32, bits: u32) -> Result<Values, Fail> {
    let mut values = Values::new(alloc, vars)?;
    for place in 0..vars {
        if place < values.len() {
            values.set(place + 1, value(bits, place + 1));
        }
    }
    Ok(values)
}

/// Whether the assignment is a model of the formula, of any length.
fn fits(formula: &Formula, values: &Values) -> bool
    ensures { IsTrue result → IsModel formula.now values.now }
{
    values.len() == formula.vars() && is_model(formula, values)
}

/// A table for the formula, the seat of its root, and the question, with phases by the bits of a number.
fn open<'f>(
    alloc: Global,
    formula: &'f Formula,
    bits: u32,
) -> Result<(Words, Seat, Question<'f>), Fail>
    ensures sits { IfOk result (λ opened. Sits opened.0 opened.1) }
    ensures root { IfOk result (λ opened. opened.1.view ≡ root_view opened.0.about) }
    ensures unused { IfOk result (λ opened. IsUnused opened.2 opened.1) }
    ensures about { IfOk result (λ opened. opened.0.about ≡ opened.2) }
    ensures formula { IfOk result (λ opened. opened.2.formula ≡ formula.now) }
{
    let phases = values(alloc, formula.vars(), bits)?;
    if formula.vars() == 0 || !fits(formula, &phases) {
        return Err(Fail::from("no model"));
    }
    let (words, seat) = Words::open(alloc, formula, &phases)?;
    let question = Question::new(alloc, formula, phases)?;
    Ok((words, seat, question))
}

/// One of two workers, with a chooser that takes the least variable without a value.
#[tactic(auto, using(crate::proofs::Blocks::open_most))]
fn hire<'f, 'r>(
    alloc: Global,
    number: u32,
    question: &'r Question<'f>,
    seat: Seat,
    budget: u64,
) -> Result<Worker<'f, 'r>, Fail>
    requires number { number < 2 }
    requires budget { (1 ≤ budget) × (budget ≤ 1000) }
    requires seat { IsView question.now seat.view }
    requires unused { IsUnused question.now seat }
    ensures new { IfOk result (λ w. IsNewPost question.now seat budget w.post) }
    ensures few { IfOk result (λ w. HasFewModels 1 w.post) }
{
    let chooser: Box<dyn Chooser> = Box::new(alloc, OrderChooser::new())?;
    let share = Share {
        number,
        workers: 2,
        budget,
        seed: 0,
    };
    match Worker::new(alloc, share, question, None, seat, chooser) {
        Ok(worker) => Ok(worker),
        Err(_) => Err(Fail::from("no memory")),
    }
}

/// What a worker hands in that runs alone.
fn run_alone<'f>(
    alloc: Global,
    formula: &'f Formula,
    bits: u32,
    budget: u64,
) -> Result<Findings<'f>, Fail>
    requires budget { (1 ≤ budget) × (budget ≤ 1000) }
    ensures { IfOk result (λ f. f.models.formula ≡ formula.now) }
{
    let (words, seat, question) = open(alloc, formula, bits)?;
    let worker = hire(alloc, 0, &question, seat, budget)?;
    Ok(worker.run(&words, &NoGate))
}

/// The variable, the model and the flip of each drop.
fn drops(alloc: Global, findings: &Findings) -> Result<Vec<(u32, u32, bool)>, Fail> {
    let mut drops = Vec::new(alloc);
    for w in &findings.drops {
        drops.push((w.var, w.model, w.flip))?;
    }
    Ok(drops)
}

/// The numbers of the fixed literals.
fn fixes(alloc: Global, findings: &Findings) -> Result<Vec<i32>, Fail> {
    let mut fixes = Vec::new(alloc);
    for lit in &findings.fixes {
        fixes.push(lit.number())?;
    }
    Ok(fixes)
}

/// How many literals the log's longest core has.
fn longest_core(log: &Log) -> u64 {
    let mut longest = 0;
    for i in 0..log.len() {
        if log.kind(i) == Kind::Core {
            longest = longest.max(log.lit_count(i));
        }
    }
    longest
}

/// The drops of the variables 1 to some by a model's values.
fn of_model(alloc: Global, model: u32, last: u32) -> Result<Vec<(u32, u32, bool)>, Fail> {
    let mut drops = Vec::new(alloc);
    for place in 0..last.min(32) {
        drops.push((place + 1, model, false))?;
    }
    Ok(drops)
}

#[test]
fn sixteen_drops_in_one_word_are_won_at_once(rt: HostRuntime) -> Result<(), Fail> {
    let alloc = rt.alloc();
    let formula = Formula::of_numbers(alloc, 17, &[17, 0])?;
    let findings = run_alone(alloc, &formula, 0x1_ffff, ENOUGH)?;
    assert_eq!(rt; (findings.end, findings.models.len()), (End::Done, 1));
    assert_eq!(rt;
        drops(alloc, &findings)?.as_slice(),
        of_model(alloc, 0, 16)?.as_slice()
    );
    assert_eq!(rt; fixes(alloc, &findings)?.as_slice(), [17].as_slice());
    Ok(())
}

/// Each clause over 3 and 4 with variable 1, and with variable 2, and one that is false where both are.
const SHARED: [i32; 35] = [
    1, 2, 0, 1, 3, 4, 0, 1, 3, -4, 0, 1, -3, 4, 0, 1, -3, -4, 0, //
    2, 3, 4, 0, 2, 3, -4, 0, 2, -3, 4, 0, 2, -3, -4, 0,
];

#[test]
fn literals_of_a_core_are_fixed_together(rt: HostRuntime) -> Result<(), Fail> {
    let alloc = rt.alloc();
    let formula = Formula::of_numbers(alloc, 4, &SHARED)?;
    let findings = run_alone(alloc, &formula, 15, ENOUGH)?;
    let mut fixed = fixes(alloc, &findings)?;
    fixed.sort_unstable();
    assert_eq!(rt; fixed.as_slice(), [1, 2].as_slice());
    assert_eq!(rt; (findings.end, findings.drops.len()), (End::Done, 2));
    assert_eq!(rt; longest_core(&findings.log), 2);
    Ok(())
}

/// What a worker alone fixes, in order, with all phases true, and how many literals its longest core has.
fn row(alloc: Global, vars: u32, numbers: &[i32]) -> Result<(Vec<i32>, u64), Fail> {
    let formula = Formula::of_numbers(alloc, vars, numbers)?;
    let findings = run_alone(alloc, &formula, u32::MAX, ENOUGH)?;
    let mut fixed = fixes(alloc, &findings)?;
    fixed.sort_unstable();
    Ok((fixed, longest_core(&findings.log)))
}

#[test]
fn what_units_show_is_fixed(rt: HostRuntime) -> Result<(), Fail> {
    let alloc = rt.alloc();
    let (chain, core) = row(alloc, 3, &[1, 0, -1, 2, 0, 2, 3, 0])?;
    assert_eq!(rt; chain.as_slice(), [1, 2].as_slice());
    assert_eq!(rt; core, 0);
    let (lead, core) = row(alloc, 2, &[1, 2, 0, 1, -2, 0])?;
    assert_eq!(rt; lead.as_slice(), [1].as_slice());
    assert_eq!(rt; core, 0);
    Ok(())
}

#[test]
fn a_core_of_two_that_a_model_splits_is_dropped(rt: HostRuntime) -> Result<(), Fail> {
    let alloc = rt.alloc();
    let (fixed, core) = row(alloc, 2, &[1, 2, 0])?;
    assert_eq!(rt; (fixed.len(), core), (0, 2));
    Ok(())
}

#[test]
fn a_budget_of_one_clause_is_spent(rt: HostRuntime) -> Result<(), Fail> {
    let alloc = rt.alloc();
    let formula = Formula::of_numbers(alloc, 4, &LEADING)?;
    let findings = run_alone(alloc, &formula, 15, 1)?;
    assert_eq!(rt;
        (findings.end, findings.log.count_learnt()),
        (End::Spent, 1)
    );
    let findings = run_alone(alloc, &formula, 15, ENOUGH)?;
    assert_eq!(rt; findings.end, End::Done);
    assert_eq!(rt; fixes(alloc, &findings)?.as_slice(), [4].as_slice());
    assert!(rt; findings.decisions > 0);
    Ok(())
}

/// The value of a variable by the bits of a number, from variable 1 on.
fn value(bits: u32, var: u32) -> bool {
    (bits >> (var.wrapping_sub(1) % 32)) & 1 == 1
}
