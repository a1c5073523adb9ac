//! Turns over a table that two workers share.
ghost use Rattle.std.specs.Prelude.{◌≡◌, ◌+◌, ◌^◌, ◌<◌, ◌≤◌, length, IfOk};
ghost use Rattle.board_core.specs.Boards.{root_view};
ghost use Rattle.candidate_words.specs.Seats.{Sits};
ghost use Rattle.worker_loop.specs.Posts.{IsUnused};

use crate::tests::{ENOUGH, fits, fixes, hire, open};
use crate::{End, Findings, NoGate, Question, TurnEnd, Worker};
use candidate_words::{Seat, Words};
use cnf_core::Formula;
use lrat_log::{Kind, Log};
use std::alloc::Global;
use std::test::Fail;

/// Four pairs of variables, the two of a pair with one value.
const PAIRS: [i32; 24] = [
    -1, 2, 0, 1, -2, 0, -3, 4, 0, 3, -4, 0, //
    -5, 6, 0, 5, -6, 0, -7, 8, 0, 7, -8, 0,
];

/// Variable 1, whatever 2 is.
const LEAD: [i32; 6] = [1, 2, 0, 1, -2, 0];

/// A second seat at a table where nobody has won anything yet.
fn split_seat(words: &Words, root: &mut Seat, question: &Question) -> Seat
    requires sits { Sits words.now root.old }
    requires root { root.old.view ≡ root_view words.now.about }
    requires about { words.now.about ≡ question.now }
    requires unused { IsUnused question.now root.old }
    ensures first { Sits words.now root.new }
    ensures second { Sits words.now result }
    ensures unused { IsUnused question.now root.new }
    ensures new { IsUnused question.now result }
{
    words.split(root)
}

/// A table with two seats, and what is asked there.
fn open_two<'f>(
    alloc: Global,
    formula: &'f Formula,
    bits: u32,
) -> Result<(Words, Seat, Seat, Question<'f>), Fail>
    ensures first { IfOk result (λ opened. Sits opened.0 opened.1) }
    ensures second { IfOk result (λ opened. Sits opened.0 opened.2) }
    ensures unused { IfOk result (λ opened. IsUnused opened.3 opened.1) }
    ensures new { IfOk result (λ opened. IsUnused opened.3 opened.2) }
    ensures about { IfOk result (λ opened. opened.0.about ≡ opened.3) }
{
    let (words, mut root, question) = open(alloc, formula, bits)?;
    let other = split_seat(&words, &mut root, &question);
    Ok((words, root, other, question))
}

/// A worker that has stored the model of the question, and dropped by it what it could.
fn hire_with_model<'f, 'r>(
    alloc: Global,
    words: &Words,
    question: &'r Question<'f>,
    seat: Seat,
) -> Result<Worker<'f, 'r>, Fail>
    requires sits { Sits words.now seat }
    requires about { words.now.about ≡ question.now }
    requires unused { IsUnused question.now seat }
    ensures sits { IfOk result (λ w. Sits words.now w.post.seat) }
    ensures few { IfOk result (λ w. length w.post.models.models ≡ 1) }
{
    let mut worker = hire(alloc, 0, question, seat, ENOUGH)?;
    if !fits(question.formula(), question.phases()) {
        return Err(Fail::from("no model"));
    }
    worker.absorb_model(words, question.phases())?;
    Ok(worker)
}

fn take_turn(words: &Words, worker: &mut Worker) -> TurnEnd
    requires sits { Sits words.now worker.old.post.seat }
    requires room { length worker.old.post.models.models < 2 ^ 20 }
    ensures sits { Sits words.now worker.new.post.seat }
    ensures few { length worker.new.post.models.models ≤ length worker.old.post.models.models + 1 }
{
    worker.turn(words)
}

/// The word of the first group, as it is now.
fn first_word(words: &Words, seat: &mut Seat, question: &Question) -> u64
    requires sits { Sits words.now seat.old }
    requires about { words.now.about ≡ question.now }
    ensures { Sits words.now seat.new }
{
    let vars = question.vars();
    look_at_first(words, seat, vars)
}

fn look_at_first(words: &Words, seat: &mut Seat, vars: u32) -> u64
    requires sits { Sits words.now seat.old }
    requires vars { vars ≡ words.now.about.formula.vars }
    requires some { 0 < vars }
    ensures { Sits words.now seat.new }
{
    words.refresh(seat, 0)
}

#[test]
fn a_turn_drops_at_once_what_no_single_flip_could(rt: HostRuntime) -> Result<(), Fail> {
    let alloc = rt.alloc();
    let formula = Formula::of_numbers(alloc, 8, &PAIRS)?;
    let (words, seat, mut other, question) = open_two(alloc, &formula, 0xff)?;
    let mut worker = hire_with_model(alloc, &words, &question, seat)?;
    let before = first_word(&words, &mut other, &question);
    let going = take_turn(&words, &mut worker);
    let after = first_word(&words, &mut other, &question);
    let done = take_turn(&words, &mut worker);
    assert_eq!(rt; (before, after), (0xff, 0));
    assert_eq!(rt; (going, done), (TurnEnd::Going, TurnEnd::Done));
    Ok(())
}

/// The first literals of the entries that were taken over from others.
fn imports(alloc: Global, log: &Log) -> Result<Vec<i32>, Fail> {
    let mut numbers = Vec::new(alloc);
    for i in 0..log.len() {
        if log.kind(i) == Kind::Import && log.lit_count(i) > 0 {
            numbers.push(log.lit(i, 0).number())?;
        }
    }
    Ok(numbers)
}

/// What a second worker hands in after one turn of the first.
fn after_one_turn<'f>(
    alloc: Global,
    formula: &'f Formula,
) -> Result<(TurnEnd, Findings<'f>), Fail> {
    let (words, seat, other, question) = open_two(alloc, formula, 3)?;
    let mut first = hire(alloc, 0, &question, seat, ENOUGH)?;
    let second = hire(alloc, 1, &question, other, ENOUGH)?;
    let going = first.turn(&words);
    Ok((going, second.run(&words, &NoGate)))
}

#[test]
fn the_second_worker_takes_over_what_the_first_one_fixed(rt: HostRuntime) -> Result<(), Fail> {
    let alloc = rt.alloc();
    let formula = Formula::of_numbers(alloc, 2, &LEAD)?;
    let (going, findings) = after_one_turn(alloc, &formula)?;
    assert_eq!(rt; (going, findings.end), (TurnEnd::Going, End::Done));
    assert_eq!(rt; imports(alloc, &findings.log)?.as_slice(), [1].as_slice());
    assert_eq!(rt; (findings.fixes.len(), findings.drops.len()), (0, 1));
    Ok(())
}

/// What may go to another thread.
fn may_be_sent<T: Send>(_value: &T) {}

#[test]
fn workers_and_findings_may_go_to_other_threads(rt: HostRuntime) -> Result<(), Fail> {
    let alloc = rt.alloc();
    let formula = Formula::of_numbers(alloc, 2, &LEAD)?;
    let (words, seat, question) = open(alloc, &formula, 3)?;
    let worker = hire(alloc, 0, &question, seat, ENOUGH)?;
    may_be_sent(&worker);
    let findings = worker.run(&words, &NoGate);
    may_be_sent(&findings);
    assert_eq!(rt; findings.end, End::Done);
    Ok(())
}

#[test]
fn a_worker_alone_goes_ahead_over_more_than_a_block_until_nothing_is_open(
    rt: HostRuntime,
) -> Result<(), Fail> {
    let alloc = rt.alloc();
    let formula = Formula::of_numbers(alloc, 300, &[300, 0, -299, 0])?;
    let (words, seat, question) = open(alloc, &formula, 1 << 11)?;
    let mut worker = hire(alloc, 0, &question, seat, ENOUGH)?;
    assert!(rt; worker.run_ahead(&words));
    let findings = worker.run(&words, &NoGate);
    let mut fixed = fixes(alloc, &findings)?;
    fixed.sort_unstable();
    assert_eq!(rt; fixed.as_slice(), [-299, 300].as_slice());
    assert_eq!(rt; findings.drops.len(), 298);
    Ok(())
}

#[test]
fn over_one_block_no_worker_goes_ahead(rt: HostRuntime) -> Result<(), Fail> {
    let alloc = rt.alloc();
    let formula = Formula::of_numbers(alloc, 2, &LEAD)?;
    let (words, seat, question) = open(alloc, &formula, 3)?;
    let mut worker = hire(alloc, 0, &question, seat, ENOUGH)?;
    assert!(rt; !worker.run_ahead(&words));
    assert_eq!(rt; worker.run(&words, &NoGate).fixes.len(), 1);
    Ok(())
}
