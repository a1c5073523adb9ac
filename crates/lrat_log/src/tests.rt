ghost use Rattle.std.specs.Prelude.{◌≡◌, ◌<◌, [], ◌∷◌, IfOk, OnOk};
ghost use Rattle.cnf_core.specs.Formulas.{with_clause};
ghost use Rattle.lrat_lines.specs.Examples.{implied_one};
ghost use Rattle.lrat_log.specs.Entries.{empty_log};
ghost use Rattle.lrat_log.specs.Examples.{refuted, with_learnt_again, with_empty};

use crate::{Kind, Log};
use cnf_core::{Clause, Formula, Lit};
use std::alloc::Global;
use std::test::Fail;

/// What threads may share, as each type of this crate.
fn shared<T: Send + Sync>(value: &T) -> &T {
    value
}

fn push(alloc: Global, formula: &mut Formula, first: Lit, second: Lit) -> Result<(), Fail>
    ensures { OnOk result (formula.new ≡ with_clause formula.old (first ∷ second ∷ [])) }
{
    let lits = vec![in alloc; first, second]?;
    if !formula.room(&lits) {
        return Err(Fail::from("no room"));
    }
    formula.push(Clause { lits })?;
    Ok(())
}

/// The formula of the clauses `1 2` and `1 -2`.
fn two_clauses(alloc: Global) -> Result<Formula, Fail>
    ensures { IfOk result (λ f. f ≡ implied_one) }
{
    let mut formula = Formula::new(alloc, 2);
    push(alloc, &mut formula, Lit::new(1, true), Lit::new(2, true))?;
    push(alloc, &mut formula, Lit::new(1, true), Lit::new(2, false))?;
    Ok(formula)
}

/// The formula of the clauses `1 2`, `1 -2`, `-1 3` and `-1 -3`, which has no model.
fn example(alloc: Global) -> Result<Formula, Fail>
    ensures { IfOk result (λ f. f ≡ refuted) }
{
    let mut formula = Formula::new(alloc, 3);
    push(alloc, &mut formula, Lit::new(1, true), Lit::new(2, true))?;
    push(alloc, &mut formula, Lit::new(1, true), Lit::new(2, false))?;
    push(alloc, &mut formula, Lit::new(1, false), Lit::new(3, true))?;
    push(alloc, &mut formula, Lit::new(1, false), Lit::new(3, false))?;
    Ok(formula)
}

/// Writes entries of two queries, and answers their ids. In the second query the clause that was learnt
/// first may be learnt again.
fn learn(log: &mut Log) -> Result<[u64; 4], Fail>
    requires { log.old ≡ empty_log refuted }
    ensures { OnOk result (log.new ≡ with_learnt_again) }
{
    let one = Lit::new(1, true);
    let learnt = log.learnt(&[one], &[1, 2])?;
    let unit = log.unit(one, &[5])?;
    let core = log.core(&[Lit::new(2, false), Lit::new(3, true)], &[3, 6])?;
    log.begin_query();
    let again = log.learnt(&[one], &[1, 2])?;
    Ok([learnt, unit, core, again])
}

/// Takes literals from elsewhere, one at an earlier stamp than the clock's, and then ends the log.
fn end(log: &mut Log) -> Result<[u64; 3], Fail>
    requires { log.old ≡ with_learnt_again }
    ensures { OnOk result (log.new ≡ with_empty) }
{
    let first = log.import(Lit::new(3, true), 7)?;
    let second = log.import(Lit::new(2, true), 4)?;
    let empty = log.empty(&[6, 3, 4])?;
    Ok([first, second, empty])
}

/// Shows the literal 1 in two queries.
fn show_twice(log: &mut Log) -> Result<(), Fail>
    requires { log.old ≡ empty_log implied_one }
{
    log.begin_query();
    log.unit(Lit::new(1, true), &[1, 2])?;
    log.begin_query();
    log.unit(Lit::new(1, true), &[3])?;
    Ok(())
}

/// Writes a clause that has so many hints to itself.
fn write_large(alloc: Global, log: &mut Log, count: usize) -> Result<(), Fail>
    requires log { log.old ≡ empty_log refuted }
    requires some { 0 < count }
{
    let hints = vec![in alloc; 1u64; count]?;
    log.core(&[Lit::new(1, true), Lit::new(2, true)], &hints)?;
    Ok(())
}

/// Of each entry how many bytes and hints it has, and the sum of its hints.
fn sizes(alloc: Global, log: &Log) -> Result<Vec<u64>, Fail> {
    let mut numbers = Vec::new(alloc);
    for i in 0..log.len() {
        let mut hints = Vec::new(alloc);
        log.append_hints(i, &mut hints)?;
        numbers.push(log.entry_bytes(i).len() as u64)?;
        numbers.push(log.hint_count(i))?;
        numbers.push(
            hints
                .iter()
                .fold(0u64, |sum, hint| sum.saturating_add(*hint)),
        )?;
    }
    Ok(numbers)
}

/// The bytes of all entries, one after another.
fn all_bytes(alloc: Global, log: &Log) -> Result<Vec<u8>, Fail> {
    let mut bytes = Vec::new(alloc);
    for i in 0..log.len() {
        bytes.extend_from_slice(log.entry_bytes(i))?;
    }
    Ok(bytes)
}

fn kind_code(kind: Kind) -> i32 {
    match kind {
        Kind::Learnt => 1,
        Kind::Unit => 2,
        Kind::Core => 3,
        Kind::Empty => 4,
        Kind::Import => 5,
    }
}

/// Each entry as a code of its kind, its clock, its literals and 0, and its hints and 0.
fn listing(alloc: Global, log: &Log) -> Result<Vec<i32>, Fail> {
    let mut numbers = Vec::new(alloc);
    for i in 0..log.len() {
        numbers.push(kind_code(log.kind(i)))?;
        numbers.push(i32::try_from(log.clock_of(i)).unwrap_or(-1))?;
        for k in 0..log.lit_count(i) {
            numbers.push(log.lit(i, k).number())?;
        }
        numbers.push(0)?;
        for k in 0..log.hint_count(i) {
            numbers.push(i32::try_from(log.hint(i, k)).unwrap_or(-1))?;
        }
        numbers.push(0)?;
    }
    Ok(numbers)
}

#[test]
fn entries_read_back_as_they_were_written(rt: HostRuntime) -> Result<(), Fail> {
    let formula = example(rt.alloc())?;
    let mut log = Log::new(rt.alloc(), &formula);
    assert_eq!(rt; log.len(), 0);
    assert_eq!(rt; learn(&mut log)?, [5, 6, 7, 8]);
    assert_eq!(rt; end(&mut log)?, [9, 10, 11]);
    assert_eq!(rt; shared(&log).len(), 7);
    assert_eq!(rt; (log.count_learnt(), log.clock()), (2, 7));
    assert_eq!(rt; *shared(&log.kind(4)), Kind::Import);
    let numbers = listing(rt.alloc(), &log)?;
    let expected = [
        1, 0, 1, 0, 1, 2, 0, // 1 by the first two clauses
        2, 0, 1, 0, 5, 0, // the literal 1
        3, 0, -2, 3, 0, 3, 6, 0, // not both of 2 and -3
        1, 0, 1, 0, 1, 2, 0, // 1 again
        5, 7, 3, 0, 0, // 3 from elsewhere at 7
        5, 7, 2, 0, 0, // 2 from elsewhere at 4
        4, 7, 0, 6, 3, 4, 0, // no model
    ];
    assert_eq!(rt; numbers.as_slice(), expected.as_slice());
    Ok(())
}

#[test]
fn an_entry_has_its_packed_bytes(rt: HostRuntime) -> Result<(), Fail> {
    let formula = two_clauses(rt.alloc())?;
    let mut log = Log::new(rt.alloc(), &formula);
    show_twice(&mut log)?;
    let bytes = all_bytes(rt.alloc(), &log)?;
    let expected = [1, 0, 0, 1, 2, 2, 2, 1, 1, 1, 0, 1, 2, 1, 1];
    assert_eq!(rt; bytes.as_slice(), expected.as_slice());
    Ok(())
}

#[test]
fn an_entry_may_be_larger_than_a_page(rt: HostRuntime) -> Result<(), Fail> {
    let formula = example(rt.alloc())?;
    let mut log = Log::new(rt.alloc(), &formula);
    write_large(rt.alloc(), &mut log, 70_000)?;
    let numbers = sizes(rt.alloc(), &log)?;
    assert_eq!(rt; numbers.as_slice(), [70_009, 70_000, 70_000].as_slice());
    Ok(())
}
