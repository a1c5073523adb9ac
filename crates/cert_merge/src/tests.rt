//! Two logs of which one takes a literal from the other, and two with entries of every kind that take literals from each
//! other: what the calls give, and that they find memory.
ghost use Rattle.std.specs.Prelude.{◌≡◌, [], ◌∷◌, IfOk, OnOk};
ghost use Rattle.cnf_core.specs.Formulas.{with_clause};
ghost use Rattle.lrat_lines.specs.Examples.{implied_one};
ghost use Rattle.lrat_log.specs.Entries.{empty_log};
ghost use Rattle.lrat_log.specs.Examples.{refuted, with_learnt_again, with_empty};
ghost use Rattle.cert_merge.specs.Examples.{teacher, learner, both, helper, across};

use crate::{merge, merge_needed, trim};
use cnf_core::{Clause, Formula, Lit};
use lrat_checker::Checker;
use lrat_lines::Proof;
use lrat_log::Log;
use std::alloc::{AllocError, Global};
use std::test::Fail;

fn push(alloc: Global, formula: &mut Formula, first: Lit, second: Lit) -> Result<(), Fail>
    ensures { OnOk result (formula.new ≡ with_clause formula.old (first ∷ second ∷ [])) }
{
    let lits = vec![in alloc; first, second]?;
    if !formula.room(&lits) {
        return Err(Fail::from("no room"));
    }
    formula.push(Clause { lits })?;
    Ok(())
}

fn example(alloc: Global) -> Result<Formula, Fail>
    ensures { IfOk result (λ f. f ≡ implied_one) }
{
    let mut formula = Formula::new(alloc, 2);
    push(alloc, &mut formula, Lit::new(1, true), Lit::new(2, true))?;
    push(alloc, &mut formula, Lit::new(1, true), Lit::new(2, false))?;
    Ok(formula)
}

/// The formula of the clauses `1 2`, `1 -2`, `-1 3` and `-1 -3`, which has no model.
fn refuted_formula(alloc: Global) -> Result<Formula, Fail>
    ensures { IfOk result (λ f. f ≡ refuted) }
{
    let mut formula = Formula::new(alloc, 3);
    push(alloc, &mut formula, Lit::new(1, true), Lit::new(2, true))?;
    push(alloc, &mut formula, Lit::new(1, true), Lit::new(2, false))?;
    push(alloc, &mut formula, Lit::new(1, false), Lit::new(3, true))?;
    push(alloc, &mut formula, Lit::new(1, false), Lit::new(3, false))?;
    Ok(formula)
}

/// Writes clauses of two queries.
fn search(log: &mut Log) -> Result<(), Fail>
    requires { log.old ≡ empty_log refuted }
    ensures { OnOk result (log.new ≡ with_learnt_again) }
{
    let one = Lit::new(1, true);
    log.learnt(&[one], &[1, 2])?;
    log.unit(one, &[5])?;
    log.core(&[Lit::new(2, false), Lit::new(3, true)], &[3, 6])?;
    log.begin_query();
    log.learnt(&[one], &[1, 2])?;
    Ok(())
}

/// Takes two literals over, and shows that there is no model.
fn refute(log: &mut Log) -> Result<(), Fail>
    requires { log.old ≡ with_learnt_again }
    ensures { OnOk result (log.new ≡ with_empty) }
{
    log.import(Lit::new(3, true), 7)?;
    log.import(Lit::new(2, true), 4)?;
    log.empty(&[6, 3, 4])?;
    Ok(())
}

/// Takes the literal 1 over, and shows 3 and 2 by it.
fn help(log: &mut Log) -> Result<(), Fail>
    requires { log.old ≡ empty_log refuted }
    ensures { OnOk result (log.new ≡ helper) }
{
    log.import(Lit::new(1, true), 1)?;
    log.unit(Lit::new(3, true), &[5, 3])?;
    log.unit(Lit::new(2, true), &[5, 3, 4])?;
    Ok(())
}

/// Shows the literal 1, behind a clause that isn't needed.
fn teach(log: &mut Log) -> Result<(), Fail>
    requires { log.old ≡ empty_log implied_one }
    ensures { OnOk result (log.new ≡ teacher) }
{
    log.core(&[Lit::new(1, true), Lit::new(2, true)], &[1])?;
    log.unit(Lit::new(1, true), &[1, 2])?;
    Ok(())
}

/// Takes the literal 1 over, and shows a clause by it.
fn learn(log: &mut Log) -> Result<(), Fail>
    requires { log.old ≡ empty_log implied_one }
    ensures { OnOk result (log.new ≡ learner) }
{
    log.import(Lit::new(1, true), 1)?;
    log.core(&[Lit::new(1, true), Lit::new(2, true)], &[3])?;
    Ok(())
}

/// Of each line the literals and 0, and the hints and 0.
fn listing(alloc: Global, proof: &Proof) -> Result<Vec<i64>, AllocError> {
    let mut numbers = Vec::new(alloc);
    for line in &proof.lines {
        for lit in line.lits() {
            numbers.push(i64::from(lit.number()))?;
        }
        numbers.push(0)?;
        for hint in line.hints() {
            numbers.push(hint.cast_signed())?;
        }
        numbers.push(0)?;
    }
    Ok(numbers)
}

/// What the calls give.
#[derive(Drop)]
struct Listings {
    merged: Vec<i64>,
    trimmed: Vec<i64>,
    needed: Vec<i64>,
}

/// The merged proof, what is needed of it for the literal 1, and that in one pass.
fn proofs(alloc: Global, formula: &Formula, logs: &[Log]) -> Result<Listings, Fail>
    requires formula { formula.now ≡ implied_one }
    requires logs { logs.now ≡ both }
{
    let one = [Lit::new(1, true)];
    let proof = merge(alloc, formula, logs)?;
    let merged = listing(alloc, &proof)?;
    let trimmed = listing(alloc, &trim(alloc, formula, proof, &one)?)?;
    let needed = listing(alloc, &merge_needed(alloc, formula, logs, &one)?)?;
    Ok(Listings {
        merged,
        trimmed,
        needed,
    })
}

/// The proofs of two logs, of which the first takes a literal from the second.
fn proofs_of_two(alloc: Global, formula: &Formula) -> Result<Listings, Fail>
    requires { formula.now ≡ implied_one }
{
    let mut first = Log::new(alloc, formula);
    learn(&mut first)?;
    let mut second = Log::new(alloc, formula);
    teach(&mut second)?;
    proofs(alloc, formula, &[first, second])
}

/// How many lines the separate checker takes, up to one that it refuses.
fn taken(alloc: Global, formula: &Formula, proof: &Proof) -> Result<i64, Fail> {
    let mut checker = Checker::new(alloc, formula)?;
    let mut count = 0i64;
    for line in &proof.lines {
        if checker.line(line).is_err() {
            break;
        }
        count = count.saturating_add(1);
    }
    Ok(count)
}

/// The merged proof, what is needed of it for the literal 3, and that in one pass, each behind how many of its lines the
/// checker takes.
fn proofs_across(alloc: Global, formula: &Formula, logs: &[Log]) -> Result<Listings, Fail>
    requires formula { formula.now ≡ refuted }
    requires logs { logs.now ≡ across }
{
    let three = [Lit::new(3, true)];
    let proof = merge(alloc, formula, logs)?;
    let merged = checked_listing(alloc, formula, &proof)?;
    let trimmed = checked_listing(alloc, formula, &trim(alloc, formula, proof, &three)?)?;
    let needed = checked_listing(alloc, formula, &merge_needed(alloc, formula, logs, &three)?)?;
    Ok(Listings {
        merged,
        trimmed,
        needed,
    })
}

/// How many lines the checker takes, and the proof's listing.
fn checked_listing(alloc: Global, formula: &Formula, proof: &Proof) -> Result<Vec<i64>, Fail> {
    let mut numbers = Vec::new(alloc);
    numbers.push(taken(alloc, formula, proof)?)?;
    numbers.extend_from_slice(&listing(alloc, proof)?)?;
    Ok(numbers)
}

/// The proofs of two logs that take literals from each other, with entries of every kind.
fn proofs_of_refuted(alloc: Global, formula: &Formula) -> Result<Listings, Fail>
    requires { formula.now ≡ refuted }
{
    let mut first = Log::new(alloc, formula);
    search(&mut first)?;
    refute(&mut first)?;
    let mut second = Log::new(alloc, formula);
    help(&mut second)?;
    proofs_across(alloc, formula, &[first, second])
}

#[test]
fn logs_with_entries_of_every_kind_take_literals_from_each_other(
    rt: HostRuntime,
) -> Result<(), Fail> {
    let alloc = rt.alloc();
    let formula = refuted_formula(alloc)?;
    let found = proofs_of_refuted(alloc, &formula)?;
    let merged = [
        7, // lines are taken
        1, 0, 1, 2, 0, // 5: 1 by the first two clauses
        1, 0, 5, 0, // 6: the literal 1
        -2, 3, 0, 3, 6, 0, // 7: not both of 2 and -3
        1, 0, 1, 2, 0, // 8: 1 again
        3, 0, 6, 3, 0, // 9: 3 in the other log, by the literal 1 of this one
        2, 0, 6, 3, 4, 0, // 10: 2 there
        0, 6, 3, 4, 0, // 11: no model
    ];
    let kept = [
        4, // lines are taken
        1, 0, 1, 2, 0, // 5
        1, 0, 5, 0, // 6
        3, 0, 6, 3, 0, // 7
        0, 6, 3, 4, 0, // 8
    ];
    assert_eq!(rt; found.merged.as_slice(), merged.as_slice());
    assert_eq!(rt; found.trimmed.as_slice(), kept.as_slice());
    assert_eq!(rt; found.needed.as_slice(), kept.as_slice());
    Ok(())
}

#[test]
fn hints_to_an_import_lead_to_the_unit_of_another_log(rt: HostRuntime) -> Result<(), Fail> {
    let alloc = rt.alloc();
    let formula = example(alloc)?;
    let found = proofs_of_two(alloc, &formula)?;
    let lines = [
        1, 2, 0, 1, 0, // 3: by the first clause
        1, 0, 1, 2, 0, // 4: the literal 1
        1, 2, 0, 4, 0, // 5: by 4, where the log had its import
    ];
    assert_eq!(rt; found.merged.as_slice(), lines.as_slice());
    assert_eq!(rt; found.trimmed.as_slice(), [1, 0, 1, 2, 0].as_slice());
    assert_eq!(rt; found.needed.as_slice(), found.trimmed.as_slice());
    Ok(())
}
