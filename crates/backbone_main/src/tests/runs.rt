//! Runs with several workers, small budgets, choosers that answer anything, and long proofs.
ghost use Rattle.std.specs.Prelude.{◌≤◌};

use super::stand_ins::{How, Kind, Meeting};
use super::{NO_MODEL, desk_with, run_both, run_words};
use bone_desk::MemDesk;
use std::alloc::Global;
use std::process::Abort;
use std::sync::Arc;
use std::sync::atomic::AtomicU64;
use std::sync::atomic::Ordering::SeqCst;
use std::test::Fail;
use std::thread::Threads;
use worker_loop::NoGate;

/// Two of 33 variables are forced.
const TWO_FORCED: &[u8] = b"p cnf 33 2\n32 0\n-33 0\n";

const TWO_FORCED_ANSWER: &[u8] = b"s SATISFIABLE\nb 32\nb -33\nb 0\n";

/// Each assignment of three variables makes one of the clauses false.
pub const EIGHT: &[u8] =
    b"p cnf 3 8\n1 2 3 0\n1 2 -3 0\n1 -2 3 0\n1 -2 -3 0\n-1 2 3 0\n-1 2 -3 0\n-1 -2 3 0\n-1 -2 -3 0\n";

/// Variable 1, or those clauses over the others.
pub const LEADING: &[u8] =
    b"p cnf 4 8\n1 2 3 4 0\n1 2 3 -4 0\n1 2 -3 4 0\n1 2 -3 -4 0\n1 -2 3 4 0\n1 -2 3 -4 0\n1 -2 -3 4 0\n1 -2 -3 -4 0\n";

const LEADING_ANSWER: &[u8] = b"s SATISFIABLE\nb 1\nb 0\n";

#[test]
fn every_number_of_workers_and_every_seed_gives_the_same_bytes(
    rt: HostRuntime,
) -> Result<(), Fail> {
    let alloc = rt.alloc();
    for workers in ["--workers=1", "--workers=2", "--workers=16"] {
        for seed in ["--seed=0", "--seed=1", "--seed=2"] {
            let list = ["extract", workers, seed, "f"];
            for (number, desk) in run_both(&rt, alloc, &list, TWO_FORCED, 64)? {
                assert_eq!(rt; number, 10);
                assert_eq!(rt; desk.out_answer.as_slice(), TWO_FORCED_ANSWER);
            }
        }
    }
    Ok(())
}

#[test]
fn a_spent_budget_is_told_and_a_greater_one_answers(rt: HostRuntime) -> Result<(), Fail> {
    let alloc = rt.alloc();
    let rows: [(&[u8], &str, u8, &[u8]); 4] = [
        (EIGHT, "--budget=1", 31, b"s UNKNOWN\n"),
        (EIGHT, "--budget=864", 20, NO_MODEL),
        (LEADING, "--budget=1", 30, b"s PARTIAL\nu 1\nb 0\n"),
        (LEADING, "--budget=3240", 10, LEADING_ANSWER),
    ];
    for (text, budget, status, answer) in rows {
        for (number, desk) in run_both(&rt, alloc, &["extract", budget, "f"], text, 64)? {
            assert_eq!(rt; number, status, "{budget}");
            assert_eq!(rt; desk.out_answer.as_slice(), answer);
            assert!(rt; desk.out_notes.is_empty());
        }
    }
    Ok(())
}

/// The text is answered so by sixteen choosers that always pick this number, with one worker and with as many as the
/// words say, and all are dropped.
fn is_answered_by_stubborn<R: Abort + Threads + Sync>(
    rt: &R,
    alloc: Global,
    list: &[&str],
    text: &[u8],
    number: u32,
    answer: &[u8],
) -> Result<(), Fail> {
    let dropped = Arc::new(alloc, AtomicU64::new(0))?;
    let kind = Kind::Stubborn {
        number,
        dropped: dropped.clone()?,
    };
    for (how, count) in [(How::Served, 16), (How::Alone, 32)] {
        let mut desk = desk_with(alloc, text, 64, 0)?;
        let status = run_words(rt, alloc, list, &mut desk, &kind, &NoGate, how)?;
        assert_eq!(rt; (status, dropped.load(SeqCst)), (10, count));
        assert_eq!(rt; desk.out_answer.as_slice(), answer);
    }
    Ok(())
}

#[test]
fn choosers_that_answer_anything_change_no_byte_and_are_dropped(
    rt: HostRuntime,
) -> Result<(), Fail> {
    let alloc = rt.alloc();
    for number in [0, 1, u32::MAX] {
        let list = ["extract", "--budget=3240", "f"];
        is_answered_by_stubborn(&rt, alloc, &list, LEADING, number, LEADING_ANSWER)?;
    }
    for workers in ["--workers=1", "--workers=2", "--workers=16"] {
        let list = ["extract", workers, "f"];
        is_answered_by_stubborn(&rt, alloc, &list, TWO_FORCED, 0, TWO_FORCED_ANSWER)?;
    }
    Ok(())
}

#[test]
fn two_workers_run_beside_one_another(rt: HostRuntime) -> Result<(), Fail> {
    let alloc = rt.alloc();
    let list = ["extract", "--workers=2", "f"];
    let mut desk = desk_with(alloc, TWO_FORCED, 64, 0)?;
    let meeting = Meeting::new();
    let status = run_words(
        &rt,
        alloc,
        &list,
        &mut desk,
        &Kind::Mixed,
        &meeting,
        How::Served,
    )?;
    assert_eq!(rt; (status, meeting.missed.load(SeqCst)), (10, false));
    assert_eq!(rt; desk.out_answer.as_slice(), TWO_FORCED_ANSWER);
    Ok(())
}

/// Appends the clause of these literals.
fn push_clause(text: &mut Vec<u8>, numbers: &[i64]) -> Result<(), Fail> {
    let mut digits = itoa::Buffer::new();
    for number in numbers {
        text.extend_from_slice(digits.format(*number).as_bytes())?;
        text.push(b' ')?;
    }
    text.extend_from_slice(b"0\n")?;
    Ok(())
}

/// Each of so many pigeons sits in one of the holes, which are one fewer, and no two in the same.
fn pigeons(alloc: Global, header: &[u8], holes: u32) -> Result<Vec<u8>, Fail>
    requires { holes ≤ 9 }
{
    let mut text = header.to_vec(alloc)?;
    for pigeon in 0..=holes {
        let mut sits = Vec::new(alloc);
        for hole in 1..=holes {
            sits.push(i64::from(holes * pigeon + hole))?;
        }
        push_clause(&mut text, &sits)?;
    }
    for hole in 1..=holes {
        for second in 1..=holes {
            for first in 0..second {
                let apart = [
                    -i64::from(holes * first + hole),
                    -i64::from(holes * second + hole),
                ];
                push_clause(&mut text, &apart)?;
            }
        }
    }
    Ok(text)
}

#[test]
fn seven_pigeons_fit_no_six_holes(rt: HostRuntime) -> Result<(), Fail> {
    let alloc = rt.alloc();
    let mut desk = MemDesk::new(alloc, 64, 1000)?;
    desk.text = pigeons(alloc, b"p cnf 42 133\n", 6)?;
    let list = ["extract", "f"];
    let status = run_words(
        &rt,
        alloc,
        &list,
        &mut desk,
        &Kind::InOrder,
        &NoGate,
        How::Alone,
    )?;
    assert_eq!(rt; status, 20);
    assert_eq!(rt; desk.out_answer.as_slice(), NO_MODEL);

    let list = ["extract", "--budget=20000", "f"];
    let mut desk = MemDesk::new(alloc, 64, 1000)?;
    desk.text = pigeons(alloc, b"p cnf 56 204\n", 7)?;
    match run_words(
        &rt,
        alloc,
        &list,
        &mut desk,
        &Kind::InOrder,
        &NoGate,
        How::Alone,
    )? {
        20 => assert_eq!(rt; desk.out_answer.as_slice(), NO_MODEL),
        status => {
            assert_eq!(rt; status, 31);
            assert_eq!(rt; desk.out_answer.as_slice(), b"s UNKNOWN\n".as_slice());
        }
    }
    Ok(())
}
