//! Samples: formulas made from numbers, and what is told of their backbones.
ghost use Rattle.std.specs.Prelude.{◌≤◌};

use super::stand_ins::{How, Kind};
use super::{run_both, run_text, run_words};
use bone_desk::MemDesk;
use std::alloc::Global;
use std::process::Abort;
use std::sync::Arc;
use std::sync::atomic::AtomicU64;
use std::sync::atomic::Ordering::SeqCst;
use std::test::Fail;
use std::thread::Threads;
use worker_loop::NoGate;

// What the backbones are comes from two other programs, over the same formulas as another script makes them.
#[test]
fn a_sample_tells_how_large_its_backbone_is(rt: HostRuntime) -> Result<(), Fail> {
    let rows: [(&[&str], &[u8]); 5] = [
        (
            &["sample", "--vars=3", "--clauses=0", "--seed=5"],
            b"sample vars 3 clauses 0 seed 5\ns SATISFIABLE\nbackbone 0 of 3, 0 negative, sum 0\n",
        ),
        (
            &["sample", "--vars=3", "--clauses=1"],
            b"sample vars 3 clauses 1 seed 0\ns SATISFIABLE\nbackbone 0 of 3, 0 negative, sum 0\n",
        ),
        (
            &["sample", "--vars=3", "--clauses=20", "--seed=1"],
            b"sample vars 3 clauses 20 seed 1\ns SATISFIABLE\nbackbone 2 of 3, 1 negative, sum 5\n",
        ),
        (
            &["sample", "--vars=50", "--clauses=200", "--seed=3"],
            b"sample vars 50 clauses 200 seed 3\ns SATISFIABLE\nbackbone 4 of 50, 3 negative, sum 81\n",
        ),
        (
            &["sample", "--vars=20", "--clauses=90", "--seed=7"],
            b"sample vars 20 clauses 90 seed 7\ns SATISFIABLE\nbackbone 20 of 20, 13 negative, sum 210\n",
        ),
    ];
    for (list, answer) in rows {
        for (number, desk) in run_both(&rt, rt.alloc(), list, b"", 64)? {
            assert_eq!(rt; number, 0);
            assert_eq!(rt; desk.out_answer.as_slice(), answer);
            assert!(rt; desk.out_notes.is_empty());
        }
    }
    Ok(())
}

/// What is told of a sample of fifty variables at this status.
fn text_at(status: u8) -> &'static [u8] {
    match status {
        0 => {
            b"sample vars 50 clauses 200 seed 3\ns SATISFIABLE\nbackbone 4 of 50, 3 negative, sum 81\n"
        }
        30 => b"sample vars 50 clauses 200 seed 3\ns PARTIAL\n",
        31 => b"sample vars 50 clauses 200 seed 3\ns UNKNOWN\n",
        _ => b"",
    }
}

#[test]
fn a_spent_budget_is_told_without_a_summary(rt: HostRuntime) -> Result<(), Fail> {
    let rows = [
        ("--budget=1", false),
        ("--budget=5", true),
        ("--budget=25", true),
    ];
    for (budget, may_be_whole) in rows {
        let list = ["sample", "--vars=50", "--clauses=200", "--seed=3", budget];
        for (number, desk) in run_both(&rt, rt.alloc(), &list, b"", 64)? {
            assert!(rt; number != 0 || may_be_whole);
            assert_eq!(rt; desk.out_answer.as_slice(), text_at(number));
            assert!(rt; desk.out_notes.is_empty());
        }
    }
    Ok(())
}

#[test]
fn a_failed_write_leaves_a_front_of_the_text(rt: HostRuntime) -> Result<(), Fail> {
    let list = ["sample", "--vars=3", "--clauses=0", "--seed=5"];
    for (fail, given) in [(1, b"".as_slice()), (2, b"sampl"), (3, b"sample var")] {
        for how in [How::Alone, How::Served] {
            let (number, desk) = run_text(&rt, rt.alloc(), &list, b"", 5, fail, how)?;
            assert_eq!(rt; number, 61);
            assert_eq!(rt; desk.out_answer.as_slice(), given);
            assert_eq!(rt;
                desk.out_notes.as_slice(),
                b"error: write failed: answer\n".as_slice()
            );
        }
    }
    Ok(())
}

/// Runs a sample of 20,000 variables with four workers, of which the first counts how often it was asked.
fn run_large<R: Abort + Threads + Sync>(rt: &R, alloc: Global) -> Result<(), Fail> {
    let list = [
        "sample",
        "--vars=20000",
        "--clauses=40000",
        "--seed=7",
        "--workers=4",
    ];
    let asked = Arc::new(alloc, AtomicU64::new(0))?;
    let kind = Kind::Watched {
        asked: asked.clone()?,
    };
    let mut desk = MemDesk::new(alloc, 64, 1000)?;
    let status = run_words(rt, alloc, &list, &mut desk, &kind, &NoGate, How::Served)?;
    assert_eq!(rt; (status, asked.load(SeqCst) > 0), (0, true));
    assert_eq!(rt;
        desk.out_answer.as_slice(),
        b"sample vars 20000 clauses 40000 seed 7\ns SATISFIABLE\nbackbone 0 of 20000, 0 negative, sum 0\n".as_slice()
    );
    Ok(())
}

#[test]
fn a_large_sample_gives_the_same_lines_twice(rt: HostRuntime) -> Result<(), Fail> {
    run_large(&rt, rt.alloc())?;
    run_large(&rt, rt.alloc())
}
