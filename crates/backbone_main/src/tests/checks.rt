//! Checks of files that were written by hand, and of what extractions wrote.
ghost use Rattle.std.specs.Prelude.{◌≡◌, ◌≤◌, vec_len, IfOk};

use super::runs::{EIGHT, LEADING};
use super::stand_ins::{How, Kind};
use super::{CHAIN, run_words};
use bone_desk::{MemDesk, NamedDesk};
use std::alloc::{AllocError, Global};
use std::process::Abort;
use std::test::Fail;
use std::thread::Threads;
use worker_loop::NoGate;

/// The words for all four files.
const ALL: [&str; 5] = ["check", "f", "a", "p", "w"];

/// The words without a witness.
const NO_WITNESS: [&str; 4] = ["check", "f", "a", "p"];

/// A text, and what was written for it.
#[derive(Clone, Copy)]
struct Written<'a> {
    text: &'a [u8],
    answer: &'a [u8],
    proof: &'a [u8],
    witness: &'a [u8],
}

/// Right files. Variable 1 is forced, and no clause says so by itself.
const RIGHT: Written<'static> = Written {
    text: b"p cnf 2 2\n1 2 0\n1 -2 0\n",
    answer: b"s SATISFIABLE\nb 1\nb 0\n",
    proof: b"3 1 0 1 2 0\n",
    witness: b"m11\nd 2 0 1\n",
};

/// What a check of the files answers and leaves, where the call with this number fails.
fn run_check<R: Threads + Sync>(
    rt: &R,
    alloc: Global,
    list: &[&str],
    files: Written,
    piece: usize,
    fail: u64,
    how: How,
) -> Result<(u8, MemDesk), Fail>
    requires { 1 ≤ piece }
{
    let mut desk = MemDesk::new(alloc, piece, 1000)?;
    desk.text = files.text.to_vec(alloc)?;
    desk.answer = files.answer.to_vec(alloc)?;
    desk.proof = files.proof.to_vec(alloc)?;
    desk.witness = files.witness.to_vec(alloc)?;
    desk.fail.push(fail)?;
    let status = run_words(rt, alloc, list, &mut desk, &Kind::Mixed, &NoGate, how)?;
    Ok((status, desk))
}

/// The check answers so, in pieces of some sizes and by both calls, and writes nothing else.
fn is_told<R: Abort + Threads + Sync>(
    rt: &R,
    alloc: Global,
    list: &[&str],
    files: Written,
    status: u8,
    line: &[u8],
) -> Result<(), Fail> {
    for piece in [1, 5, 64] {
        for how in [How::Alone, How::Served] {
            let (number, desk) = run_check(rt, alloc, list, files, piece, 0, how)?;
            assert_eq!(rt; number, status, "{line:?}");
            assert_eq!(rt; desk.out_answer.as_slice(), line);
            assert!(rt; desk.out_proof.is_empty() && desk.out_witness.is_empty());
            assert!(rt; desk.out_notes.is_empty());
        }
    }
    Ok(())
}

#[test]
fn right_files_are_verified(rt: HostRuntime) -> Result<(), Fail> {
    is_told(&rt, rt.alloc(), &ALL, RIGHT, 0, b"verified\n")
}

#[test]
fn the_first_fault_of_a_proof_is_told_with_its_line(rt: HostRuntime) -> Result<(), Fail> {
    let rows: [(&[u8], &[u8]); 3] = [
        (b"3 1 0 2 0\n", b"not verified: NoConflict at 1\n"),
        (b"3 1 0 -1 2 0\n", b"not verified: NegativeHint at 1\n"),
        (b"c\n3 1 0 1 2 0\n3 1 0", b"not verified: NotEnded at 3\n"),
    ];
    for (proof, line) in rows {
        let files = Written { proof, ..RIGHT };
        is_told(&rt, rt.alloc(), &ALL, files, 1, line)?;
    }
    Ok(())
}

#[test]
fn the_first_fault_of_a_witness_is_told_with_its_place(rt: HostRuntime) -> Result<(), Fail> {
    let rows: [(&[u8], &[u8]); 3] = [
        (b"m11\n", b"not verified: NotCovered at 2\n"),
        (b"m01\nd 2 0 1\n", b"not verified: NotAModel at 1\n"),
        (b"", b"not verified: NoModel at 1\n"),
    ];
    for (witness, line) in rows {
        let files = Written { witness, ..RIGHT };
        is_told(&rt, rt.alloc(), &ALL, files, 1, line)?;
    }
    Ok(())
}

#[test]
fn the_first_fault_of_an_answer_is_told_with_its_line(rt: HostRuntime) -> Result<(), Fail> {
    let rows: [(&[u8], &[u8]); 3] = [
        (
            b"s SATISFIABLE\nb 2\nb 1\nb 0\n",
            b"not verified: NotSorted at 3\n",
        ),
        (b"s PARTIAL\nu 1\nb 0\n", b"not verified: Unfinished at 1\n"),
        (
            b"s SATISFIABLE\nb 1\nb 2\nb 0\n",
            b"not verified: NoUnit at 3\n",
        ),
    ];
    for (answer, line) in rows {
        let files = Written { answer, ..RIGHT };
        is_told(&rt, rt.alloc(), &ALL, files, 1, line)?;
    }
    Ok(())
}

#[test]
fn only_shown_literals_may_be_printed(rt: HostRuntime) -> Result<(), Fail> {
    let files = Written {
        text: b"p cnf 3 3\nc p show 2 3 0\n1 0\n-1 2 0\n2 3 0\n",
        answer: b"s SATISFIABLE\nb 2\nb 0\n",
        proof: b"4 2 0 1 2 0\n",
        witness: b"m111\nd 3 0 1\n",
    };
    is_told(&rt, rt.alloc(), &ALL, files, 0, b"verified\n")?;
    let more = Written {
        answer: b"s SATISFIABLE\nb 1\nb 2\nb 0\n",
        ..files
    };
    is_told(
        &rt,
        rt.alloc(),
        &ALL,
        more,
        1,
        b"not verified: NotShown at 2\n",
    )
}

#[test]
fn a_witness_that_is_not_named_is_left_alone(rt: HostRuntime) -> Result<(), Fail> {
    let alloc = rt.alloc();
    for how in [How::Alone, How::Served] {
        // Three openings, two reads of each of three feeds, and a write.
        let (status, desk) = run_check(&rt, alloc, &NO_WITNESS, RIGHT, 64, 0, how)?;
        assert_eq!(rt; (status, desk.calls, desk.at[3]), (1, 10, 0));
        assert_eq!(rt;
            desk.out_answer.as_slice(),
            b"not verified: NoModel at 1\n".as_slice()
        );
    }
    Ok(())
}

#[test]
fn each_fault_of_a_check_has_its_status_and_its_note(rt: HostRuntime) -> Result<(), Fail> {
    let alloc = rt.alloc();
    // Four openings, two reads of each feed, and a write.
    let rows: [(u64, u8, &[u8]); 11] = [
        (1, 62, b"error: open failed: text\n"),
        (2, 62, b"error: open failed: answer\n"),
        (3, 62, b"error: open failed: proof\n"),
        (4, 62, b"error: open failed: witness\n"),
        (5, 60, b"error: read failed: text\n"),
        (6, 60, b"error: read failed: text\n"),
        (7, 60, b"error: read failed: answer\n"),
        (9, 60, b"error: read failed: proof\n"),
        (10, 60, b"error: read failed: proof\n"),
        (12, 60, b"error: read failed: witness\n"),
        (13, 61, b"error: write failed: answer\n"),
    ];
    for (fail, status, note) in rows {
        for how in [How::Alone, How::Served] {
            let (number, desk) = run_check(&rt, alloc, &ALL, RIGHT, 64, fail, how)?;
            assert_eq!(rt; (number, desk.calls), (status, fail + 1));
            assert_eq!(rt; desk.out_notes.as_slice(), note);
            assert!(rt; desk.out_answer.is_empty());
        }
    }
    Ok(())
}

#[test]
fn a_write_fault_leaves_a_front_of_the_verdict(rt: HostRuntime) -> Result<(), Fail> {
    // Four openings; 23, 22, 12 and 12 bytes in pieces of 5 with an end each; then the writes.
    let (status, desk) = run_check(&rt, rt.alloc(), &ALL, RIGHT, 5, 26, How::Alone)?;
    assert_eq!(rt; status, 61);
    assert_eq!(rt; desk.out_answer.as_slice(), b"verif".as_slice());
    assert_eq!(rt;
        desk.out_notes.as_slice(),
        b"error: write failed: answer\n".as_slice()
    );
    Ok(())
}

#[test]
fn a_check_of_a_faulty_text_reads_no_other_feed(rt: HostRuntime) -> Result<(), Fail> {
    let files = Written {
        text: b"p cnf 2 1\n3 0\n",
        ..RIGHT
    };
    // Four openings, two reads, and the note.
    let (status, desk) = run_check(&rt, rt.alloc(), &ALL, files, 64, 0, How::Alone)?;
    assert_eq!(rt; (status, desk.calls), (50, 7));
    assert_eq!(rt;
        desk.out_notes.as_slice(),
        b"error: text kind 4 at byte 10\n".as_slice()
    );
    assert!(rt; desk.out_answer.is_empty());
    Ok(())
}

/// So many times this byte.
fn filled(alloc: Global, byte: u8, count: usize) -> Result<Vec<u8>, AllocError>
    ensures { IfOk result (λ v. vec_len v ≡ count) }
{
    vec![in alloc; byte; count]
}

#[test]
fn an_answer_of_more_than_two_to_the_27_bytes_is_too_long(rt: HostRuntime) -> Result<(), Fail> {
    let alloc = rt.alloc();
    let rows: [(usize, u8, &[u8], &[u8]); 2] = [
        (134_217_728, 1, b"not verified: BadLine at 1\n", b""),
        (134_217_729, 51, b"", b"error: answer too long\n"),
    ];
    for (count, status, line, note) in rows {
        let mut desk = MemDesk::new(alloc, 1_000_000, 1000)?;
        desk.text = RIGHT.text.to_vec(alloc)?;
        desk.answer = filled(alloc, b' ', count)?;
        let number = run_words(
            &rt,
            alloc,
            &ALL,
            &mut desk,
            &Kind::Mixed,
            &NoGate,
            How::Alone,
        )?;
        assert_eq!(rt; number, status);
        assert_eq!(rt; desk.out_answer.as_slice(), line);
        assert_eq!(rt; desk.out_notes.as_slice(), note);
    }
    Ok(())
}

/// An extraction answers so, and a check of what it wrote verifies it.
fn is_certified<R: Abort + Threads + Sync>(
    rt: &R,
    alloc: Global,
    text: &[u8],
    extract: &[&str],
    status: u8,
    check: &[&str],
    how: How,
) -> Result<(), Fail> {
    let mut desk = NamedDesk::new(alloc);
    desk.put("f", text)?;
    let number = run_words(rt, alloc, extract, &mut desk, &Kind::Mixed, &NoGate, how)?;
    assert_eq!(rt; number, status);
    let answer = desk.out_answer.clone()?;
    desk.put("a", &answer)?;
    desk.out_answer.clear();
    let number = run_words(rt, alloc, check, &mut desk, &Kind::Mixed, &NoGate, how)?;
    assert_eq!(rt; number, 0);
    assert_eq!(rt; desk.out_answer.as_slice(), b"verified\n".as_slice());
    assert!(rt; desk.out_notes.is_empty());
    Ok(())
}

#[test]
fn what_an_extraction_wrote_is_verified(rt: HostRuntime) -> Result<(), Fail> {
    let alloc = rt.alloc();
    let both = ["extract", "--proof=p", "--witness=w", "f"];
    let rows: [(&[u8], u8); 6] = [
        (RIGHT.text, 10),
        (CHAIN, 10),
        (LEADING, 10),
        (b"p cnf 0 0\n", 10),
        (b"p cnf 3 3\nc p show 2 3 0\n1 0\n-1 2 0\n2 3 0\n", 10),
        (EIGHT, 20),
    ];
    for how in [How::Alone, How::Served] {
        for (text, status) in rows {
            is_certified(&rt, alloc, text, &both, status, &ALL, how)?;
        }
        let proof = ["extract", "--proof=p", "f"];
        is_certified(&rt, alloc, b"p cnf 1 1\n0\n", &proof, 20, &NO_WITNESS, how)?;
    }
    Ok(())
}
