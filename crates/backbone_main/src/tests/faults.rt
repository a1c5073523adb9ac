//! Texts, words and desks at fault, and the notes on them.
ghost use Rattle.std.specs.Prelude.{◌≡◌, vec_len, IfOk};

use super::stand_ins::{How, Kind};
use super::{CHAIN, CHAIN_ANSWER, EMPTY_ANSWER, USAGE, run_both, run_text, run_words};
use bone_desk::MemDesk;
use std::alloc::{AllocError, Global};
use std::test::Fail;
use worker_loop::NoGate;

#[test]
fn each_faulty_text_is_refused_with_its_kind_and_place(rt: HostRuntime) -> Result<(), Fail> {
    let alloc = rt.alloc();
    let rows: [(&[u8], &[u8]); 10] = [
        (b"", b"error: text kind 1 at byte 0\n"),
        (b"p cnf 3\n", b"error: text kind 2 at byte 7\n"),
        (b"p cnf 2 1\n1 x 0\n", b"error: text kind 3 at byte 12\n"),
        (b"p cnf 2 1\n3 0\n", b"error: text kind 4 at byte 10\n"),
        (
            b"p cnf 2 2\n1 0\n2 0\n1 2 0\n",
            b"error: text kind 5 at byte 18\n",
        ),
        (b"p cnf 2 2\n1 2 0\n", b"error: text kind 6 at byte 16\n"),
        (
            b"p cnf 3 3\n1 0\n-1 2 0\n2 3\n",
            b"error: text kind 7 at byte 25\n",
        ),
        (b"p cnf 1048577 0\n", b"error: text kind 8 at byte 6\n"),
        (
            b"p cnf 2 1\nc p show 3 0\n1 2 0\n",
            b"error: text kind 9 at byte 19\n",
        ),
        (
            b"p cnf 2 1\nc p show 1\n1 2 0\n",
            b"error: text kind 9 at byte 20\n",
        ),
    ];
    for (text, note) in rows {
        for piece in [1, 5, 64] {
            for (number, desk) in run_both(&rt, alloc, &["extract", "f"], text, piece)? {
                assert_eq!(rt; number, 50);
                assert_eq!(rt; desk.out_notes.as_slice(), note);
                assert!(rt; desk.out_answer.is_empty());
            }
        }
    }
    Ok(())
}

#[test]
fn each_fault_has_its_status_and_its_note(rt: HostRuntime) -> Result<(), Fail> {
    let alloc = rt.alloc();
    // One open, seven reads of at most 5 of the 27 bytes, and then the writes.
    let rows: [(u64, u8, usize, &[u8]); 5] = [
        (1, 62, 0, b"error: open failed: text\n"),
        (2, 60, 0, b"error: read failed: text\n"),
        (8, 60, 0, b"error: read failed: text\n"),
        (9, 61, 0, b"error: write failed: answer\n"),
        (10, 61, 5, b"error: write failed: answer\n"),
    ];
    for (fail, status, given, note) in rows {
        for (number, desk) in [
            run_text(&rt, alloc, &["extract", "f"], CHAIN, 5, fail, How::Alone)?,
            run_text(&rt, alloc, &["extract", "f"], CHAIN, 5, fail, How::Served)?,
        ] {
            assert_eq!(rt; number, status);
            assert_eq!(rt; desk.out_answer.as_slice(), &CHAIN_ANSWER[..given]);
            assert_eq!(rt; desk.out_notes.as_slice(), note);
        }
    }
    Ok(())
}

#[test]
fn words_without_a_meaning_give_the_usage_alone(rt: HostRuntime) -> Result<(), Fail> {
    let alloc = rt.alloc();
    let lists: [&[&str]; 8] = [
        &[],
        &["extract", "a", "b"],
        &["extract", "--workers", "17", "f"],
        &["extract", "--help"],
        &["check", "f"],
        &["sample", "f"],
        &["sample", "--vars=2"],
        &["Extract", "f"],
    ];
    for list in lists {
        for (number, desk) in run_both(&rt, alloc, list, CHAIN, 64)? {
            assert_eq!(rt; number, 64);
            assert_eq!(rt; desk.out_notes.as_slice(), USAGE);
            assert_eq!(rt; desk.calls, 1);
            assert!(rt; desk.out_answer.is_empty());
        }
    }
    Ok(())
}

#[test]
fn a_fault_of_the_note_changes_no_status(rt: HostRuntime) -> Result<(), Fail> {
    let alloc = rt.alloc();
    let rows: [(&[&str], &[u8], u64, u8, &[u8]); 4] = [
        (&["extract", "f"], b"p cnf 3\n", 5, 50, b""),
        (&["extract", "f"], b"p cnf 3\n", 6, 50, b"error"),
        (&["check"], b"p cnf 3\n", 1, 64, b""),
        (&["check"], b"p cnf 3\n", 3, 64, b"usage: bac"),
    ];
    // One open, and three reads of at most 5 of the 8 bytes.
    for (list, text, fail, status, note) in rows {
        let (number, desk) = run_text(&rt, alloc, list, text, 5, fail, How::Alone)?;
        assert_eq!(rt; number, status);
        assert_eq!(rt; desk.out_notes.as_slice(), note);
        assert_eq!(rt;
            desk.faults,
            [0, 0, 0, 0, 0, 0, 0, 0, 0, 0, 0, 0, 0, 0, 0, 1]
        );
    }
    Ok(())
}

/// So many blanks.
fn blanks(alloc: Global, count: usize) -> Result<Vec<u8>, AllocError>
    ensures { IfOk result (λ v. vec_len v ≡ count) }
{
    vec![in alloc; b' '; count]
}

/// The header of the empty formula, with so many blanks behind it.
fn long_text(alloc: Global, count: usize) -> Result<Vec<u8>, AllocError> {
    let mut text = b"p cnf 0 0\n".to_vec(alloc)?;
    text.extend_from_slice(&blanks(alloc, count)?)?;
    Ok(text)
}

#[test]
fn two_to_the_27_bytes_are_read_and_one_more_is_too_long(rt: HostRuntime) -> Result<(), Fail> {
    let alloc = rt.alloc();
    let list = ["extract", "f"];
    let mut desk = MemDesk::new(alloc, 1_000_000, 1000)?;
    desk.text = long_text(alloc, 134_217_718)?;
    assert_eq!(rt; desk.text.len(), 134_217_728);
    assert_eq!(rt;
        run_words(
            &rt,
            alloc,
            &list,
            &mut desk,
            &Kind::Mixed,
            &NoGate,
            How::Alone
        )?,
        10
    );
    assert_eq!(rt; desk.out_answer.as_slice(), EMPTY_ANSWER);

    let mut desk = MemDesk::new(alloc, 1_000_000, 1000)?;
    desk.text = long_text(alloc, 134_217_719)?;
    assert_eq!(rt;
        run_words(
            &rt,
            alloc,
            &list,
            &mut desk,
            &Kind::Mixed,
            &NoGate,
            How::Alone
        )?,
        51
    );
    assert_eq!(rt;
        desk.out_notes.as_slice(),
        b"error: text too long\n".as_slice()
    );
    assert!(rt; desk.out_answer.is_empty());
    Ok(())
}
