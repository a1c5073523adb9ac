//! Lines printed, read and written; what no clause says: that the calls find memory, and how many
//! writes a proof takes.
ghost use Rattle.std.specs.Prelude.{IfOk, All, IsTrue};
ghost use Rattle.lrat_lines.specs.Printed.{IsId, IsPrintable};

use crate::{Ids, Line, LineEnd, Proof, ProofEnd, print_line, read_line, write_proof};
use bone_desk::MemDesk;
use std::alloc::{AllocError, Global};
use std::test::Fail;

const TWO_LINES: &[u8] = b"3 1 0 1 2 0\n4 -2 1048576 0 3 0\n";

/// What threads may share, as each type of this crate.
fn shared<T: Send + Sync>(value: &T) -> &T {
    value
}

/// The line as numbers: its id, 0 or -1 for an addition or a deletion, and then its lists, each ended
/// by 0.
fn numbers(alloc: Global, line: &Line) -> Result<Vec<i64>, AllocError> {
    let mut all = Vec::new(alloc);
    match line {
        Line::Add { id, lits, hints } => {
            all.push(id.cast_signed())?;
            all.push(0)?;
            for lit in lits {
                all.push(i64::from(lit.number()))?;
            }
            push_ids(&mut all, hints)?;
        }
        Line::Delete { id, ids } => {
            all.push(id.cast_signed())?;
            all.push(-1)?;
            push_ids(&mut all, ids)?;
        }
    }
    Ok(all)
}

fn push_ids(all: &mut Vec<i64>, ids: &Ids) -> Result<(), AllocError> {
    all.push(0)?;
    for id in ids {
        all.push(id.cast_signed())?;
    }
    Ok(())
}

#[test]
fn lines_read_as_they_are_written(rt: HostRuntime) -> Result<(), Fail> {
    let alloc = rt.alloc();
    for (text, expected) in [
        (b"3 1 0 1 2 0".as_slice(), [3, 0, 1, 0, 1, 2].as_slice()),
        (b"5 d 1 2 0".as_slice(), [5, -1, 0, 1, 2].as_slice()),
        (b"2 0 1 0".as_slice(), [2, 0, 0, 1].as_slice()),
        (
            b"\t007  -00002\r0 01 000 ".as_slice(),
            [7, 0, -2, 0, 1].as_slice(),
        ),
        (b"1 d 0".as_slice(), [1, -1, 0].as_slice()),
        (
            b"9 1048576 -1048576 1 1 0 0".as_slice(),
            [9, 0, 1_048_576, -1_048_576, 1, 1, 0].as_slice(),
        ),
        (
            b"18446744073709551615 0 18446744073709551615 0".as_slice(),
            [-1, 0, 0, -1].as_slice(),
        ),
    ] {
        let line = read_line(alloc, text)?;
        assert_eq!(rt; numbers(alloc, shared(&line))?.as_slice(), expected);
    }
    Ok(())
}

#[test]
fn the_first_token_that_does_not_fit_decides(rt: HostRuntime) -> Result<(), Fail> {
    let alloc = rt.alloc();
    for (text, end) in [
        (b"3 1 0 -1 2 0".as_slice(), LineEnd::NegativeHint),
        (
            b"3 1 0 -99999999999999999999999 0".as_slice(),
            LineEnd::NegativeHint,
        ),
        (b"3 1 0 -0 -1 0".as_slice(), LineEnd::BadToken),
        (b"3 1 0 x -1 0".as_slice(), LineEnd::BadToken),
        (b"5 d -1 0".as_slice(), LineEnd::BadToken),
        (b"".as_slice(), LineEnd::NotEnded),
        (b" \t".as_slice(), LineEnd::NotEnded),
        (b"3".as_slice(), LineEnd::NotEnded),
        (b"3 1 0".as_slice(), LineEnd::NotEnded),
        (b"3 1 0 1 2".as_slice(), LineEnd::NotEnded),
        (b"3 d 1".as_slice(), LineEnd::NotEnded),
        (b"0 1 0 1 0".as_slice(), LineEnd::BadToken),
        (b"-3 1 0 1 0".as_slice(), LineEnd::BadToken),
        (b"18446744073709551616 0 1 0".as_slice(), LineEnd::BadToken),
        (b"3 1048577 0 1 0".as_slice(), LineEnd::BadToken),
        (b"3 -0 0 1 0".as_slice(), LineEnd::BadToken),
        (b"3 +1 0 1 0".as_slice(), LineEnd::BadToken),
        (b"3 1 d 0 1 0".as_slice(), LineEnd::BadToken),
        (b"3 1 0 1 2 0 0".as_slice(), LineEnd::BadToken),
        (b"d 1 0".as_slice(), LineEnd::BadToken),
    ] {
        match read_line(alloc, text) {
            Ok(_) => assert!(rt; false, "{text:?}"),
            Err(other) => assert_eq!(rt; other, end, "{text:?}"),
        }
    }
    Ok(())
}

/// Whether all ids of the line may be printed.
fn is_printable(line: &Line) -> bool
    ensures { IsTrue result → IsPrintable line.now }
{
    match line {
        Line::Add { id, hints, .. } => *id > 0 && are_ids(hints.as_slice()),
        Line::Delete { id, ids } => *id > 0 && are_ids(ids.as_slice()),
    }
}

fn are_ids(ids: &[u64]) -> bool
    ensures { IsTrue result → All IsId ids.now }
{
    ids.iter().all(|id| *id > 0)
}

#[test]
fn lines_print_in_one_spelling(rt: HostRuntime) -> Result<(), Fail> {
    let alloc = rt.alloc();
    for text in [
        b"3 1 0 1 2 0\n".as_slice(),
        b"5 d 1 2 0\n".as_slice(),
        b"2 0 1 0\n".as_slice(),
        b"18446744073709551615 -1048576 1 0 18446744073709551615 0\n".as_slice(),
        b"1 d 0\n".as_slice(),
    ] {
        let line = read_line(alloc, text)?;
        assert!(rt; is_printable(&line));
        let mut out = Vec::from_slice(alloc, b"before\n")?;
        print_line(&line, &mut out)?;
        let (front, printed) = out.as_slice().split_at(7);
        assert_eq!(rt; front, b"before\n".as_slice());
        assert_eq!(rt; printed, text);
    }
    Ok(())
}

/// The proof that a text writes, a line after another.
fn proof_of(alloc: Global, texts: &[&[u8]]) -> Result<Proof, Fail>
    ensures { IfOk result (λ proof. All IsPrintable proof) }
{
    let mut lines = Vec::new(alloc);
    for text in texts {
        let line = read_line(alloc, text)?;
        if is_printable(&line) {
            lines.push(line)?;
        }
    }
    Ok(Proof { lines })
}

#[test]
fn a_proof_is_written_in_few_pieces_or_up_to_a_fault(rt: HostRuntime) -> Result<(), Fail> {
    let alloc = rt.alloc();
    let proof = proof_of(alloc, &[b"3 1 0 1 2 0", b"4 -2 1048576 0 3 0"])?;
    assert_eq!(rt; shared(&proof).lines.len(), 2);
    for (piece, fail, end, given, calls) in [
        (100, 0, Ok(()), 31, 1),
        (7, 0, Ok(()), 31, 5),
        (7, 1, Err(ProofEnd::Fault), 0, 1),
        (7, 3, Err(ProofEnd::Fault), 14, 3),
    ] {
        let mut desk = MemDesk::new(alloc, piece, 100)?;
        desk.fail.push(fail)?;
        assert_eq!(rt; write_proof(alloc, &mut desk, &proof), end);
        assert_eq!(rt; desk.out_proof.as_slice(), &TWO_LINES[..given]);
        assert_eq!(rt; desk.calls, calls);
    }
    Ok(())
}
