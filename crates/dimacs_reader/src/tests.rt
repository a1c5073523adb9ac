//! Worked texts, cut in many ways; drawn ones against a plain reader; what no clause says of reading a
//! feed: how many reads it takes.
ghost use Rattle.std.specs.Prelude.{◌+◌, ◌^◌, ◌<◌, ◌≤◌, length};

use crate::{BadKind, ReadEnd, Scan, ScanEnd, TEXT_LIMIT, read_formula};
use bone_desk::MemDesk;
use cnf_core::Formula;
use std::alloc::{AllocError, Global};
use std::test::Fail;

mod drawn;
mod plain;

const CHAIN: &[u8] = b"p cnf 3 3\n1 0\n-1 2 0\n2 3 0\n";

// The numbers of a formula: each literal's, and a 0 behind each clause.
fn numbers(alloc: Global, formula: &Formula) -> Result<Vec<i32>, AllocError> {
    let mut all = Vec::new(alloc);
    for clause in formula.clauses() {
        for lit in &clause.lits {
            all.push(lit.number())?;
        }
        all.push(0)?;
    }
    Ok(all)
}

// Reads a text in pieces of this size.
fn read_in_pieces(alloc: Global, text: &[u8], size: usize) -> Result<Formula, ScanEnd>
    requires some { 0 < size }
    requires limit { length text.now ≤ 2 ^ 27 }
{
    let mut scan = Scan::new(alloc);
    let mut rest = text;
    while !rest.is_empty() {
        let (piece, behind) = rest.split_at(size.min(rest.len()));
        scan.feed(piece)?;
        rest = behind;
    }
    scan.finish()
}

// Reads a text cut in two.
fn read_cut(alloc: Global, front: &[u8], back: &[u8]) -> Result<Formula, ScanEnd>
    requires { length front.now + length back.now ≤ 2 ^ 27 }
{
    let mut scan = Scan::new(alloc);
    scan.feed(front)?;
    scan.feed(back)?;
    scan.finish()
}

// The same formula in the form of a collection's files, with carriage returns, and with show lines. With
// each goes which variables are shown.
const CHAINS: [(&[u8], [bool; 3]); 6] = [
    (CHAIN, [true; 3]),
    (
        b"c a sample\np cnf 3  3 \n 1 0\nc between\n -1 2 0\n 2 3 0\n%\n0\n\n",
        [true; 3],
    ),
    (b"p cnf 3 3\r\n1 0\r\n-1 2 0\r\n2 3 0\r\n", [true; 3]),
    (
        b"p cnf 3 3\nc p show 2 3 0\n1 0\n-1 2 0\n2 3 0\n",
        [false, true, true],
    ),
    (b"p cnf 3 3\nc p show 0\n1 0\n-1 2 0\n2 3 0\n", [false; 3]),
    (
        b"c p show 9\np cnf 3 3\n1 0\n-1\n c\tp  show 003 00\r\n2 0\n2 3 0\nc p show 1 1 0",
        [true, false, true],
    ),
];

// Which of three variables are shown.
fn shown(formula: &Formula) -> [bool; 3] {
    [
        formula.is_shown(1),
        formula.is_shown(2),
        formula.is_shown(3),
    ]
}

// A text with each kind of fault, and the fault's place.
const FAULTS: [(&[u8], BadKind, usize); 10] = [
    (b"p cnf 3 3\n1 0\n-1 2 0\n2 3\n", BadKind::Unended, 25),
    (b"p cnf 2 1\n3 0\n", BadKind::LiteralRange, 10),
    (b"p cnf 2 2\n1 0\n2 0\n1 2 0\n", BadKind::TooManyClauses, 18),
    (b"", BadKind::NoHeader, 0),
    (b"p cnf 3\n", BadKind::BadHeader, 7),
    (b"p cnf 2 1\n1 x 0\n", BadKind::BadNumber, 12),
    (b"p cnf 2 2\n1 2 0\n", BadKind::TooFewClauses, 16),
    (b"p cnf 1048577 0\n", BadKind::OverLimit, 6),
    (b"p cnf 2 1\nc p show 3 0\n1 2 0\n", BadKind::BadShow, 19),
    (b"p cnf 2 1\nc p show 1\n1 2 0\n", BadKind::BadShow, 20),
];

#[test]
fn each_cutting_in_two_gives_the_formula(rt: HostRuntime) -> Result<(), Fail> {
    let alloc = rt.alloc();
    for (text, marks) in CHAINS {
        for cut in 0..=text.len() {
            let formula = read_cut(alloc, &text[..cut], &text[cut..])?;
            assert_eq!(rt; formula.vars(), 3);
            assert_eq!(rt; shown(&formula), marks, "cut {cut}");
            assert_eq!(rt;
                numbers(alloc, &formula)?.as_slice(),
                [1, 0, -1, 2, 0, 2, 3, 0].as_slice(),
                "cut {cut}"
            );
        }
    }
    Ok(())
}

#[test]
fn each_cutting_in_two_gives_the_fault(rt: HostRuntime) -> Result<(), Fail> {
    let alloc = rt.alloc();
    for (text, kind, place) in FAULTS {
        let fault = ScanEnd::Bad {
            kind,
            place: place as u64,
        };
        for cut in 0..=text.len() {
            match read_cut(alloc, &text[..cut], &text[cut..]) {
                Ok(_) => assert!(rt; false, "cut {cut}"),
                Err(end) => assert_eq!(rt; end, fault, "cut {cut}"),
            }
        }
    }
    Ok(())
}

#[test]
fn pieces_of_one_byte_give_the_formula_or_the_fault(rt: HostRuntime) -> Result<(), Fail> {
    let alloc = rt.alloc();
    for (text, marks) in CHAINS {
        let formula = read_in_pieces(alloc, text, 1)?;
        assert_eq!(rt; shown(&formula), marks);
        assert_eq!(rt;
            numbers(alloc, &formula)?.as_slice(),
            [1, 0, -1, 2, 0, 2, 3, 0].as_slice()
        );
    }
    for (text, kind, place) in FAULTS {
        let place = place as u64;
        match read_in_pieces(alloc, text, 1) {
            Ok(_) => assert!(rt; false, "place {place}"),
            Err(end) => assert_eq!(rt; end, ScanEnd::Bad { kind, place }),
        }
    }
    Ok(())
}

#[test]
fn the_most_variables_are_no_fault(rt: HostRuntime) -> Result<(), Fail> {
    let alloc = rt.alloc();
    let formula = read_in_pieces(alloc, b"p cnf 1048576 0\n", 16)?;
    assert_eq!(rt; formula.vars(), 1_048_576);
    assert!(rt; formula.clauses().is_empty());
    Ok(())
}

// So many line feeds.
fn line_feeds(alloc: Global, count: usize) -> Result<Vec<u8>, AllocError> {
    vec![in alloc; b'\n'; count]
}

#[test]
fn a_feed_is_read_once_a_piece_and_once_at_its_end(rt: HostRuntime) -> Result<(), Fail> {
    let alloc = rt.alloc();
    for (piece, reads) in [(1, 28), (5, 7), (64, 2)] {
        let mut desk = MemDesk::new(alloc, piece, 0)?;
        desk.text = CHAIN.to_vec(alloc)?;
        let formula = read_formula(alloc, &mut desk)?;
        let chain = [1, 0, -1, 2, 0, 2, 3, 0];
        assert_eq!(rt;
            numbers(alloc, &formula)?.as_slice(),
            chain.as_slice(),
            "piece {piece}"
        );
        assert_eq!(rt; desk.calls, reads, "piece {piece}");
    }
    Ok(())
}

#[test]
fn a_failed_read_and_a_fault_give_no_formula(rt: HostRuntime) -> Result<(), Fail> {
    let alloc = rt.alloc();
    let bad = ReadEnd::Bad {
        kind: BadKind::LiteralRange,
        place: 10,
    };
    // The text is read to its end, in four calls, also past its fault.
    for (fail, end, calls) in [
        (1, ReadEnd::Fault, 1),
        (3, ReadEnd::Fault, 3),
        (4, ReadEnd::Fault, 4),
        (5, bad, 4),
    ] {
        let mut desk = MemDesk::new(alloc, 5, 0)?;
        desk.text = b"p cnf 2 1\n3 0\n".to_vec(alloc)?;
        desk.fail.push(fail)?;
        match read_formula(alloc, &mut desk) {
            Ok(_) => assert!(rt; false, "call {fail}"),
            Err(other) => assert_eq!(rt; other, end, "call {fail}"),
        }
        assert_eq!(rt; desk.calls, calls, "call {fail}");
    }
    Ok(())
}

#[test]
fn a_text_of_one_byte_past_the_limit_is_too_long(rt: HostRuntime) -> Result<(), Fail> {
    let alloc = rt.alloc();
    let nothing = ReadEnd::Bad {
        kind: BadKind::NoHeader,
        place: TEXT_LIMIT as u64,
    };
    for (length, end) in [(TEXT_LIMIT, nothing), (TEXT_LIMIT + 1, ReadEnd::TooLong)] {
        let mut desk = MemDesk::new(alloc, 65_536, 0)?;
        desk.text = line_feeds(alloc, length)?;
        match read_formula(alloc, &mut desk) {
            Ok(_) => assert!(rt; false, "length {length}"),
            Err(other) => assert_eq!(rt; other, end, "length {length}"),
        }
    }
    Ok(())
}
