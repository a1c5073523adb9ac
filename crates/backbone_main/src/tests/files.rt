//! Runs that write a proof and a witness to files.
ghost use Rattle.std.specs.Prelude.{◌≤◌};

use super::stand_ins::{How, Kind};
use super::{CHAIN, NO_MODEL, run_both, run_text, run_words};
use bone_desk::NamedDesk;
use cnf_core::{Formula, Lit};
use lrat_checker::Checker;
use lrat_lines::read_line;
use std::alloc::Global;
use std::test::Fail;
use worker_loop::NoGate;

/// The words for both files.
const BOTH: [&str; 4] = ["extract", "--proof=p", "--witness=w", "f"];

/// Variable 1 is forced, and no clause says so by itself.
const IMPLIED: &[u8] = b"p cnf 2 2\n1 2 0\n1 -2 0\n";

#[test]
fn a_witness_has_its_models_and_a_line_for_each_drop(rt: HostRuntime) -> Result<(), Fail> {
    let alloc = rt.alloc();
    let rows: [(&[u8], u8, &[u8]); 6] = [
        (b"p cnf 0 0\n", 10, b"m\n"),
        (IMPLIED, 10, b"m11\nd 2 0 1\n"),
        (CHAIN, 10, b"m111\nd 3 0 1\n"),
        (
            b"p cnf 3 3\nc p show 2 0\n1 0\n-1 2 0\n2 3 0\n",
            10,
            b"m111\n",
        ),
        (b"p cnf 1 2\n1 0\n-1 0\n", 20, b""),
        (b"p cnf 1 1\n0\n", 20, b""),
    ];
    for (text, status, witness) in rows {
        for (number, desk) in run_both(&rt, alloc, &["extract", "--witness", "w", "f"], text, 5)? {
            assert_eq!(rt; number, status);
            assert_eq!(rt; desk.out_witness.as_slice(), witness);
            assert!(rt; desk.out_proof.is_empty() && desk.out_notes.is_empty());
        }
    }
    Ok(())
}

/// The checker of the formula that has taken each line of the proof.
fn taken(alloc: Global, formula: &Formula, proof: &[u8]) -> Result<Checker, Fail> {
    let mut checker = Checker::new(alloc, formula)?;
    for line in proof.split(|byte| *byte == b'\n') {
        if !line.is_empty() && checker.line(&read_line(alloc, line)?).is_err() {
            return Err(Fail::from("a line of the proof is refused"));
        }
    }
    Ok(checker)
}

#[test]
fn the_proof_of_a_forced_literal_is_accepted(rt: HostRuntime) -> Result<(), Fail> {
    let alloc = rt.alloc();
    let formula = Formula::of_numbers(alloc, 2, &[1, 2, 0, 1, -2, 0])?;
    for (number, desk) in run_both(&rt, alloc, &BOTH, IMPLIED, 64)? {
        assert_eq!(rt; number, 10);
        assert_eq!(rt; desk.out_witness.as_slice(), b"m11\nd 2 0 1\n".as_slice());
        let checker = taken(alloc, &formula, &desk.out_proof)?;
        assert!(rt; checker.has_unit(Lit::new(1, true)));
    }
    Ok(())
}

#[test]
fn the_proof_that_there_is_no_model_is_accepted(rt: HostRuntime) -> Result<(), Fail> {
    let alloc = rt.alloc();
    let formula = Formula::of_numbers(alloc, 1, &[0])?;
    for (number, desk) in run_both(&rt, alloc, &BOTH, b"p cnf 1 1\n0\n", 64)? {
        assert_eq!(rt; number, 20);
        assert!(rt; taken(alloc, &formula, &desk.out_proof)?.has_empty());
        assert!(rt; desk.out_witness.is_empty());
    }
    Ok(())
}

#[test]
fn a_part_of_the_backbone_has_its_evidence(rt: HostRuntime) -> Result<(), Fail> {
    let alloc = rt.alloc();
    let list = ["extract", "--budget=1", "--proof=p", "--witness=w", "f"];
    for (number, desk) in run_both(&rt, alloc, &list, super::runs::LEADING, 64)? {
        assert_eq!(rt; number, 30);
        assert_eq!(rt;
            desk.out_answer.as_slice(),
            b"s PARTIAL\nu 1\nb 0\n".as_slice()
        );
        assert_eq!(rt;
            desk.out_witness.as_slice(),
            b"m1111\nd 2 0 1\nd 3 0 1\nd 4 0 1\n".as_slice()
        );
    }
    Ok(())
}

#[test]
fn openings_fail_in_their_order_and_nothing_is_written(rt: HostRuntime) -> Result<(), Fail> {
    let alloc = rt.alloc();
    let rows: [(u64, &[u8]); 3] = [
        (1, b"error: open failed: text\n"),
        (2, b"error: open failed: proof\n"),
        (3, b"error: open failed: witness\n"),
    ];
    for (fail, note) in rows {
        let (number, desk) = run_text(&rt, alloc, &BOTH, CHAIN, 64, fail, How::Alone)?;
        assert_eq!(rt; (number, desk.calls), (62, fail + 1));
        assert_eq!(rt; desk.out_notes.as_slice(), note);
        assert!(rt;
            desk.out_answer.is_empty() && desk.out_proof.is_empty() && desk.out_witness.is_empty()
        );
    }
    Ok(())
}

#[test]
fn a_write_fault_leaves_what_stands_behind_it_empty(rt: HostRuntime) -> Result<(), Fail> {
    let alloc = rt.alloc();
    // Three openings, and two reads, of which the second finds the end; then a write for each port.
    let rows: [(u64, &[u8], bool, bool); 3] = [
        (6, b"error: write failed: proof\n", false, false),
        (7, b"error: write failed: witness\n", true, false),
        (8, b"error: write failed: answer\n", true, true),
    ];
    for (fail, note, proof, witness) in rows {
        let (number, desk) = run_text(&rt, alloc, &BOTH, CHAIN, 64, fail, How::Alone)?;
        assert_eq!(rt; number, 61);
        assert_eq!(rt; desk.out_notes.as_slice(), note);
        assert_eq!(rt; desk.out_proof.is_empty(), !proof);
        assert_eq!(rt; desk.out_witness.is_empty(), !witness);
        assert!(rt; desk.out_answer.is_empty());
    }
    Ok(())
}

// No clause names the names of files: a body that opens others is proved, and writes elsewhere here.
#[test]
fn the_files_have_the_names_that_are_given(rt: HostRuntime) -> Result<(), Fail> {
    let alloc = rt.alloc();
    let mut desk = NamedDesk::new(alloc);
    desk.put("f", b"p cnf 1 2\n1 0\n-1 0\n")?;
    let list = ["extract", "--witness=models", "f", "--proof", "lines"];
    let status = run_words(
        &rt,
        alloc,
        &list,
        &mut desk,
        &Kind::Mixed,
        &NoGate,
        How::Alone,
    )?;
    assert_eq!(rt; status, 20);
    assert_eq!(rt; desk.out_answer.as_slice(), NO_MODEL);
    assert!(rt; desk.text("models").is_some_and(|text| text.is_empty()));
    assert!(rt; desk.text("lines").is_some_and(|text| !text.is_empty()));
    Ok(())
}
