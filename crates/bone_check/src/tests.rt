//! Files of small formulas, above all of `1 2`, `1 -2`, whose backbone is 1, with verdicts that were worked by hand, and
//! changed files against a plain program of the definition.

use crate::{CheckEnd, Reason, Verdict, check_all};
use bone_desk::{Feed, MemDesk};
use cnf_core::Formula;
use std::alloc::Global;
use std::test::Fail;

mod plain;

use plain::plain_verdict;

/// The clauses `1 2` and `1 -2`.
const NUMBERS: &[i32] = &[1, 2, 0, 1, -2, 0];

const ANSWER: &[u8] = b"s SATISFIABLE\nb 1\nb 0\n";

const PROOF: &[u8] = b"3 1 0 1 2 0\n";

const WITNESS: &[u8] = b"m11\nd 2 0 1\n";

/// What threads may share, as each type of this crate.
fn shared<T: Send + Sync>(value: &T) -> &T {
    value
}

/// A desk with these files.
fn desk_with(alloc: Global, answer: &[u8], proof: &[u8], witness: &[u8]) -> Result<MemDesk, Fail> {
    let mut desk = MemDesk::new(alloc, 7, 0)?;
    desk.answer.extend_from_slice(answer)?;
    desk.proof.extend_from_slice(proof)?;
    desk.witness.extend_from_slice(witness)?;
    Ok(desk)
}

/// The verdict over the formula of these numbers.
fn judged(
    alloc: Global,
    numbers: &[i32],
    files: (&[u8], &[u8], &[u8]),
    witness: bool,
) -> Result<Result<Verdict, CheckEnd>, Fail> {
    let formula = Formula::of_numbers(alloc, 2, numbers)?;
    let mut desk = desk_with(alloc, files.0, files.1, files.2)?;
    Ok(check_all(alloc, &formula, &mut desk, witness))
}

fn fails(reason: Reason, place: u64) -> Result<Verdict, CheckEnd> {
    Ok(Verdict::NotVerified { reason, place })
}

#[test]
fn right_files_are_verified(rt: HostRuntime) -> Result<(), Fail> {
    let alloc = rt.alloc();
    for proof in [
        PROOF,
        b"3 1 0 1 2 0".as_slice(),
        b"c by hand\n\n \t\r\n3 1 0 1 2 0\n",
        b"\t07  001 0 01 02 0 \n8 d 1 2 0\n  comment\n",
    ] {
        let verdict = judged(alloc, NUMBERS, (ANSWER, proof, WITNESS), true)?;
        assert_eq!(rt; verdict, Ok(Verdict::Verified), "{proof:?}");
    }
    assert_eq!(rt; *shared(&Verdict::Verified), Verdict::Verified);
    Ok(())
}

#[test]
fn each_reason_of_a_proof_comes_at_its_first_and_at_its_last_line(
    rt: HostRuntime,
) -> Result<(), Fail> {
    let alloc = rt.alloc();
    for (line, reason) in [
        (b"9 1 0 1 2 0x".as_slice(), Reason::BadToken),
        (b"9 1 0 1", Reason::NotEnded),
        (b"9 1 0 -1 2 0", Reason::NegativeHint),
        (b"2 1 0 1 2 0", Reason::IdNotRising),
        (b"9 3 0 1 2 0", Reason::VarRange),
        (b"9 d 7 0", Reason::UnknownHint),
        (b"9 0 1 0", Reason::NotUnit),
        (b"9 1 0 2 0", Reason::NoConflict),
    ] {
        let mut proof = line.to_vec(alloc)?;
        let verdict = judged(alloc, NUMBERS, (ANSWER, &proof, WITNESS), true)?;
        assert_eq!(rt; verdict, fails(reason, 1), "{line:?}");
        proof = b"3 1 0 1 2 0\nc\n\n".to_vec(alloc)?;
        proof.extend_from_slice(line)?;
        let verdict = judged(alloc, NUMBERS, (ANSWER, &proof, WITNESS), true)?;
        assert_eq!(rt; verdict, fails(reason, 4), "{line:?}");
    }
    Ok(())
}

#[test]
fn each_reason_of_an_answer_comes_at_its_first_and_at_its_last_line(
    rt: HostRuntime,
) -> Result<(), Fail> {
    let alloc = rt.alloc();
    for (answer, reason, place) in [
        (b"".as_slice(), Reason::BadLine, 1),
        (b"s SATISFIABLE\nb 1\nb 0\n\n", Reason::BadLine, 4),
        (b"s SATISFIABLE\nb 1\n", Reason::BadLine, 3),
        (b"s SATISFIABLE\nb 2\nb 1\nb 0\n", Reason::NotSorted, 3),
        (
            b"s SATISFIABLE\nb 1\nb 2\nb -2\nb 0\n",
            Reason::NotSorted,
            4,
        ),
        (b"s PARTIAL\nu 1\nb 0\n", Reason::Unfinished, 1),
        (b"s UNKNOWN\n", Reason::Unfinished, 1),
        (b"s SATISFIABLE\nb -1\nb 0\n", Reason::NoUnit, 2),
        (b"s SATISFIABLE\nb 1\nb 2\nb 0\n", Reason::NoUnit, 3),
        (b"s SATISFIABLE\nb 0\n", Reason::NotCovered, 1),
        (b"s UNSATISFIABLE\n", Reason::NoEmpty, 1),
    ] {
        let verdict = judged(alloc, NUMBERS, (answer, PROOF, WITNESS), true)?;
        assert_eq!(rt; verdict, fails(reason, place), "{answer:?}");
    }
    Ok(())
}

#[test]
fn each_reason_of_a_witness_comes_at_its_first_and_at_its_last_place(
    rt: HostRuntime,
) -> Result<(), Fail> {
    let alloc = rt.alloc();
    for (witness, reason, place) in [
        (b"".as_slice(), Reason::NoModel, 1),
        (b"m1\nm11\n", Reason::WitnessLine, 1),
        (b"m11\nd 2 0 1\nm11\n", Reason::WitnessLine, 3),
        (b"m01\nm11\nd 2 1 1\n", Reason::NotAModel, 1),
        (b"m11\nm10\nm00\nd 2 1 0\n", Reason::NotAModel, 3),
        (b"m11\nd 1 0 1\nd 2 0 1\n", Reason::NotAgainst, 2),
        (b"m11\nm10\nd 2 0 0\n", Reason::NotAgainst, 3),
        (b"m11\nm10\nd -2 1 0\n", Reason::NotAgainst, 3),
        (b"m11\n", Reason::NotCovered, 2),
    ] {
        let verdict = judged(alloc, NUMBERS, (ANSWER, PROOF, witness), true)?;
        assert_eq!(rt; verdict, fails(reason, place), "{witness:?}");
    }
    let unasked = judged(alloc, NUMBERS, (ANSWER, PROOF, WITNESS), false)?;
    assert_eq!(rt; unasked, fails(Reason::NoModel, 1));
    Ok(())
}

#[test]
fn the_last_drop_line_and_the_first_variable_are_told(rt: HostRuntime) -> Result<(), Fail> {
    let alloc = rt.alloc();
    let answer = b"s SATISFIABLE\nb 0\n".as_slice();
    for (witness, reason, place) in [
        (b"m11\nd 1 0 1\nd 2 0 0\n".as_slice(), Reason::NotAgainst, 3),
        (b"m11\nd 2 0 1\n", Reason::NotCovered, 1),
    ] {
        let verdict = judged(alloc, &[], (answer, b"", witness), true)?;
        assert_eq!(rt; verdict, fails(reason, place), "{witness:?}");
    }
    Ok(())
}

#[test]
fn an_unsatisfiable_answer_wants_the_empty_clause_and_no_witness(
    rt: HostRuntime,
) -> Result<(), Fail> {
    let alloc = rt.alloc();
    let answer = b"s UNSATISFIABLE\n".as_slice();
    let proof = b"3 0 1 2 0\n".as_slice();
    for (witness, verdict) in [
        (b"".as_slice(), Ok(Verdict::Verified)),
        (b"m11\n", fails(Reason::WitnessLine, 1)),
        (b"m11\nx\n", fails(Reason::WitnessLine, 2)),
    ] {
        let told = judged(alloc, &[1, 0, -1, 0], (answer, proof, witness), true)?;
        assert_eq!(rt; told, verdict, "{witness:?}");
    }
    Ok(())
}

#[test]
fn only_shown_variables_are_printed_and_covered(rt: HostRuntime) -> Result<(), Fail> {
    let alloc = rt.alloc();
    let mut formula = Formula::of_numbers(alloc, 2, NUMBERS)?;
    formula.restrict()?;
    let mut desk = desk_with(alloc, ANSWER, PROOF, WITNESS)?;
    let told = check_all(alloc, &formula, &mut desk, true);
    assert_eq!(rt; told, fails(Reason::NotShown, 2));
    let mut desk = desk_with(alloc, b"s SATISFIABLE\nb 0\n", b"", b"m11\n")?;
    let told = check_all(alloc, &formula, &mut desk, true);
    assert_eq!(rt; told, Ok(Verdict::Verified));
    formula.show(1);
    let mut desk = desk_with(alloc, b"s SATISFIABLE\nb 1\nb 2\nb 0\n", PROOF, WITNESS)?;
    let told = check_all(alloc, &formula, &mut desk, true);
    assert_eq!(rt; told, fails(Reason::NotShown, 3));
    Ok(())
}

#[test]
fn a_failed_read_is_told_by_its_feed(rt: HostRuntime) -> Result<(), Fail> {
    let alloc = rt.alloc();
    let formula = Formula::of_numbers(alloc, 2, NUMBERS)?;
    for (call, feed) in [
        (1, Feed::Answer),
        (5, Feed::Answer),
        (6, Feed::Proof),
        (9, Feed::Witness),
    ] {
        let mut desk = desk_with(alloc, ANSWER, PROOF, WITNESS)?;
        desk.fail.push(call)?;
        let told = check_all(alloc, &formula, &mut desk, true);
        assert_eq!(rt; told, Err(CheckEnd::Fault(feed)), "{call}");
    }
    Ok(())
}

/// A refutation of `1 2`, `1 -2`, `-1 2`, `-1 -2` as another program may write it, whose last line has this hint: ids
/// with gaps, deletions between, lines longer than what is read at once, gaps of each kind, and no line feed at the end.
fn foreign_proof(alloc: Global, hint: &[u8]) -> Result<Vec<u8>, Fail> {
    let mut text = b"c ".to_vec(alloc)?;
    for _ in 0..70_000_u32 {
        text.push(b'-')?;
    }
    text.extend_from_slice(b"\r\n \t\r\n7 1 0")?;
    for _ in 0..40_000_u32 {
        text.extend_from_slice(b" 1")?;
    }
    text.extend_from_slice(b" 2 0\r\n7 d 2 1 0\r\n")?;
    text.extend_from_slice(b"\t0009  -1 0\t3 4 0 \n  c 9 d 3 0\n9 d 4 0\n12 0 7 ")?;
    text.extend_from_slice(hint)?;
    text.extend_from_slice(b" 0")?;
    Ok(text)
}

#[test]
fn a_proof_of_another_program_is_taken_where_it_is_right(rt: HostRuntime) -> Result<(), Fail> {
    let alloc = rt.alloc();
    let numbers = [1, 2, 0, 1, -2, 0, -1, 2, 0, -1, -2, 0].as_slice();
    for (hint, verdict) in [
        (b"9".as_slice(), Ok(Verdict::Verified)),
        (b"3", fails(Reason::NoConflict, 8)),
        (b"4", fails(Reason::UnknownHint, 8)),
    ] {
        let proof = foreign_proof(alloc, hint)?;
        let told = judged(alloc, numbers, (b"s UNSATISFIABLE\n", &proof, b""), true)?;
        assert_eq!(rt; told, verdict, "{hint:?}");
    }
    Ok(())
}

/// Whether the verdict over the formula of these numbers is that of the plain program.
fn is_plain(alloc: Global, numbers: &[i32], files: (&[u8], &[u8], &[u8])) -> Result<bool, Fail> {
    let verdict = plain_verdict(alloc, 2, numbers, files)?;
    Ok(judged(alloc, numbers, files, true)? == Ok(verdict))
}

/// The files with this text in place of one of them.
fn with_text<'t>(
    files: (&'t [u8], &'t [u8], &'t [u8]),
    which: usize,
    text: &'t [u8],
) -> (&'t [u8], &'t [u8], &'t [u8]) {
    match which {
        0 => (text, files.1, files.2),
        1 => (files.0, text, files.2),
        _ => (files.0, files.1, text),
    }
}

#[test]
fn each_front_and_each_change_is_judged_as_the_definition_says(
    rt: HostRuntime,
) -> Result<(), Fail> {
    let alloc = rt.alloc();
    let refuted = (
        b"s UNSATISFIABLE\n".as_slice(),
        b"3 0 1 2 0\n".as_slice(),
        b"".as_slice(),
    );
    for (numbers, files) in [
        (
            NUMBERS,
            (ANSWER, b"3 1 0 1 2 0\n4 d 2 0\n".as_slice(), WITNESS),
        ),
        ([1, 0, -1, 0].as_slice(), refuted),
    ] {
        for (which, whole) in [files.0, files.1, files.2].into_iter().enumerate() {
            for end in 0..whole.len() {
                let changed = with_text(files, which, &whole[..end]);
                assert!(rt; is_plain(alloc, numbers, changed)?, "front {which} {end}");
            }
            let mut text = whole.to_vec(alloc)?;
            for place in 0..text.len() {
                for byte in *b"\0\t\n\r +-/0123:bcdmsu\xff" {
                    text[place] = byte;
                    let changed = with_text(files, which, &text);
                    assert!(rt;
                        is_plain(alloc, numbers, changed)?,
                        "{which} {place} {byte}"
                    );
                }
                text[place] = whole[place];
            }
        }
    }
    Ok(())
}
