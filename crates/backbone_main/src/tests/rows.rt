//! Worked texts and what is written of them.
use super::stand_ins::{How, Kind};
use super::{CHAIN, CHAIN_ANSWER, EMPTY_ANSWER, NO_MODEL, run_both, run_words};
use bone_desk::NamedDesk;
use std::alloc::Global;
use std::process::Abort;
use std::test::Fail;
use std::thread::Threads;
use worker_loop::NoGate;

/// The text is answered so, in pieces of some sizes, with one worker and with four.
fn is_answered<R: Abort + Threads + Sync>(
    rt: &R,
    alloc: Global,
    text: &[u8],
    status: u8,
    answer: &[u8],
) -> Result<(), Fail> {
    for piece in [1, 5, 64] {
        for (number, desk) in run_both(rt, alloc, &["extract", "f"], text, piece)? {
            assert_eq!(rt; number, status);
            assert_eq!(rt; desk.out_answer.as_slice(), answer);
            assert!(rt; desk.out_proof.is_empty() && desk.out_witness.is_empty());
            assert!(rt; desk.out_notes.is_empty());
        }
    }
    Ok(())
}

#[test]
fn each_text_gives_its_answer_in_pieces_of_any_size(rt: HostRuntime) -> Result<(), Fail> {
    let rows: [(&[u8], u8, &[u8]); 14] = [
        (CHAIN, 10, CHAIN_ANSWER),
        (b"p cnf 0 0\n", 10, EMPTY_ANSWER),
        (b"p cnf 1 2\n1 0\n-1 0\n", 20, NO_MODEL),
        (b"p cnf 1 1\n0\n", 20, NO_MODEL),
        (
            b"p cnf 2 2\n1 2 0\n1 -2 0\n",
            10,
            b"s SATISFIABLE\nb 1\nb 0\n",
        ),
        (b"p cnf 2 1\n1 2 0\n", 10, EMPTY_ANSWER),
        (b"p cnf 3 1\n1 -1 0\n", 10, EMPTY_ANSWER),
        (b"p cnf 2 1\n2 2 0\n", 10, b"s SATISFIABLE\nb 2\nb 0\n"),
        (
            b"p cnf 33 2\n32 0\n-33 0\n",
            10,
            b"s SATISFIABLE\nb 32\nb -33\nb 0\n",
        ),
        (
            b"p cnf 12 2\n-12 0\n12 -3 0\n",
            10,
            b"s SATISFIABLE\nb -3\nb -12\nb 0\n",
        ),
        (
            b"c a sample\np cnf 3  3 \n 1 0\nc between\n -1 2 0\n 2 3 0\n%\n0\n\n",
            10,
            CHAIN_ANSWER,
        ),
        (b"p cnf 3 3\r\n1 0\r\n-1 2 0\r\n2 3 0\r\n", 10, CHAIN_ANSWER),
        (b"c x\np cnf 0 0\n", 10, EMPTY_ANSWER),
        (b"p cnf 0 1\n0\n", 20, NO_MODEL),
    ];
    for (text, status, answer) in rows {
        is_answered(&rt, rt.alloc(), text, status, answer)?;
    }
    Ok(())
}

#[test]
fn the_answer_names_shown_variables_alone(rt: HostRuntime) -> Result<(), Fail> {
    let rows: [(&[u8], &[u8]); 3] = [
        (
            b"p cnf 3 3\nc p show 2 3 0\n1 0\n-1 2 0\n2 3 0\n",
            b"s SATISFIABLE\nb 2\nb 0\n",
        ),
        (b"p cnf 3 3\nc p show 0\n1 0\n-1 2 0\n2 3 0\n", EMPTY_ANSWER),
        // Before the header such a line is a comment.
        (
            b"c p show 2 3 0\np cnf 3 3\n1 0\n-1 2 0\n2 3 0\n",
            CHAIN_ANSWER,
        ),
    ];
    for (text, answer) in rows {
        is_answered(&rt, rt.alloc(), text, 10, answer)?;
    }
    Ok(())
}

#[test]
fn the_most_variables_without_a_clause_have_no_backbone(rt: HostRuntime) -> Result<(), Fail> {
    let alloc = rt.alloc();
    for (number, desk) in run_both(&rt, alloc, &["extract", "f"], b"p cnf 1048576 0\n", 64)? {
        assert_eq!(rt; number, 10);
        assert_eq!(rt; desk.out_answer.as_slice(), EMPTY_ANSWER);
    }
    Ok(())
}

// No clause names the text's name: a body that opens the empty name for every word is proved, and answers
// the typed text here.
#[test]
fn the_text_of_the_given_name_is_read_and_no_other(rt: HostRuntime) -> Result<(), Fail> {
    let alloc = rt.alloc();
    let rows: [(&[&str], u8, &[u8]); 6] = [
        (&["extract", "a"], 10, CHAIN_ANSWER),
        (&["extract", "b"], 20, NO_MODEL),
        (&["extract"], 10, EMPTY_ANSWER),
        (&["extract", ""], 10, EMPTY_ANSWER),
        (&["extract", "c"], 62, b""),
        (
            &[
                "extract",
                "--seed=1",
                "--workers",
                "16",
                "a",
                "--budget",
                "9",
            ],
            10,
            CHAIN_ANSWER,
        ),
    ];
    for (list, status, answer) in rows {
        let mut desk = NamedDesk::new(alloc);
        desk.put("a", CHAIN)?;
        desk.put("b", b"p cnf 1 1\n0\n")?;
        desk.input = b"p cnf 0 0\n".to_vec(alloc)?;
        let number = run_words(
            &rt,
            alloc,
            list,
            &mut desk,
            &Kind::Mixed,
            &NoGate,
            How::Alone,
        )?;
        assert_eq!(rt; number, status, "{list:?}");
        assert_eq!(rt; desk.out_answer.as_slice(), answer, "{list:?}");
    }
    Ok(())
}
