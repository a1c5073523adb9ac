//! Command lines of every form, with what they ask for.
use crate::{Settings, WordsEnd, settings};
use std::alloc::Global;
use std::test::Fail;

/// What the words ask for, in a line.
fn told(alloc: Global, list: &[&str]) -> Result<String, Fail> {
    let mut words = Vec::new(alloc);
    for word in list {
        words.push(String::from_str(alloc, word)?)?;
    }
    line_of(alloc, settings(alloc, words.as_slice()))
}

/// The settings in a line: the command, its names and its numbers.
fn line_of(alloc: Global, found: Result<Settings, WordsEnd>) -> Result<String, Fail> {
    match found {
        Ok(
            Settings::Extract {
                text,
                proof,
                witness,
                workers,
                budget,
                seed,
            },
        ) => Ok(format!(in alloc; "{text:?} {proof:?} {witness:?} {workers} {budget} {seed}")?),
        Ok(
            Settings::Check {
                text,
                answer,
                proof,
                witness,
            },
        ) => Ok(format!(in alloc; "check {text:?} {answer:?} {proof:?} {witness:?}")?),
        Ok(
            Settings::Sample {
                vars,
                clauses,
                workers,
                budget,
                seed,
            },
        ) => Ok(format!(in alloc; "sample {vars} {clauses} {workers} {budget} {seed}")?),
        Err(end) => Ok(format!(in alloc; "{end}")?),
    }
}

#[test]
fn extract_takes_each_form(rt: HostRuntime) -> Result<(), Fail> {
    let rows: [(&[&str], &str); 31] = [
        (&["extract"], "\"\" None None 4 200000 0"),
        (&["extract", ""], "\"\" None None 4 200000 0"),
        (&["extract", "f"], "\"f\" None None 4 200000 0"),
        (&["extract", "-"], "\"-\" None None 4 200000 0"),
        (&["extract", "help"], "\"help\" None None 4 200000 0"),
        (&["extract", "--"], "\"\" None None 4 200000 0"),
        (&["extract", "f", "--"], "\"f\" None None 4 200000 0"),
        (&["extract", "--", "-f"], "\"-f\" None None 4 200000 0"),
        (
            &["extract", "--", "--help"],
            "\"--help\" None None 4 200000 0",
        ),
        (&["extract", "--workers", "3"], "\"\" None None 3 200000 0"),
        (
            &["extract", "--workers", "1", "f"],
            "\"f\" None None 1 200000 0",
        ),
        (
            &["extract", "f", "--workers", "16"],
            "\"f\" None None 16 200000 0",
        ),
        (&["extract", "--workers=3"], "\"\" None None 3 200000 0"),
        (&["extract", "--workers", "03"], "\"\" None None 3 200000 0"),
        (
            &["extract", "--workers", "+3", "4"],
            "\"4\" None None 3 200000 0",
        ),
        (&["extract", "--budget", "1"], "\"\" None None 4 1 0"),
        (
            &["extract", "f", "--budget=1099511627776"],
            "\"f\" None None 4 1099511627776 0",
        ),
        (&["extract", "--seed", "0"], "\"\" None None 4 200000 0"),
        (
            &[
                "extract",
                "--seed",
                "00000000000000000000000000000000007",
                "f",
            ],
            "\"f\" None None 4 200000 7",
        ),
        (
            &["extract", "--seed=18446744073709551615"],
            "\"\" None None 4 200000 18446744073709551615",
        ),
        (
            &["extract", "--proof", "p"],
            "\"\" Some(\"p\") None 4 200000 0",
        ),
        (
            &["extract", "f", "--proof=p"],
            "\"f\" Some(\"p\") None 4 200000 0",
        ),
        (
            &["extract", "--proof", ""],
            "\"\" Some(\"\") None 4 200000 0",
        ),
        (
            &["extract", "--proof=", "f"],
            "\"f\" Some(\"\") None 4 200000 0",
        ),
        (
            &["extract", "--proof", "-", "f"],
            "\"f\" Some(\"-\") None 4 200000 0",
        ),
        (
            &["extract", "--proof", "=p"],
            "\"\" Some(\"=p\") None 4 200000 0",
        ),
        (
            &["extract", "--proof=-p"],
            "\"\" Some(\"-p\") None 4 200000 0",
        ),
        (
            &["extract", "--proof=--help", "f"],
            "\"f\" Some(\"--help\") None 4 200000 0",
        ),
        (
            &["extract", "--witness", "w", "f"],
            "\"f\" None Some(\"w\") 4 200000 0",
        ),
        (
            &["extract", "f", "--witness=w"],
            "\"f\" None Some(\"w\") 4 200000 0",
        ),
        (
            &[
                "extract",
                "--seed",
                "2",
                "--witness",
                "w",
                "--budget=9",
                "f",
                "--proof",
                "p",
                "--workers",
                "8",
            ],
            "\"f\" Some(\"p\") Some(\"w\") 8 9 2",
        ),
    ];
    for (words, line) in rows {
        let found = told(rt.alloc(), words)?;
        assert_eq!(rt; found.as_str(), line, "{words:?}");
    }
    Ok(())
}

#[test]
fn check_and_sample_take_each_form(rt: HostRuntime) -> Result<(), Fail> {
    let rows: [(&[&str], &str); 8] = [
        (&["check", "f", "a", "p"], "check \"f\" \"a\" \"p\" None"),
        (
            &["check", "f", "a", "p", "w"],
            "check \"f\" \"a\" \"p\" Some(\"w\")",
        ),
        (
            &["check", "", "", "", ""],
            "check \"\" \"\" \"\" Some(\"\")",
        ),
        (
            &["check", "f", "--", "-a", "--help"],
            "check \"f\" \"-a\" \"--help\" None",
        ),
        (&["sample"], "sample 2000 6000 4 200000 0"),
        (
            &["sample", "--vars", "3", "--clauses", "1"],
            "sample 3 1 4 200000 0",
        ),
        (
            &["sample", "--clauses", "+0", "--vars=1048576"],
            "sample 1048576 0 4 200000 0",
        ),
        (
            &[
                "sample",
                "--clauses=2097152",
                "--seed",
                "7",
                "--workers",
                "2",
                "--budget",
                "05",
            ],
            "sample 2000 2097152 2 5 7",
        ),
    ];
    for (words, line) in rows {
        let found = told(rt.alloc(), words)?;
        assert_eq!(rt; found.as_str(), line, "{words:?}");
    }
    Ok(())
}

#[test]
fn other_words_have_no_settings(rt: HostRuntime) -> Result<(), Fail> {
    let lists: [&[&str]; 63] = [
        &[],
        &["Extract", "f"],
        &["extract ", "f"],
        &["", "f"],
        &["--help"],
        &["extract", "f", "g"],
        &["extract", "--", "f", "g"],
        &["extract", "f", "--", "g"],
        &["extract", "-f"],
        &["extract", "-1"],
        &["extract", "--text", "f"],
        &["extract", "-workers", "3"],
        &["extract", "--work", "3"],
        &["extract", "--workers3"],
        &["extract", "--help"],
        &["extract", "-h"],
        &["extract", "f", "--help"],
        &["extract", "--proof", "--help"],
        &["extract", "-V"],
        &["extract", "--version"],
        &["extract", "--workers"],
        &["extract", "--workers", ""],
        &["extract", "--workers="],
        &["extract", "--workers", "0"],
        &["extract", "--workers", "17"],
        &["extract", "--workers", "++3"],
        &["extract", "--workers=-3"],
        &["extract", "--workers", "3x"],
        &["extract", "--workers", "0x3"],
        &["extract", "--workers", "1_0"],
        &["extract", "--workers", "3.0"],
        &["extract", "--workers", "٣"],
        &["extract", "--workers", "3", "--workers", "3"],
        &["extract", "--budget", "0"],
        &["extract", "--budget", "1099511627777"],
        &["extract", "--budget=1", "--budget=1"],
        &["extract", "--seed", "18446744073709551616"],
        &["extract", "--seed", "-0"],
        &["extract", "--seed=-0"],
        &["extract", "--seed", "1", "--seed", "1"],
        &["extract", "--proof"],
        &["extract", "--proof", "-p"],
        &["extract", "--proof", "--"],
        &["extract", "--proof", "--", "f"],
        &["extract", "--proof", "--witness", "w"],
        &["extract", "--proof", "p", "--proof", "p"],
        &["extract", "--witness"],
        &["extract", "--witness=w", "--witness=w"],
        &["check"],
        &["check", "f"],
        &["check", "f", "a"],
        &["check", "f", "a", "p", "w", "x"],
        &["check", "f", "a", "p", "--workers", "3"],
        &["check", "f", "a", "p", "-w"],
        &["check", "--help"],
        &["sample", "f"],
        &["sample", "--vars", "2"],
        &["sample", "--vars", "1048577"],
        &["sample", "--clauses", "2097153"],
        &["sample", "--clauses=-0"],
        &["sample", "--workers", "0"],
        &["sample", "--proof", "p"],
        &["sample", "--help"],
    ];
    for words in lists {
        let found = told(rt.alloc(), words)?;
        assert_eq!(rt; found.as_str(), "the words have no meaning", "{words:?}");
    }
    Ok(())
}
