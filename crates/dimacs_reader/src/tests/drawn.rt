//! Texts that are drawn, against the plain reader.
ghost use Rattle.std.specs.Prelude.{◌<◌, ◌≤◌, ◌^◌, length};

use super::plain::{Reading, plain_reading};
use super::{numbers, read_in_pieces};
use crate::{BadKind, ScanEnd};
use cnf_core::{Formula, NoMemory};
use std::alloc::{AllocError, Global};
use std::test::Fail;

// A row of numbers that looks like chance, the same on every run (Knuth's multiplier of 64 bits).
#[derive(Drop)]
struct Draws {
    state: u64,
}

impl Draws {
    // A number below this one.
    fn below(&mut self, count: usize) -> usize
        requires { 0 < count }
        ensures { result < count }
    {
        self.state = self
            .state
            .wrapping_mul(6_364_136_223_846_793_005)
            .wrapping_add(1_442_695_040_888_963_407);
        (self.state >> 33) as usize % count
    }

    fn pick<'a>(&mut self, words: &[&'a [u8]]) -> &'a [u8]
        requires { 0 < length words.now }
    {
        words[self.below(words.len())]
    }
}

const FRONTS: [&[u8]; 5] = [
    b"",
    b"c p cnf 9 9\n",
    b" \t\r\n\n",
    b"cc\n c\n",
    b"c p show 9\n",
];

const HEADERS: [&[u8]; 16] = [
    b"p cnf 2 2\n",
    b"p cnf 2 2\n",
    b"p cnf 3 1\n",
    b" p\tcnf 002 00003 \r\n",
    b"p cnf 0 2\n",
    b"p cnf 12 4",
    b"p cnf 2 2 2\n",
    b"p cnf 2\n",
    b"p\n",
    b"p cnf x 2\n",
    b"p cnf 2 -2\n",
    b"p cnf 1048577 x\n",
    b"p cnf 1 2097153\n",
    b"p cnf 4294967297 1\n",
    b"p cnff 1 1\n",
    b"q\n",
];

const TOKENS: [&[u8]; 22] = [
    b"1",
    b"-1",
    b"2",
    b"-2",
    b"0",
    b"0",
    b"0",
    b"00",
    b"1",
    b"-002",
    b"3",
    b"-0",
    b"+1",
    b"x",
    b"%",
    b"%0",
    b"c",
    b"-",
    b"--1",
    b"4294967297",
    b"18446744073709551617",
    b"1p",
];

const GAPS: [&[u8]; 6] = [b" ", b" ", b"\n", b"\r\n", b" \t ", b"\nc 1 0\n"];

// Show lines without a fault, and lines that almost are show lines.
const SHOWS: [&[u8]; 10] = [
    b"\nc p show 1 0\n",
    b"\nc p show 2 00 \r\n",
    b"\n c\tp\r show 002 1 0\n",
    b"\nc p show 0\n",
    b"\nc p shown 9 9\n",
    b"\nc p sho w 9\n",
    b"\ncp show 9\n",
    b"\nc pshow 9\n",
    b"\nc c p show 9\n",
    b"\nc p\n",
];

// A text of a front, a header, and some tokens. The literals of the first four come up most. Sometimes
// a line of those above stands among them, or the words of a show line.
fn draw(alloc: Global, draws: &mut Draws) -> Result<Vec<u8>, AllocError> {
    let mut text = draws.pick(&FRONTS).to_vec(alloc)?;
    text.extend_from_slice(draws.pick(&HEADERS))?;
    let kinds = 8 + draws.below(TOKENS.len() - 8);
    for _ in 0..draws.below(12) {
        text.extend_from_slice(draws.pick(&TOKENS[..kinds]))?;
        text.extend_from_slice(draws.pick(&GAPS))?;
        match draws.below(16) {
            0 => text.extend_from_slice(b"\nc p show ")?,
            1 | 2 => text.extend_from_slice(draws.pick(&SHOWS))?,
            _ => {}
        }
    }
    Ok(text)
}

// Whether both readers found the same.
fn agree(
    alloc: Global,
    scanned: Result<Formula, ScanEnd>,
    plain: Result<Reading, ScanEnd>,
) -> Result<bool, AllocError> {
    Ok(match (scanned, plain) {
        (Ok(formula), Ok(reading)) => {
            let same = numbers(alloc, &formula)?.as_slice() == reading.numbers.as_slice();
            let vars = formula.vars();
            let shown = (1..=vars).all(|var| formula.is_shown(var) == reading.shows(var));
            same && vars == reading.vars && shown
        }
        (Err(scan_end), Err(end)) => scan_end == end,
        _ => false,
    })
}

// The place of what a reading gives in a table of all its ends.
fn index_of(plain: &Result<Reading, ScanEnd>) -> usize
    ensures { result < 11 }
{
    match plain {
        Ok(_) => 0,
        Err(ScanEnd::Memory) => 10,
        Err(ScanEnd::Bad { kind, .. }) => match kind {
            BadKind::NoHeader => 1,
            BadKind::BadHeader => 2,
            BadKind::BadNumber => 3,
            BadKind::LiteralRange => 4,
            BadKind::TooManyClauses => 5,
            BadKind::TooFewClauses => 6,
            BadKind::Unended => 7,
            BadKind::OverLimit => 8,
            BadKind::BadShow => 9,
        },
    }
}

#[test]
fn drawn_texts_mean_what_the_plain_reader_says(rt: HostRuntime) -> Result<(), Fail> {
    let alloc = rt.alloc();
    let mut draws = Draws { state: 1 };
    let mut ends = [0_usize; 11];
    for round in 0..4000_usize {
        let text = draw(alloc, &mut draws)?;
        if text.len() > 1000 {
            continue;
        }
        let plain = plain_reading(alloc, &text);
        let end = index_of(&plain);
        ends[end] = ends[end].saturating_add(1);
        let scanned = read_in_pieces(alloc, &text, 1 + round % 7);
        assert!(rt; agree(alloc, scanned, plain)?, "round {round}");
    }
    // Formulas and each kind of fault came up.
    for (end, count) in ends[..10].iter().enumerate() {
        assert!(rt; *count > 10, "end {end}");
    }
    Ok(())
}
