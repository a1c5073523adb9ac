//! Answers that are read back: worked texts, and every front and every changed byte of small ones against a plain
//! program.
ghost use Rattle.std.specs.Prelude.{◌≤◌, ◌<◌, ◌^◌};

use crate::{AnswerEnd, read_answer};
use bone_desk::MemDesk;
use std::alloc::{AllocError, Global};
use std::test::Fail;

/// How the reading of a text ends, in pieces of so many bytes; none where it is an answer.
fn end_of(alloc: Global, text: &[u8], piece: usize) -> Result<Option<AnswerEnd>, Fail>
    requires { 0 < piece }
{
    let mut desk = MemDesk::new(alloc, piece, 0)?;
    desk.answer = Vec::from_slice(alloc, text)?;
    match read_answer(alloc, &mut desk, 12) {
        Ok(_) => Ok(None),
        Err(end) => Ok(Some(end)),
    }
}

const GOOD: [&[u8]; 6] = [
    b"s UNSATISFIABLE\n",
    b"s SATISFIABLE\nb 0\n",
    b"s SATISFIABLE\nb 1\nb -2\nb 12\nb 0\n",
    b"s PARTIAL\nb 2\nu -1\nu 3\nb 0\n",
    b"s PARTIAL\nu 12\nb 0\n",
    b"s UNKNOWN\n",
];

const BAD: [(&[u8], u64); 16] = [
    (b"", 1),
    (b"s UNSATISFIABLE", 1),
    (b"s UNSATISFIABLE\nb 0\n", 2),
    (b"s SATISFIABLE\n", 2),
    (b"s SATISFIABLE\nb 1\n", 3),
    (b"s SATISFIABLE\nb 1\nb 0", 3),
    (b"s SATISFIABLE\nb 0\n\n", 3),
    (b"s SATISFIABLE\nu 1\nb 0\n", 2),
    (b"s SATISFIABLE\nb 13\nb 0\n", 2),
    (b"s SATISFIABLE\nb 01\nb 0\n", 2),
    (b"s SATISFIABLE\nb +1\nb 0\n", 2),
    (b"s SATISFIABLE\nb -0\nb 0\n", 2),
    (b"s SATISFIABLE\nb 4294967297\nb 0\n", 2),
    (b"s PARTIAL\nu 1\nb 2\nb 0\n", 3),
    (b"s PARTIAL\nb 2\nb 4\nu 5\nu -2\nb 0\n", 5),
    (b"s UNKNOWN\r\n", 1),
];

const UNSORTED: [(&[u8], u64); 4] = [
    (b"s SATISFIABLE\nb 2\nb 1\nb 0\n", 3),
    (b"s SATISFIABLE\nb 2\nb -2\nb 0\n", 3),
    (b"s PARTIAL\nb 5\nu 3\nu 3\nb 0\n", 4),
    (b"s PARTIAL\nb 2\nb 1\nx\n", 3),
];

#[test]
fn answers_are_read_and_the_first_line_at_fault_is_named(rt: HostRuntime) -> Result<(), Fail> {
    let alloc = rt.alloc();
    for piece in [1, 7, 100] {
        for text in GOOD {
            assert_eq!(rt; end_of(alloc, text, piece)?, None);
        }
        for (text, line) in BAD {
            assert_eq!(rt; end_of(alloc, text, piece)?, Some(AnswerEnd::BadLine(line)));
        }
        for (text, line) in UNSORTED {
            assert_eq!(rt;
                end_of(alloc, text, piece)?,
                Some(AnswerEnd::NotSorted(line))
            );
        }
    }
    Ok(())
}

#[test]
fn a_failed_read_comes_before_a_bad_line(rt: HostRuntime) -> Result<(), Fail> {
    let alloc = rt.alloc();
    let mut desk = MemDesk::new(alloc, 5, 0)?;
    desk.answer = Vec::from_slice(alloc, b"x\nb 0\nb 0\n")?;
    desk.fail.push(3)?;
    let failed = match read_answer(alloc, &mut desk, 12) {
        Err(AnswerEnd::Fault) => true,
        _ => false,
    };
    assert!(rt; failed);
    Ok(())
}

/// The words of a literal with a variable from 1 to 12: each is tried.
const NUMBERS: [&[u8]; 24] = [
    b"1", b"-1", b"2", b"-2", b"3", b"-3", b"4", b"-4", b"5", b"-5", b"6", b"-6", b"7", b"-7",
    b"8", b"-8", b"9", b"-9", b"10", b"-10", b"11", b"-11", b"12", b"-12",
];

/// The variable of a line with this letter; 0 where it is none.
fn named(line: &[u8], letter: u8) -> usize {
    for (i, number) in NUMBERS.iter().enumerate() {
        if line.len() == number.len() + 3
            && line[0] == letter
            && line[1] == b' '
            && &line[2..line.len() - 1] == *number
            && line[line.len() - 1] == b'\n'
        {
            return i / 2 + 1;
        }
    }
    0
}

/// Where a plain reading stands.
#[derive(Clone, Copy, PartialEq, Eq)]
enum Place {
    Verdict,
    Backbone,
    Fixed,
    Still,
    Over,
}

/// What a plain reading knows: where it stands, which variables are fixed, and the last one of the group.
#[derive(Drop)]
struct Plain {
    place: Place,
    fixed: [bool; 13],
    last: usize,
}

/// A line is good, bad or not sorted.
#[derive(Clone, Copy, PartialEq, Eq)]
enum Judged {
    Good,
    Bad,
    NotSorted,
}

impl Plain {
    fn verdict(&mut self, line: &[u8]) -> Judged {
        let place = if line == b"s UNSATISFIABLE\n".as_slice()
            || line == b"s UNKNOWN\n".as_slice()
        {
            Place::Over
        } else if line == b"s SATISFIABLE\n".as_slice() {
            Place::Backbone
        } else if line == b"s PARTIAL\n".as_slice() {
            Place::Fixed
        } else {
            return Judged::Bad;
        };
        self.place = place;
        Judged::Good
    }

    fn literal(&mut self, line: &[u8]) -> Judged {
        let fixed = named(line, b'b');
        let still = named(line, b'u');
        if self.place != Place::Still && 0 < fixed && fixed < 13 {
            if fixed <= self.last {
                return Judged::NotSorted;
            }
            self.fixed[fixed] = true;
            self.last = fixed;
            return Judged::Good;
        }
        if self.place == Place::Backbone || still == 0 || 13 <= still || self.fixed[still] {
            return Judged::Bad;
        }
        if self.place == Place::Still && still <= self.last {
            return Judged::NotSorted;
        }
        self.place = Place::Still;
        self.last = still;
        Judged::Good
    }

    fn line(&mut self, line: &[u8]) -> Judged {
        match self.place {
            Place::Verdict => self.verdict(line),
            Place::Over => Judged::Bad,
            Place::Backbone | Place::Fixed | Place::Still => {
                if line == b"b 0\n".as_slice() {
                    self.place = Place::Over;
                    return Judged::Good;
                }
                self.literal(line)
            }
        }
    }
}

/// How the reading of a text ends by the definition.
fn plain_end(text: &[u8]) -> Option<AnswerEnd> {
    let mut plain = Plain {
        place: Place::Verdict,
        fixed: [false; 13],
        last: 0,
    };
    let mut count = 0_u64;
    let mut from = 0;
    for (i, byte) in text.iter().enumerate() {
        if *byte == b'\n' || i + 1 == text.len() {
            count = count.saturating_add(1);
            match plain.line(&text[from..i + 1]) {
                Judged::Good => {}
                Judged::Bad => return Some(AnswerEnd::BadLine(count)),
                Judged::NotSorted => return Some(AnswerEnd::NotSorted(count)),
            }
            from = i + 1;
        }
    }
    if plain.place == Place::Over {
        return None;
    }
    Some(AnswerEnd::BadLine(count.saturating_add(1)))
}

/// The text with one byte changed.
fn changed(alloc: Global, text: &[u8], at: usize, byte: u8) -> Result<Vec<u8>, AllocError> {
    let mut other = Vec::from_slice(alloc, text)?;
    if at < other.len() {
        other[at] = byte;
    }
    Ok(other)
}

#[test]
fn every_front_and_every_changed_byte_is_judged_as_by_the_definition(
    rt: HostRuntime,
) -> Result<(), Fail> {
    let alloc = rt.alloc();
    for text in GOOD {
        for (at, old) in text.iter().enumerate() {
            assert_eq!(rt; end_of(alloc, &text[..at], 5)?, plain_end(&text[..at]));
            for byte in [
                b'\n',
                b' ',
                b'-',
                b'0',
                b'1',
                b'2',
                b'9',
                b'b',
                b'u',
                b's',
                b'c',
                old ^ 1,
            ] {
                let other = changed(alloc, text, at, byte)?;
                assert_eq!(rt; end_of(alloc, &other, 5)?, plain_end(&other));
            }
        }
    }
    Ok(())
}
