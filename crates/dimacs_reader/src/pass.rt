ghost use Rattle.std.specs.Prelude.{◌≡◌, ◌^◌, ◌+◌, ◌<◌, ◌≤◌, length, IfOk, OnOk};
ghost use Rattle.dimacs_reader.specs.Scans.{Gives};
ghost use Rattle.dimacs_reader.specs.Steps.Machine.{scan_of, fresh_scan, flushed_at, after_byte};
ghost use Rattle.dimacs_reader.specs.Steps.Machine.{after_bytes, outcome};
ghost use Rattle.dimacs_reader.specs.Steps.Words.{byte_after};
ghost use Rattle.dimacs_reader.specs.declared.word.Word.TheVariants.{Nothing};

use crate::ScanEnd;
use crate::course::Course;
use crate::word::Word;
use cnf_core::{Formula, NoMemory};
use std::alloc::Global;
use std::marker::Model;

/// How many bytes of a text were read, and the token among them that isn't over: where it began, or
/// where one can begin, and what its bytes are.
#[derive(Clone, Copy, Debug, PartialEq, Eq)]
pub struct Mark {
    place: u64,
    start: u64,
    word: Word,
}

impl Mark {
    /// Behind one byte more, of a token.
    fn with(self, byte: u8) -> Mark
        requires { self.place < 2 ^ 63 }
        ensures { result
            ≡ record { place = self.place + 1; start = self.start; word = byte_after self.word byte } }
    {
        Mark {
            place: self.place + 1,
            start: self.start,
            word: self.word.with(byte),
        }
    }

    /// Behind one byte more, where no token is open.
    fn behind(self) -> Mark
        requires { self.place < 2 ^ 63 }
        ensures { result
            ≡ record { place = self.place + 1; start = self.place + 1; word = Nothing } }
    {
        Mark {
            place: self.place + 1,
            start: self.place + 1,
            word: Word::Nothing,
        }
    }
}

/// A text read so far: how far, and what the tokens that are over led to. Of the text's bytes it keeps
/// none.
#[derive(Debug, Drop)]
pub struct Pass {
    mark: Mark,
    course: Course,
}

impl Model for Pass {
    ghost use Rattle.dimacs_reader.specs.Steps.Machine.{Scanned, scan_of};

    ghost Value = { Scanned };

    ghost view = { λ p. scan_of p.mark p.course };
}

impl Pass {
    /// Nothing read yet. It takes no memory.
    pub fn new(alloc: Global) -> Pass
        ensures { result ≡ fresh_scan }
    {
        Pass {
            mark: Mark {
                place: 0,
                start: 0,
                word: Word::Nothing,
            },
            course: Course::new(alloc),
        }
    }

    /// Reads the bytes.
    pub fn read(self, bytes: &[u8]) -> Result<Pass, NoMemory>
        requires { self.place + length bytes.now ≤ 2 ^ 27 }
        ensures after { IfOk result (λ p. p ≡ after_bytes self bytes.now) }
        ensures place { IfOk result (λ p. p.place ≡ self.place + length bytes.now) }
    {
        let Pass {
            mut mark,
            mut course,
        } = self;
        for byte in bytes {
            mark = step(&mut course, mark, *byte)?;
        }
        Ok(Pass { mark, course })
    }

    /// What the text gives, if it ends here.
    pub fn outcome(self) -> Result<Formula, ScanEnd>
        ensures { Gives result (outcome self) }
    {
        let Pass { mark, mut course } = self;
        end_token(&mut course, mark.start, mark.word)?;
        Ok(course.outcome(mark.place)?)
    }
}

/// Reads one byte, and gives the mark behind it.
fn step(course: &mut Course, mark: Mark, byte: u8) -> Result<Mark, NoMemory>
    requires { mark.place < 2 ^ 63 }
    ensures after { IfOk result (λ m.
        scan_of m course.new ≡ after_byte (scan_of mark course.old) byte) }
    ensures place { IfOk result (λ m. m.place ≡ mark.place + 1) }
{
    match byte {
        b'\n' => {
            end_token(course, mark.start, mark.word)?;
            course.end_line(mark.place);
            Ok(mark.behind())
        }
        b' ' | b'\t' | b'\r' => {
            end_token(course, mark.start, mark.word)?;
            Ok(mark.behind())
        }
        _ => Ok(mark.with(byte)),
    }
}

/// Where the token is over that began at this place, if one is open.
fn end_token(course: &mut Course, start: u64, word: Word) -> Result<(), NoMemory>
    ensures { OnOk result (course.new ≡ flushed_at start word course.old) }
{
    if word.is_nothing() {
        return Ok(());
    }
    course.end_token(start, word)
}
