//! A plain reader over a whole text: it cuts the text into lines and the lines into tokens, and follows
//! the rules one by one. It is slow, and for tests alone.
ghost use Rattle.std.specs.Prelude.{◌<◌, length};

use crate::{BadKind, Fault, ScanEnd};
use cnf_core::NoMemory;
use std::alloc::Global;

// Bytes that stand at a place.
#[derive(Drop)]
struct Token {
    place: u64,
    bytes: Vec<u8>,
}

// A line's tokens, and the place where it ends.
#[derive(Drop)]
struct Line {
    tokens: Vec<Token>,
    end: u64,
}

// What was read: the header's numbers, the literals' numbers with a 0 behind each clause, how many
// clauses are ended, whether one is open, and the variables that show lines name, if there is one.
#[derive(Drop)]
pub struct Reading {
    pub vars: u32,
    pub numbers: Vec<i32>,
    count: u32,
    ended: u32,
    open: bool,
    shown: Option<Vec<u32>>,
}

impl Reading {
    pub fn shows(&self, var: u32) -> bool {
        match &self.shown {
            None => true,
            Some(vars) => vars.contains(&var),
        }
    }
}

fn bad<T>(kind: BadKind, place: u64) -> Result<T, ScanEnd> {
    Err(ScanEnd::from(Fault { kind, place }))
}

fn tokens_of(alloc: Global, place: u64, line: &[u8]) -> Result<Vec<Token>, NoMemory> {
    let mut tokens = Vec::new(alloc);
    let mut start = place;
    for bytes in line.split(|byte| matches!(*byte, b' ' | b'\t' | b'\r')) {
        if !bytes.is_empty() {
            tokens.push(Token {
                place: start,
                bytes: bytes.to_vec(alloc)?,
            })?;
        }
        start = start.saturating_add(bytes.len() as u64).saturating_add(1);
    }
    Ok(tokens)
}

fn lines_of(alloc: Global, text: &[u8]) -> Result<Vec<Line>, NoMemory> {
    let mut lines = Vec::new(alloc);
    let mut place = 0_u64;
    for line in text.split(|byte| *byte == b'\n') {
        let end = place.saturating_add(line.len() as u64);
        lines.push(Line {
            tokens: tokens_of(alloc, place, line)?,
            end,
        })?;
        place = end.saturating_add(1);
    }
    Ok(lines)
}

// The number of one or more digits, or 10^9 where it is greater.
fn number_of(bytes: &[u8]) -> Option<i32> {
    let mut number = None;
    for byte in bytes {
        if !byte.is_ascii_digit() {
            return None;
        }
        let before: i32 = number.unwrap_or(0);
        let longer = before
            .saturating_mul(10)
            .saturating_add(i32::from(*byte) - 48);
        number = Some(longer.min(1_000_000_000));
    }
    number
}

// The token at this place of a header line.
fn header_token(line: &Line, index: usize) -> Result<&Token, ScanEnd> {
    match line.tokens.get(index) {
        Some(token) => Ok(token),
        None => bad(BadKind::BadHeader, line.end),
    }
}

fn header_number(line: &Line, index: usize, limit: i32) -> Result<u32, ScanEnd> {
    let token = header_token(line, index)?;
    match number_of(&token.bytes) {
        None => bad(BadKind::BadHeader, token.place),
        Some(number) if number > limit => bad(BadKind::OverLimit, token.place),
        Some(number) => Ok(number.unsigned_abs()),
    }
}

fn header_of(alloc: Global, line: &Line) -> Result<Reading, ScanEnd> {
    let first = header_token(line, 0)?;
    if first.bytes.as_slice() != b"p".as_slice() {
        return bad(BadKind::NoHeader, first.place);
    }
    let format = header_token(line, 1)?;
    if format.bytes.as_slice() != b"cnf".as_slice() {
        return bad(BadKind::BadHeader, format.place);
    }
    let vars = header_number(line, 2, 1_048_576)?;
    let count = header_number(line, 3, 2_097_152)?;
    if let Some(token) = line.tokens.get(4) {
        return bad(BadKind::BadHeader, token.place);
    }
    Ok(Reading {
        vars,
        numbers: Vec::new(alloc),
        count,
        ended: 0,
        open: false,
        shown: None,
    })
}

// The number of a literal or of a clause's end.
fn literal_of(bytes: &[u8]) -> Option<i32> {
    match bytes {
        [b'-', digits @ ..] => match number_of(digits)? {
            0 => None,
            number => Some(number.saturating_neg()),
        },
        _ => number_of(bytes),
    }
}

fn read_token(mut reading: Reading, token: &Token) -> Result<Reading, ScanEnd> {
    if reading.ended >= reading.count {
        return bad(BadKind::TooManyClauses, token.place);
    }
    let Some(number) = literal_of(&token.bytes) else {
        return bad(BadKind::BadNumber, token.place);
    };
    if number == 0 {
        reading.ended = reading.ended.saturating_add(1);
    }
    if number.unsigned_abs() > reading.vars {
        return bad(BadKind::LiteralRange, token.place);
    }
    reading.open = number != 0;
    reading.numbers.push(number).map_err(|_| NoMemory)?;
    Ok(reading)
}

fn ended(reading: Reading, place: u64) -> Result<Reading, ScanEnd> {
    if reading.open {
        return bad(BadKind::Unended, place);
    }
    if reading.ended < reading.count {
        return bad(BadKind::TooFewClauses, place);
    }
    Ok(reading)
}

fn begins_with(token: &Token, byte: u8) -> bool {
    token.bytes.first() == Some(&byte)
}

fn is_word(token: &Token, word: &[u8]) -> bool {
    token.bytes.as_slice() == word
}

fn is_show_line(line: &Line) -> bool {
    match line.tokens.as_slice() {
        [first, second, third, ..] => {
            is_word(first, b"c") && is_word(second, b"p") && is_word(third, b"show")
        }
        _ => false,
    }
}

fn read_show(alloc: Global, mut reading: Reading, line: &Line) -> Result<Reading, ScanEnd> {
    let mut shown = match reading.shown.take() {
        Some(vars) => vars,
        None => Vec::new(alloc),
    };
    let mut ended = false;
    for token in line.tokens.iter().skip(3) {
        match number_of(&token.bytes) {
            Some(0) if !ended => ended = true,
            Some(number) if !ended && number.unsigned_abs() <= reading.vars => {
                shown.push(number.unsigned_abs()).map_err(|_| NoMemory)?;
            }
            _ => return bad(BadKind::BadShow, token.place),
        }
    }
    if !ended {
        return bad(BadKind::BadShow, line.end);
    }
    reading.shown = Some(shown);
    Ok(reading)
}

/// What the text means.
pub fn plain_reading(alloc: Global, text: &[u8]) -> Result<Reading, ScanEnd> {
    let lines = lines_of(alloc, text)?;
    let mut so_far = None;
    for line in &lines {
        let Some(first) = line.tokens.first() else {
            continue;
        };
        let is_show = so_far.is_some() && is_show_line(line);
        if begins_with(first, b'c') && !is_show {
            continue;
        }
        let Some(mut reading) = so_far else {
            so_far = Some(header_of(alloc, line)?);
            continue;
        };
        if is_show {
            so_far = Some(read_show(alloc, reading, line)?);
            continue;
        }
        if begins_with(first, b'%') {
            return ended(reading, first.place);
        }
        for token in &line.tokens {
            reading = read_token(reading, token)?;
        }
        so_far = Some(reading);
    }
    match so_far {
        None => bad(BadKind::NoHeader, text.len() as u64),
        Some(reading) => ended(reading, text.len() as u64),
    }
}
