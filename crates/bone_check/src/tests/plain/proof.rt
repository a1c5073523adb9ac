//! The proof.

use super::{Stop, fails};
use crate::Reason;
use std::alloc::Global;

/// A set of literals with its id.
#[derive(Drop)]
struct Set {
    id: i64,
    lits: Vec<i64>,
}

/// What stands in a list: literals, ids of hints, or ids to be deleted.
#[derive(Clone, Copy, PartialEq, Eq)]
enum Kind {
    Literals,
    Hints,
    Deleted,
}

/// The sets that are known, those that were reached, and the greatest id so far.
#[derive(Drop)]
pub struct PlainProof {
    alloc: Global,
    vars: i64,
    top: i64,
    known: Vec<Set>,
    reached: Vec<Set>,
}

impl PlainProof {
    pub fn new(alloc: Global, vars: i64, clauses: &[Vec<i64>]) -> Result<PlainProof, Stop> {
        let mut proof = PlainProof {
            alloc,
            vars,
            top: 0,
            known: Vec::new(alloc),
            reached: Vec::new(alloc),
        };
        for clause in clauses {
            let id = proof.top.saturating_add(1);
            proof.know(id, clause)?;
        }
        Ok(proof)
    }

    /// Whether a set that was reached has just these literals.
    pub fn has_reached(&self, lits: &[i64]) -> bool {
        self.reached.iter().any(|set| {
            set.lits.iter().all(|lit| lits.contains(lit))
                && lits.iter().all(|lit| set.lits.contains(lit))
        })
    }

    pub fn take_text(&mut self, text: &[u8]) -> Result<(), Stop> {
        let mut place = 1_u64;
        for line in text.split_inclusive(|byte| *byte == b'\n') {
            let mut tokens = Vec::new(self.alloc);
            for token in line.split(|byte| matches!(*byte, b' ' | b'\t' | b'\r' | b'\n')) {
                if !token.is_empty() {
                    tokens.push(token)?;
                }
            }
            self.take_tokens(&tokens, place)?;
            place = place.saturating_add(1);
        }
        Ok(())
    }

    fn take_tokens(&mut self, tokens: &[&[u8]], place: u64) -> Result<(), Stop> {
        let (first, rest) = match tokens {
            [] => return Ok(()),
            [first, rest @ ..] => (*first, rest),
        };
        if first.starts_with(b"c") {
            return Ok(());
        }
        let id = match element(Kind::Deleted, first, place)? {
            0 => return fails(Reason::BadToken, place),
            id => id,
        };
        match rest {
            [letter, rest @ ..] if *letter == b"d".as_slice() => {
                let (ids, behind) = list(self.alloc, Kind::Deleted, rest, place)?;
                ended(behind, place)?;
                self.delete(&ids, place)
            }
            _ => {
                let (lits, behind) = list(self.alloc, Kind::Literals, rest, place)?;
                let (hints, behind) = list(self.alloc, Kind::Hints, behind, place)?;
                ended(behind, place)?;
                self.add(id, &lits, &hints, place)
            }
        }
    }

    fn add(&mut self, id: i64, lits: &[i64], hints: &[i64], place: u64) -> Result<(), Stop> {
        if id <= self.top {
            return fails(Reason::IdNotRising, place);
        }
        let vars = self.vars.unsigned_abs();
        if lits.iter().any(|lit| lit.unsigned_abs() > vars) {
            return fails(Reason::VarRange, place);
        }
        if !lits.iter().any(|lit| lits.contains(&lit.wrapping_neg())) {
            self.propagate(lits, hints, place)?;
        }
        self.know(id, lits)
    }

    /// Reverse unit propagation: the hints show a clause of these literals.
    fn propagate(&self, lits: &[i64], hints: &[i64], place: u64) -> Result<(), Stop> {
        let mut falses = lits.to_vec(self.alloc)?;
        for hint in hints {
            let Some(set) = self.known.iter().find(|set| set.id == *hint) else {
                return fails(Reason::UnknownHint, place);
            };
            let mut open = Vec::new(self.alloc);
            for lit in &set.lits {
                if !falses.contains(lit) && !open.contains(lit) {
                    open.push(*lit)?;
                }
            }
            match open.as_slice() {
                [] => return Ok(()),
                [lit] => falses.push(lit.wrapping_neg())?,
                _ => return fails(Reason::NotUnit, place),
            }
        }
        fails(Reason::NoConflict, place)
    }

    fn delete(&mut self, ids: &[i64], place: u64) -> Result<(), Stop> {
        for id in ids {
            if !self.known.iter().any(|set| set.id == *id) {
                return fails(Reason::UnknownHint, place);
            }
        }
        self.known.retain(|set| !ids.contains(&set.id));
        Ok(())
    }

    fn know(&mut self, id: i64, lits: &[i64]) -> Result<(), Stop> {
        self.known.push(Set {
            id,
            lits: lits.to_vec(self.alloc)?,
        })?;
        self.reached.push(Set {
            id,
            lits: lits.to_vec(self.alloc)?,
        })?;
        self.top = id;
        Ok(())
    }
}

/// The elements of a list up to its 0, and the tokens behind it.
fn list<'t, 'b>(
    alloc: Global,
    kind: Kind,
    tokens: &'t [&'b [u8]],
    place: u64,
) -> Result<(Vec<i64>, &'t [&'b [u8]]), Stop> {
    let mut elements = Vec::new(alloc);
    for (read, token) in tokens.iter().enumerate() {
        match element(kind, token, place)? {
            0 => return Ok((elements, &tokens[read + 1..])),
            number => elements.push(number)?,
        }
    }
    fails(Reason::NotEnded, place)
}

/// The number of a list's token, which is 0 at the list's end.
fn element(kind: Kind, token: &[u8], place: u64) -> Result<i64, Stop> {
    let (minus, digits) = match token.strip_prefix(b"-") {
        Some(digits) => (true, digits),
        None => (false, token),
    };
    match value_of(digits) {
        Some(value) if kind == Kind::Literals && value <= 1_048_576 && !(minus && value == 0) => {
            Ok(if minus { value.wrapping_neg() } else { value })
        }
        Some(value) if kind == Kind::Hints && minus && value != 0 => {
            fails(Reason::NegativeHint, place)
        }
        Some(value) if kind != Kind::Literals && !minus => Ok(value),
        _ => fails(Reason::BadToken, place),
    }
}

/// The value of one or more digits. No id of the tests is past 2^63.
fn value_of(digits: &[u8]) -> Option<i64> {
    let mut value = None;
    for digit in digits {
        if !digit.is_ascii_digit() {
            return None;
        }
        let before: i64 = value.unwrap_or(0);
        value = Some(
            before
                .saturating_mul(10)
                .saturating_add(i64::from(*digit) - 48),
        );
    }
    value
}

fn ended(behind: &[&[u8]], place: u64) -> Result<(), Stop> {
    if behind.is_empty() {
        Ok(())
    } else {
        fails(Reason::BadToken, place)
    }
}
