//! The answer.

use super::{Stop, fails};
use crate::Reason;
use std::alloc::Global;

/// Which lines may come next, or what the answer says.
#[derive(Clone, Copy, PartialEq, Eq)]
enum Stage {
    First,
    Backbone,
    Fixed,
    Still,
    Unsat,
    Sat,
    Unfinished,
}

/// What the lines so far say.
#[derive(Drop)]
struct PlainAnswer {
    alloc: Global,
    vars: i64,
    stage: Stage,
    fixed: Vec<i64>,
    last: u64,
}

/// The literals that an answer prints, or none where it says that there is no model.
pub fn printed_literals(alloc: Global, vars: i64, text: &[u8]) -> Result<Option<Vec<i64>>, Stop> {
    let mut answer = PlainAnswer {
        alloc,
        vars,
        stage: Stage::First,
        fixed: Vec::new(alloc),
        last: 0,
    };
    let mut place = 1_u64;
    for line in text.split_inclusive(|byte| *byte == b'\n') {
        answer.take_line(line, place)?;
        place = place.saturating_add(1);
    }
    match answer.stage {
        Stage::Unsat => Ok(None),
        Stage::Sat => Ok(Some(answer.fixed)),
        Stage::Unfinished => fails(Reason::Unfinished, 1),
        _ => fails(Reason::BadLine, place),
    }
}

fn first_stage(line: &[u8], place: u64) -> Result<Stage, Stop> {
    for (text, stage) in [
        ("s UNSATISFIABLE\n", Stage::Unsat),
        ("s SATISFIABLE\n", Stage::Backbone),
        ("s PARTIAL\n", Stage::Fixed),
        ("s UNKNOWN\n", Stage::Unfinished),
    ] {
        if line == text.as_bytes() {
            return Ok(stage);
        }
    }
    fails(Reason::BadLine, place)
}

impl PlainAnswer {
    fn take_line(&mut self, line: &[u8], place: u64) -> Result<(), Stop> {
        let stage = self.stage;
        if stage == Stage::First {
            self.stage = first_stage(line, place)?;
            return Ok(());
        }
        let first_group = stage == Stage::Backbone || stage == Stage::Fixed;
        let second_group = stage == Stage::Fixed || stage == Stage::Still;
        if (first_group || second_group) && line == b"b 0\n".as_slice() {
            self.stage = if stage == Stage::Backbone {
                Stage::Sat
            } else {
                Stage::Unfinished
            };
            return Ok(());
        }
        if first_group {
            if let Some(lit) = self.literal_on('b', line)? {
                return self.fix(lit, place);
            }
        }
        if second_group {
            if let Some(lit) = self.literal_on('u', line)? {
                return self.leave_open(lit, place);
            }
        }
        fails(Reason::BadLine, place)
    }

    /// The literal whose line with this letter is printed so.
    fn literal_on(&self, letter: char, line: &[u8]) -> Result<Option<i64>, Stop> {
        for var in 1..=self.vars {
            for number in [var, var.wrapping_neg()] {
                let text = format!(in self.alloc; "{letter} {number}\n")?;
                if text.as_bytes() == line {
                    return Ok(Some(number));
                }
            }
        }
        Ok(None)
    }

    fn fix(&mut self, lit: i64, place: u64) -> Result<(), Stop> {
        self.rise_to(lit, place)?;
        self.fixed.push(lit)?;
        Ok(())
    }

    fn leave_open(&mut self, lit: i64, place: u64) -> Result<(), Stop> {
        if self.fixed.contains(&lit) || self.fixed.contains(&lit.wrapping_neg()) {
            return fails(Reason::BadLine, place);
        }
        if self.stage == Stage::Fixed {
            self.stage = Stage::Still;
            self.last = 0;
        }
        self.rise_to(lit, place)
    }

    fn rise_to(&mut self, lit: i64, place: u64) -> Result<(), Stop> {
        if lit.unsigned_abs() <= self.last {
            return fails(Reason::NotSorted, place);
        }
        self.last = lit.unsigned_abs();
        Ok(())
    }
}
