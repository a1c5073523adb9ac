//! The definition of the verdict as a program over whole texts and lists of numbers: slow and plain. All variables are shown.

use crate::{Reason, Verdict};
use cnf_core::NoMemory;
use std::alloc::{AllocError, AllocFailed, Global};

mod answer;
mod proof;
mod witness;

use answer::printed_literals;
use proof::PlainProof;
use witness::judge_witness;

/// Why the tests don't go on.
#[derive(Debug, Drop)]
pub enum Stop {
    /// This one fails, at this place.
    Fails(Reason, u64),
    /// There was no memory.
    Memory,
}

impl From<AllocError> for Stop {
    fn from(_error: AllocError) -> Stop {
        Stop::Memory
    }
}

impl<T: Drop> From<AllocFailed<T>> for Stop {
    fn from(_error: AllocFailed<T>) -> Stop {
        Stop::Memory
    }
}

pub fn fails<T>(reason: Reason, place: u64) -> Result<T, Stop> {
    Err(Stop::Fails(reason, place))
}

/// What the definition says of an answer, a proof and a witness of a formula over so many variables, whose clauses'
/// numbers are these.
pub fn plain_verdict(
    alloc: Global,
    vars: i64,
    numbers: &[i32],
    files: (&[u8], &[u8], &[u8]),
) -> Result<Verdict, NoMemory> {
    match judge(alloc, vars, numbers, files) {
        Ok(()) => Ok(Verdict::Verified),
        Err(Stop::Fails(reason, place)) => Ok(Verdict::NotVerified { reason, place }),
        Err(Stop::Memory) => Err(NoMemory),
    }
}

fn judge(
    alloc: Global,
    vars: i64,
    numbers: &[i32],
    files: (&[u8], &[u8], &[u8]),
) -> Result<(), Stop> {
    let clauses = clauses_of(alloc, numbers)?;
    let printed = printed_literals(alloc, vars, files.0)?;
    let mut proof = PlainProof::new(alloc, vars, &clauses)?;
    proof.take_text(files.1)?;
    let Some(fixed) = printed else {
        if !proof.has_reached(&[]) {
            return fails(Reason::NoEmpty, 1);
        }
        return judge_witness(alloc, vars, &clauses, None, files.2);
    };
    let mut place = 2_u64;
    for lit in &fixed {
        if !proof.has_reached(&[*lit]) {
            return fails(Reason::NoUnit, place);
        }
        place = place.saturating_add(1);
    }
    judge_witness(alloc, vars, &clauses, Some(&fixed), files.2)
}

/// The clauses of these numbers, each of which ends with a 0.
fn clauses_of(alloc: Global, numbers: &[i32]) -> Result<Vec<Vec<i64>>, Stop> {
    let mut clauses = Vec::new(alloc);
    let mut clause = Vec::new(alloc);
    for number in numbers {
        if *number == 0 {
            clauses.push(clause)?;
            clause = Vec::new(alloc);
        } else {
            clause.push(i64::from(*number))?;
        }
    }
    Ok(clauses)
}
