ghost use Rattle.std.specs.Prelude.{◌≡◌, ◌^◌, ◌<◌, ◌≤◌, length, slice_index_or, unsigned_abs, IfOk, IfErr, MatchResult, pos};
ghost use Rattle.cnf_core.specs.Numbers.{IsWritten, NumbersSay, Writes};
ghost use Rattle.cnf_core.specs.declared.numbers.NumbersError.TheVariants.{Memory, NoLiteral};

use crate::{Clause, Formula, Lit, MAX_CLAUSES, MAX_VARS, NoMemory};
use std::alloc::{AllocFailed, Global};
use std::error::Error;
use std::fmt;

/// Why numbers write no formula.
#[derive(Clone, Copy, Debug, PartialEq, Eq)]
pub enum NumbersError {
    /// There are more than 2^20 variables.
    TooManyVars,
    /// There are more than 2^21 numbers.
    TooManyNumbers,
    /// The number at this place, from 0, is no literal of the formula's variables.
    NoLiteral(usize),
    /// The last clause has no 0 behind it.
    Unended,
    /// There was no memory.
    Memory,
}

impl fmt::Display for NumbersError {
    fn fmt<W: fmt::Write>(&self, f: &mut fmt::Formatter<W>) -> fmt::Result {
        match self {
            NumbersError::TooManyVars => write!(f, "too many variables"),
            NumbersError::TooManyNumbers => write!(f, "too many numbers"),
            NumbersError::NoLiteral(place) => write!(f, "no literal of the formula at {place}"),
            NumbersError::Unended => write!(f, "the last clause isn't ended by 0"),
            NumbersError::Memory => write!(f, "out of memory"),
        }
    }
}

impl Error for NumbersError {}

impl<T: Drop> From<AllocFailed<T>> for NumbersError {
    ghost from_gives = { λ _ error. error ≡ Memory };

    fn from(_error: AllocFailed<T>) -> NumbersError {
        NumbersError::Memory
    }
}

impl From<NoMemory> for NumbersError {
    ghost from_gives = { λ _ error. error ≡ Memory };

    fn from(_error: NoMemory) -> NumbersError {
        NumbersError::Memory
    }
}

/// The literal that the number at a place writes, or none for 0.
fn literal_at(numbers: &[i32], place: usize, vars: u32) -> Result<Option<Lit>, NumbersError>
    requires place { place < length numbers.now }
    requires vars { vars ≤ 2 ^ 20 }
    ensures { MatchResult result (λ found. Writes found vars (slice_index_or numbers.now place (pos 0)))
        (λ error. (error ≡ NoLiteral place) × (vars < unsigned_abs (slice_index_or numbers.now place (pos 0)))) }
{
    let number = numbers[place];
    match Lit::of(number) {
        Some(lit) if lit.var() <= vars => Ok(Some(lit)),
        None if number == 0 => Ok(None),
        _ => Err(NumbersError::NoLiteral(place)),
    }
}

impl Formula {
    /// The formula over so many variables, at most 2^20, whose clauses these numbers write: those of each
    /// clause and then 0, as in DIMACS. At most 2^21 numbers are taken.
    pub fn of_numbers(alloc: Global, vars: u32, numbers: &[i32]) -> Result<Formula, NumbersError>
        ensures ok { IfOk result (λ F. IsWritten vars numbers.now F) }
        ensures err { IfErr result (λ error. NumbersSay error vars numbers.now) }
    {
        if vars > MAX_VARS {
            return Err(NumbersError::TooManyVars);
        }
        if numbers.len() > MAX_CLAUSES {
            return Err(NumbersError::TooManyNumbers);
        }
        let mut formula = Formula::new(alloc, vars);
        let mut lits = Vec::new(alloc);
        for place in 0..numbers.len() {
            match literal_at(numbers, place, vars)? {
                Some(lit) => lits.push(lit)?,
                None => {
                    formula.push(Clause { lits })?;
                    lits = Vec::new(alloc);
                }
            }
        }
        if lits.is_empty() {
            Ok(formula)
        } else {
            Err(NumbersError::Unended)
        }
    }
}
