//! The witness.

use super::{Stop, fails};
use crate::Reason;
use std::alloc::Global;

/// A drop line: its literal, the model that it takes, and whether that is flipped.
#[derive(Clone, Copy)]
struct PlainDrop {
    lit: i64,
    model: usize,
    flip: bool,
}

/// The models and drops so far. A model has its true literals.
#[derive(Drop)]
struct PlainWitness {
    alloc: Global,
    vars: i64,
    models: Vec<Vec<i64>>,
    drops: Vec<PlainDrop>,
    last: u64,
}

/// The tests of a witness, where these literals are printed, or there is said to be no model.
pub fn judge_witness(
    alloc: Global,
    vars: i64,
    clauses: &[Vec<i64>],
    printed: Option<&Vec<i64>>,
    text: &[u8],
) -> Result<(), Stop> {
    let mut witness = PlainWitness {
        alloc,
        vars,
        models: Vec::new(alloc),
        drops: Vec::new(alloc),
        last: 0,
    };
    let mut place = 1_u64;
    for line in text.split_inclusive(|byte| *byte == b'\n') {
        witness.take_line(line, place)?;
        place = place.saturating_add(1);
    }
    match printed {
        Some(fixed) => witness.judge(clauses, fixed),
        None if place > 1 => fails(Reason::WitnessLine, 1),
        None => Ok(()),
    }
}

impl PlainWitness {
    fn take_line(&mut self, line: &[u8], place: u64) -> Result<(), Stop> {
        if self.drops.is_empty() {
            if let Some(model) = self.model_on(line)? {
                self.models.push(model)?;
                return Ok(());
            }
        }
        match self.drop_on(line)? {
            Some(drop) if drop.lit.unsigned_abs() > self.last => {
                self.last = drop.lit.unsigned_abs();
                self.drops.push(drop)?;
                Ok(())
            }
            _ => fails(Reason::WitnessLine, place),
        }
    }

    /// The true literals of a model line.
    fn model_on(&self, line: &[u8]) -> Result<Option<Vec<i64>>, Stop> {
        let [b'm', digits @ .., b'\n'] = line else {
            return Ok(None);
        };
        let mut trues = Vec::new(self.alloc);
        let mut var = 0_i64;
        for digit in digits {
            var = var.saturating_add(1);
            match digit {
                b'1' => trues.push(var)?,
                b'0' => trues.push(var.wrapping_neg())?,
                _ => return Ok(None),
            }
        }
        Ok(if var == self.vars { Some(trues) } else { None })
    }

    /// The drop line that is printed so.
    fn drop_on(&self, line: &[u8]) -> Result<Option<PlainDrop>, Stop> {
        for var in 1..=self.vars {
            for lit in [var, var.wrapping_neg()] {
                for model in 0..self.models.len() {
                    for flip in [false, true] {
                        let text = format!(in self.alloc; "d {lit} {model} {}\n", u8::from(flip))?;
                        if text.as_bytes() == line {
                            return Ok(Some(PlainDrop { lit, model, flip }));
                        }
                    }
                }
            }
        }
        Ok(None)
    }

    fn judge(&self, clauses: &[Vec<i64>], fixed: &[i64]) -> Result<(), Stop> {
        let Some(first) = self.models.first() else {
            return fails(Reason::NoModel, 1);
        };
        let mut place = 1_u64;
        for model in &self.models {
            if !is_model(clauses, model) {
                return fails(Reason::NotAModel, place);
            }
            place = place.saturating_add(1);
        }
        for drop in &self.drops {
            let taken = self.taken_by(*drop)?;
            let against = taken.contains(&drop.lit.wrapping_neg());
            if !first.contains(&drop.lit) || !is_model(clauses, &taken) || !against {
                return fails(Reason::NotAgainst, place);
            }
            place = place.saturating_add(1);
        }
        let mut place = 1_u64;
        for var in 1..=self.vars {
            let printed = fixed
                .iter()
                .any(|lit| lit.unsigned_abs() == var.unsigned_abs());
            let dropped = self
                .drops
                .iter()
                .any(|drop| drop.lit.unsigned_abs() == var.unsigned_abs());
            if !printed && !dropped {
                return fails(Reason::NotCovered, place);
            }
            place = place.saturating_add(1);
        }
        Ok(())
    }

    /// The true literals of what a drop line takes.
    fn taken_by(&self, drop: PlainDrop) -> Result<Vec<i64>, Stop> {
        let mut taken = Vec::new(self.alloc);
        if let Some(model) = self.models.get(drop.model) {
            for lit in model {
                let flips = drop.flip && lit.unsigned_abs() == drop.lit.unsigned_abs();
                taken.push(if flips { lit.wrapping_neg() } else { *lit })?;
            }
        }
        Ok(taken)
    }
}

/// Whether each clause has a literal that is true.
fn is_model(clauses: &[Vec<i64>], trues: &[i64]) -> bool {
    clauses
        .iter()
        .all(|clause| clause.iter().any(|lit| trues.contains(lit)))
}
