//! Numbers, clauses and lines that a seed draws, the same on every run.
use cnf_core::{Clause, Formula, Lit, NoMemory};
use lrat_lines::{Ids, Line};
use std::alloc::Global;

/// A linear congruential generator, with the constants of Numerical Recipes.
#[derive(Drop)]
pub struct Draws {
    alloc: Global,
    state: u32,
}

impl Draws {
    pub fn new(alloc: Global, seed: u32) -> Draws {
        Draws { alloc, state: seed }
    }

    /// A number below this one, or 0 where it is 0.
    pub fn below(&mut self, count: u16) -> u16 {
        self.state = self
            .state
            .wrapping_mul(1_664_525)
            .wrapping_add(1_013_904_223);
        ((self.state >> 16) % u32::from(count.max(1))) as u16
    }

    /// At most so many literals of the variables 1 to so many.
    fn literals(&mut self, most: u16, vars: u16) -> Result<Vec<Lit>, NoMemory> {
        let mut lits = Vec::new(self.alloc);
        for _ in 0..self.below(most.saturating_add(1)) {
            let var = i32::from(self.below(vars)) + 1;
            let number = if self.below(2) == 0 { var } else { -var };
            if let Some(lit) = Lit::of(number) {
                lits.push(lit)?;
            }
        }
        Ok(lits)
    }

    /// At most so many ids from 1 to this one.
    fn ids(&mut self, most: u16, top: u16) -> Result<Ids, NoMemory> {
        let mut ids = Vec::new(self.alloc);
        for _ in 0..self.below(most.saturating_add(1)) {
            ids.push(u64::from(self.below(top)) + 1)?;
        }
        Ok(Ids { ids })
    }

    /// A formula of so many clauses over three variables.
    pub fn formula(&mut self, clauses: u16) -> Result<Formula, NoMemory> {
        let mut formula = Formula::new(self.alloc, 3);
        for _ in 0..clauses {
            let lits = self.literals(3, 3)?;
            if formula.room(&lits) {
                formula.push(Clause { lits })?;
            }
        }
        Ok(formula)
    }

    /// A line whose id is near this one: a deletion now and then, else an addition.
    pub fn line(&mut self, next: u16) -> Result<Line, NoMemory> {
        let id = u64::from(next) + u64::from(self.below(3));
        if self.below(5) == 0 {
            return Ok(Line::Delete {
                id,
                ids: self.ids(2, next)?,
            });
        }
        let vars = if self.below(8) == 0 { 4 } else { 3 };
        Ok(Line::Add {
            id,
            lits: Clause {
                lits: self.literals(3, vars)?,
            },
            hints: self.ids(5, next)?,
        })
    }
}
