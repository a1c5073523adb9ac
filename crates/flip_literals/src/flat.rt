ghost use Rattle.std.specs.Prelude.{◌≡◌, ◌<◌, IfOk, length};
ghost use Rattle.flip_literals.specs.Listings.{clause_at};

use cnf_core::{Formula, Lit, NoMemory};
use std::alloc::Global;
use std::marker::Model;

/// The clauses of a formula, their literals one behind the other, for those who look at them out of order.
#[derive(Debug, Drop)]
pub(crate) struct FlatClauses<'f> {
    formula: &'f Formula,
    /// Where each clause begins, and where the last one ends.
    starts: Vec<u32>,
    lits: Vec<Lit>,
}

impl<'f> Model for FlatClauses<'f> {
    ghost use Rattle.cnf_core.specs.Formulas.{Cnf};
    ghost use Rattle.flip_literals.specs.Steps.Flat.{IsFlat};

    ghost Value = { Cnf };

    ghost view = { λ f. f.formula.now };

    ghost invariant = { λ f. IsFlat f.formula.now.clauses f.starts.items f.lits.items };
}

impl<'f> FlatClauses<'f> {
    /// The clauses of the formula.
    pub(crate) fn new(alloc: Global, formula: &'f Formula) -> Result<FlatClauses<'f>, NoMemory>
        ensures { IfOk result (λ flat. flat ≡ formula.now) }
    {
        let mut starts = Vec::new(alloc);
        let mut lits = Vec::new(alloc);
        starts.push(0)?;
        for clause in formula.clauses() {
            lits.extend_from_slice(clause.as_slice())?;
            starts.push(lits.len() as u32)?;
        }
        Ok(FlatClauses {
            formula,
            starts,
            lits,
        })
    }

    /// How many there are.
    pub(crate) fn len(&self) -> usize
        ensures { result ≡ length self.now.clauses }
    {
        self.formula.clauses().len()
    }

    /// The literals of the clause at a place.
    pub(crate) fn get(&self, place: u32) -> &[Lit]
        requires { place < length self.now.clauses }
        ensures { result.now ≡ clause_at self.now place }
    {
        let start = self.starts[place as usize] as usize;
        let end = self.starts[place as usize + 1] as usize;
        &self.lits[start..end]
    }
}
