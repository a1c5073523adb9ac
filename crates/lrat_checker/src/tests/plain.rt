//! The definition of a proof as a program: sets in a list, slow and plain.
use crate::Refused;
use cnf_core::{Formula, Lit, NoMemory};
use lrat_lines::Line;
use std::alloc::Global;

/// A set of literals with its id.
#[derive(Drop)]
struct Set {
    id: u64,
    lits: Vec<Lit>,
}

fn set_of(alloc: Global, id: u64, lits: &[Lit]) -> Result<Set, NoMemory> {
    Ok(Set {
        id,
        lits: Vec::from_slice(alloc, lits)?,
    })
}

/// The sets that are known, those that were reached, and the greatest id so far.
#[derive(Drop)]
pub struct PlainProof {
    alloc: Global,
    vars: u32,
    top: u64,
    known: Vec<Set>,
    reached: Vec<Set>,
}

impl PlainProof {
    pub fn new(alloc: Global, formula: &Formula) -> Result<PlainProof, NoMemory> {
        let mut proof = PlainProof {
            alloc,
            vars: formula.vars(),
            top: 0,
            known: Vec::new(alloc),
            reached: Vec::new(alloc),
        };
        for (i, clause) in formula.clauses().iter().enumerate() {
            proof.know(i as u64 + 1, clause.as_slice())?;
        }
        Ok(proof)
    }

    /// What the definition says of one more line.
    pub fn line(&mut self, line: &Line) -> Result<Result<(), Refused>, NoMemory> {
        match line {
            Line::Add { id, lits, hints } => self.add(*id, lits.as_slice(), hints.as_slice()),
            Line::Delete { ids, .. } => Ok(self.delete(ids.as_slice())),
        }
    }

    /// Whether a set that was reached has just these literals, each at least once.
    pub fn has_reached(&self, lits: &[Lit]) -> bool {
        self.reached.iter().any(|set| is_same_set(&set.lits, lits))
    }

    fn add(
        &mut self,
        id: u64,
        lits: &[Lit],
        hints: &[u64],
    ) -> Result<Result<(), Refused>, NoMemory> {
        if id <= self.top {
            return Ok(Err(Refused::IdNotRising(id)));
        }
        let vars = self.vars;
        if let Some(lit) = lits.iter().find(|lit| lit.var() > vars) {
            return Ok(Err(Refused::VarRange(lit.number())));
        }
        if let Err(refused) = self.propagates(lits, hints)? {
            return Ok(Err(refused));
        }
        self.know(id, lits)?;
        Ok(Ok(()))
    }

    /// Reverse unit propagation: whether the hints show a clause of these literals.
    fn propagates(&self, lits: &[Lit], hints: &[u64]) -> Result<Result<(), Refused>, NoMemory> {
        if lits.iter().any(|lit| lits.contains(&lit.negated())) {
            return Ok(Ok(()));
        }
        let mut trues = Vec::new(self.alloc);
        for lit in lits {
            trues.push(lit.negated())?;
        }
        for hint in hints {
            let Some(set) = self.known.iter().find(|set| set.id == *hint) else {
                return Ok(Err(Refused::UnknownHint(*hint)));
            };
            let open = self.open_literals(&trues, &set.lits)?;
            match open.as_slice() {
                [] => return Ok(Ok(())),
                [lit] => trues.push(*lit)?,
                _ => return Ok(Err(Refused::NotUnit(*hint))),
            }
        }
        Ok(Err(Refused::NoConflict))
    }

    /// The different literals of a set that are not false where these literals are true.
    fn open_literals(&self, trues: &[Lit], lits: &[Lit]) -> Result<Vec<Lit>, NoMemory> {
        let mut open = Vec::new(self.alloc);
        for lit in lits {
            if !trues.contains(&lit.negated()) && !open.contains(lit) {
                open.push(*lit)?;
            }
        }
        Ok(open)
    }

    fn delete(&mut self, ids: &[u64]) -> Result<(), Refused> {
        let known = &self.known;
        if let Some(id) = ids
            .iter()
            .find(|id| !known.iter().any(|set| set.id == **id))
        {
            return Err(Refused::UnknownHint(*id));
        }
        self.known.retain(|set| !ids.contains(&set.id));
        Ok(())
    }

    fn know(&mut self, id: u64, lits: &[Lit]) -> Result<(), NoMemory> {
        self.known.push(set_of(self.alloc, id, lits)?)?;
        self.reached.push(set_of(self.alloc, id, lits)?)?;
        self.top = id;
        Ok(())
    }
}

fn is_same_set(a: &[Lit], b: &[Lit]) -> bool {
    a.iter().all(|lit| b.contains(lit)) && b.iter().all(|lit| a.contains(lit))
}
