ghost use Rattle.std.specs.Prelude.{◌≡◌, ◌↔◌, ◌^◌, ◌≤◌, ℕ, List, [], ◌∷◌, false, Some, IsTrue, OnOk, OnErr, IfOk, IfErr, IfNone, nat_lt};
ghost use Rattle.std.specs.Prelude.{find, slice_index_or};
ghost use Rattle.cnf_core.specs.Literals.{Literal, code_of, AreWithin};
ghost use Rattle.cnf_core.specs.Formulas.{Cnf};
ghost use Rattle.lrat_lines.specs.declared.line.Line.{Line};
ghost use Rattle.lrat_lines.specs.Proofs.{unknown_of, without, IsReached};
ghost use Rattle.lrat_checker.specs.Refusals.{IsRefusal};
ghost use Rattle.lrat_checker.specs.Checking.{StandsFor, Answers, known_of};
ghost use Rattle.lrat_checker.specs.Steps.Taking.{Shows, add_refusal, first_unknown, Admits, Adds, Deletes, Forgets, IsFresh};

use crate::Refused;
use crate::assignment::Assignment;
use crate::hints::check_hints;
use crate::known::Known;
use crate::reached::{is_empty, reach};
use cnf_core::{Clause, Formula, Lit, NoMemory};
use lrat_lines::Line;
use std::alloc::Global;
use std::marker::Model;

/// Takes the lines of a proof over a formula one by one, and remembers which units they reach, and
/// whether the empty clause.
///
/// It doesn't keep the formula or the lines: contracts say which it stands for. Checking a line costs a
/// look-up for each hint, and a walk over its literals.
#[derive(Drop)]
pub struct Checker {
    alloc: Global,
    vars: u32,
    top: u64,
    known: Known,
    assignment: Assignment,
    units: Vec<bool>,
    empty: bool,
}

impl Model for Checker {
    ghost use Rattle.lrat_checker.specs.Checking.{Kept};
    ghost use Rattle.lrat_checker.specs.Steps.Taking.{IsSound};

    ghost Value = { Kept };

    ghost view = { λ c. record {
      vars = c.vars;
      top = c.top;
      known = c.known;
      units = c.units.items;
      empty = c.empty;
    } };

    ghost invariant = { λ c. IsSound c.vars c.known c.assignment.codes c.units.items };
}

impl Checker {
    /// A checker that stands for the formula and no lines. Its clauses are known by the ids from 1 on.
    pub fn new(alloc: Global, formula: &Formula) -> Result<Checker, NoMemory>
        ensures { IfOk result (λ c. StandsFor c formula.now []) }
    {
        let mut checker = Checker::without_clauses(alloc, formula.vars())?;
        for (i, clause) in formula.clauses().iter().enumerate() {
            checker.admit(i as u64 + 1, clause.as_slice())?;
        }
        Ok(checker)
    }

    /// Checks one more line. A line that is taken is put behind those that the checker stands for; a
    /// refused one leaves the checker as it was.
    pub fn line(&mut self, line: &Line) -> Result<(), Refused>
        ensures step { (F : Cnf) (lines : List Line) → StandsFor self.old F lines
            → Answers F lines line.now self.new result }
        ensures unchanged { OnErr result (self.new ≡ self.old) }
    {
        match line {
            Line::Add { id, lits, hints } => self.add(*id, lits.as_slice(), hints.as_slice()),
            Line::Delete { ids, .. } => self.delete(ids.as_slice()),
        }
    }

    /// Whether a clause of just this literal was reached: it is one of the formula's, or was added,
    /// whether deleted since or not. It takes no memory.
    pub fn has_unit(&self, lit: Lit) -> bool
        ensures { (F : Cnf) (lines : List Line) → StandsFor self.now F lines
            → IsTrue result ↔ IsReached F lines (lit ∷ []) }
    {
        self.is_marked(lit)
    }

    /// Whether the empty clause was reached, likewise. It takes no memory.
    pub fn has_empty(&self) -> bool
        ensures { (F : Cnf) (lines : List Line) → StandsFor self.now F lines
            → IsTrue result ↔ IsReached F lines [] }
    {
        self.empty
    }

    /// Whether the literal is marked as a unit.
    fn is_marked(&self, lit: Lit) -> bool
        ensures { result ≡ slice_index_or self.now.units (code_of lit) false }
    {
        self.units
            .get(lit.code() as usize)
            .copied()
            .unwrap_or(false)
    }

    /// A checker that knows no clauses.
    fn without_clauses(alloc: Global, vars: u32) -> Result<Checker, NoMemory>
        requires { vars ≤ 2 ^ 20 }
        ensures { IfOk result (IsFresh vars) }
    {
        let codes = 2 * vars as usize + 2;
        Ok(Checker {
            alloc,
            vars,
            top: 0,
            known: Known::new(alloc),
            assignment: Assignment::new(alloc, codes)?,
            units: vec![in alloc; false; codes]?,
            empty: false,
        })
    }

    /// An addition.
    fn add(&mut self, id: u64, lits: &[Lit], hints: &[u64]) -> Result<(), Refused>
        ensures ok { OnOk result (Adds self.old self.new id lits.now hints.now) }
        ensures refused { IfErr result
            (λ refused. IsRefusal refused (add_refusal self.old id lits.now hints.now)) }
        ensures unchanged { OnErr result (self.new ≡ self.old) }
    {
        self.check(id, lits, hints)?;
        self.admit(id, lits)?;
        Ok(())
    }

    /// Whether an addition is to be taken.
    fn check(&mut self, id: u64, lits: &[Lit], hints: &[u64]) -> Result<(), Refused>
        ensures shows { Shows result (add_refusal self.old id lits.now hints.now) }
        ensures within { OnOk result (AreWithin self.old.vars lits.now) }
        ensures unchanged { self.new ≡ self.old }
    {
        if id <= self.top {
            return Err(Refused::IdNotRising(id));
        }
        if let Some(lit) = first_outside(self.vars, lits) {
            return Err(Refused::VarRange(lit.number()));
        }
        check_hints(&self.known, &mut self.assignment, lits, hints)
    }

    /// Knows a clause by the id, as the greatest so far, and marks what it reaches.
    fn admit(&mut self, id: u64, lits: &[Lit]) -> Result<(), NoMemory>
        requires { AreWithin self.old.vars lits.now }
        ensures ok { OnOk result (Admits self.old self.new id lits.now) }
        ensures err { OnErr result (self.new ≡ self.old) }
    {
        let clause = Clause {
            lits: Vec::from_slice(self.alloc, lits)?,
        };
        self.known.insert(id, clause)?;
        self.top = id;
        reach(&mut self.units, lits);
        self.empty = self.empty || is_empty(lits);
        Ok(())
    }

    /// A deletion.
    fn delete(&mut self, ids: &[u64]) -> Result<(), Refused>
        ensures ok { OnOk result (Deletes self.old self.new ids.now) }
        ensures refused { IfErr result
            (λ refused. IsRefusal refused (unknown_of (first_unknown self.old.known ids.now))) }
        ensures unchanged { OnErr result (self.new ≡ self.old) }
    {
        if let Some(id) = first_unknown(&self.known, ids) {
            return Err(Refused::UnknownHint(id));
        }
        forget(&mut self.known, ids);
        Ok(())
    }
}

/// The first literal whose variable is above this number.
fn first_outside(vars: u32, lits: &[Lit]) -> Option<Lit>
    ensures value { result ≡ find (λ l. nat_lt vars l.var) lits.now }
    ensures within { IfNone result (AreWithin vars lits.now) }
{
    for lit in lits {
        if lit.var() > vars {
            return Some(*lit);
        }
    }
    None
}

/// The first id by which no clause is known.
fn first_unknown(known: &Known, ids: &[u64]) -> Option<u64>
    ensures { result ≡ first_unknown known.now ids.now }
{
    for id in ids {
        if known.get(*id).is_none() {
            return Some(*id);
        }
    }
    None
}

/// Takes the clauses of these ids away.
fn forget(known: &mut Known, ids: &[u64])
    ensures { (q : ℕ) → known_of known.new q ≡ without (known_of known.old) ids.now q }
{
    for id in ids {
        known.remove(*id);
    }
}
