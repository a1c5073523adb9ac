ghost use Rattle.std.specs.Prelude.{◌≡◌, ◌^◌, ◌<◌, ◌≤◌, ◌↔◌, IsTrue, OnOk, OnErr};
ghost use Rattle.cnf_core.specs.Formulas.{empty_formula, with_clause, is_shown, restricted, showing, IsRestricted, HasRoom, IsFormula};

use crate::{Clause, Lit, NoMemory, Values};
use std::alloc::Global;
use std::marker::Model;

/// The most clauses of a formula: 2^21.
pub const MAX_CLAUSES: usize = 2_097_152;

/// The most literals that all clauses have together: 2^23.
pub const MAX_LITERALS: usize = 8_388_608;

/// A formula in conjunctive normal form over the variables 1 to [`Formula::vars`], always within the
/// limits: at most 2^20 variables, 2^21 clauses and 2^23 literals, and no other variables.
///
/// It also says which of its variables are shown, that is asked for: all of them, until
/// [`Formula::restrict`] is called. Its models and what it entails don't depend on that.
#[derive(Debug, Drop)]
pub struct Formula {
    vars: u32,
    literals: usize,
    clauses: Vec<Clause>,
    /// Which variables are shown; none where all are.
    shown: Option<Values>,
}

impl Model for Formula {
    ghost use Rattle.cnf_core.specs.Formulas.{Cnf, literal_count, IsFormula};
    ghost use Rattle.cnf_core.specs.Steps.Counted.{IsCounted};

    ghost Value = { Cnf };

    ghost view = { λ f. record { vars = f.vars; clauses = f.clauses.items; shown = f.shown } };

    ghost invariant = { λ f. IsCounted f.literals (record { vars = f.vars; clauses = f.clauses.items; shown = f.shown }) };
}

impl Formula {
    /// The formula over so many variables, at most 2^20, without clauses, which shows all of them. It
    /// takes no memory.
    pub fn new(alloc: Global, vars: u32) -> Formula
        requires { vars ≤ 2 ^ 20 }
        ensures { result ≡ empty_formula vars }
    {
        Formula {
            vars,
            literals: 0,
            clauses: Vec::new(alloc),
            shown: None,
        }
    }

    /// Whether a clause of these literals may be added: each variable is one of the formula's, and the
    /// limits leave room.
    pub fn room(&self, lits: &[Lit]) -> bool
        ensures { IsTrue result ↔ HasRoom self.now lits.now }
    {
        self.clauses.len() < MAX_CLAUSES
            && lits.len() <= MAX_LITERALS - self.literals
            && lits.iter().all(|lit| lit.var() <= self.vars)
    }

    /// Adds a clause at the end. Without memory for it the formula stays as it was.
    pub fn push(&mut self, clause: Clause) -> Result<(), NoMemory>
        requires { HasRoom self.old clause }
        ensures ok { OnOk result (self.new ≡ with_clause self.old clause) }
        ensures err { OnErr result (self.new ≡ self.old) }
    {
        let count = clause.lits.len();
        self.clauses.push(clause)?;
        self.literals += count;
        Ok(())
    }

    /// How many variables there are, at most 2^20.
    pub fn vars(&self) -> u32
        ensures value { result ≡ self.now.vars }
        ensures limits { IsFormula self.now }
    {
        self.vars
    }

    /// The clauses, in the order in which they were added.
    pub fn clauses(&self) -> &[Clause]
        ensures value { result.now ≡ self.now.clauses }
        ensures limits { IsFormula self.now }
    {
        &self.clauses
    }

    /// Shows no variable from here on, but those that [`Formula::show`] names. Where it was called before,
    /// nothing changes. Without memory for the marks the formula stays as it was.
    pub fn restrict(&mut self) -> Result<(), NoMemory>
        ensures ok { OnOk result (self.new ≡ restricted self.old) }
        ensures err { OnErr result (self.new ≡ self.old) }
    {
        if self.shown.is_none() {
            self.shown = Some(Values::new(*self.clauses.allocator(), self.vars)?);
        }
        Ok(())
    }

    /// Shows one of the variables 1 to [`Formula::vars`], after [`Formula::restrict`].
    pub fn show(&mut self, var: u32)
        requires restricted { IsRestricted self.old }
        requires within { (0 < var) × (var ≤ self.old.vars) }
        ensures { self.new ≡ showing self.old var }
    {
        if let Some(marks) = &mut self.shown {
            marks.set(var, true);
        }
    }

    /// Whether the variable is one of the formula's and is shown.
    pub fn is_shown(&self, var: u32) -> bool
        ensures { result ≡ is_shown self.now var }
    {
        0 < var
            && var <= self.vars
            && match &self.shown {
                None => true,
                Some(marks) => marks.get(var),
            }
    }
}
