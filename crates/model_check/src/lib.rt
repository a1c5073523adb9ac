//! Whether an assignment is a model of a formula.
//!
//! `specs/Flips` names what the crates above speak of: an assignment with one variable flipped.
#![tactic(auto)]

ghost use Rattle.std.specs.Prelude.{◌≡◌, ◌↔◌, All, IsTrue, length, Contains};
ghost use Rattle.cnf_core.specs.Literals.{is_true as is_true_in, clause_true, all_true, IsWithin, AreWithin};
ghost use Rattle.cnf_core.specs.Formulas.{models, IsModel};

use cnf_core::{Clause, Formula, Lit, Values};

#[cfg(test)]
mod tests;

/// Whether the assignment is a model of the formula: whether it makes a literal of each clause true.
/// The clauses are read in order, each to its first true literal, up to the first clause without one.
/// It takes no memory.
pub fn is_model(formula: &Formula, values: &Values) -> bool
    requires { length values.now ≡ formula.now.vars }
    ensures model { IsTrue result ↔ IsModel formula.now values.now }
    ensures member { IsTrue result ↔ Contains (models formula.now) values.now }
{
    are_satisfied(formula.clauses(), values)
}

/// Whether the assignment makes the literal true. The literal's variable has a value.
pub fn is_true(lit: Lit, values: &Values) -> bool
    requires { IsWithin (length values.now) lit }
    ensures { result ≡ is_true_in values.now lit }
{
    values.get(lit.var()) == lit.positive()
}

/// Whether the assignment makes a literal of each clause true.
fn are_satisfied(clauses: &[Clause], values: &Values) -> bool
    requires { All (AreWithin (length values.now)) clauses.now }
    ensures { result ≡ all_true values.now clauses.now }
{
    clauses
        .iter()
        .all(|clause| is_satisfied(&clause.lits, values))
}

/// Whether the assignment makes one of the literals true.
fn is_satisfied(lits: &[Lit], values: &Values) -> bool
    requires { AreWithin (length values.now) lits.now }
    ensures { result ≡ clause_true values.now lits.now }
{
    lits.iter().any(|lit| is_true(*lit, values))
}
