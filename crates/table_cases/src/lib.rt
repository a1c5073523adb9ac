//! What tests and benches look at before they call the table: a formula with two of its models, which variables may
//! be dropped by the second, and which are fixed by a clause of one literal.
#![tactic(auto)]

ghost use Rattle.std.specs.Prelude.{◌≡◌, ℕ, ◌+◌, ◌*◌, ◌^◌, ◌<◌, ◌≤◌, suc, [], ◌∷◌, IsTrue, Contains};
ghost use Rattle.std.specs.Int.{bit_at};
ghost use Rattle.board_core.specs.Subjects.{about, candidate, groups, Opposed, Entailed};
ghost use Rattle.board_core.specs.Boards.{EachOf};
ghost use Rattle.table_cases.specs.Cases.{IsCase, IsOne};

use cnf_core::{Clause, Formula, Lit, Values};
use model_check::is_model;

/// A formula, a model of it that gives each candidate its phase, and another model.
#[derive(Drop)]
pub struct Case {
    pub formula: Formula,
    pub phases: Values,
    pub other: Values,
}

/// Whether the case is one: both assignments are models.
pub fn is_case(case: &Case) -> bool
    ensures { IsTrue result → IsCase case.now.formula case.now.phases case.now.other }
{
    let vars = case.formula.vars();
    0 < vars
        && case.phases.len() == vars
        && case.other.len() == vars
        && is_model(&case.formula, &case.phases)
        && is_model(&case.formula, &case.other)
}

/// Whether the variable is one of the formula's and shown.
#[tactic(auto, using(crate::proofs::Cases::candidate_of))]
fn is_candidate(formula: &Formula, var: u32) -> bool
    ensures range { IsTrue result → (0 < var) × (var ≤ formula.now.vars) × (var ≤ 2 ^ 20) }
    ensures candidate { IsTrue result → candidate formula.now var ≡ 1 }
{
    0 < var && var <= formula.vars() && formula.is_shown(var)
}

/// Whether the variable is shown, and the other model gives it the value opposite to its phase.
fn is_opposed(case: &Case, var: u32) -> bool
    requires { IsCase case.now.formula case.now.phases case.now.other }
    ensures { IsTrue result → IsOne (about case.now.formula case.now.phases) (Opposed (about case.now.formula case.now.phases)) var }
{
    if !is_candidate(&case.formula, var) {
        return false;
    }
    case.phases.get(var) != case.other.get(var)
}

/// Whether the clause has just this literal.
fn is_unit(clause: &Clause, lit: Lit) -> bool
    ensures { IsTrue result → clause.now ≡ lit ∷ [] }
{
    let lits = clause.as_slice();
    lits.len() == 1 && lits[0] == lit
}

/// Whether the formula has a clause of just the literal.
fn has_unit(formula: &Formula, lit: Lit) -> bool
    ensures { IsTrue result → Contains formula.now.clauses (lit ∷ []) }
{
    for clause in formula.clauses() {
        if is_unit(clause, lit) {
            return true;
        }
    }
    false
}

/// Whether the variable is shown, and its phase literal is a clause.
fn is_given(case: &Case, var: u32) -> bool
    requires { IsCase case.now.formula case.now.phases case.now.other }
    ensures { IsTrue result → IsOne (about case.now.formula case.now.phases) (Entailed (about case.now.formula case.now.phases)) var }
{
    if !is_candidate(&case.formula, var) {
        return false;
    }
    has_unit(&case.formula, Lit::new(var, case.phases.get(var)))
}

/// Whether a bit of the mask is off, or its variable may be dropped.
fn is_droppable(case: &Case, group: u32, mask: u32, bit: u32) -> bool
    requires case { IsCase case.now.formula case.now.phases case.now.other }
    requires bit { (group < 2 ^ 20) × (bit < 32) }
    ensures { IsTrue result → bit_at mask bit ≡ 1 → IsOne (about case.now.formula case.now.phases) (Opposed (about case.now.formula case.now.phases)) (suc (32 * group + bit)) }
{
    (mask >> bit) & 1 == 0 || is_opposed(case, 32 * group + bit + 1)
}

/// Whether a bit of the mask is off, or its variable may be fixed.
fn is_fixable(case: &Case, group: u32, mask: u32, bit: u32) -> bool
    requires case { IsCase case.now.formula case.now.phases case.now.other }
    requires bit { (group < 2 ^ 20) × (bit < 32) }
    ensures { IsTrue result → bit_at mask bit ≡ 1 → IsOne (about case.now.formula case.now.phases) (Entailed (about case.now.formula case.now.phases)) (suc (32 * group + bit)) }
{
    (mask >> bit) & 1 == 0 || is_given(case, 32 * group + bit + 1)
}

/// Whether all variables of the mask may be dropped.
pub fn may_drop(case: &Case, group: u32, mask: u32) -> bool
    requires { IsCase case.now.formula case.now.phases case.now.other }
    ensures { IsTrue result → (group < groups case.now.formula.vars)
        × EachOf (about case.now.formula case.now.phases) (Opposed (about case.now.formula case.now.phases)) group mask }
{
    if group >= case.formula.vars().div_ceil(32) {
        return false;
    }
    for bit in 0..32 {
        if !is_droppable(case, group, mask, bit) {
            return false;
        }
    }
    true
}

/// Whether all variables of the mask may be fixed.
pub fn may_fix(case: &Case, group: u32, mask: u32) -> bool
    requires { IsCase case.now.formula case.now.phases case.now.other }
    ensures { IsTrue result → (group < groups case.now.formula.vars)
        × EachOf (about case.now.formula case.now.phases) (Entailed (about case.now.formula case.now.phases)) group mask }
{
    if group >= case.formula.vars().div_ceil(32) {
        return false;
    }
    for bit in 0..32 {
        if !is_fixable(case, group, mask, bit) {
            return false;
        }
    }
    true
}
