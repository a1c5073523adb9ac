//! The variables that an answer and a witness speak of.
ghost use Rattle.std.specs.Prelude.{◌≡◌, ◌==◌, ◌||◌, ◌<◌, ◌≤◌, ℕ, All, length, IfOk};
ghost use Rattle.std.specs.List.{list_any};
ghost use Rattle.cnf_core.specs.Literals.{value_of, AreWithin, IsWithin};
ghost use Rattle.bone_check.specs.Tests.{each_from};
ghost use Rattle.bone_check.specs.Witnessing.{cover_fault, variables};
ghost use Rattle.bone_check.specs.Steps.Covering.{mark_fault};

use crate::{Reason, Verdict};
use cnf_core::{Formula, Lit, NoMemory, Values};
use std::alloc::Global;
use witness_text::WitnessLine;

/// Whether each shown variable is that of a printed literal or of a drop line.
pub fn judge_cover(
    alloc: Global,
    formula: &Formula,
    fixed: &[Lit],
    drops: &[WitnessLine],
) -> Result<Verdict, NoMemory>
    requires fixed { AreWithin formula.now.vars fixed.now }
    requires drops { All (λ d. IsWithin formula.now.vars d.lit) drops.now }
    ensures { IfOk result (λ verdict. verdict
        ≡ each_from (cover_fault formula.now fixed.now drops.now) 1 (variables formula.now.vars)) }
{
    let mut covered = Values::new(alloc, formula.vars())?;
    cover_literals(&mut covered, fixed);
    cover_drops(&mut covered, drops);
    Ok(first_uncovered(formula, &covered))
}

/// Marks the literals' variables.
fn cover_literals(covered: &mut Values, fixed: &[Lit])
    requires { AreWithin (length covered.old) fixed.now }
    ensures length { length covered.new ≡ length covered.old }
    ensures marked { (v : ℕ) → 0 < v → v ≤ length covered.old → value_of covered.new v
        ≡ (value_of covered.old v || list_any (λ l. l.var == v) fixed.now) }
{
    for lit in fixed {
        covered.set(lit.var(), true);
    }
}

/// Marks the drop lines' variables.
fn cover_drops(covered: &mut Values, drops: &[WitnessLine])
    requires { All (λ d. IsWithin (length covered.old) d.lit) drops.now }
    ensures length { length covered.new ≡ length covered.old }
    ensures marked { (v : ℕ) → 0 < v → v ≤ length covered.old → value_of covered.new v
        ≡ (value_of covered.old v || list_any (λ d. d.lit.var == v) drops.now) }
{
    for drop in drops {
        covered.set(drop.lit.var(), true);
    }
}

/// Whether each shown variable is marked.
fn first_uncovered(formula: &Formula, covered: &Values) -> Verdict
    requires { length covered.now ≡ formula.now.vars }
    ensures { result ≡ each_from (mark_fault formula.now covered.now) 1 (variables formula.now.vars) }
{
    for k in 0..formula.vars() {
        if let Some(reason) = mark_fault(formula, covered, k + 1) {
            return Verdict::NotVerified {
                reason,
                place: u64::from(k) + 1,
            };
        }
    }
    Verdict::Verified
}

/// Why a variable doesn't pass, by its mark.
fn mark_fault(formula: &Formula, covered: &Values, var: u32) -> Option<Reason>
    requires { (0 < var) × (var ≤ length covered.now) }
    ensures { result ≡ mark_fault formula.now covered.now var }
{
    if formula.is_shown(var) && !covered.get(var) {
        Some(Reason::NotCovered)
    } else {
        None
    }
}
