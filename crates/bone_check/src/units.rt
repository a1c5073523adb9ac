//! The literals that an answer prints.
ghost use Rattle.std.specs.Prelude.{◌≡◌, ℕ, List};
ghost use Rattle.cnf_core.specs.Formulas.{is_shown};
ghost use Rattle.lrat_lines.specs.declared.line.Line.{Line};
ghost use Rattle.lrat_checker.specs.Checking.{StandsFor};
ghost use Rattle.bone_check.specs.Tests.{each_from};
ghost use Rattle.bone_check.specs.Proving.{unit_fault};

use crate::{Reason, Verdict};
use cnf_core::{Formula, Lit};
use lrat_checker::Checker;

/// Where the answer's first literal stands: its second line.
const FIRST_LITERAL: u64 = 2;

/// Whether each printed literal in turn is shown and reached by the proof.
pub fn judge_units(formula: &Formula, checker: &Checker, fixed: &[Lit]) -> Verdict
    ensures { (lines : List Line) → StandsFor checker.now formula.now lines
        → result ≡ each_from (unit_fault formula.now lines) 2 fixed.now }
{
    for (i, lit) in fixed.iter().enumerate() {
        if let Some(reason) = unit_fault(formula, checker, *lit) {
            return Verdict::NotVerified {
                reason,
                place: FIRST_LITERAL + i as u64,
            };
        }
    }
    Verdict::Verified
}

/// Why a printed literal doesn't pass.
fn unit_fault(formula: &Formula, checker: &Checker, lit: Lit) -> Option<Reason>
    ensures { (lines : List Line) → StandsFor checker.now formula.now lines
        → result ≡ unit_fault formula.now lines lit }
{
    if !is_shown(formula, lit) {
        Some(Reason::NotShown)
    } else if !checker.has_unit(lit) {
        Some(Reason::NoUnit)
    } else {
        None
    }
}

/// Whether the literal's variable is asked for.
fn is_shown(formula: &Formula, lit: Lit) -> bool
    ensures { result ≡ is_shown formula.now lit.var }
{
    formula.is_shown(lit.var())
}
