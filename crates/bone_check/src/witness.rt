//! A witness that was read.
ghost use Rattle.std.specs.Prelude.{◌≡◌, length, IfOk};
ghost use Rattle.cnf_core.specs.Literals.{AreWithin};
ghost use Rattle.witness_text.specs.Texts.{told_by};
ghost use Rattle.witness_text.specs.Told.{IsWitness};
ghost use Rattle.bone_check.specs.Witnessing.{witness_verdict};
ghost use Rattle.bone_check.specs.Steps.Dropping.{AreModels};
ghost use Rattle.bone_check.specs.Steps.Verified.{is_verified, lines_verdict};

use crate::cover::judge_cover;
use crate::drops::judge_drops;
use crate::models::judge_models;
use crate::{Reason, Verdict};
use cnf_core::{Formula, Lit, NoMemory, Values};
use std::alloc::Global;
use witness_text::WitnessText;

/// Whether the witness has models alone, with one of them against each of its drop lines, and the printed literals
/// and the drop lines have each shown variable.
pub fn judge_witness(
    alloc: Global,
    formula: &Formula,
    fixed: &[Lit],
    text: &WitnessText,
) -> Result<Verdict, NoMemory>
    requires fixed { AreWithin formula.now.vars fixed.now }
    requires text { IsWitness formula.now.vars (told_by formula.now.vars text.now) }
    ensures { IfOk result (λ verdict. verdict
        ≡ witness_verdict formula.now fixed.now (told_by formula.now.vars text.now)) }
{
    if text.models.len() == 0 {
        return Ok(Verdict::NotVerified {
            reason: Reason::NoModel,
            place: 1,
        });
    }
    let mut values = Values::new(alloc, formula.vars())?;
    let verdict = judge_models(formula, &text.models, &mut values);
    if !is_verified(verdict) {
        return Ok(verdict);
    }
    judge_lines(alloc, formula, fixed, text, &mut values)
}

/// Whether each drop line has a model against it, and the printed literals and the drop lines have each shown
/// variable.
fn judge_lines(
    alloc: Global,
    formula: &Formula,
    fixed: &[Lit],
    text: &WitnessText,
    values: &mut Values,
) -> Result<Verdict, NoMemory>
    requires fixed { AreWithin formula.now.vars fixed.now }
    requires text { IsWitness formula.now.vars (told_by formula.now.vars text.now) }
    requires models { AreModels formula.now text.now.models }
    requires values { length values.old ≡ formula.now.vars }
    ensures { IfOk result (λ verdict. verdict
        ≡ lines_verdict formula.now fixed.now text.now.models text.now.drops.items) }
{
    let verdict = judge_drops(alloc, formula, &text.models, &text.drops, values)?;
    if !is_verified(verdict) {
        return Ok(verdict);
    }
    judge_cover(alloc, formula, fixed, &text.drops)
}

/// Whether all tests passed.
pub fn is_verified(verdict: Verdict) -> bool
    ensures { result ≡ is_verified verdict }
{
    match verdict {
        Verdict::Verified => true,
        Verdict::NotVerified { .. } => false,
    }
}
