//! The model lines of a witness.
ghost use Rattle.std.specs.Prelude.{◌≡◌, length};
ghost use Rattle.bone_check.specs.Tests.{each_from};
ghost use Rattle.bone_check.specs.Witnessing.{model_fault};
ghost use Rattle.bone_check.specs.Steps.Dropping.{HaveValues};

use crate::{Reason, Verdict};
use cnf_core::{Formula, Values};
use model_check::is_model;
use witness_text::PackedModels;

/// Whether each model line in turn is a model of the formula. The values are for its copy.
pub fn judge_models(formula: &Formula, models: &PackedModels, values: &mut Values) -> Verdict
    requires models { HaveValues formula.now.vars models.now }
    requires values { length values.old ≡ formula.now.vars }
    ensures verdict { result ≡ each_from (model_fault formula.now) 1 models.now }
    ensures values { length values.new ≡ formula.now.vars }
{
    for number in 0..models.len() {
        models.copy_to(number, values);
        if let Some(reason) = model_fault(formula, values) {
            return Verdict::NotVerified {
                reason,
                place: number + 1,
            };
        }
    }
    Verdict::Verified
}

/// Why these values don't pass as a model.
#[tactic(auto, using(crate::proofs::Judged::told_none, crate::proofs::Judged::told_some))]
fn model_fault(formula: &Formula, values: &Values) -> Option<Reason>
    requires { length values.now ≡ formula.now.vars }
    ensures { result ≡ model_fault formula.now values.now }
{
    if is_model(formula, values) {
        None
    } else {
        Some(Reason::NotAModel)
    }
}
