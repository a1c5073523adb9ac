//! The drop lines of a witness.
ghost use Rattle.std.specs.Prelude.{◌≡◌, ◌+◌, ◌<◌, ◌≤◌, true, length, IfOk};
ghost use Rattle.cnf_core.specs.Literals.{is_true as is_true_in, IsWithin};
ghost use Rattle.cnf_core.specs.Formulas.{Cnf, IsModel};
ghost use Rattle.flip_literals.specs.Critical.{MarksCritical};
ghost use Rattle.witness_text.specs.Models.{model_in};
ghost use Rattle.bone_check.specs.Tests.{each_from};
ghost use Rattle.bone_check.specs.Witnessing.{is_against, drop_fault};
ghost use Rattle.bone_check.specs.Steps.Dropping.{
  AreNamed,
  AreModels,
  AreTheirs,
  IsChained,
  PassBefore,
  PassBelow,
  FailsAt,
  flips_against,
};

use crate::chains::{Chains, line_at};
use crate::{Reason, Verdict};
use cnf_core::{Formula, Lit, NoMemory, Values};
use flip_literals::{Marks, critical};
use model_check::is_true;
use std::alloc::Global;
use witness_text::{PackedModels, WitnessLine};

/// Whether each drop line in turn has its literal true in the first model, and false in the model that it
/// takes, flipped or not.
///
/// The models are gone through one by one, and for each that a line takes flipped there is one pass over the
/// formula, however many lines take it. The values are for a model's copy.
pub fn judge_drops(
    alloc: Global,
    formula: &Formula,
    models: &PackedModels,
    drops: &[WitnessLine],
    values: &mut Values,
) -> Result<Verdict, NoMemory>
    requires models { AreModels formula.now models.now }
    requires named { AreNamed (length models.now) drops.now }
    requires theirs { AreTheirs formula.now.vars drops.now }
    requires values { length values.old ≡ formula.now.vars }
    ensures { IfOk result (λ verdict. verdict
        ≡ each_from (drop_fault formula.now models.now) (length models.now + 1) drops.now) }
{
    let chains = Chains::new(alloc, models.len(), drops)?;
    let mut marks = Marks::new(alloc, formula.vars())?;
    let place = first_failing(formula, models, drops, &chains, values, &mut marks);
    if place == drops.len() {
        return Ok(Verdict::Verified);
    }
    Ok(Verdict::NotVerified {
        reason: Reason::NotAgainst,
        place: models.len() + 1 + place as u64,
    })
}

/// The place of the first line that doesn't pass, or that behind the last one.
fn first_failing(
    formula: &Formula,
    models: &PackedModels,
    drops: &[WitnessLine],
    chains: &Chains,
    values: &mut Values,
    marks: &mut Marks,
) -> usize
    requires models { AreModels formula.now models.now }
    requires chained { IsChained drops.now 0 (length models.now) chains.now }
    requires theirs { AreTheirs formula.now.vars drops.now }
    requires values { length values.old ≡ formula.now.vars }
    requires marks { length marks.old ≡ formula.now.vars }
    ensures within { result ≤ length drops.now }
    ensures pass { PassBelow formula.now models.now drops.now (length models.now) result }
    ensures fails { FailsAt formula.now models.now drops.now result }
{
    let mut least = drops.len();
    for number in 0..models.len() {
        models.copy_to(number, values);
        least = failing_before(formula, models, drops, chains, number, least, values, marks);
    }
    least
}

/// The place of the first line before `least` that takes this model and doesn't pass, or `least`.
fn failing_before(
    formula: &Formula,
    models: &PackedModels,
    drops: &[WitnessLine],
    chains: &Chains,
    number: u64,
    least: usize,
    values: &Values,
    marks: &mut Marks,
) -> usize
    requires number { number < length models.now }
    requires models { AreModels formula.now models.now }
    requires chained { IsChained drops.now 0 (length models.now) chains.now }
    requires theirs { AreTheirs formula.now.vars drops.now }
    requires least { least ≤ length drops.now }
    requires values { values.now ≡ model_in models.now number }
    requires marks { length marks.old ≡ formula.now.vars }
    ensures within { result ≤ least }
    ensures pass { PassBefore formula.now models.now drops.now number result }
    ensures fails { result < least → FailsAt formula.now models.now drops.now result }
    ensures marks { length marks.new ≡ formula.now.vars }
{
    let mut place = chains.first(number);
    let mut marked = false;
    while place < least {
        let drop = line_at(drops, place);
        marked = mark_once(formula, values, marks, marked, drop.flip);
        if !is_against(models, values, marks, drop) {
            return place;
        }
        place = chains.next(place);
    }
    least
}

/// Marks what the model can't do without, where that is wanted and not done yet, and answers whether it is done.
fn mark_once(
    formula: &Formula,
    values: &Values,
    marks: &mut Marks,
    marked: bool,
    wanted: bool,
) -> bool
    requires model { IsModel formula.now values.now }
    requires marks { length marks.old ≡ formula.now.vars }
    requires marked { marked ≡ true → MarksCritical formula.now values.now marks.old }
    ensures marks { length marks.new ≡ formula.now.vars }
    ensures marked { result ≡ true → MarksCritical formula.now values.now marks.new }
    ensures wanted { wanted ≡ true → result ≡ true }
{
    if marked || !wanted {
        return marked;
    }
    critical(formula, values, marks);
    true
}

/// Whether the line's literal is true in the first model, and false in its model, which these values are,
/// flipped where it says so. The marks are those of the values, where it is flipped.
fn is_against(models: &PackedModels, values: &Values, marks: &Marks, drop: WitnessLine) -> bool
    requires some { 0 < length models.now }
    requires first { drop.lit.var ≤ length (model_in models.now 0) }
    requires within { IsWithin (length values.now) drop.lit }
    requires marks { length marks.now ≡ length values.now }
    ensures { (F : Cnf) → IsModel F values.now → values.now ≡ model_in models.now drop.model
        → (drop.flip ≡ true → MarksCritical F values.now marks.now)
        → result ≡ is_against F models.now drop }
{
    if !is_true_in_first(models, drop.lit) {
        return false;
    }
    if drop.flip {
        return is_false_flipped(values, marks, drop.lit);
    }
    !is_true(drop.lit, values)
}

/// Whether the first model makes the literal true.
fn is_true_in_first(models: &PackedModels, lit: Lit) -> bool
    requires some { 0 < length models.now }
    requires within { lit.var ≤ length (model_in models.now 0) }
    ensures { result ≡ is_true_in (model_in models.now 0) lit }
{
    models.value(0, lit.var()) == lit.positive()
}

/// Whether the model that these values are is also one with the literal's variable flipped, and the literal is
/// false then.
fn is_false_flipped(values: &Values, marks: &Marks, lit: Lit) -> bool
    requires within { IsWithin (length values.now) lit }
    requires marks { length marks.now ≡ length values.now }
    ensures { (F : Cnf) → IsModel F values.now → MarksCritical F values.now marks.now
        → result ≡ flips_against F values.now lit }
{
    if marks.is(lit.var()) {
        return false;
    }
    is_true(lit, values)
}
