ghost use Rattle.std.specs.Prelude.{◌≡◌, ◌↔◌, ◌^◌, ◌≤◌, [], length, filter, IsNone, IfOk, IfSome, MatchOption};
ghost use Rattle.std.specs.Option.{ForSome};
ghost use Rattle.cnf_core.specs.Literals.{is_true as is_true_in, AreWithin};
ghost use Rattle.cnf_core.specs.Formulas.{models, backbone, shown_backbone, is_shown, true_literals};
ghost use Rattle.backbone_main.specs.Steps.Numbered.{assignment_at};

use cnf_core::{Formula, Lit, NoMemory, Values};
use model_check::{is_model, is_true};
use std::alloc::Global;

/// The most variables of a formula whose assignments are all looked at.
pub const MOST_VARS: u32 = 12;

/// The shown part of the backbone of a formula of at most [`MOST_VARS`] variables, or `None` where it has
/// no model.
///
/// The literals are those of shown variables that every model makes true, by variable. All assignments are
/// looked at, so the time doubles with each variable.
#[tactic(auto, unfolding(cnf_core::specs::Formulas::shown_backbone))]
pub fn solve(alloc: Global, formula: &Formula) -> Result<Option<Vec<Lit>>, NoMemory>
    requires { formula.now.vars ≤ MOST_VARS }
    ensures unsatisfiable { IfOk result (λ answer. IsNone answer ↔ (models formula.now ≡ [])) }
    ensures backbone { IfOk result (λ answer.
        IfSome answer (λ lits. lits.items ≡ shown_backbone formula.now)) }
{
    let mut values = Values::new(alloc, formula.vars())?;
    match common_literals(alloc, formula, &mut values)? {
        Some(fixed) => Ok(Some(shown_ones(alloc, formula, &fixed)?)),
        None => Ok(None),
    }
}

/// Those of the literals whose variables are shown.
fn shown_ones(alloc: Global, formula: &Formula, lits: &[Lit]) -> Result<Vec<Lit>, NoMemory>
    ensures { IfOk result (λ kept. kept.items ≡ filter (λ l. is_shown formula.now l.var) lits.now) }
{
    let kept = lits
        .iter()
        .copied()
        .filter(|lit| formula.is_shown(lit.var()));
    Ok(kept.collect(alloc)?)
}

/// The literals that are true in every model, or `None` where there is no model. The values are
/// written over by each assignment in turn.
fn common_literals(
    alloc: Global,
    formula: &Formula,
    values: &mut Values,
) -> Result<Option<Vec<Lit>>, NoMemory>
    requires few { formula.now.vars ≤ MOST_VARS }
    requires long { length values.old ≡ formula.now.vars }
    ensures unsatisfiable { IfOk result (λ answer. IsNone answer ↔ (models formula.now ≡ [])) }
    ensures backbone { IfOk result (λ answer.
        IfSome answer (λ lits. lits.items ≡ backbone formula.now)) }
{
    let mut common = None;
    for number in 0..assignment_count(formula.vars()) {
        write_assignment(values, number);
        if is_model(formula, values) {
            common = Some(narrowed(alloc, common, values)?);
        }
    }
    Ok(common)
}

/// The number of assignments of so many variables.
fn assignment_count(vars: u32) -> u32
    requires { vars ≤ MOST_VARS }
    ensures { result ≡ 2 ^ vars }
{
    1 << vars
}

/// Makes the values those of the assignment with this number.
fn write_assignment(values: &mut Values, number: u32)
    ensures value { values.new ≡ assignment_at (length values.old) number }
    ensures len { length values.new ≡ length values.old }
{
    let mut rest = number;
    for i in 0..values.len() {
        values.set(i + 1, rest % 2 == 1);
        rest /= 2;
    }
}

/// Of the literals that are common to the models so far, those that are true in one model more.
/// Where it is the first, they are all of its own.
fn narrowed(alloc: Global, common: Option<Vec<Lit>>, model: &Values) -> Result<Vec<Lit>, NoMemory>
    requires few { length model.now ≤ MOST_VARS }
    requires within { ForSome common (λ lits. AreWithin (length model.now) lits.items) }
    ensures { IfOk result (λ lits. MatchOption common
        (lits.items ≡ true_literals model.now (length model.now))
        (λ before. lits.items ≡ filter (is_true_in model.now) before.items)) }
{
    match common {
        None => literals_of(alloc, model),
        Some(before) => true_ones(alloc, &before, model),
    }
}

/// Those of the literals that are true.
fn true_ones(alloc: Global, lits: &[Lit], values: &Values) -> Result<Vec<Lit>, NoMemory>
    requires { AreWithin (length values.now) lits.now }
    ensures { IfOk result (λ kept. kept.items ≡ filter (is_true_in values.now) lits.now) }
{
    let kept = lits.iter().copied().filter(|lit| is_true(*lit, values));
    Ok(kept.collect(alloc)?)
}

/// The literals that are true, by variable.
#[tactic(auto, using(cnf_core::proofs::Truth::true_literals_steps))]
fn literals_of(alloc: Global, values: &Values) -> Result<Vec<Lit>, NoMemory>
    requires { length values.now ≤ MOST_VARS }
    ensures { IfOk result (λ lits. lits.items ≡ true_literals values.now (length values.now)) }
{
    let mut lits = Vec::with_capacity(alloc, values.len() as usize)?;
    for i in 0..values.len() {
        lits.push(Lit::new(i + 1, values.get(i + 1)))?;
    }
    Ok(lits)
}

#[cfg(test)]
mod tests {
    use super::*;
    use std::test::Fail;

    #[test]
    fn small_formulas_have_their_known_backbones(rt: HostRuntime) -> Result<(), Fail> {
        for (vars, clauses, expected) in [
            (
                3,
                [1, 0, -1, 2, 0, 2, 3, 0].as_slice(),
                Some([1, 2].as_slice()),
            ),
            (0, [].as_slice(), Some([].as_slice())),
            (1, [1, 0, -1, 0].as_slice(), None),
            (2, [1, 2, 0, 1, -2, 0].as_slice(), Some([1].as_slice())),
            (2, [1, 2, 0].as_slice(), Some([].as_slice())),
            (3, [1, -1, 0].as_slice(), Some([].as_slice())),
            (2, [2, 2, 0].as_slice(), Some([2].as_slice())),
            (2, [0].as_slice(), None),
            (3, [-3, 0, 3, -1, 0].as_slice(), Some([-1, -3].as_slice())),
            (
                3,
                [
                    1, 2, 3, 0, 1, 2, -3, 0, 1, -2, 3, 0, 1, -2, -3, 0, -1, 2, 3, 0, -1, 2, -3, 0,
                    -1, -2, 3, 0, -1, -2, -3, 0,
                ]
                .as_slice(),
                None,
            ),
        ] {
            let formula = Formula::of_numbers(rt.alloc(), vars, clauses)?;
            assert!(rt; formula.vars() <= MOST_VARS);
            match (solve(rt.alloc(), &formula)?, expected) {
                (Some(lits), Some(numbers)) => {
                    let found = lits.iter().map(|lit| lit.number());
                    assert!(rt; found.eq(numbers.iter().copied()), "{clauses:?}");
                }
                (None, None) => {}
                _ => panic!(rt; "satisfiable or not: {clauses:?}"),
            }
        }
        Ok(())
    }
}
