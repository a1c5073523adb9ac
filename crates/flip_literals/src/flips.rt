ghost use Rattle.std.specs.Prelude.{◌≡◌, length};
ghost use Rattle.cnf_core.specs.Literals.{AreWithin};
ghost use Rattle.cnf_core.specs.Formulas.{IsModel};
ghost use Rattle.flip_literals.specs.Critical.{MarksCritical};
ghost use Rattle.flip_literals.specs.Steps.Supports.{IsSupport};

use crate::Marks;
use cnf_core::{Formula, Lit, Values};
use model_check::is_true;

/// Marks exactly the variables whose flip alone leaves no model, and clears all other marks.
///
/// It is one pass over the formula, and takes no memory. Each clause is left at its second different
/// true literal; one that has a literal and its negation rests on no variable.
pub fn critical(formula: &Formula, model: &Values, marks: &mut Marks)
    requires model { IsModel formula.now model.now }
    requires marks { length marks.old ≡ formula.now.vars }
    ensures { MarksCritical formula.now model.now marks.new }
{
    marks.clear();
    for clause in formula.clauses() {
        if let Some(lit) = support(&clause.lits, model) {
            marks.mark(lit.var());
        }
    }
}

/// The true literal that the clause rests on alone: there is no other true one, and not its negation.
fn support(lits: &[Lit], values: &Values) -> Option<Lit>
    requires { AreWithin (length values.now) lits.now }
    ensures { IsSupport values.now lits.now result }
{
    let mut found: Option<Lit> = None;
    for lit in lits {
        if is_true(*lit, values) {
            match found {
                Some(first) if first != *lit => return None,
                _ => found = Some(*lit),
            }
        }
    }
    match found {
        Some(first) if lits.contains(&first.negated()) => None,
        _ => found,
    }
}
