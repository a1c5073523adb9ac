//! The literals of a report that are still open.
ghost use Rattle.std.specs.Prelude.{◌≡◌, ◌<◌, ◌≤◌, IfOk, All, filter, length};
ghost use Rattle.cnf_core.specs.Literals.{Literal, AreWithin, IsWithin};
ghost use Rattle.cnf_core.specs.Formulas.{true_literals};
ghost use Rattle.model_store.specs.Stores.{model_at};
ghost use Rattle.model_store.specs.declared.witness.Witness.{Witness};
ghost use Rattle.run_core.specs.Outcomes.{IsReport};
ghost use Rattle.backbone_main.specs.Steps.Open.{open_literals, is_unmarked, IsMarked};

use cnf_core::{Formula, Lit, NoMemory, Values};
use model_store::{ModelStore, Witness};
use run_core::Report;
use std::alloc::Global;

/// The first model's literals of the shown variables that are neither dropped nor fixed, by variable.
pub fn open_literals(
    alloc: Global,
    formula: &Formula,
    report: &Report,
) -> Result<Vec<Lit>, NoMemory>
    requires { IsReport formula.now report.now }
    ensures { IfOk result (λ still. still.items ≡ open_literals formula.now report.now) }
{
    let mut closed = Values::new(alloc, formula.vars())?;
    mark_drops(&mut closed, &report.drops);
    mark_fixes(&mut closed, &report.fixes);
    unmarked_literals(alloc, formula, &report.models, &closed)
}

/// Marks the variables of the drops.
fn mark_drops(closed: &mut Values, drops: &[Witness])
    requires { All (λ (w : Witness). (0 < w.var) × (w.var ≤ length closed.old)) drops.now }
    ensures { IsMarked (λ (w : Witness). w.var) drops.now closed.old closed.new }
{
    for drop in drops {
        closed.set(drop.var, true);
    }
}

/// Marks the variables of the literals.
fn mark_fixes(closed: &mut Values, fixes: &[Lit])
    requires { AreWithin (length closed.old) fixes.now }
    ensures { IsMarked (λ (l : Literal). l.var) fixes.now closed.old closed.new }
{
    for lit in fixes {
        closed.set(lit.var(), true);
    }
}

/// The first model's literals of the shown variables without a mark, by variable.
#[tactic(auto, using(crate::proofs::Partial::unmarked_none, crate::proofs::Partial::unmarked_more))]
fn unmarked_literals(
    alloc: Global,
    formula: &Formula,
    models: &ModelStore,
    closed: &Values,
) -> Result<Vec<Lit>, NoMemory>
    requires formula { models.now.formula ≡ formula.now }
    requires some { 0 < length models.now.models }
    requires closed { length closed.now ≡ formula.now.vars }
    ensures { IfOk result (λ still. still.items
        ≡ filter (is_unmarked formula.now closed.now) (true_literals (model_at models.now 0) formula.now.vars)) }
{
    let mut still = Vec::new(alloc);
    for i in 0..formula.vars() {
        let lit = Lit::new(i + 1, models.value(0, i + 1));
        if is_unmarked(formula, closed, lit) {
            still.push(lit)?;
        }
    }
    Ok(still)
}

/// Whether the literal's variable is shown and has no mark.
fn is_unmarked(formula: &Formula, closed: &Values, lit: Lit) -> bool
    requires { IsWithin (length closed.now) lit }
    ensures { result ≡ is_unmarked formula.now closed.now lit }
{
    formula.is_shown(lit.var()) && !closed.get(lit.var())
}
