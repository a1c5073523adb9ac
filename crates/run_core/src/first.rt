//! The search for a first model.
ghost use Rattle.std.specs.Prelude.{◌≡◌, ◌+◌, ◌^◌, ◌<◌, ◌≤◌, false, [], ◌∷◌, length, All, IfOk, IfErr};
ghost use Rattle.std.specs.Vec.Iter.{into_iter_len};
ghost use Rattle.cnf_core.specs.Formulas.{IsModel, models};
ghost use Rattle.lrat_log.specs.Entries.{is_import};
ghost use Rattle.lrat_log.specs.Kept.{IsLog};
ghost use Rattle.cert_merge.specs.MergedNeeds.{HasEmptyEntry};
ghost use Rattle.board_core.specs.Subjects.{about};
ghost use Rattle.worker_loop.specs.Posts.{IsFirst};
ghost use Rattle.run_core.specs.Outcomes.{OutcomeSays, IsComplete, IsRefuted};

use crate::{Outcome, Report, RunSettings};
use assumption_solver::{Found, Solver};
use cert_merge::merge_needed;
use chooser_core::Chooser;
use cnf_core::{Formula, NoMemory, Values};
use lrat_lines::Proof;
use lrat_log::Log;
use model_store::ModelStore;
use std::alloc::Global;
use std::vec::IntoIter;

/// What the first search leaves: a model, and the solver that found it, with its chooser and the choosers of the others.
#[derive(Drop)]
pub(crate) struct First<'f> {
    pub model: Values,
    pub solver: Solver<'f>,
    pub chooser: Box<dyn Chooser>,
    pub others: IntoIter<Box<dyn Chooser>>,
}

/// Searches a model with the first chooser. Where there is none, or the formula has no variables, the run ends here.
pub(crate) fn search<'f>(
    alloc: Global,
    formula: &'f Formula,
    settings: RunSettings,
    choosers: Vec<Box<dyn Chooser>>,
) -> Result<First<'f>, Outcome<'f>>
    requires budget { (1 ≤ settings.budget) × (settings.budget ≤ 2 ^ 40) }
    requires choosers { 1 ≤ length choosers.items }
    ensures vars { IfOk result (λ first. (0 < formula.now.vars) × (formula.now.vars ≤ 2 ^ 20)) }
    ensures model { IfOk result (λ first. IsModel formula.now first.model) }
    ensures solver { IfOk result (λ first. IsFirst (about formula.now first.model) settings.budget first.solver) }
    ensures others { IfOk result (λ first. length choosers.items ≡ 1 + into_iter_len first.others) }
    ensures ended { IfErr result (OutcomeSays formula.now settings.workers settings.budget) }
{
    let mut others = choosers.into_iter();
    let Some(mut chooser) = others.next() else {
        unreachable!()
    };
    chooser.begin(formula.vars(), settings.seed)?;
    let mut solver = Solver::new(alloc, formula)?;
    match solver.solve(&[], &[], &mut chooser, settings.budget) {
        Found::Model(model) => {
            if formula.vars() == 0 {
                let report = lone_model(alloc, formula, &model, solver.into_log())?;
                return Err(Outcome::Complete(report));
            }
            Ok(First {
                model,
                solver,
                chooser,
                others,
            })
        }
        Found::Unsat { .. } => Err(Outcome::Unsat(refutation(alloc, formula, solver.into_log())?)),
        Found::Spent => {
            let log = solver.into_log();
            prove_log(&log);
            Err(Outcome::Unknown(log))
        }
        Found::Memory => Err(Outcome::Memory(None)),
        Found::Core { .. } => unreachable!(),
        Found::AllFixed => unreachable!(),
    }
}

/// The report of a formula without variables: its one model.
fn lone_model<'f>(
    alloc: Global,
    formula: &'f Formula,
    model: &Values,
    log: Log<'f>,
) -> Result<Report<'f>, NoMemory>
    requires vars { formula.now.vars ≡ 0 }
    requires model { IsModel formula.now model.now }
    requires log { log.formula ≡ formula.now }
    requires shown { All (λ e. is_import e.kind ≡ false) log.entries }
    ensures { IfOk result (IsComplete formula.now) }
{
    let mut models = ModelStore::new(alloc, formula);
    models.push(model)?;
    Ok(Report {
        proof: merge_needed(alloc, formula, &[log], &[])?,
        models,
        drops: Vec::new(alloc),
        fixes: Vec::new(alloc),
    })
}

/// The proof that a log makes of the empty clause.
fn refutation(alloc: Global, formula: &Formula, log: Log) -> Result<Proof, NoMemory>
    requires log { log.formula ≡ formula.now }
    requires shown { All (λ e. is_import e.kind ≡ false) log.entries }
    requires empty { HasEmptyEntry (log ∷ []) }
    requires none { models formula.now ≡ [] }
    ensures { IfOk result (IsRefuted formula.now) }
{
    merge_needed(alloc, formula, &[log], &[])
}

/// A log keeps its rule.
fn prove_log(log: &Log)
    ensures { IsLog log.now }
{
    let _len = log.len();
}
