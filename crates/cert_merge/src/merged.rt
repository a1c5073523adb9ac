ghost use Rattle.std.specs.Prelude.{IfOk};
ghost use Rattle.lrat_lines.specs.Proofs.{Proves};
ghost use Rattle.lrat_lines.specs.Tidy.{IsTidy};
ghost use Rattle.cert_merge.specs.Merging.{IsMerged, HasLines, ReachesAll, AreImportsShown, AreOf};

use crate::order::MergedOrder;
use cnf_core::{Formula, NoMemory};
use lrat_lines::Proof;
use lrat_log::Log;
use std::alloc::Global;

/// One proof out of the logs of several searches over a formula, accepted from the formula alone.
///
/// The entries stand by clock, then by log, then by their places, under the ids that follow on those of the
/// formula's clauses. An import gives no line; a hint to it becomes the id of the first unit of its literal. Each
/// import has to have a unit of its literal before it in that order, in whichever log.
///
/// Without memory for it there is no proof. `NoMemory` also stands for numbers that have no place: where the logs have 2^32
/// entries or more in all, or the formula's clauses and the lines are so many that an id would reach 2^32.
pub fn merge(alloc: Global, formula: &Formula, logs: &[Log]) -> Result<Proof, NoMemory>
    requires formulas { AreOf formula.now logs.now }
    requires imports { AreImportsShown logs.now }
    ensures lines { IfOk result (λ proof. IsMerged formula.now logs.now proof) }
    ensures tidy { IfOk result (λ proof. IsTidy formula.now proof) }
    ensures accepted { IfOk result (λ proof. Proves formula.now proof) }
    ensures added { IfOk result (λ proof. HasLines logs.now proof) }
    ensures reached { IfOk result (λ proof. ReachesAll formula.now logs.now proof) }
{
    let order = MergedOrder::of(alloc, formula, logs)?;
    order.proof(alloc, formula, logs)
}
