//! The formula of the text.
ghost use Rattle.std.specs.Prelude.{Ok, IfOk, IfErr};
ghost use Rattle.bone_desk.specs.Told.{ReadsOnly};
ghost use Rattle.backbone_main.specs.Causes.{ReadsText};
ghost use Rattle.backbone_main.specs.Steps.Finish.{IsUnread};

use crate::ending::Ending;
use bone_desk::{Act, Desk, Feed};
use cnf_core::Formula;
use dimacs_reader::{Fault, ReadEnd, read_formula};
use std::alloc::Global;

/// Reads the Text feed to its end, or says how a run ends that can't.
#[tactic(auto, using(crate::proofs::Refused::reads, crate::proofs::Refused::fails_to_read, crate::proofs::Refused::finds_too_long, crate::proofs::Refused::refuses_text))]
pub fn read_text<D: Desk>(alloc: Global, desk: &mut D) -> Result<Formula, Ending>
    ensures read { IfOk result (λ F. ReadsText (Ok F) (D.told desk.old) (D.told desk.new)) }
    ensures refused { IfErr result (λ ending. IsUnread ending (D.told desk.old) (D.told desk.new)) }
    ensures only { ReadsOnly Feed.Text (D.told desk.old) (D.told desk.new) }
{
    match read_formula(alloc, desk) {
        Ok(formula) => Ok(formula),
        Err(ReadEnd::Fault) => Err(Ending::Failed(Act::Read(Feed::Text))),
        Err(ReadEnd::TooLong) => Err(Ending::TooLong(Feed::Text)),
        Err(ReadEnd::Bad { kind, place }) => Err(Ending::BadText(Fault { kind, place })),
        Err(ReadEnd::Memory) => Err(Ending::OutOfMemory),
    }
}
