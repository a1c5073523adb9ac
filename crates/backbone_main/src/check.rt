//! The command `check`: judges an answer, a proof and a witness from a text alone.
ghost use Rattle.std.specs.Prelude.{◌≡◌, ℕ, Some, IfErr};
ghost use Rattle.bone_words.specs.Settings.{to_check};
ghost use Rattle.backbone_main.specs.Causes.{turn_of};
ghost use Rattle.backbone_main.specs.Checking.{check_uses, names_witness};
ghost use Rattle.backbone_main.specs.Steps.Finish.{asked_check, IsUnopened, Opens, Runs};
ghost use Rattle.backbone_main.specs.Steps.Judging.{IsJudged, IsTold};

use crate::ending::Ending;
use crate::opening::open_feed;
use crate::text::read_text;
use crate::verdict_text::write_verdict;
use bone_check::laws::verified_answer_is_right;
use bone_check::{CheckEnd, Verdict, check_all};
use bone_desk::{Act, Desk, Failed, Feed, Port};
use cnf_core::Formula;
use std::alloc::Global;

/// The names of a text and of what was written for it.
#[derive(Drop)]
pub struct Checking {
    pub text: String,
    pub answer: String,
    pub proof: String,
    pub witness: Option<String>,
}

/// Does what a check is asked for, but for the note. All that is named is opened before anything is read.
pub fn check<D: Desk>(alloc: Global, checking: &Checking, desk: &mut D) -> Ending
    ensures { (workers : ℕ) → Runs workers (Some (to_check (asked_check checking.now))) result (D.told desk.old) (D.told desk.new) }
{
    if let Err(ending) = open_feeds(checking, desk) {
        return ending;
    }
    verified_answer_is_right();
    match read_text(alloc, desk) {
        Ok(formula) => judge(alloc, &formula, names_witness(checking), desk),
        Err(ending) => ending,
    }
}

/// Whether the witness is named.
fn names_witness(checking: &Checking) -> bool
    ensures { result ≡ names_witness (asked_check checking.now) }
{
    checking.witness.is_some()
}

/// Opens the four feeds, the last where it is named.
fn open_feeds<D: Desk>(checking: &Checking, desk: &mut D) -> Result<(), Ending>
    ensures opens { Opens (check_uses (asked_check checking.now)) (turn_of (Act.OpenFeed Feed.Witness)) (D.told desk.old) (D.told desk.new) }
    ensures refused { IfErr result (λ ending. IsUnopened (check_uses (asked_check checking.now)) ending
        (D.told desk.old) (D.told desk.new)) }
{
    if let Err(ending) = open_feed(Feed::Text, checking.text.as_str(), desk) {
        return Err(ending);
    }
    if let Err(ending) = open_feed(Feed::Answer, checking.answer.as_str(), desk) {
        return Err(ending);
    }
    if let Err(ending) = open_feed(Feed::Proof, checking.proof.as_str(), desk) {
        return Err(ending);
    }
    match &checking.witness {
        Some(name) => open_feed(Feed::Witness, name.as_str(), desk),
        None => Ok(()),
    }
}

/// Judges the files by the formula, and tells the verdict.
fn judge<D: Desk>(alloc: Global, formula: &Formula, witness: bool, desk: &mut D) -> Ending
    ensures { IsJudged formula.now witness result (D.told desk.old) (D.told desk.new) }
{
    match check_all(alloc, formula, desk, witness) {
        Ok(verdict) => tell(verdict, desk),
        Err(CheckEnd::Fault(feed)) => Ending::Failed(Act::Read(feed)),
        Err(CheckEnd::TooLong(feed)) => Ending::TooLong(feed),
        Err(CheckEnd::Memory) => Ending::OutOfMemory,
    }
}

/// Writes the verdict.
fn tell<D: Desk>(verdict: Verdict, desk: &mut D) -> Ending
    ensures { IsTold verdict result (D.told desk.old) (D.told desk.new) }
{
    match write_verdict(desk, verdict) {
        Ok(()) => Ending::Judged(verdict),
        Err(Failed) => Ending::Failed(Act::Write(Port::Answer)),
    }
}
