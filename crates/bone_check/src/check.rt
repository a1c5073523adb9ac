//! The answer, the proof and the witness of a formula, each from its feed.
ghost use Rattle.std.specs.Prelude.{◌≡◌, ℕ};
ghost use Rattle.cnf_core.specs.Literals.{AreWithin};
ghost use Rattle.bone_check.specs.Checks.{ChecksAll};
ghost use Rattle.bone_check.specs.Verdicts.{no_lines};
ghost use Rattle.bone_check.specs.Steps.Ending.{answer_end};
ghost use Rattle.bone_check.specs.Steps.Parts.{unsat_on, sat_on, ChecksRest};
ghost use Rattle.bone_check.specs.Steps.Evidence.{reading_told, IsReadEvidence, JudgesEvidence};
ghost use Rattle.bone_check.specs.declared.verdict.Verdict.TheVariants.{NotVerified};

use crate::evidence::{Evidence, read_evidence};
use crate::proof::{ProofEnd, check_proof};
use crate::units::judge_units;
use crate::witness::{is_verified, judge_witness};
use crate::{CheckEnd, Reason, Verdict};
use answer_text::{Answer, AnswerEnd, read_answer};
use bone_desk::{Desk, Feed};
use cnf_core::{Formula, Lit, NoMemory};
use std::alloc::Global;

/// Judges the answer in the Answer feed by the proof in the Proof feed and, where `witness` says so, by the witness in
/// the Witness feed, which counts as empty otherwise. The definition of the verdict is in `specs/Verdicts`.
///
/// Answer and witness are read to their ends before they are judged. The lines of the proof are judged as they come:
/// none is kept, and where one fails nothing more is read. So the memory is that of the answer, the clauses that the
/// proof hasn't deleted, the models with one bit a variable, and the drop lines. The time is linear in what is read, in the
/// literals of the clauses that hints name, and for each model in the formula.
///
/// `Fault` comes only where a read of that feed failed, and `TooLong` exactly where more bytes came of it than 2^27 of
/// an answer and 2^45 of a proof or a witness. The feeds behind that one were not read then.
pub fn check_all<D: Desk>(
    alloc: Global,
    formula: &Formula,
    desk: &mut D,
    witness: bool,
) -> Result<Verdict, CheckEnd>
    ensures { ChecksAll formula.now witness (D.told desk.old) (D.told desk.new) result }
{
    match read_answer(alloc, desk, formula.vars()) {
        Ok(Answer::Unsat) => check_unsat(alloc, formula, desk, witness),
        Ok(Answer::Sat(fixed)) => check_sat(alloc, formula, desk, &fixed, witness),
        Ok(
            Answer::Partial {
                fixed: _fixed,
                still: _still,
            },
        ) => Ok(not_verified(Reason::Unfinished, 1)),
        Ok(Answer::Unknown) => Ok(not_verified(Reason::Unfinished, 1)),
        Err(end) => answer_end(end),
    }
}

/// What an answer leads to that doesn't read.
fn answer_end(end: AnswerEnd) -> Result<Verdict, CheckEnd>
    ensures { result ≡ answer_end end }
{
    match end {
        AnswerEnd::BadLine(line) => Ok(not_verified(Reason::BadLine, line)),
        AnswerEnd::NotSorted(line) => Ok(not_verified(Reason::NotSorted, line)),
        AnswerEnd::Fault => Err(CheckEnd::Fault(Feed::Answer)),
        AnswerEnd::TooLong => Err(CheckEnd::TooLong(Feed::Answer)),
        AnswerEnd::Memory => Err(CheckEnd::Memory),
    }
}

fn not_verified(reason: Reason, place: u64) -> Verdict
    ensures { result ≡ NotVerified reason place }
{
    Verdict::NotVerified { reason, place }
}

/// Judges the answer that there is no model.
fn check_unsat<D: Desk>(
    alloc: Global,
    formula: &Formula,
    desk: &mut D,
    witness: bool,
) -> Result<Verdict, CheckEnd>
    ensures { ChecksRest witness (D.told desk.old) (D.told desk.new) (unsat_on formula.now witness) result }
{
    let proof = match check_proof(alloc, formula, desk) {
        Ok(proof) => proof,
        Err(end) => return Err(end),
    };
    let checker = match proof {
        ProofEnd::Taken(checker) => checker,
        ProofEnd::Fails { reason, line } => return Ok(not_verified(reason, line)),
    };
    if !checker.has_empty() {
        return Ok(not_verified(Reason::NoEmpty, 1));
    }
    match read_evidence(alloc, desk, formula.vars(), witness) {
        Ok(evidence) => Ok(judge_lack(&evidence)),
        Err(end) => Err(end),
    }
}

/// Judges the answer that prints these literals.
fn check_sat<D: Desk>(
    alloc: Global,
    formula: &Formula,
    desk: &mut D,
    fixed: &[Lit],
    witness: bool,
) -> Result<Verdict, CheckEnd>
    requires { AreWithin formula.now.vars fixed.now }
    ensures { ChecksRest witness (D.told desk.old) (D.told desk.new) (sat_on formula.now witness fixed.now) result }
{
    let proof = match check_proof(alloc, formula, desk) {
        Ok(proof) => proof,
        Err(end) => return Err(end),
    };
    let checker = match proof {
        ProofEnd::Taken(checker) => checker,
        ProofEnd::Fails { reason, line } => return Ok(not_verified(reason, line)),
    };
    let units = judge_units(formula, &checker, fixed);
    if !is_verified(units) {
        return Ok(units);
    }
    match read_evidence(alloc, desk, formula.vars(), witness) {
        Ok(evidence) => judge_evidence(alloc, formula, fixed, &evidence),
        Err(end) => Err(end),
    }
}

/// Whether the witness has no lines.
fn judge_lack(evidence: &Evidence) -> Verdict
    ensures { (n : ℕ) → result ≡ no_lines (reading_told n evidence.now) }
{
    match evidence {
        Evidence::Unasked => Verdict::Verified,
        Evidence::BadLine(line) => not_verified(Reason::WitnessLine, *line),
        Evidence::Tells(text) => {
            if text.models.len() == 0 && text.drops.is_empty() {
                Verdict::Verified
            } else {
                not_verified(Reason::WitnessLine, 1)
            }
        }
    }
}

/// Whether the witness reads, and passes its tests.
fn judge_evidence(
    alloc: Global,
    formula: &Formula,
    fixed: &[Lit],
    evidence: &Evidence,
) -> Result<Verdict, CheckEnd>
    requires fixed { AreWithin formula.now.vars fixed.now }
    requires evidence { IsReadEvidence formula.now.vars evidence.now }
    ensures { JudgesEvidence formula.now fixed.now evidence.now result }
{
    match evidence {
        Evidence::Unasked => Ok(not_verified(Reason::NoModel, 1)),
        Evidence::BadLine(line) => Ok(not_verified(Reason::WitnessLine, *line)),
        Evidence::Tells(text) => match judge_witness(alloc, formula, fixed, text) {
            Ok(verdict) => Ok(verdict),
            Err(NoMemory) => Err(CheckEnd::Memory),
        },
    }
}
