//! What is written of the outcome of a run: first the proof, then the witness, then the answer.
ghost use Rattle.std.specs.Prelude.{◌≡◌, true, ℕ, ◌≤◌, ◌^◌, IfOk, IfErr, OnOk, OnErr, IfSome, IsSome, IsNone, is_some, All, Option};
ghost use Rattle.std.specs.Bool.{then_some};
ghost use Rattle.bone_desk.specs.Told.{Told, Rose, WritesOnly, Gave};
ghost use Rattle.bone_desk.specs.Gives.{GaveFront};
ghost use Rattle.cnf_core.specs.Formulas.{Cnf};
ghost use Rattle.lrat_lines.specs.Printed.{IsPrintable};
ghost use Rattle.lrat_lines.specs.Writings.{HasCause};
ghost use Rattle.lrat_log.specs.Entries.{Recorded};
ghost use Rattle.model_store.specs.Stores.{HoldsModels};
ghost use Rattle.answer_text.specs.AnswerText.{IsInOrder, IsPartialInOrder, partial_text, text_of};
ghost use Rattle.run_core.specs.Outcomes.{OutcomeSays, IsComplete, IsRefuted, IsSpent, IsUnfinished};
ghost use Rattle.backbone_main.specs.Causes.{Acts};
ghost use Rattle.backbone_main.specs.Endings.{IsItsOwn};
ghost use Rattle.backbone_main.specs.Texts.{Texts, AreSpent, TellsBackbone, TellsNoModel, TellsNothing, TellsPart, TextsSay};
ghost use Rattle.backbone_main.specs.Extracting.{IsCertified, IsCutAt, StopsWhere};
ghost use Rattle.backbone_main.specs.Steps.Replies.{HasText, IsWritable, HoldsDrops, IsKeptDrops, proof_text_of, drops_text_of, texts_of};
ghost use Rattle.backbone_main.specs.Steps.Replies.{AllowsFiles, EndsWriting, Finishes, HasEnded, IsWantedReply};
ghost use Rattle.backbone_main.specs.Steps.Finish.{WritesOwn};

use crate::ending::Ending;
use crate::open_part::open_literals;
use crate::task::Files;
use answer_text::{Answer, write_answer};
use bone_desk::{Act, Desk, Port};
use cnf_core::{Formula, Lit, NoMemory};
use lrat_lines::{Proof, ProofEnd, write_proof};
use model_store::{ModelStore, Witness};
use run_core::{Outcome, Report};
use std::alloc::Global;
use witness_text::{WriteFault, write_witness};

/// An answer with its evidence, and how a run ends that has written them.
#[derive(Drop)]
struct Reply<'f> {
    answer: Answer,
    evidence: Evidence<'f>,
    ending: Ending,
}

/// What shows that an answer is right, as far as it is wanted.
#[derive(Drop)]
struct Evidence<'f> {
    proof: Option<Proof>,
    witness: Option<Drops<'f>>,
}

/// Variables that aren't forced, with models by which that is seen.
#[derive(Drop)]
struct Drops<'f> {
    models: ModelStore<'f>,
    drops: Vec<Witness>,
}

/// No evidence is wanted.
const NO_FILES: Files = Files {
    proof: false,
    witness: false,
};

/// Writes what the outcome tells, with the evidence that is wanted. Without memory for it nothing is written, or a front
/// of the proof.
pub fn deliver<D: Desk>(
    alloc: Global,
    formula: &Formula,
    files: Files,
    outcome: Outcome,
    desk: &mut D,
) -> Ending
    requires ended { HasEnded formula.now outcome }
    requires vars { formula.now.vars ≤ 2 ^ 20 }
    ensures finishes { (workers budget : ℕ) → 1 ≤ workers → OutcomeSays formula.now workers budget outcome.entry
        → Finishes workers budget files formula.now result (D.told desk.old) (D.told desk.new) }
    ensures own { (may : Acts) → AllowsFiles may files → WritesOwn may result (D.told desk.old) (D.told desk.new) }
{
    match reply_to(alloc, formula, files, outcome) {
        Ok(reply) => write(alloc, formula, &reply, desk),
        Err(NoMemory) => Ending::OutOfMemory,
    }
}

/// Writes a reply, and gives the ending that goes with it, unless the writing stops.
fn write<D: Desk>(alloc: Global, formula: &Formula, reply: &Reply, desk: &mut D) -> Ending
    requires order { IsInOrder reply.now.answer }
    requires writable { IsWritable formula.now reply.now.evidence }
    ensures writes { EndsWriting reply.now result (D.told desk.old) (D.told desk.new) }
    ensures own { (may : Acts) → IsWantedReply may reply.now → WritesOwn may result (D.told desk.old) (D.told desk.new) }
{
    if let Err(end) = put_proof(alloc, &reply.evidence.proof, desk) {
        return ending_of(end);
    }
    if put_drops(formula, &reply.evidence.witness, desk).is_err() {
        return Ending::Failed(Act::Write(Port::Witness));
    }
    if write_answer(desk, &reply.answer).is_err() {
        return Ending::Failed(Act::Write(Port::Answer));
    }
    reply.ending
}

/// How a run ends whose proof was not written whole.
fn ending_of(end: ProofEnd) -> Ending
    ensures own { (may : Acts) → may (Act.Write Port.Proof) ≡ true → IsItsOwn may result }
    ensures stops { (texts : Texts) (old new : Told) → IsCutAt Port.Proof texts old new → HasCause end old new
        → StopsWhere texts result old new }
{
    match end {
        ProofEnd::Fault => Ending::Failed(Act::Write(Port::Proof)),
        ProofEnd::Memory => Ending::OutOfMemory,
    }
}

/// Writes a proof where there is one.
fn put_proof<D: Desk>(alloc: Global, proof: &Option<Proof>, desk: &mut D) -> Result<(), ProofEnd>
    requires { IfSome proof.now (λ lines. All IsPrintable lines) }
    ensures given { OnOk result (Gave Port.Proof (proof_text_of proof.now) (D.told desk.old) (D.told desk.new)) }
    ensures front { OnErr result (GaveFront Port.Proof (proof_text_of proof.now) (D.told desk.old) (D.told desk.new)) }
    ensures only { WritesOnly Port.Proof (D.told desk.old) (D.told desk.new) }
    ensures none { IsNone proof.now → D.told desk.new ≡ D.told desk.old }
    ensures some { OnErr result (IsSome proof.now) }
    ensures cause { IfErr result (λ end. HasCause end (D.told desk.old) (D.told desk.new)) }
    ensures in_memory { OnOk result (HasText proof.now) }
{
    match proof {
        Some(proof) => write_proof(alloc, desk, proof),
        None => Ok(()),
    }
}

/// Writes a witness where there is one.
fn put_drops<D: Desk>(
    formula: &Formula,
    witness: &Option<Drops>,
    desk: &mut D,
) -> Result<(), WriteFault>
    requires { IfSome witness.now (HoldsDrops formula.now) }
    ensures given { OnOk result (Gave Port.Witness (drops_text_of witness.now) (D.told desk.old) (D.told desk.new)) }
    ensures front { OnErr result (GaveFront Port.Witness (drops_text_of witness.now) (D.told desk.old) (D.told desk.new)) }
    ensures only { WritesOnly Port.Witness (D.told desk.old) (D.told desk.new) }
    ensures none { IsNone witness.now → D.told desk.new ≡ D.told desk.old }
    ensures some { OnErr result (IsSome witness.now) }
    ensures cause { OnErr result (Rose (Act.Write Port.Witness) (D.told desk.old) (D.told desk.new)) }
{
    match witness {
        Some(witness) => write_witness(desk, formula, &witness.models, &witness.drops),
        None => Ok(()),
    }
}

/// What is to be written of an outcome.
fn reply_to<'f>(
    alloc: Global,
    formula: &Formula,
    files: Files,
    outcome: Outcome<'f>,
) -> Result<Reply<'f>, NoMemory>
    requires ended { HasEnded formula.now outcome }
    ensures order { IfOk result (λ reply. IsInOrder reply.answer) }
    ensures writable { IfOk result (λ reply. IsWritable formula.now reply.evidence) }
    ensures says { IfOk result (λ reply. (workers budget : ℕ) → 1 ≤ workers → OutcomeSays formula.now workers budget outcome.entry
        → TextsSay workers budget files reply.ending formula.now (texts_of reply)) }
    ensures certified { IfOk result (λ reply. (workers budget : ℕ) → OutcomeSays formula.now workers budget outcome.entry
        → formula.now.vars ≤ 2 ^ 20 → HasText reply.evidence.proof
        → IsCertified files reply.ending formula.now (texts_of reply)) }
    ensures wanted { IfOk result (λ reply. (may : Acts) → AllowsFiles may files → IsWantedReply may reply) }
{
    match outcome {
        Outcome::Complete(report) => Ok(whole(files, report)),
        Outcome::Unsat(proof) => Ok(no_model(files, proof)),
        Outcome::Partial(report, _) => partial(alloc, formula, files, report, Ending::Unfinished),
        Outcome::Unknown(_) => Ok(nothing_known()),
        Outcome::Memory(Some(report)) => {
            partial(alloc, formula, NO_FILES, report, Ending::OutOfMemory)
        }
        Outcome::Memory(None) => Err(NoMemory),
    }
}

/// The reply where every candidate is dropped or fixed.
fn whole(files: Files, report: Report) -> Reply
    ensures order { (F : Cnf) → IsComplete F report.entry → IsInOrder result.answer }
    ensures writable { (F : Cnf) → IsComplete F report.entry → IsWritable F result.evidence }
    ensures says { (F : Cnf) → IsComplete F report.entry → TellsBackbone files F (texts_of result) }
    ensures certified { (F : Cnf) → IsComplete F report.entry → F.vars ≤ 2 ^ 20 → HasText result.evidence.proof
        → IsCertified files Ending.Complete F (texts_of result) }
    ensures ending { result.ending ≡ Ending.Complete }
    ensures proof { is_some result.evidence.proof ≡ files.proof }
    ensures witness { is_some result.evidence.witness ≡ files.witness }
{
    let Report {
        proof,
        models,
        drops,
        fixes,
    } = report;
    Reply {
        answer: Answer::Sat(fixes),
        evidence: evidence_of(files, proof, models, drops),
        ending: Ending::Complete,
    }
}

/// The reply where the formula has no model.
fn no_model<'f>(files: Files, proof: Proof) -> Reply<'f>
    ensures order { IsInOrder result.answer }
    ensures writable { (F : Cnf) → IsRefuted F proof → IsWritable F result.evidence }
    ensures says { (F : Cnf) → IsRefuted F proof → TellsNoModel files F (texts_of result) }
    ensures certified { (F : Cnf) → IsRefuted F proof → F.vars ≤ 2 ^ 20 → HasText result.evidence.proof
        → IsCertified files Ending.Unsatisfiable F (texts_of result) }
    ensures ending { result.ending ≡ Ending.Unsatisfiable }
    ensures proof { is_some result.evidence.proof ≡ files.proof }
    ensures witness { IsNone result.evidence.witness }
{
    Reply {
        answer: Answer::Unsat,
        evidence: Evidence {
            proof: files.proof.then_some(proof),
            witness: None,
        },
        ending: Ending::Unsatisfiable,
    }
}

/// The reply where no model was found.
fn nothing_known<'f>() -> Reply<'f>
    ensures order { IsInOrder result.answer }
    ensures writable { (F : Cnf) → IsWritable F result.evidence }
    ensures says { (F : Cnf) (budget : ℕ) (L : Recorded) → IsSpent F budget L → TellsNothing (texts_of result) × AreSpent F 1 budget }
    ensures ending { result.ending ≡ Ending.Unknown }
    ensures proof { IsNone result.evidence.proof }
    ensures witness { IsNone result.evidence.witness }
{
    Reply {
        answer: Answer::Unknown,
        evidence: Evidence {
            proof: None,
            witness: None,
        },
        ending: Ending::Unknown,
    }
}

/// The reply where a candidate is open.
fn partial<'f>(
    alloc: Global,
    formula: &Formula,
    files: Files,
    report: Report<'f>,
    ending: Ending,
) -> Result<Reply<'f>, NoMemory>
    requires { IsUnfinished formula.now report }
    ensures order { IfOk result (λ reply. IsInOrder reply.answer) }
    ensures writable { IfOk result (λ reply. IsWritable formula.now reply.evidence) }
    ensures says { IfOk result (λ reply. TellsPart files formula.now (texts_of reply)) }
    ensures ending { IfOk result (λ reply. reply.ending ≡ ending) }
    ensures proof { IfOk result (λ reply. is_some reply.evidence.proof ≡ files.proof) }
    ensures witness { IfOk result (λ reply. is_some reply.evidence.witness ≡ files.witness) }
{
    let still = open_literals(alloc, formula, &report)?;
    let Report {
        proof,
        models,
        drops,
        fixes,
    } = report;
    Ok(Reply {
        answer: answer_of_part(fixes, still),
        evidence: evidence_of(files, proof, models, drops),
        ending,
    })
}

/// The answer that names the fixed literals and the open ones.
fn answer_of_part(fixed: Vec<Lit>, still: Vec<Lit>) -> Answer
    ensures text { text_of result ≡ partial_text fixed.items still.items }
    ensures order { IsPartialInOrder fixed.items still.items → IsInOrder result }
{
    Answer::Partial { fixed, still }
}

/// As much of the evidence as is wanted.
fn evidence_of<'f>(
    files: Files,
    proof: Proof,
    models: ModelStore<'f>,
    drops: Vec<Witness>,
) -> Evidence<'f>
    ensures proof { result.proof ≡ then_some files.proof proof }
    ensures witness { is_some result.witness ≡ files.witness }
    ensures drops { IfSome result.witness (IsKeptDrops models.entry drops.items) }
    ensures holds { HoldsModels models.entry }
{
    Evidence {
        proof: files.proof.then_some(proof),
        witness: files.witness.then_some(Drops { models, drops }),
    }
}
