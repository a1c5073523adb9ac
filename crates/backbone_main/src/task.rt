//! An extraction up to its search: what it names is opened, and the formula is read.
ghost use Rattle.std.specs.Prelude.{◌≡◌, IfOk, IfErr};
ghost use Rattle.backbone_main.specs.Causes.{turn_of};
ghost use Rattle.backbone_main.specs.Extracting.{extract_uses, files_of};
ghost use Rattle.backbone_main.specs.Steps.Finish.{asked, IsRefused, IsTask, IsUnopened, Opens, TouchesText};

use crate::ending::Ending;
use crate::opening::{open_feed, open_port};
use crate::text::read_text;
use bone_desk::{Act, Desk, Feed, Port};
use cnf_core::Formula;
use run_core::RunSettings;
use std::alloc::Global;

/// Which files are wanted beside the answer.
#[derive(Clone, Copy, Debug, PartialEq, Eq)]
pub struct Files {
    /// The proof of what the answer says.
    pub proof: bool,
    /// The models against what the answer doesn't name.
    pub witness: bool,
}

/// A formula, how a run over it goes, and which files are open for its evidence.
#[derive(Debug, Drop)]
pub struct Task {
    pub formula: Formula,
    pub settings: RunSettings,
    pub files: Files,
}

/// The names of a text and of files for the evidence, and how a run over the text's formula goes.
#[derive(Drop)]
pub struct Extraction {
    pub text: String,
    pub proof: Option<String>,
    pub witness: Option<String>,
    pub settings: RunSettings,
}

/// Opens what is named, and reads the formula of the text.
pub fn read_task<D: Desk>(
    alloc: Global,
    extraction: &Extraction,
    desk: &mut D,
) -> Result<Task, Ending>
    ensures task { IfOk result (λ task. IsTask extraction.now task (D.told desk.old) (D.told desk.new)) }
    ensures refused { IfErr result (λ ending. IsRefused (extract_uses (asked extraction.now)) ending
        (D.told desk.old) (D.told desk.new)) }
    ensures touches { TouchesText (extract_uses (asked extraction.now)) (D.told desk.old) (D.told desk.new) }
{
    if let Err(ending) = open_all(extraction, desk) {
        return Err(ending);
    }
    match read_text(alloc, desk) {
        Ok(formula) => Ok(Task {
            formula,
            settings: extraction.settings,
            files: files_of(extraction),
        }),
        Err(ending) => Err(ending),
    }
}

/// Which files are named.
fn files_of(extraction: &Extraction) -> Files
    ensures { result ≡ files_of (asked extraction.now) }
{
    Files {
        proof: extraction.proof.is_some(),
        witness: extraction.witness.is_some(),
    }
}

/// Opens the text, and then the files that are named.
fn open_all<D: Desk>(extraction: &Extraction, desk: &mut D) -> Result<(), Ending>
    ensures opens { Opens (extract_uses (asked extraction.now)) (turn_of (Act.OpenPort Port.Witness)) (D.told desk.old) (D.told desk.new) }
    ensures refused { IfErr result (λ ending. IsUnopened (extract_uses (asked extraction.now)) ending
        (D.told desk.old) (D.told desk.new)) }
{
    if let Err(ending) = open_feed(Feed::Text, extraction.text.as_str(), desk) {
        return Err(ending);
    }
    if let Err(ending) = open_port(Port::Proof, &extraction.proof, desk) {
        return Err(ending);
    }
    open_port(Port::Witness, &extraction.witness, desk)
}
