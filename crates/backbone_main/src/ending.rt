ghost use Rattle.std.specs.Prelude.{◌≡◌};
ghost use Rattle.backbone_main.specs.Endings.{code_of, failure_code};
ghost use Rattle.backbone_main.specs.Verdicts.{verdict_code};

use bone_check::Verdict;
use bone_desk::{Act, Feed};
use dimacs_reader::Fault;

/// How a run ends.
#[derive(Clone, Copy, Debug, PartialEq, Eq)]
pub enum Ending {
    /// The formula has a model, and its backbone was written.
    Complete,
    /// The formula has no model, and that was written.
    Unsatisfiable,
    /// The formula has a model, and what is known of its backbone was written: every worker spent its budget.
    Unfinished,
    /// Whether the formula has a model was not found out within the budget, and that was written.
    Unknown,
    /// The backbone of a sample was summed up, and that was written.
    Sampled,
    /// An answer was judged, and the verdict was written.
    Judged(Verdict),
    /// There was too little memory. What was known then of the backbone was written, or a front of the proof, or nothing.
    OutOfMemory,
    /// The text means no formula: this is its first fault.
    BadText(Fault),
    /// The feed has more bytes than are read.
    TooLong(Feed),
    /// This act failed. It isn't the writing of the note.
    Failed(Act),
    /// The words of the command line have no meaning.
    Usage,
}

impl Ending {
    /// The status with which the program ends.
    pub fn code(self) -> u8
        ensures { result ≡ code_of self }
    {
        match self {
            Ending::Complete => 10,
            Ending::Unsatisfiable => 20,
            Ending::Unfinished => 30,
            Ending::Unknown => 31,
            Ending::Sampled => 0,
            Ending::Judged(verdict) => verdict_code(verdict),
            Ending::OutOfMemory => 40,
            Ending::BadText(_) => 50,
            Ending::TooLong(_) => 51,
            Ending::Failed(act) => failure_code(act),
            Ending::Usage => 64,
        }
    }
}

/// The status where an answer was judged so.
fn verdict_code(verdict: Verdict) -> u8
    ensures { result ≡ verdict_code verdict }
{
    match verdict {
        Verdict::Verified => 0,
        Verdict::NotVerified {
            reason: _reason,
            place: _place,
        } => 1,
    }
}

/// The status where this act failed.
fn failure_code(act: Act) -> u8
    ensures { result ≡ failure_code act }
{
    match act {
        Act::Read(_) => 60,
        Act::Write(_) => 61,
        Act::OpenFeed(_) | Act::OpenPort(_) => 62,
    }
}
