//! The job that the words of a command line ask for.
ghost use Rattle.std.specs.Prelude.{map, IfOk, IfErr};
ghost use Rattle.std.specs.String.{string_bytes};
ghost use Rattle.bone_words.specs.Settings.{settings_of, told, IsWithinLimits};
ghost use Rattle.backbone_main.specs.Steps.Finish.{HasJobLimits, IsJob, IsJobOf, IsWordless};

use crate::check::Checking;
use crate::ending::Ending;
use crate::sampling::Sampling;
use crate::task::Extraction;
use bone_words::{Settings, WordsEnd, settings};
use run_core::RunSettings;
use std::alloc::Global;

/// What is to be done.
#[derive(Drop)]
pub enum Job {
    /// Find the backbone of a text's formula.
    Extract(Extraction),
    /// Judge what was written for a text.
    Check(Checking),
    /// Make a formula and run it.
    Sample(Sampling),
}

/// Reads the words after the program's name.
pub fn read_words(alloc: Global, words: &[String]) -> Result<Job, Ending>
    ensures job { IfOk result (IsJobOf (settings_of (map string_bytes words.now))) }
    ensures limits { IfOk result HasJobLimits }
    ensures refused { IfErr result (IsWordless (settings_of (map string_bytes words.now))) }
{
    match settings(alloc, words) {
        Ok(settings) => Ok(job_of(settings)),
        Err(WordsEnd::Usage) => Err(Ending::Usage),
        Err(WordsEnd::Memory) => Err(Ending::OutOfMemory),
    }
}

/// The job of these settings.
fn job_of(settings: Settings) -> Job
    requires { IsWithinLimits (told settings) }
    ensures job { IsJob (told settings) result }
    ensures limits { HasJobLimits result }
{
    match settings {
        Settings::Extract {
            text,
            proof,
            witness,
            workers,
            budget,
            seed,
        } => Job::Extract(Extraction {
            text,
            proof,
            witness,
            settings: RunSettings {
                workers,
                budget,
                seed,
            },
        }),
        Settings::Check {
            text,
            answer,
            proof,
            witness,
        } => Job::Check(Checking {
            text,
            answer,
            proof,
            witness,
        }),
        Settings::Sample {
            vars,
            clauses,
            workers,
            budget,
            seed,
        } => Job::Sample(Sampling {
            vars,
            clauses,
            settings: RunSettings {
                workers,
                budget,
                seed,
            },
        }),
    }
}
