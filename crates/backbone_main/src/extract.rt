//! The command `extract`: finds the backbone of a text's formula.
ghost use Rattle.std.specs.Prelude.{◌≡◌, length, Some};
ghost use Rattle.bone_words.specs.Settings.{to_extract};
ghost use Rattle.backbone_main.specs.Steps.Finish.{asked, HasLimits, Runs};

use crate::ending::Ending;
use crate::reply::deliver;
use crate::task::{Extraction, Task, read_task};
use bone_desk::Desk;
use chooser_core::Chooser;
use run_core::{run_many, run_one};
use std::alloc::Global;
use std::thread::Threads;
use worker_loop::Gate;

/// Does what an extraction is asked for, but for the note.
pub fn extract<R: Threads + Sync, D: Desk, G: Gate>(
    rt: &R,
    alloc: Global,
    extraction: &Extraction,
    desk: &mut D,
    choosers: Vec<Box<dyn Chooser>>,
    gate: &G,
) -> Ending
    requires limits { HasLimits extraction.now }
    requires choosers { length choosers.items ≡ 16 }
    ensures { Runs extraction.now.settings.workers (Some (to_extract (asked extraction.now))) result (D.told desk.old) (D.told desk.new) }
{
    match read_task(alloc, extraction, desk) {
        Ok(
            Task {
                formula,
                settings,
                files,
            },
        ) => {
            let outcome = run_many(rt, alloc, &formula, settings, choosers, gate);
            deliver(alloc, &formula, files, outcome, desk)
        }
        Err(ending) => ending,
    }
}

/// The same with one worker.
pub fn extract_alone<D: Desk>(
    alloc: Global,
    extraction: &Extraction,
    desk: &mut D,
    choosers: Vec<Box<dyn Chooser>>,
) -> Ending
    requires limits { HasLimits extraction.now }
    requires choosers { length choosers.items ≡ 16 }
    ensures { Runs 1 (Some (to_extract (asked extraction.now))) result (D.told desk.old) (D.told desk.new) }
{
    match read_task(alloc, extraction, desk) {
        Ok(
            Task {
                formula,
                settings,
                files,
            },
        ) => {
            let outcome = run_one(alloc, &formula, settings, choosers);
            deliver(alloc, &formula, files, outcome, desk)
        }
        Err(ending) => ending,
    }
}
