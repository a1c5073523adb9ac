//! The top calls: a run from the words of the command line to the status.
ghost use Rattle.std.specs.Prelude.{◌≡◌, ℕ, Option, length, map};
ghost use Rattle.std.specs.String.{string_bytes};
ghost use Rattle.bone_desk.specs.Told.{Told, WritesOnly};
ghost use Rattle.bone_words.specs.Settings.{settings_of, Wanted};
ghost use Rattle.backbone_main.specs.Notes.{note_of, GainsNote};
ghost use Rattle.backbone_main.specs.Endings.{code_of};
ghost use Rattle.backbone_main.specs.Words.{workers_of};
ghost use Rattle.backbone_main.specs.Outcome.{Serves};
ghost use Rattle.backbone_main.specs.Steps.Finish.{Runs};

use crate::check::check;
use crate::ending::Ending;
use crate::extract::{extract, extract_alone};
use crate::job::{Job, read_words};
use crate::note::write_note;
use crate::sampling::{sample, sample_alone};
use bone_desk::{Desk, Port};
use chooser_core::Chooser;
use lrat_log::laws::no_log_is_full;
use std::alloc::Global;
use std::thread::Threads;
use worker_loop::Gate;

/// Does what the words after the program's name ask for, with as many workers as they say, and answers the status.
///
/// Worker w asks the chooser at place w, and passes the gate before each of its turns. All choosers are dropped by the
/// end.
///
/// `extract` opens the text first, then the files that are named, the proof's before the witness's. What was found is
/// written in the order proof, witness, answer. `check` opens the text, the answer, the proof and the witness, the last
/// where it is named, and reads them in that order. It uses no worker. `sample` opens and reads nothing: it makes a formula
/// from its numbers, searches it as `extract` does, and writes how large its backbone is.
///
/// The verdict of `check` on what `extract` wrote with status 10 and both files, or with status 20 and the proof, is that
/// it is verified.
///
/// | Status | What happened |
/// |---|---|
/// | 0 | `check`: the answer, the proof and the witness pass all tests; `sample`: the backbone is known. That was written |
/// | 1 | `check`: the first test that fails was written, and its place |
/// | 10 | `extract`: the backbone was written: its literals whose variables are shown; before it the files that are named |
/// | 20 | `extract`: the formula has no model, and that was written; before it the proof, where it is named, and no witness |
/// | 30 | every worker spent its budget: `extract` wrote a part of the backbone, with its evidence, and what is still open |
/// | 31 | no model was found within the budget, and that nothing is known was written, without evidence |
/// | 40 | there was too little memory; nothing was written, or by `extract` what was known of the backbone then, or a front of the proof |
/// | 50 | the text means no formula; nothing was written |
/// | 51 | a feed has more bytes than are read: 2^27 of a text or an answer, 2^45 of a proof or a witness; nothing was written |
/// | 60 | a feed could not be read; nothing was written |
/// | 61 | a port could not be written; it has a front of its text, those before it have all, and those behind it nothing |
/// | 62 | a feed or port that is named could not be opened; nothing was read or written |
/// | 64 | the words have no settings; nothing was done |
///
/// Where several causes stand together the order is 64, 62, then for the text 60 or 51, whichever came first, and 50.
/// Then come the end of the run or the tests of `check`, in which 60 and 51 stand at the feed that is read, and 61. No
/// feed is read behind one with 60 or 51.
/// Status 40 may stand at any place, also before 64, since the words are read with memory, and no clause ties it to a
/// refused growth.
///
/// The note of the ending is written last, to the port of the notes. A fault of that write ends the note, and changes
/// no status.
pub fn serve<R: Threads + Sync, D: Desk, G: Gate>(
    rt: &R,
    alloc: Global,
    words: &[String],
    desk: &mut D,
    choosers: Vec<Box<dyn Chooser>>,
    gate: &G,
) -> u8
    requires { length choosers.items ≡ 16 }
    ensures { Serves (workers_of (settings_of (map string_bytes words.now))) (settings_of (map string_bytes words.now)) result
        (D.told desk.old) (D.told desk.new) }
{
    let ending = run_threads(rt, alloc, words, desk, choosers, gate);
    conclude(desk, ending)
}

/// As [`serve`], but with one worker, whatever the words say, in the calling thread. It always returns.
pub fn alone<D: Desk>(
    alloc: Global,
    words: &[String],
    desk: &mut D,
    choosers: Vec<Box<dyn Chooser>>,
) -> u8
    requires { length choosers.items ≡ 16 }
    ensures { Serves 1 (settings_of (map string_bytes words.now)) result (D.told desk.old) (D.told desk.new) }
{
    let ending = run_alone(alloc, words, desk, choosers);
    conclude(desk, ending)
}

/// Writes the note of an ending, and answers its status.
pub fn report<D: Desk>(desk: &mut D, ending: Ending) -> u8
    ensures status { result ≡ code_of ending }
    ensures note { GainsNote (note_of ending) (D.told desk.old) (D.told desk.new) }
    ensures only { WritesOnly Port.Notes (D.told desk.old) (D.told desk.new) }
{
    let _ = write_note(desk, ending);
    ending.code()
}

/// Ends a call whose work came to this ending.
fn conclude<D: Desk>(desk: &mut D, ending: Ending) -> u8
    ensures { (workers : ℕ) (wanted : Option Wanted) (old : Told) → Runs workers wanted ending old (D.told desk.old)
        → Serves workers wanted result old (D.told desk.new) }
{
    no_log_is_full();
    report(desk, ending)
}

/// Does what the words ask for, but for the note.
fn run_threads<R: Threads + Sync, D: Desk, G: Gate>(
    rt: &R,
    alloc: Global,
    words: &[String],
    desk: &mut D,
    choosers: Vec<Box<dyn Chooser>>,
    gate: &G,
) -> Ending
    requires { length choosers.items ≡ 16 }
    ensures { Runs (workers_of (settings_of (map string_bytes words.now))) (settings_of (map string_bytes words.now)) result
        (D.told desk.old) (D.told desk.new) }
{
    match read_words(alloc, words) {
        Ok(Job::Extract(extraction)) => extract(rt, alloc, &extraction, desk, choosers, gate),
        Ok(Job::Check(checking)) => check(alloc, &checking, desk),
        Ok(Job::Sample(sampling)) => sample(rt, alloc, sampling, desk, choosers, gate),
        Err(ending) => ending,
    }
}

/// The same with one worker.
fn run_alone<D: Desk>(
    alloc: Global,
    words: &[String],
    desk: &mut D,
    choosers: Vec<Box<dyn Chooser>>,
) -> Ending
    requires { length choosers.items ≡ 16 }
    ensures { Runs 1 (settings_of (map string_bytes words.now)) result (D.told desk.old) (D.told desk.new) }
{
    match read_words(alloc, words) {
        Ok(Job::Extract(extraction)) => extract_alone(alloc, &extraction, desk, choosers),
        Ok(Job::Check(checking)) => check(alloc, &checking, desk),
        Ok(Job::Sample(sampling)) => sample_alone(alloc, sampling, desk, choosers),
        Err(ending) => ending,
    }
}
