//! The room for handing workers over to their threads, and what they find back.
ghost use Rattle.std.specs.Prelude.{ℕ, ◌≡◌, ◌<◌, length, slice_index_or, IfOk, IfErr};
ghost use Rattle.run_core.specs.Steps.Crews.{IsCalled, MayRun, Ran, HasServed};

use candidate_words::{Seat, Words};
use chooser_core::Chooser;
use std::alloc::Global;
use std::thread::Threads;
use std::{mem, thread};
use worker_loop::{Findings, Gate, Question, Share, Worker};

/// What a worker is made from, where it runs.
#[derive(Drop)]
pub(crate) struct Recruit {
    pub share: Share,
    pub seat: Seat,
    pub chooser: Box<dyn Chooser>,
}

/// The place of one worker: before it runs, and after.
#[derive(Drop)]
pub(crate) enum Slot<'f, 'r> {
    /// A worker that hasn't run.
    Ready(Worker<'f, 'r>),
    /// One that isn't made before it runs.
    Called(Recruit),
    /// What it handed in.
    Done(Findings<'f>),
    /// The seat of one that nobody was called for yet, or that couldn't be made for want of memory.
    Left(Seat),
    /// Nobody is here yet, or what was here is taken out.
    Empty,
}

/// Makes the worker of a slot where it isn't made yet, and runs it. Without memory for it its seat is left.
fn ran<'f, 'r, G: Gate>(
    alloc: Global,
    question: &'r Question<'f>,
    words: &Words,
    gate: &G,
    slot: Slot<'f, 'r>,
) -> Slot<'f, 'r>
    requires about { words.now.about ≡ question.now }
    requires slot { MayRun words.now slot }
    ensures { Ran words.now slot.entry result }
{
    match slot {
        Slot::Ready(worker) => Slot::Done(worker.run(words, gate)),
        Slot::Called(recruit) => match serve(alloc, question, words, gate, recruit) {
            Ok(findings) => Slot::Done(findings),
            Err(seat) => Slot::Left(seat),
        },
        other => other,
    }
}

/// Makes a worker and runs it, or gives its seat back where there is no memory to make it.
fn serve<'f, 'r, G: Gate>(
    alloc: Global,
    question: &'r Question<'f>,
    words: &Words,
    gate: &G,
    recruit: Recruit,
) -> Result<Findings<'f>, Seat>
    requires about { words.now.about ≡ question.now }
    requires called { IsCalled words.now recruit.share.budget recruit.share.number recruit }
    ensures served { IfOk result (HasServed words.now recruit) }
    ensures left { IfErr result (λ s. s ≡ recruit.seat) }
{
    let Recruit {
        share,
        seat,
        chooser,
    } = recruit;
    let worker = Worker::new(alloc, share, question, None, seat, chooser)?;
    Ok(worker.run(words, gate))
}

fn run_slot<'f, 'r, G: Gate>(
    alloc: Global,
    question: &'r Question<'f>,
    words: &Words,
    gate: &G,
    slot: &mut Slot<'f, 'r>,
)
    requires about { words.now.about ≡ question.now }
    requires slot { MayRun words.now slot.old }
    ensures { Ran words.now slot.old slot.new }
{
    let taken = mem::replace(slot, Slot::Empty);
    *slot = ran(alloc, question, words, gate, taken);
}

/// Runs all workers, one after another.
pub(crate) fn run_in_turn<'f, 'r, G: Gate>(
    alloc: Global,
    question: &'r Question<'f>,
    words: &Words,
    gate: &G,
    slots: &mut [Slot<'f, 'r>],
)
    requires about { words.now.about ≡ question.now }
    requires slots { (i : ℕ) (d : _) → i < length slots.old → MayRun words.now (slice_index_or slots.old i d) }
    ensures len { length slots.new ≡ length slots.old }
    ensures each { (i : ℕ) (d : _) → i < length slots.old
        → Ran words.now (slice_index_or slots.old i d) (slice_index_or slots.new i d) }
{
    for slot in slots.iter_mut() {
        run_slot(alloc, question, words, gate, slot);
    }
}

/// Runs all workers, each on a thread of its own where one can be made. It takes no memory for handing them over.
pub(crate) fn run_on_threads<'f, 'r, R: Threads + Sync, G: Gate>(
    rt: &R,
    alloc: Global,
    question: &'r Question<'f>,
    words: &Words,
    gate: &G,
    slots: &mut [Slot<'f, 'r>],
)
    requires about { words.now.about ≡ question.now }
    requires slots { (i : ℕ) (d : _) → i < length slots.old → MayRun words.now (slice_index_or slots.old i d) }
    ensures len { length slots.new ≡ length slots.old }
    ensures each { (i : ℕ) (d : _) → i < length slots.old
        → Ran words.now (slice_index_or slots.old i d) (slice_index_or slots.new i d) }
{
    thread::for_each_mut(
        rt,
        slots,
        16,
        &|_: usize, slot: &mut Slot|
            requires about { words.now.about ≡ question.now }
            requires slot { MayRun words.now slot.old }
            ensures { Ran words.entry.now slot.old slot.new }
        { run_slot(alloc, question, words, gate, slot) },
    );
}
