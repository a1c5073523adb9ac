//! Gathering what the workers handed in.
ghost use Rattle.std.specs.Prelude.{◌≡◌, ◌+◌, ◌^◌, ◌<◌, ◌≤◌, ◌++◌, IfOk, OnOk, All, length, map};
ghost use Rattle.model_store.specs.Witnesses.{IsInRange};
ghost use Rattle.run_core.specs.Steps.Crews.{IsReturned};
ghost use Rattle.run_core.specs.Steps.Gathers.{IsGathered, MayBegin, HasBegunIn, HasBegun, MayTakeIn, HasTakenIn, MayTakeAll, HasTaken, MayTake, HasJoined, moved};

use crate::RunSettings;
use crate::slot::Slot;
use candidate_words::{Seat, Words};
use cnf_core::{Lit, NoMemory};
use lrat_log::Log;
use model_store::{ModelStore, Witness};
use std::alloc::Global;
use worker_loop::{End, Findings};

/// The findings of several workers: the seat of the root, which they were joined to, and all that they won, with the
/// evidence.
#[derive(Drop)]
pub(crate) struct Gathered<'f> {
    pub seat: Seat,
    pub models: ModelStore<'f>,
    pub drops: Vec<Witness>,
    pub fixes: Vec<Lit>,
    pub logs: Vec<Log<'f>>,
    /// A worker ended for want of memory.
    pub failed: bool,
}

/// Gathers what is in the slots, of which the first has the findings of the root's worker. Without memory for it the
/// table is given up.
pub(crate) fn gather<'f, 'r>(
    alloc: Global,
    settings: RunSettings,
    words: &Words,
    slots: Vec<Slot<'f, 'r>>,
) -> Result<Gathered<'f>, NoMemory>
    requires workers { (1 ≤ settings.workers) × (settings.workers ≤ 16) }
    requires vars { words.now.about.formula.vars ≤ 2 ^ 20 }
    requires slots { IsReturned words.now settings.workers settings.budget slots.items }
    ensures { IfOk result (IsGathered words.now settings.workers settings.budget settings.workers) }
{
    let mut slots = slots.into_iter();
    let Some(first) = slots.next() else {
        unreachable!()
    };
    let mut gathered = Gathered::of_first(alloc, settings.workers, first)?;
    for slot in slots {
        gathered.take_in(words, slot)?;
    }
    Ok(gathered)
}

impl<'f> Gathered<'f> {
    /// What is in the slot of the root's worker.
    fn of_first<'r>(
        alloc: Global,
        workers: u32,
        slot: Slot<'f, 'r>,
    ) -> Result<Gathered<'f>, NoMemory>
        requires { MayBegin slot }
        ensures { IfOk result (HasBegunIn slot.entry) }
    {
        match slot {
            Slot::Done(findings) => Gathered::of_root(alloc, workers, findings),
            Slot::Ready(_) | Slot::Called(_) | Slot::Left(_) | Slot::Empty => unreachable!(),
        }
    }

    /// What the root's worker handed in, with room for the logs of so many.
    fn of_root(
        alloc: Global,
        workers: u32,
        findings: Findings<'f>,
    ) -> Result<Gathered<'f>, NoMemory>
        ensures { IfOk result (HasBegun findings.entry) }
    {
        let mut logs = Vec::with_capacity(alloc, workers as usize)?;
        logs.push(findings.log)?;
        Ok(Gathered {
            seat: findings.seat,
            models: findings.models,
            drops: findings.drops,
            fixes: findings.fixes,
            logs,
            failed: matches!(findings.end, End::Memory),
        })
    }

    /// Joins the seat in the slot of another worker, and takes what it handed in.
    fn take_in<'r>(&mut self, words: &Words, slot: Slot<'f, 'r>) -> Result<(), NoMemory>
        requires { MayTakeIn words.now self.old slot }
        ensures { OnOk result (HasTakenIn words.now self.old slot.entry self.new) }
    {
        match slot {
            Slot::Done(findings) => self.take_findings(words, findings),
            Slot::Left(seat) => {
                self.take_seat(words, seat);
                Ok(())
            }
            Slot::Ready(_) | Slot::Called(_) | Slot::Empty => unreachable!(),
        }
    }

    fn take_seat(&mut self, words: &Words, seat: Seat)
        requires { MayTake words.now self.old seat }
        ensures { HasJoined words.now self.old seat self.new }
    {
        words.join(&mut self.seat, seat);
    }

    fn take_findings(&mut self, words: &Words, findings: Findings<'f>) -> Result<(), NoMemory>
        requires { MayTakeAll words.now self.old findings }
        ensures { OnOk result (HasTaken words.now self.old findings.entry self.new) }
    {
        let base = self.models.append(findings.models)?;
        push_moved(&mut self.drops, &findings.drops, base)?;
        self.fixes.extend_from_slice(&findings.fixes)?;
        self.logs.push(findings.log)?;
        words.join(&mut self.seat, findings.seat);
        self.failed = self.failed || matches!(findings.end, End::Memory);
        Ok(())
    }
}

/// Adds witnesses whose models stand so many places further on.
fn push_moved(drops: &mut Vec<Witness>, others: &[Witness], base: u32) -> Result<(), NoMemory>
    requires { All (λ w. w.model + base < 2 ^ 32) others.now }
    ensures { OnOk result (drops.new.items ≡ drops.old.items ++ map (moved base) others.now) }
{
    for other in others {
        drops.push(Witness {
            model: other.model + base,
            ..*other
        })?;
    }
    Ok(())
}
