ghost use Rattle.std.specs.Prelude.{◌≡◌, ◌+◌, ◌<◌, [], ◌∷◌, ◌++◌, length, All, IfOk, OnOk, IsTrue, if◌then◌else◌};
ghost use Rattle.lrat_lines.specs.Proofs.{Proves};
ghost use Rattle.lrat_lines.specs.Tidy.{IsTidy};
ghost use Rattle.lrat_lines.specs.Renumbering.{renumbered};
ghost use Rattle.lrat_log.specs.Kept.{IsLog};
ghost use Rattle.cert_merge.specs.Merging.{IsPlace, AreImportsShown, AreOf, line_of};
ghost use Rattle.cert_merge.specs.Trimming.{HasUnits, have_empty, AreNeeded, IsTrimmed};
ghost use Rattle.cert_merge.specs.MergedNeeds.{HaveUnitEntries, HasEmptyEntry, IsMergedAndTrimmed};
ghost use Rattle.cert_merge.specs.Steps.Taking.{id_in, listed_id, AreAllTaken};
ghost use Rattle.cert_merge.specs.Steps.Marking.{AreRoots, AreIdsWithin};
ghost use Rattle.cert_merge.specs.Steps.Numbered.{places_of, AreStarts};
ghost use Rattle.cert_merge.specs.Steps.Ordered.{IsOrdered, lines_of};

use crate::marks::{mark_hints, new_ids};
use crate::order::MergedOrder;
use crate::place::Place;
use crate::trimmed::moved;
use crate::wanted::Wanted;
use cnf_core::{Formula, Lit, NoMemory};
use lrat_lines::{Line, Proof};
use lrat_log::Log;
use std::alloc::Global;

/// The proof that [`trim`](crate::trim) makes of that of [`merge`](crate::merge), in one pass: the order and the ids
/// come first, then the needed entries are marked from the last to the first, and only these become lines. Of the
/// entries that go no line is ever made.
///
/// Each literal has to have an entry that adds just it, and each import a unit of its literal before it.
///
/// Without memory for it there is no proof. `NoMemory` also stands for numbers that have no place: where the logs have 2^32
/// entries or more in all, or an id of the merged proof, whether its line is kept or goes, would reach 2^32.
pub fn merge_needed(
    alloc: Global,
    formula: &Formula,
    logs: &[Log],
    keep: &[Lit],
) -> Result<Proof, NoMemory>
    requires formulas { AreOf formula.now logs.now }
    requires imports { AreImportsShown logs.now }
    requires keep { HaveUnitEntries logs.now keep.now }
    ensures lines { IfOk result (λ kept. IsMergedAndTrimmed formula.now logs.now keep.now kept) }
    ensures tidy { IfOk result (λ kept. IsTidy formula.now kept) }
    ensures accepted { IfOk result (λ kept. Proves formula.now kept) }
    ensures keep { IfOk result (λ kept. HasUnits kept keep.now) }
    ensures empty { IfOk result (λ kept. HasEmptyEntry logs.now → IsTrue (have_empty kept)) }
{
    let order = MergedOrder::of(alloc, formula, logs)?;
    order.needed_proof(alloc, formula, logs, keep)
}

impl MergedOrder {
    /// The lines that are needed, with ids of their own.
    fn needed_proof(
        &self,
        alloc: Global,
        formula: &Formula,
        logs: &[Log],
        keep: &[Lit],
    ) -> Result<Proof, NoMemory>
        requires starts { AreStarts logs.now self.now.starts.items }
        requires ordered { IsOrdered formula.now logs.now self.now.ids.items (places_of logs.now self.now.numbers.items) }
        requires keep { HaveUnitEntries logs.now keep.now }
        ensures { IfOk result (λ kept. IsTrimmed formula.now
            (lines_of formula.now logs.now self.now.ids.items (places_of logs.now self.now.numbers.items)) keep.now kept) }
    {
        let marks = self.needed(alloc, formula, logs, keep)?;
        let ids = new_ids(alloc, formula.clauses().len() as u64, &marks)?;
        let mut lines = Vec::new(alloc);
        for k in 0..self.numbers.len() {
            self.push_if(marks[k], self.place_at(k), formula, logs, &ids, &mut lines)?;
        }
        Ok(Proof { lines })
    }

    /// Puts the line of a place, with a new id, behind the others where it is marked.
    fn push_if(
        &self,
        mark: bool,
        place: Place,
        formula: &Formula,
        logs: &[Log],
        ids: &[u32],
        lines: &mut Vec<Line>,
    ) -> Result<(), NoMemory>
        requires place { IsPlace logs.now place }
        requires formulas { AreOf formula.now logs.now }
        requires logs { All IsLog logs.now }
        requires lists { AreAllTaken logs.now self.now.ids.items }
        requires ids { AreIdsWithin (length formula.now.clauses + 1 + length ids.now)
            (line_of formula.now logs.now (id_in self.now.ids.items) place) }
        ensures { OnOk result (lines.new.items ≡ lines.old.items
            ++ (if mark then renumbered (listed_id (length formula.now.clauses) ids.now)
            (line_of formula.now logs.now (id_in self.now.ids.items) place) ∷ [] else [])) }
    {
        if mark {
            let line = self.line(*lines.allocator(), formula, logs, place)?;
            lines.push(moved(line, formula.clauses().len() as u64, ids))?;
        }
        Ok(())
    }

    /// The marks of the lines that are needed.
    fn needed(
        &self,
        alloc: Global,
        formula: &Formula,
        logs: &[Log],
        keep: &[Lit],
    ) -> Result<Vec<bool>, NoMemory>
        requires starts { AreStarts logs.now self.now.starts.items }
        requires ordered { IsOrdered formula.now logs.now self.now.ids.items (places_of logs.now self.now.numbers.items) }
        requires keep { HaveUnitEntries logs.now keep.now }
        ensures { IfOk result (λ marks. AreNeeded formula.now
            (lines_of formula.now logs.now self.now.ids.items (places_of logs.now self.now.numbers.items)) keep.now marks.items) }
    {
        let mut marks = self.roots(alloc, formula, logs, keep)?;
        let inputs = formula.clauses().len() as u64;
        let mut hints = Vec::new(alloc);
        let mut left = self.numbers.len();
        while left > 0 {
            left -= 1;
            if marks[left] {
                self.read_hints(formula, logs, self.place_at(left), &mut hints)?;
                mark_hints(&mut marks, inputs, &hints);
            }
        }
        Ok(marks)
    }

    /// The marks of the lines that are kept for their own sake.
    fn roots(
        &self,
        alloc: Global,
        formula: &Formula,
        logs: &[Log],
        keep: &[Lit],
    ) -> Result<Vec<bool>, NoMemory>
        requires starts { AreStarts logs.now self.now.starts.items }
        requires ordered { IsOrdered formula.now logs.now self.now.ids.items (places_of logs.now self.now.numbers.items) }
        requires keep { HaveUnitEntries logs.now keep.now }
        ensures { IfOk result (λ marks. AreRoots keep.now
            (lines_of formula.now logs.now self.now.ids.items (places_of logs.now self.now.numbers.items)) marks.items) }
    {
        let mut wanted = Wanted::new(alloc, formula, keep)?;
        let mut marks = Vec::with_capacity(alloc, self.numbers.len())?;
        let mut lits = Vec::new(alloc);
        for k in 0..self.numbers.len() {
            let place = self.place_at(k);
            lits.clear();
            logs[place.log].append_lits(place.entry, &mut lits)?;
            marks.push(wanted.take(&lits))?;
        }
        Ok(marks)
    }
}
