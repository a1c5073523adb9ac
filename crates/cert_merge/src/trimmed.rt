ghost use Rattle.std.specs.Prelude.{◌≡◌, ◌+◌, ◌<◌, ◌*◌, ◌≤◌, ◌^◌, [], ◌∷◌, ◌++◌, length, map, take, All, IfOk, OnOk, IsTrue, if◌then◌else◌};
ghost use Rattle.lrat_lines.specs.Proofs.{Proves};
ghost use Rattle.lrat_lines.specs.Tidy.{IsTidy};
ghost use Rattle.lrat_lines.specs.Renumbering.{renumbered};
ghost use Rattle.cert_merge.specs.Trimming.{HasUnits, have_empty, IsTrimmed, AreNeeded, trimmed, picked};
ghost use Rattle.cert_merge.specs.Steps.Taking.{listed_id};
ghost use Rattle.cert_merge.specs.Steps.Marking.{HasPlace, ids_of, AreRoots, AreNeededFrom, AreHintsBelow, HaveClausesPlaces, AreIdsWithin};

use crate::ids::{listed, renumber};
use crate::marks::{mark_hints, new_ids};
use crate::wanted::Wanted;
use cnf_core::{Formula, Lit, NoMemory};
use lrat_lines::{Ids, Line, Proof};
use std::alloc::Global;

/// What is left of an accepted, tidy proof where only some literals and the empty clause are asked for.
///
/// Of the lines that add just one of these literals, and of those that add the empty clause, the first is kept, and
/// with them each line that is a hint of a kept one; no other is. The ids follow anew on those of the formula's
/// clauses. Each literal has to have a line that adds just it. Lines are moved, not copied.
///
/// Without memory for it there is no proof. `NoMemory` also stands for numbers that have no place: where the formula's
/// clauses and the lines that are kept are so many that the next id would reach 2^32.
pub fn trim(alloc: Global, formula: &Formula, proof: Proof, keep: &[Lit]) -> Result<Proof, NoMemory>
    requires tidy { IsTidy formula.now proof }
    requires accepted { Proves formula.now proof }
    requires keep { HasUnits proof keep.now }
    ensures lines { IfOk result (λ kept. IsTrimmed formula.now proof keep.now kept) }
    ensures tidy { IfOk result (λ kept. IsTidy formula.now kept) }
    ensures accepted { IfOk result (λ kept. Proves formula.now kept) }
    ensures keep { IfOk result (λ kept. HasUnits kept keep.now) }
    ensures empty { IfOk result (λ kept. IsTrue (have_empty proof) → IsTrue (have_empty kept)) }
{
    let marks = needed(alloc, formula, &proof.lines, keep)?;
    let inputs = formula.clauses().len() as u64;
    let ids = new_ids(alloc, inputs, &marks)?;
    let lines = pick(alloc, proof.lines, &marks, inputs, &ids)?;
    Ok(Proof { lines })
}

/// The marks of the lines that are needed.
fn needed(
    alloc: Global,
    formula: &Formula,
    lines: &[Line],
    keep: &[Lit],
) -> Result<Vec<bool>, NoMemory>
    requires clauses { HaveClausesPlaces formula.now lines.now }
    requires keep { All (HasPlace (2 * formula.now.vars + 2)) keep.now }
    requires hints { AreHintsBelow formula.now lines.now }
    ensures { IfOk result (λ marks. AreNeeded formula.now lines.now keep.now marks.items) }
{
    let mut marks = roots(alloc, formula, lines, keep)?;
    let inputs = formula.clauses().len() as u64;
    let mut left = lines.len();
    while left > 0 {
        left -= 1;
        if marks[left] {
            mark_hints(&mut marks, inputs, lines[left].hints());
        }
    }
    Ok(marks)
}

/// The marks of the lines that are kept for their own sake.
fn roots(
    alloc: Global,
    formula: &Formula,
    lines: &[Line],
    keep: &[Lit],
) -> Result<Vec<bool>, NoMemory>
    requires clauses { HaveClausesPlaces formula.now lines.now }
    requires keep { All (HasPlace (2 * formula.now.vars + 2)) keep.now }
    ensures { IfOk result (λ marks. AreRoots keep.now lines.now marks.items) }
{
    let mut wanted = Wanted::new(alloc, formula, keep)?;
    let mut marks = Vec::with_capacity(alloc, lines.len())?;
    for line in lines {
        marks.push(wanted.take(line.lits()))?;
    }
    Ok(marks)
}

/// The marked lines, with new ids.
fn pick(
    alloc: Global,
    lines: Vec<Line>,
    marks: &[bool],
    inputs: u64,
    ids: &[u32],
) -> Result<Vec<Line>, NoMemory>
    requires count { length marks.now ≡ length lines.items }
    requires ids { All (AreIdsWithin (inputs + 1 + length ids.now)) lines.items }
    ensures { IfOk result (λ kept. kept.items ≡ map (renumbered (listed_id inputs ids.now)) (picked marks.now lines.items)) }
{
    let mut kept = Vec::new(alloc);
    let mut place = 0usize;
    for line in lines {
        push_if(marks[place], line, inputs, ids, &mut kept)?;
        place += 1;
    }
    Ok(kept)
}

/// Puts a line with new ids behind the others where it is marked, and drops it where it isn't.
fn push_if(
    mark: bool,
    line: Line,
    inputs: u64,
    ids: &[u32],
    kept: &mut Vec<Line>,
) -> Result<(), NoMemory>
    requires { AreIdsWithin (inputs + 1 + length ids.now) line }
    ensures { OnOk result (kept.new.items
        ≡ kept.old.items ++ (if mark then renumbered (listed_id inputs ids.now) line ∷ [] else [])) }
{
    if mark {
        kept.push(moved(line, inputs, ids))?;
    }
    Ok(())
}

/// The line with new ids.
pub fn moved(line: Line, inputs: u64, ids: &[u32]) -> Line
    requires { AreIdsWithin (inputs + 1 + length ids.now) line }
    ensures { result ≡ renumbered (listed_id inputs ids.now) line }
{
    match line {
        Line::Add { id, lits, hints } => Line::Add {
            id: listed(id, inputs, ids),
            lits,
            hints: moved_ids(hints, inputs, ids),
        },
        Line::Delete { id, ids: deleted } => Line::Delete {
            id: listed(id, inputs, ids),
            ids: moved_ids(deleted, inputs, ids),
        },
    }
}

/// The new ids of several.
fn moved_ids(old: Ids, inputs: u64, ids: &[u32]) -> Ids
    requires { All (λ h. h < inputs + 1 + length ids.now) old }
    ensures { result ≡ map (listed_id inputs ids.now) old }
{
    let mut new = old.ids;
    renumber(&mut new, inputs, ids);
    Ids { ids: new }
}
