ghost use Rattle.std.specs.Prelude.{◌≡◌, ◌<◌, ◌-◌, ◌^◌, false, length, map, slice_set, slice_index_or, IfOk};
ghost use Rattle.trail_core.specs.Trails.{assigned_at};
ghost use Rattle.search_policy.specs.Removals.{IsChosen};
ghost use Rattle.search_policy.specs.Steps.Candidates.{with_reason, AreReasons, may_go, AreCandidates};

use clause_arena::{Arena, ClauseRef};
use cnf_core::NoMemory;
use std::alloc::Global;
use trail_core::{Reason, Trail};

/// A learnt clause that may go.
#[derive(Clone, Copy, Debug)]
struct Candidate {
    clause: ClauseRef,
    len: u64,
}

/// Half, rounded down, of the live learnt clauses that are no reason in the trail, each once: the longest first, and of
/// those of one length the oldest first.
pub fn choose_removals(
    alloc: Global,
    arena: &Arena,
    trail: &Trail,
) -> Result<Vec<ClauseRef>, NoMemory>
    ensures { IfOk result (λ rs. IsChosen arena.now trail.now rs.items) }
{
    let reasons = reasons(alloc, arena, trail)?;
    let mut candidates = candidates(alloc, arena, &reasons)?;
    candidates.sort_by_key(
        |candidate: &Candidate| -> u64
            ensures { result ≡ 2 ^ 64 - 1 - candidate.now.len }
        { u64::MAX - candidate.len },
    )?;
    let half = candidates.len() / 2;
    clauses(alloc, &candidates[..half])
}

/// The clauses of these candidates.
fn clauses(alloc: Global, candidates: &[Candidate]) -> Result<Vec<ClauseRef>, NoMemory>
    ensures { IfOk result (λ rs. rs.items ≡ map (λ c. c.clause) candidates.now) }
{
    let mut found = Vec::with_capacity(alloc, candidates.len())?;
    for i in 0..candidates.len() {
        found.push(candidates[i].clause)?;
    }
    Ok(found)
}

/// Which clauses of the arena are reasons in the trail.
fn reasons(alloc: Global, arena: &Arena, trail: &Trail) -> Result<Vec<bool>, NoMemory>
    ensures { IfOk result (λ marks. AreReasons arena.now trail.now (length trail.now.entries) marks.items) }
{
    let mut marks = vec![in alloc; false; arena.len() as usize]?;
    for place in 0..trail.len() {
        mark(&mut marks, reason_at(trail, place));
    }
    Ok(marks)
}

/// Marks the clause that is this reason, if it is one.
fn mark(marks: &mut Vec<bool>, reason: Reason)
    ensures { marks.new.items ≡ with_reason marks.old.items reason }
{
    if let Reason::Clause(clause) = reason {
        let place = clause.place() as usize;
        if place < marks.len() {
            marks[place] = true;
        }
    }
}

/// The reason of the entry at this place.
fn reason_at(trail: &Trail, place: u32) -> Reason
    requires { place < length trail.now.entries }
    ensures { result ≡ (assigned_at trail.now.entries place).reason }
{
    trail.reason_of(trail.lit_at(place).var())
}

/// The live learnt clauses that have no mark, in the order of the arena.
fn candidates(alloc: Global, arena: &Arena, marks: &[bool]) -> Result<Vec<Candidate>, NoMemory>
    requires { length marks.now ≡ length arena.now }
    ensures { IfOk result (λ cs. AreCandidates arena.now marks.now (length arena.now) cs.items) }
{
    let mut found = Vec::new(alloc);
    for place in 0..arena.len() {
        let clause = ClauseRef::at(place);
        if is_candidate(arena, marks, clause) {
            let len = arena.len_of(clause);
            found.push(Candidate { clause, len })?;
        }
    }
    Ok(found)
}

/// Whether the clause is live, learnt and has no mark.
fn is_candidate(arena: &Arena, marks: &[bool], clause: ClauseRef) -> bool
    requires size { length marks.now ≡ length arena.now }
    requires present { clause < length arena.now }
    ensures { result ≡ may_go arena.now marks.now clause }
{
    arena.is_live(clause) && arena.is_learnt(clause) && !marks[clause.place() as usize]
}
