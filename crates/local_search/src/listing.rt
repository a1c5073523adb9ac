ghost use Rattle.std.specs.Prelude.{◌+◌, ◌<◌, ◌≤◌, ◌^◌, IfOk, length};
ghost use Rattle.std.specs.List.{sum_by};
ghost use Rattle.local_search.specs.Steps.Listed.{AreClauses, IsCounted, IsSummed, IsFilled};

use crate::flat::FlatClauses;
use cnf_core::NoMemory;
use std::alloc::Global;

/// How often each literal stands in the clauses, by its packed form, for so many of these.
pub(crate) fn counted(
    alloc: Global,
    clauses: &FlatClauses,
    codes: usize,
) -> Result<Vec<u32>, NoMemory>
    requires { AreClauses codes clauses.now }
    ensures counted { IfOk result (λ counts. IsCounted codes clauses.now (length clauses.now) 0 counts.items) }
    ensures total { IfOk result (λ counts. sum_by (λ n. n) counts.items ≤ 2 ^ 23) }
{
    let mut counts = vec![in alloc; 0u32; codes]?;
    for place in 0..clauses.len() {
        count_clause(clauses, place as u32, &mut counts);
    }
    Ok(counts)
}

/// Counts the literals of the clause at a place.
fn count_clause(clauses: &FlatClauses, place: u32, counts: &mut Vec<u32>)
    requires clauses { AreClauses (length counts.old.items) clauses.now }
    requires place { place < length clauses.now }
    requires counted { IsCounted (length counts.old.items) clauses.now place 0 counts.old.items }
    ensures { IsCounted (length counts.old.items) clauses.now (place + 1) 0 counts.new.items }
{
    for lit in clauses.get(place) {
        counts[lit.code() as usize] += 1;
    }
}

/// Puts in place of each count the sum of all up to it, and answers the sum of all.
pub(crate) fn sum_up(counts: &mut Vec<u32>) -> u32
    requires { sum_by (λ n. n) counts.old.items < 2 ^ 32 }
    ensures { IsSummed counts.old.items counts.new.items result }
{
    let mut total = 0;
    for i in 0..counts.len() {
        total += counts[i];
        counts[i] = total;
    }
    total
}

/// Puts the places into the lists. Each list ends where its literal's entry says; at the end the entry says
/// where it begins.
pub(crate) fn fill(clauses: &FlatClauses, starts: &mut Vec<u32>, places: &mut Vec<u32>)
    requires clauses { AreClauses (length starts.old.items) clauses.now }
    requires filled { IsFilled (length starts.old.items) clauses.now 0 0 starts.old.items places.old.items }
    ensures { IsFilled (length starts.old.items) clauses.now (length clauses.now) 0 starts.new.items places.new.items }
{
    for place in 0..clauses.len() {
        fill_clause(clauses, place as u32, starts, places);
    }
}

/// Puts the place of one clause into the lists of its literals.
fn fill_clause(clauses: &FlatClauses, place: u32, starts: &mut Vec<u32>, places: &mut Vec<u32>)
    requires clauses { AreClauses (length starts.old.items) clauses.now }
    requires place { place < length clauses.now }
    requires filled { IsFilled (length starts.old.items) clauses.now place 0 starts.old.items places.old.items }
    ensures { IsFilled (length starts.old.items) clauses.now (place + 1) 0 starts.new.items places.new.items }
{
    for lit in clauses.get(place) {
        let code = lit.code() as usize;
        let start = starts[code] - 1;
        starts[code] = start;
        places[start as usize] = place;
    }
}
