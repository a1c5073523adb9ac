ghost use Rattle.std.specs.Prelude.{◌≡◌, ◌+◌, ◌<◌, ◌≤◌, ◌^◌, IfOk, length, replicate};
ghost use Rattle.std.specs.List.{sum_by};
ghost use Rattle.cnf_core.specs.Formulas.{IsFormula};
ghost use Rattle.flip_literals.specs.Steps.Listed.{IsCounted, IsSummed, IsFilled, IsIndex, HasPart, IsPart};

use cnf_core::{Formula, NoMemory, Values};
use model_check::is_true;
use std::alloc::Global;

/// For each variable the places of the clauses in which the literal of it stands that is true in one assignment.
#[derive(Debug, Drop)]
pub(crate) struct Lists {
    /// Where the list of each variable begins, which ends where the next one begins. Nothing is listed for
    /// the entry 0.
    pub starts: Vec<u32>,
    /// The lists, one behind the other.
    pub places: Vec<u32>,
}

impl Lists {
    /// The lists for the literals that `first` makes true.
    pub(crate) fn new(alloc: Global, formula: &Formula, first: &Values) -> Result<Lists, NoMemory>
        requires { length first.now ≡ formula.now.vars }
        ensures { IfOk result (λ lists. IsIndex formula.now first.now lists.starts.items lists.places.items) }
    {
        let mut starts = counted(alloc, formula, first)?;
        let total = sum_up(&mut starts);
        let mut places = vec![in alloc; 0u32; total as usize]?;
        fill(formula, first, &mut starts, &mut places);
        Ok(Lists { starts, places })
    }

    /// The list of a variable.
    pub(crate) fn get(&self, var: u32) -> &[u32]
        requires { HasPart self.now.starts.items self.now.places.items var }
        ensures { IsPart self.now.starts.items self.now.places.items var result.now }
    {
        let start = self.starts[var as usize] as usize;
        let end = self.starts[var as usize + 1] as usize;
        &self.places[start..end]
    }
}

/// How often the true literal of each variable stands in the clauses, with a 0 before the first variable
/// and one behind the last.
fn counted(alloc: Global, formula: &Formula, first: &Values) -> Result<Vec<u32>, NoMemory>
    requires { length first.now ≡ formula.now.vars }
    ensures counted { IfOk result (λ counts. IsCounted formula.now first.now (length formula.now.clauses) 0 counts.items) }
    ensures total { IfOk result (λ counts. sum_by (λ n. n) counts.items ≤ 2 ^ 23) }
{
    let mut counts = vec![in alloc; 0u32; formula.vars() as usize + 2]?;
    for place in 0..formula.clauses().len() {
        count_clause(formula, first, place, &mut counts);
    }
    Ok(counts)
}

/// Counts the true literals of the clause at a place.
fn count_clause(formula: &Formula, first: &Values, place: usize, counts: &mut Vec<u32>)
    requires values { length first.now ≡ formula.now.vars }
    requires place { place < length formula.now.clauses }
    requires counted { IsCounted formula.now first.now place 0 counts.old.items }
    ensures { IsCounted formula.now first.now (place + 1) 0 counts.new.items }
{
    for lit in formula.clauses()[place].as_slice() {
        if is_true(*lit, first) {
            counts[lit.var() as usize] += 1;
        }
    }
}

/// Puts in place of each count the sum of all up to it, and answers the sum of all.
fn sum_up(counts: &mut Vec<u32>) -> u32
    requires { sum_by (λ n. n) counts.old.items < 2 ^ 32 }
    ensures { IsSummed counts.old.items counts.new.items result }
{
    let mut total = 0;
    for i in 0..counts.len() {
        total += counts[i];
        counts[i] = total;
    }
    total
}

/// Puts the places into the lists. Each list ends where its variable's entry says; at the end the entry says
/// where it begins.
fn fill(formula: &Formula, first: &Values, starts: &mut Vec<u32>, places: &mut Vec<u32>)
    requires values { length first.now ≡ formula.now.vars }
    requires filled { IsFilled formula.now first.now 0 0 starts.old.items places.old.items }
    ensures filled { IsFilled formula.now first.now (length formula.now.clauses) 0 starts.new.items places.new.items }
    ensures limits { IsFormula formula.now }
{
    for place in 0..formula.clauses().len() {
        fill_clause(formula, first, place, starts, places);
    }
}

/// Puts the place of one clause into the lists of its true literals.
fn fill_clause(
    formula: &Formula,
    first: &Values,
    place: usize,
    starts: &mut Vec<u32>,
    places: &mut Vec<u32>,
)
    requires values { length first.now ≡ formula.now.vars }
    requires place { place < length formula.now.clauses }
    requires filled { IsFilled formula.now first.now place 0 starts.old.items places.old.items }
    ensures { IsFilled formula.now first.now (place + 1) 0 starts.new.items places.new.items }
{
    for lit in formula.clauses()[place].as_slice() {
        if is_true(*lit, first) {
            let var = lit.var() as usize;
            let start = starts[var] - 1;
            starts[var] = start;
            places[start as usize] = place as u32;
        }
    }
}
