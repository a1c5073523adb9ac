ghost use Rattle.std.specs.Prelude.{◌≡◌, IfOk};
ghost use Rattle.cnf_core.specs.Formulas.{IsModel};
ghost use Rattle.flip_literals.specs.Walks.{AreVars};

use cnf_core::{Formula, NoMemory, Values};
use flip_literals::{Marks, Occurrences, Walker, critical};
use model_check::is_model;
use std::alloc::Global;

/// What is done in each round.
#[derive(Clone, Copy, Debug, PartialEq, Eq)]
pub enum Task {
    /// Whether the assignment is a model.
    IsModel,
    /// Which variables the model can't do without.
    Critical,
    /// The same, one by one by their occurrences.
    Singles,
    /// The lists of the occurrences of the model's true literals.
    Occurrences,
    /// A walk over all variables, from the first on.
    Walk,
    /// A walk over a chain, from its last variable on.
    Chain,
}

impl Task {
    /// The task of this name.
    pub fn of(name: &str) -> Option<Task> {
        match name {
            "is_model" => Some(Task::IsModel),
            "critical" => Some(Task::Critical),
            "singles" => Some(Task::Singles),
            "occurrences" => Some(Task::Occurrences),
            "walk" => Some(Task::Walk),
            "chain" => Some(Task::Chain),
            _ => None,
        }
    }
}

/// Does the task so many times, and counts: the rounds that found a model, the variables that the model of
/// the last round can't do without, those that occur, or those that its walk flipped. Without a task, and
/// where the assignment isn't a model, it counts nothing.
pub fn run(
    alloc: Global,
    formula: &Formula,
    model: &Values,
    task: Option<Task>,
    rounds: u32,
) -> Result<usize, NoMemory> {
    if model.len() != formula.vars() || !is_model(formula, model) {
        return Ok(0);
    }
    match task {
        Some(Task::IsModel) => Ok((0..rounds).filter(|_| is_model(formula, model)).count()),
        Some(Task::Critical) => count_marks(alloc, formula, model, rounds),
        Some(Task::Singles) => count_singles(alloc, formula, model, rounds),
        Some(Task::Occurrences) => count_occurring(alloc, formula, model, rounds),
        Some(Task::Walk) => count_flips(alloc, formula, model, false, rounds),
        Some(Task::Chain) => count_flips(alloc, formula, model, true, rounds),
        None => Ok(0),
    }
}

/// The marks of the last round.
fn count_marks(
    alloc: Global,
    formula: &Formula,
    model: &Values,
    rounds: u32,
) -> Result<usize, NoMemory>
    requires { IsModel formula.now model.now }
{
    let mut marks = Marks::new(alloc, formula.vars())?;
    for _round in 0..rounds {
        critical(formula, model, &mut marks);
    }
    Ok((1..=formula.vars()).filter(|var| marks.is(*var)).count())
}

/// The critical variables of the last round, by lists that are made once.
fn count_singles(
    alloc: Global,
    formula: &Formula,
    model: &Values,
    rounds: u32,
) -> Result<usize, NoMemory>
    requires { IsModel formula.now model.now }
{
    let occurrences = Occurrences::new(alloc, formula, model)?;
    let mut count = 0;
    for _round in 0..rounds {
        count = (1..=formula.vars())
            .filter(|var| occurrences.is_critical(model, *var))
            .count();
    }
    Ok(count)
}

/// The variables that have a clause in the lists of the last round.
fn count_occurring(
    alloc: Global,
    formula: &Formula,
    model: &Values,
    rounds: u32,
) -> Result<usize, NoMemory>
    requires { IsModel formula.now model.now }
{
    let mut count = 0;
    for _round in 0..rounds {
        let occurrences = Occurrences::new(alloc, formula, model)?;
        count = (1..=formula.vars())
            .filter(|var| !occurrences.places(*var).is_empty())
            .count();
    }
    Ok(count)
}

/// The flips of the last round's walk over all variables, by lists that are made once.
fn count_flips(
    alloc: Global,
    formula: &Formula,
    model: &Values,
    from_last: bool,
    rounds: u32,
) -> Result<usize, NoMemory>
    requires { IsModel formula.now model.now }
{
    let vars = formula.vars();
    let mut candidates = all_vars(alloc, vars)?;
    if from_last {
        candidates.reverse();
    }
    let occurrences = Occurrences::new(alloc, formula, model)?;
    let mut walker = Walker::new(alloc, formula)?;
    let mut count = 0;
    for _round in 0..rounds {
        let mut left = model.copy()?;
        walker.walk(&occurrences, &mut left, &candidates);
        count = (1..=vars)
            .filter(|var| left.get(*var) != model.get(*var))
            .count();
    }
    Ok(count)
}

/// The variables 1 to so many.
fn all_vars(alloc: Global, vars: u32) -> Result<Vec<u32>, NoMemory>
    ensures { IfOk result (λ list. AreVars vars list.items) }
{
    let mut list = Vec::with_capacity(alloc, vars as usize)?;
    for var in 1..=vars {
        list.push(var)?;
    }
    Ok(list)
}
