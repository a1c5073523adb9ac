//! Times the test of a model, the marks of critical variables, and walks on a formula of its own making:
//! the same formula, and the same counts, on every machine and at every run.
//!
//! The words are what to do, the number of variables, the number of clauses, and how often it is done. On a
//! formula that was made to have a model: `is_model`, `critical`, `singles` (critical by occurrences),
//! `occurrences` (the making of their lists) or `walk`; on a chain of implications: `chain`, a walk from its
//! last variable on. `bench/flips.sh` and `bench/walks.sh` run it and measure.
#![tactic(auto)]

mod chain;
mod planted;
mod rounds;

use chain::chain;
use planted::planted;
use rounds::{Task, run};
use std::env;

fn main(rt: HostRuntime) -> anyhow::Result<()> {
    let mut words = env::args(&rt)?.skip(1);
    let task = words.next().and_then(|word| Task::of(&word));
    let mut numbers = [0u32; 3];
    for number in numbers.iter_mut() {
        if let Some(word) = words.next() {
            *number = word.parse()?;
        }
    }
    let [vars, clauses, rounds] = numbers;
    let (formula, model) = match task {
        Some(Task::Chain) => chain(rt.alloc(), vars, clauses)?,
        _ => planted(rt.alloc(), vars, clauses)?,
    };
    println!(rt; "{}", run(rt.alloc(), &formula, &model, task, rounds)?)?;
    Ok(())
}
