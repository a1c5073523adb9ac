//! Times propagation over random clauses of three literals, and of two: the same clauses, and the same
//! counts, on every machine and at every run.
//!
//! The words are how many variables there are, how many clauses of three literals are drawn, how many rounds
//! are done, and how many clauses of two literals are drawn; without them 200, 800, 20 and 0. A draw with a
//! variable twice makes no clause. Each round decides random literals and propagates until a clause is false
//! or every variable has a value, and goes back to level 0. `bench/propagation.sh` runs it and measures.
#![tactic(auto)]

mod clauses;
mod rounds;

use rounds::run;
use std::env;

fn main(rt: HostRuntime) -> anyhow::Result<()> {
    let mut words = env::args(&rt)?.skip(1);
    let mut numbers = [200u32, 800, 20, 0];
    for number in numbers.iter_mut() {
        if let Some(word) = words.next() {
            *number = word.parse()?;
        }
    }
    let [vars, threes, rounds, twos] = numbers;
    let counts = run(rt.alloc(), vars, threes, twos, rounds)?;
    println!(rt; "clauses {}", counts.clauses)?;
    println!(rt; "decisions {}", counts.decisions)?;
    println!(rt; "assigned {}", counts.assigned)?;
    println!(rt; "conflicts {}", counts.conflicts)?;
    Ok(())
}
