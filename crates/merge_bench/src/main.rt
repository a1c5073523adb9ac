//! Times logs, merging and trimming: the same logs, and the same counts, on every machine and at every run.
//!
//! The words are what to do, how many logs there are, how many entries each has beside its last, how many literals
//! and how many hints an entry has, and a step: hints go to entries at multiples of it. Without them: `check`, 3, 300,
//! 4, 10 and 5. The tasks: `draw` only draws the entries, `write` writes them to logs, `read` also reads each back,
//! `merge` makes one proof of the logs, `trim` trims that to the literal 1, `needed` does both in one pass, and `check`
//! has the separate checker take the lines of the merged proof, up to one that it refuses.
//! `bench/merge.sh` runs it and measures.
#![tactic(auto)]

mod drawn;
mod logs;
mod tasks;

use std::env;
use tasks::{Size, Task, run};

fn main(rt: HostRuntime) -> anyhow::Result<()> {
    let mut words = env::args(&rt)?.skip(1);
    let task = words
        .next()
        .and_then(|word| Task::of(&word))
        .unwrap_or(Task::Check);
    let mut numbers = [3u32, 300, 4, 10, 5];
    for number in numbers.iter_mut() {
        if let Some(word) = words.next() {
            *number = word.parse()?;
        }
    }
    let [logs, entries, lits, hints, step] = numbers;
    let size = Size {
        logs,
        entries,
        lits,
        hints,
        step,
    };
    let counts = run(rt.alloc(), task, size)?;
    println!(rt; "lines {}", counts.lines)?;
    println!(rt; "hints {}", counts.hints)?;
    Ok(())
}
