//! The program `backbone`: the literals that all models of a formula make true.
#![tactic(auto)]

mod check;
mod ending;
#[cfg(test)]
mod enumeration;
mod extract;
mod job;
mod note;
mod open_part;
mod opening;
mod reply;
mod sample_text;
mod sampling;
mod serve;
mod task;
#[cfg(test)]
mod tests;
mod text;
mod verdict_text;

use crate::ending::Ending;
use crate::serve::{report, serve};
use bone_desk::{Desk, RealDesk};
use chooser_core::Chooser;
use choosers::{OrderChooser, QueueChooser, RandomChooser};
use cnf_core::NoMemory;
use std::alloc::Global;
use std::process::ExitCode;
use std::thread::Threads;
use std::{env, io};
use worker_loop::NoGate;

/// Runs the words of the command line over files and standard streams, and ends with the status.
fn main(rt: HostRuntime) -> ExitCode {
    match rt.clone() {
        Ok(own) => ExitCode::from(run(&rt, own)),
        Err(_) => ExitCode::from(Ending::OutOfMemory.code()),
    }
}

fn run<T: Threads + Sync>(threads: &T, rt: HostRuntime) -> u8 {
    let alloc = rt.alloc();
    let words = given_words(&rt);
    let mut desk = RealDesk::new(rt);
    match words {
        Ok(words) => match run_words(threads, alloc, words.as_slice(), &mut desk) {
            Ok(status) => status,
            Err(NoMemory) => report(&mut desk, Ending::OutOfMemory),
        },
        Err(ending) => report(&mut desk, ending),
    }
}

/// How many workers a run has at most.
const MOST_WORKERS: usize = 16;

/// Runs the words, with a chooser for each of sixteen workers: every second one prefers what conflicts met, and of the
/// others every second one draws, and every second one takes the variables in order.
fn run_words<T: Threads + Sync, D: Desk>(
    threads: &T,
    alloc: Global,
    words: &[String],
    desk: &mut D,
) -> Result<u8, NoMemory> {
    let mut choosers: Vec<Box<dyn Chooser>> = Vec::with_capacity(alloc, MOST_WORKERS)?;
    for place in 0..MOST_WORKERS {
        let chooser: Box<dyn Chooser> = match place % 4 {
            0 | 2 => Box::new(alloc, QueueChooser::new(alloc))?,
            1 => Box::new(alloc, RandomChooser::new())?,
            _ => Box::new(alloc, OrderChooser::new())?,
        };
        choosers.push(chooser)?;
    }
    Ok(serve(threads, alloc, words, desk, choosers, &NoGate))
}

/// The words after the program's name. Where they can't be had as text, that is a fault of the words.
fn given_words(rt: &HostRuntime) -> Result<Vec<String>, Ending> {
    let args = env::args(rt).map_err(ending_of)?;
    args.skip(1)
        .collect(rt.alloc())
        .map_err(|_| Ending::OutOfMemory)
}

fn ending_of(error: io::Error) -> Ending {
    match error.kind() {
        io::ErrorKind::OutOfMemory => Ending::OutOfMemory,
        _ => Ending::Usage,
    }
}
