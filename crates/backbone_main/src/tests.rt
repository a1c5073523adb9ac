//! Whole runs over desks in memory, with one worker and with several.
ghost use Rattle.std.specs.Prelude.{◌≤◌};

mod agreement;
mod checks;
mod faults;
mod files;
mod rows;
mod runs;
mod sample_rows;
mod stand_ins;

use crate::serve::{alone, serve};
use crate::tests::stand_ins::{How, Kind, Stubborn, Watched};
use bone_desk::{Desk, MemDesk};
use chooser_core::Chooser;
use choosers::{OrderChooser, QueueChooser};
use std::alloc::Global;
use std::test::Fail;
use std::thread::Threads;
use worker_loop::{Gate, NoGate};

const CHAIN: &[u8] = b"p cnf 3 3\n1 0\n-1 2 0\n2 3 0\n";

const CHAIN_ANSWER: &[u8] = b"s SATISFIABLE\nb 1\nb 2\nb 0\n";

const EMPTY_ANSWER: &[u8] = b"s SATISFIABLE\nb 0\n";

const NO_MODEL: &[u8] = b"s UNSATISFIABLE\n";

const USAGE: &[u8] = b"usage: backbone extract|check|sample [options] [names]\n";

/// The words, each as text of its own.
fn owned(alloc: Global, words: &[&str]) -> Result<Vec<String>, Fail> {
    let mut all = Vec::new(alloc);
    for word in words {
        all.push(String::from_str(alloc, word)?)?;
    }
    Ok(all)
}

/// A desk with this text, of which the call with this number fails.
fn desk_with(alloc: Global, text: &[u8], piece: usize, fail: u64) -> Result<MemDesk, Fail>
    requires { 1 ≤ piece }
{
    let mut desk = MemDesk::new(alloc, piece, 1000)?;
    desk.text = text.to_vec(alloc)?;
    desk.fail.push(fail)?;
    Ok(desk)
}

/// Runs the words over the desk, with sixteen choosers of this kind: with as many workers as the words say on threads of
/// their own, or with one.
fn run_words<R: Threads + Sync, D: Desk, G: Gate>(
    rt: &R,
    alloc: Global,
    list: &[&str],
    desk: &mut D,
    kind: &Kind,
    gate: &G,
    how: How,
) -> Result<u8, Fail> {
    let words = owned(alloc, list)?;
    let mut choosers: Vec<Box<dyn Chooser>> = Vec::with_capacity(alloc, 16)?;
    for place in 0..16_usize {
        let chooser: Box<dyn Chooser> = match kind {
            Kind::InOrder => Box::new(alloc, OrderChooser::new())?,
            Kind::Mixed if place % 2 == 0 => Box::new(alloc, QueueChooser::new(alloc))?,
            Kind::Mixed => Box::new(alloc, OrderChooser::new())?,
            Kind::Watched { asked } if place == 0 => {
                Box::new(alloc, Watched::new(asked.clone()?))?
            }
            Kind::Watched { .. } => Box::new(alloc, OrderChooser::new())?,
            Kind::Stubborn { number, dropped } => Box::new(
                alloc,
                Stubborn::new(*number, dropped.clone()?),
            )?,
        };
        choosers.push(chooser)?;
    }
    Ok(match how {
        How::Alone => alone(alloc, words.as_slice(), desk, choosers),
        How::Served => serve(rt, alloc, words.as_slice(), desk, choosers, gate),
    })
}

/// What a run over the text answers and leaves, where the call with this number fails.
fn run_text<R: Threads + Sync>(
    rt: &R,
    alloc: Global,
    list: &[&str],
    text: &[u8],
    piece: usize,
    fail: u64,
    how: How,
) -> Result<(u8, MemDesk), Fail>
    requires { 1 ≤ piece }
{
    let mut desk = desk_with(alloc, text, piece, fail)?;
    let status = run_words(rt, alloc, list, &mut desk, &Kind::Mixed, &NoGate, how)?;
    Ok((status, desk))
}

/// A run with one worker, and one with as many as the words say.
fn run_both<R: Threads + Sync>(
    rt: &R,
    alloc: Global,
    list: &[&str],
    text: &[u8],
    piece: usize,
) -> Result<[(u8, MemDesk); 2], Fail>
    requires { 1 ≤ piece }
{
    Ok([
        run_text(rt, alloc, list, text, piece, 0, How::Alone)?,
        run_text(rt, alloc, list, text, piece, 0, How::Served)?,
    ])
}
