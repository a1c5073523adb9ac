//! A desk of files and standard streams.
ghost use Rattle.std.specs.Prelude.{◌≡◌, ◌≤◌, ◌<◌, replicate, length, IfSome};
ghost use Rattle.bone_desk.specs.Real.{counts_told};

use crate::counts::{ACTS, counted};
use crate::{Act, Desk, Failed, Feed, Port};
use std::fs::File;
use std::io;
use std::io::{Read, Write};
use std::rt::Runtime;

/// Where the feed `Text` comes from.
#[derive(Drop)]
enum Source<F: Drop> {
    Closed,
    Input,
    Opened(F),
}

/// A desk of files, and of the standard streams of the runtime that it keeps. It tells its counts,
/// and no bytes.
///
/// The empty name of the feed `Text` is standard input. The port `Answer` is standard output,
/// unbuffered, and `Notes` is standard error, which takes text alone: both are open from the start,
/// and opening them changes nothing. A read or a write of what isn't open fails. A feed or a port
/// that fails to open stays as it was.
#[derive(Drop)]
pub struct RealDesk<R: Runtime> {
    rt: R,
    input: R::Reader,
    text: Source<R::File>,
    answer: Option<R::File>,
    proof: Option<R::File>,
    witness: Option<R::File>,
    out_proof: Option<R::File>,
    out_witness: Option<R::File>,
    /// How often each act failed, in the order of `Act`'s variants and theirs. A count stays at
    /// 2^64 - 1.
    pub faults: [u64; ACTS],
}

impl<R: Runtime> RealDesk<R> {
    /// A desk on which nothing is open but standard output and standard error. It takes no memory.
    pub fn new(rt: R) -> Self
        ensures { result.faults ≡ replicate 16 0 }
    {
        let input = rt.reader();
        RealDesk {
            rt,
            input,
            text: Source::Closed,
            answer: None,
            proof: None,
            witness: None,
            out_proof: None,
            out_witness: None,
            faults: [0; ACTS],
        }
    }
}

fn read_from<S: Read>(source: &mut S, buf: &mut [u8]) -> Option<usize>
    ensures { IfSome result (λ k. k ≤ length buf.old) }
{
    source.read(buf).ok()
}

fn read_file<S: Read>(file: &mut Option<S>, buf: &mut [u8]) -> Option<usize>
    ensures { IfSome result (λ k. k ≤ length buf.old) }
{
    read_from(file.as_mut()?, buf)
}

/// A write that moves nothing is a failure, unless there is nothing to move.
fn write_to<S: Write>(sink: &mut S, bytes: &[u8]) -> Option<usize>
    ensures count { IfSome result (λ k. k ≤ length bytes.now) }
    ensures moves { IfSome result (λ k. 0 < length bytes.now → 0 < k) }
{
    match sink.write(bytes) {
        Ok(0) if !bytes.is_empty() => None,
        Ok(moved) => Some(moved),
        Err(_) => None,
    }
}

fn write_file<S: Write>(file: &mut Option<S>, bytes: &[u8]) -> Option<usize>
    ensures count { IfSome result (λ k. k ≤ length bytes.now) }
    ensures moves { IfSome result (λ k. 0 < length bytes.now → 0 < k) }
{
    write_to(file.as_mut()?, bytes)
}

fn note<R: Runtime>(rt: &R, bytes: &[u8]) -> Option<usize>
    ensures { IfSome result (λ k. k ≡ length bytes.now) }
{
    let text = str::from_utf8(bytes).ok()?;
    rt.eprint(text).ok()?;
    Some(bytes.len())
}

impl<R: Runtime> Desk for RealDesk<R> {
    ghost told = { λ desk. counts_told desk.faults };

    fn open_feed(&mut self, feed: Feed, name: &str) -> Result<(), Failed> {
        if feed == Feed::Text && name.is_empty() {
            self.text = Source::Input;
            return Ok(());
        }
        let opened = File::open(&self.rt, name).ok();
        let file = counted(&mut self.faults, Act::OpenFeed(feed), opened)?;
        match feed {
            Feed::Text => self.text = Source::Opened(file),
            Feed::Answer => self.answer = Some(file),
            Feed::Proof => self.proof = Some(file),
            Feed::Witness => self.witness = Some(file),
        }
        Ok(())
    }

    fn open_port(&mut self, port: Port, name: &str) -> Result<(), Failed> {
        match port {
            Port::Answer | Port::Notes => {}
            Port::Proof => {
                let created = File::create(&self.rt, name).ok();
                self.out_proof = Some(counted(&mut self.faults, Act::OpenPort(port), created)?);
            }
            Port::Witness => {
                let created = File::create(&self.rt, name).ok();
                self.out_witness = Some(counted(&mut self.faults, Act::OpenPort(port), created)?);
            }
        }
        Ok(())
    }

    fn read(&mut self, feed: Feed, buf: &mut [u8]) -> Result<usize, Failed> {
        let moved = match feed {
            Feed::Text => match &mut self.text {
                Source::Closed => None,
                Source::Input => read_from(&mut self.input, buf),
                Source::Opened(file) => read_from(file, buf),
            },
            Feed::Answer => read_file(&mut self.answer, buf),
            Feed::Proof => read_file(&mut self.proof, buf),
            Feed::Witness => read_file(&mut self.witness, buf),
        };
        counted(&mut self.faults, Act::Read(feed), moved)
    }

    fn write(&mut self, port: Port, bytes: &[u8]) -> Result<usize, Failed> {
        let moved = match port {
            Port::Answer => write_to(&mut io::writer(&self.rt), bytes),
            Port::Proof => write_file(&mut self.out_proof, bytes),
            Port::Witness => write_file(&mut self.out_witness, bytes),
            Port::Notes => note(&self.rt, bytes),
        };
        counted(&mut self.faults, Act::Write(port), moved)
    }
}
