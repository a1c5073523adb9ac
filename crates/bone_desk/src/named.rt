//! A desk of named texts in memory: for tests of runs that go by names.
ghost use Rattle.std.specs.Prelude.{◌≡◌, ◌<◌, ◌≤◌, length, position, replicate, IfSome};
ghost use Rattle.std.specs.Str.{bytes_eq};
ghost use Rattle.std.specs.String.{string_bytes};

use crate::counts::{ACTS, counted, feed_place};
use crate::front::copy_front;
use crate::{Act, Desk, DeskMemory, Failed, Feed, Port};
use std::alloc::{AllocError, Global};

/// A text and its name.
#[derive(Debug, Drop)]
pub struct NamedText {
    pub name: String,
    pub bytes: Vec<u8>,
}

/// Where a feed reads from.
#[derive(Clone, Copy, Debug)]
enum Source {
    Closed,
    Input,
    Text(usize),
}

/// A desk of named texts, as a folder of files is, and of the standard streams. It is made for tests:
/// one run finds what an earlier one wrote under its name. It tells its counts, and no bytes.
///
/// A feed opens by the name of a text that is there, and reads it from the start; the empty name of the
/// feed `Text` is `input`. The ports `Proof` and `Witness` open by any name, whose text is then empty.
/// The ports `Answer` and `Notes` are open from the start, and opening them changes nothing. A read or a
/// write of what isn't open fails. A feed or a port that fails to open stays as it was.
#[derive(Drop)]
pub struct NamedDesk {
    alloc: Global,
    /// The texts by name. No name stands twice where all were made by `put` and by ports.
    pub texts: Vec<NamedText>,
    /// What standard input has.
    pub input: Vec<u8>,
    /// What was written to the port `Answer`.
    pub out_answer: Vec<u8>,
    /// What was written to the port `Notes`.
    pub out_notes: Vec<u8>,
    /// How often each act failed, in the order of `Act`'s variants and theirs. A count stays at
    /// 2^64 - 1.
    pub faults: [u64; ACTS],
    /// Where each feed reads from, and how many bytes of that it has read, in the order of `Feed`.
    sources: [Source; 4],
    at: [usize; 4],
    /// Which text the ports `Proof` and `Witness` write.
    proof: Option<usize>,
    witness: Option<usize>,
}

impl NamedDesk {
    /// A desk without texts, on which nothing is open but the ports `Answer` and `Notes`. It takes no
    /// memory.
    pub fn new(alloc: Global) -> NamedDesk
        ensures { result.faults ≡ replicate 16 0 }
    {
        NamedDesk {
            alloc,
            texts: Vec::new(alloc),
            input: Vec::new(alloc),
            out_answer: Vec::new(alloc),
            out_notes: Vec::new(alloc),
            faults: [0; ACTS],
            sources: [Source::Closed; 4],
            at: [0; 4],
            proof: None,
            witness: None,
        }
    }

    /// Makes the text of this name these bytes.
    pub fn put(&mut self, name: &str, bytes: &[u8]) -> Result<(), DeskMemory> {
        put_text(self.alloc, &mut self.texts, name, bytes)?;
        Ok(())
    }

    /// The text of this name, if it is there.
    pub fn text(&self, name: &str) -> Option<&[u8]> {
        let place = place_of(&self.texts, name)?;
        Some(self.texts[place].bytes.as_slice())
    }
}

/// The place of the first text of this name.
fn place_of(texts: &[NamedText], name: &str) -> Option<usize>
    ensures first { result ≡ position (λ text. bytes_eq (string_bytes text.name) name.now) texts.now }
    ensures within { IfSome result (λ place. place < length texts.now) }
{
    texts.iter().position(|text| text.name.as_str() == name)
}

/// Makes the text of this name these bytes, and gives its place.
fn put_text(
    alloc: Global,
    texts: &mut Vec<NamedText>,
    name: &str,
    bytes: &[u8],
) -> Result<usize, AllocError> {
    let text = NamedText {
        name: String::from_str(alloc, name)?,
        bytes: bytes.to_vec(alloc)?,
    };
    match place_of(texts, name) {
        Some(place) => {
            texts[place] = text;
            Ok(place)
        }
        None => {
            texts.push(text)?;
            Ok(texts.len() - 1)
        }
    }
}

/// Copies the next bytes of the text at this place.
fn copy_text(texts: &[NamedText], place: usize, at: &mut usize, buf: &mut [u8]) -> Option<usize>
    requires { 0 < length buf.old }
    ensures { IfSome result (λ k. k ≤ length buf.old) }
{
    let text = texts.get(place)?;
    Some(copy_front(&text.bytes, at, buf.len(), buf))
}

/// Appends all of `bytes`.
fn append(out: &mut Vec<u8>, bytes: &[u8]) -> Option<usize>
    ensures { IfSome result (λ k. k ≡ length bytes.now) }
{
    out.extend_from_slice(bytes).ok()?;
    Some(bytes.len())
}

/// Appends all of `bytes` to the text at this place, where one is open.
fn append_text(texts: &mut [NamedText], place: Option<usize>, bytes: &[u8]) -> Option<usize>
    ensures { IfSome result (λ k. k ≡ length bytes.now) }
{
    let text = texts.get_mut(place?)?;
    append(&mut text.bytes, bytes)
}

impl Desk for NamedDesk {
    ghost use Rattle.bone_desk.specs.Real.{counts_told};

    ghost told = { λ desk. counts_told desk.faults };

    fn open_feed(&mut self, feed: Feed, name: &str) -> Result<(), Failed> {
        let source = if feed == Feed::Text && name.is_empty() {
            Some(Source::Input)
        } else {
            place_of(&self.texts, name).map(Source::Text)
        };
        let place = feed_place(feed);
        self.sources[place] = counted(&mut self.faults, Act::OpenFeed(feed), source)?;
        self.at[place] = 0;
        Ok(())
    }

    fn open_port(&mut self, port: Port, name: &str) -> Result<(), Failed> {
        match port {
            Port::Answer | Port::Notes => {}
            Port::Proof => {
                let made = put_text(self.alloc, &mut self.texts, name, &[]).ok();
                self.proof = Some(counted(&mut self.faults, Act::OpenPort(port), made)?);
            }
            Port::Witness => {
                let made = put_text(self.alloc, &mut self.texts, name, &[]).ok();
                self.witness = Some(counted(&mut self.faults, Act::OpenPort(port), made)?);
            }
        }
        Ok(())
    }

    fn read(&mut self, feed: Feed, buf: &mut [u8]) -> Result<usize, Failed> {
        let place = feed_place(feed);
        let mut at = self.at[place];
        let moved = match self.sources[place] {
            Source::Closed => None,
            Source::Input => Some(copy_front(&self.input, &mut at, buf.len(), buf)),
            Source::Text(text) => copy_text(&self.texts, text, &mut at, buf),
        };
        self.at[place] = at;
        counted(&mut self.faults, Act::Read(feed), moved)
    }

    fn write(&mut self, port: Port, bytes: &[u8]) -> Result<usize, Failed> {
        let moved = match port {
            Port::Answer => append(&mut self.out_answer, bytes),
            Port::Notes => append(&mut self.out_notes, bytes),
            Port::Proof => append_text(&mut self.texts, self.proof, bytes),
            Port::Witness => append_text(&mut self.texts, self.witness, bytes),
        };
        counted(&mut self.faults, Act::Write(port), moved)
    }
}
