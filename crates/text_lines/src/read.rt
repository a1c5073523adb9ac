//! Texts whose grammar goes line by line.
ghost use Rattle.std.specs.Prelude.{◌≡◌, ◌<◌, ◌^◌, ℕ, List, Option, Result, length};
ghost use Rattle.text_lines.specs.Lines.{Line};
ghost use Rattle.text_lines.specs.Readings.{Takes, ReadsText, reading, refused};

use crate::{FeedEnd, FeedLines};
use bone_desk::{Desk, Feed};
use std::alloc::Global;

/// Why a line wasn't taken.
#[derive(Clone, Copy, Debug, PartialEq, Eq)]
pub enum Refusal<F> {
    /// The line is at fault.
    Fault(F),
    /// There was no memory.
    Memory,
}

/// Why a text has no meaning.
#[derive(Clone, Copy, Debug, PartialEq, Eq)]
pub enum TextEnd<F> {
    /// A read failed.
    Fault,
    /// More bytes came than the limit.
    TooLong,
    /// The first line at fault, from 1. A line that is missing has the number behind the last one.
    Bad { line: u64, fault: F },
    /// There was no memory.
    Memory,
}

impl<F> From<FeedEnd> for TextEnd<F> {
    ghost use Rattle.std.specs.Prelude.{◌≡◌};
    ghost use Rattle.text_lines.specs.Readings.{text_end_of};

    ghost from_gives = { λ feed_end end. end ≡ text_end_of feed_end };

    fn from(end: FeedEnd) -> Self {
        match end {
            FeedEnd::Fault => TextEnd::Fault,
            FeedEnd::TooLong => TextEnd::TooLong,
            FeedEnd::Memory => TextEnd::Memory,
        }
    }
}

/// A reader of texts whose grammar goes line by line. Its state is what the lines so far mean.
pub trait LineByLine {
    /// What may be wrong with a line.
    type Fault: Copy;

    /// What the grammar says of a line behind those that were taken.
    ghost step: { Self → Line → Result Self Self.Fault };

    /// What is wrong where the text ends behind the lines that were taken.
    ghost end: { Self → Option Self.Fault };

    /// Takes the next line: its bytes without the line feed, and whether it has one. After a refusal it is
    /// not asked again.
    fn take(&mut self, bytes: &[u8], ended: bool) -> Result<(), Refusal<Self::Fault>>
        ensures { Takes (step self.old (record { bytes = bytes.now; ended = ended })) self.new result };

    /// What is wrong where the text ends here.
    fn finish(&self) -> Option<Self::Fault>
        ensures { result ≡ end self.now };
}

/// Has the reader take all lines of a feed. The feed is read to its end also past a line at fault, so a failed read
/// or a text of more than `limit` bytes come before that line. After want of memory nothing is known of the reader.
pub fn read_lines<D: Desk, R: LineByLine>(
    alloc: Global,
    desk: &mut D,
    feed: Feed,
    limit: u64,
    reader: &mut R,
) -> Result<(), TextEnd<R::Fault>>
    requires { limit < 2 ^ 63 }
    ensures { ReadsText feed limit (D.told desk.old) (D.told desk.new) (reading R.step R.end reader.old) reader.new result }
{
    let mut lines = FeedLines::new(alloc, feed, limit);
    let mut count = 0;
    while lines.advance(desk)? {
        count += 1;
        if let Err(refusal) = reader.take(lines.bytes(), lines.is_ended()) {
            lines.drain(desk)?;
            return Err(refused(count, refusal));
        }
    }
    match reader.finish() {
        None => Ok(()),
        Some(fault) => Err(TextEnd::Bad {
            line: count + 1,
            fault,
        }),
    }
}

/// The answer where this line wasn't taken.
fn refused<F>(line: u64, refusal: Refusal<F>) -> TextEnd<F>
    ensures { result ≡ refused line refusal }
{
    match refusal {
        Refusal::Fault(fault) => TextEnd::Bad { line, fault },
        Refusal::Memory => TextEnd::Memory,
    }
}
