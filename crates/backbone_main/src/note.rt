//! The note for the user that a run ends with: one line on the Notes port, or nothing.
ghost use Rattle.std.specs.Prelude.{◌≡◌, ◌++◌, decimal, OnOk, OnErr};
ghost use Rattle.bone_desk.specs.Told.{Rose, WritesOnly, Gave};
ghost use Rattle.bone_desk.specs.Gives.{GaveFront, Pushed, CutOff};
ghost use Rattle.backbone_main.specs.Notes.{note_of, fault_note, failed_words, feed_name, kind_number, named_note};
ghost use Rattle.backbone_main.specs.Notes.{place_name, port_name};

use crate::ending::Ending;
use bone_desk::{Act, Desk, Failed, Feed, Port, PortBuffer};
use dimacs_reader::{BadKind, Fault};
use itoa::Buffer;

/// The note where the words have no meaning.
const USAGE: &[u8] = b"usage: backbone extract|check|sample [options] [names]\n";

/// Writes the note of an ending to the Notes port, and takes no memory. At a fault the port has a front
/// of the note.
pub fn write_note<D: Desk>(desk: &mut D, ending: Ending) -> Result<(), Failed>
    ensures given { OnOk result (Gave Port.Notes (note_of ending) (D.told desk.old) (D.told desk.new)) }
    ensures front { OnErr result (GaveFront Port.Notes (note_of ending) (D.told desk.old) (D.told desk.new)) }
    ensures only { WritesOnly Port.Notes (D.told desk.old) (D.told desk.new) }
    ensures cause { OnErr result (Rose (Act.Write Port.Notes) (D.told desk.old) (D.told desk.new)) }
{
    let mut buffer = PortBuffer::new(Port::Notes);
    push_note(desk, &mut buffer, ending)?;
    buffer.flush(desk)
}

/// The line of the note, where there is one.
fn push_note<D: Desk>(desk: &mut D, buffer: &mut PortBuffer, ending: Ending) -> Result<(), Failed>
    ensures ok { OnOk result (Pushed (note_of ending) buffer.old buffer.new (D.told desk.old) (D.told desk.new)) }
    ensures err { OnErr result (CutOff (note_of ending) buffer.old (D.told desk.old) (D.told desk.new)) }
{
    match ending {
        Ending::Complete
        | Ending::Unsatisfiable
        | Ending::Unfinished
        | Ending::Unknown
        | Ending::Sampled
        | Ending::Judged(_) => Ok(()),
        Ending::OutOfMemory => buffer.push(desk, b"error: out of memory\n"),
        Ending::BadText(fault) => push_fault(desk, buffer, fault),
        Ending::TooLong(feed) => push_named(
            desk,
            buffer,
            b"error: ",
            feed_name(feed),
            b" too long\n",
        ),
        Ending::Failed(act) => push_named(desk, buffer, failed_words(act), place_name(act), b"\n"),
        Ending::Usage => buffer.push(desk, USAGE),
    }
}

/// Some words, a name, and what ends the line.
fn push_named<D: Desk>(
    desk: &mut D,
    buffer: &mut PortBuffer,
    words: &[u8],
    name: &[u8],
    end: &[u8],
) -> Result<(), Failed>
    ensures ok { OnOk result (Pushed (named_note words.now name.now end.now) buffer.old buffer.new
        (D.told desk.old) (D.told desk.new)) }
    ensures err { OnErr result (CutOff (named_note words.now name.now end.now) buffer.old
        (D.told desk.old) (D.told desk.new)) }
{
    buffer.push(desk, words)?;
    buffer.push(desk, name)?;
    buffer.push(desk, end)
}

/// The words for an act that failed.
fn failed_words(act: Act) -> &'static [u8]
    ensures { result.now ≡ failed_words act }
{
    match act {
        Act::OpenFeed(_) | Act::OpenPort(_) => b"error: open failed: ",
        Act::Read(_) => b"error: read failed: ",
        Act::Write(_) => b"error: write failed: ",
    }
}

/// The name of the feed or port that an act is on.
fn place_name(act: Act) -> &'static [u8]
    ensures { result.now ≡ place_name act }
{
    match act {
        Act::OpenFeed(feed) | Act::Read(feed) => feed_name(feed),
        Act::OpenPort(port) | Act::Write(port) => port_name(port),
    }
}

/// The name of a feed.
fn feed_name(feed: Feed) -> &'static [u8]
    ensures { result.now ≡ feed_name feed }
{
    match feed {
        Feed::Text => b"text",
        Feed::Answer => b"answer",
        Feed::Proof => b"proof",
        Feed::Witness => b"witness",
    }
}

/// The name of a port.
fn port_name(port: Port) -> &'static [u8]
    ensures { result.now ≡ port_name port }
{
    match port {
        Port::Answer => b"answer",
        Port::Proof => b"proof",
        Port::Witness => b"witness",
        Port::Notes => b"notes",
    }
}

/// The kind and the place of the text's first fault.
fn push_fault<D: Desk>(desk: &mut D, buffer: &mut PortBuffer, fault: Fault) -> Result<(), Failed>
    ensures ok { OnOk result (Pushed (fault_note fault) buffer.old buffer.new (D.told desk.old) (D.told desk.new)) }
    ensures err { OnErr result (CutOff (fault_note fault) buffer.old (D.told desk.old) (D.told desk.new)) }
{
    push_number(desk, buffer, b"error: text kind ", kind_number(fault.kind))?;
    push_number(desk, buffer, b" at byte ", fault.place)?;
    buffer.push(desk, b"\n")
}

/// Some words, and a number.
pub fn push_number<D: Desk>(
    desk: &mut D,
    buffer: &mut PortBuffer,
    words: &[u8],
    number: u64,
) -> Result<(), Failed>
    ensures ok { OnOk result (Pushed (words.now ++ decimal number) buffer.old buffer.new
        (D.told desk.old) (D.told desk.new)) }
    ensures err { OnErr result (CutOff (words.now ++ decimal number) buffer.old
        (D.told desk.old) (D.told desk.new)) }
{
    let mut digits = Buffer::new();
    buffer.push(desk, words)?;
    buffer.push(desk, decimal_bytes(&mut digits, number))
}

/// The number in decimal digits, as bytes in this buffer.
fn decimal_bytes(digits: &mut Buffer, number: u64) -> &[u8]
    ensures { result.now ≡ decimal number }
{
    digits.format(number).as_bytes()
}

/// The number of a kind of fault, from 1.
fn kind_number(kind: BadKind) -> u64
    ensures { result ≡ kind_number kind }
{
    match kind {
        BadKind::NoHeader => 1,
        BadKind::BadHeader => 2,
        BadKind::BadNumber => 3,
        BadKind::LiteralRange => 4,
        BadKind::TooManyClauses => 5,
        BadKind::TooFewClauses => 6,
        BadKind::Unended => 7,
        BadKind::OverLimit => 8,
        BadKind::BadShow => 9,
    }
}
