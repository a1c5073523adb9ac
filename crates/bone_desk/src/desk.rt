//! The trait `Desk`, its feeds, ports and acts.
ghost use Rattle.std.specs.Prelude.{◌≡◌, ◌<◌, ◌≤◌, length, take, IfOk, OnOk, OnErr};
ghost use Rattle.bone_desk.specs.Told.{Told, Rose, CountsOnly, SameBytes, ReadsOnly, WritesOnly};
ghost use Rattle.bone_desk.specs.Told.{Took, Gave, AtEnd};

use std::error::Error;
use std::fmt;
use std::fmt::{Display, Formatter};

/// The inputs.
#[derive(Clone, Copy, Debug, PartialEq, Eq)]
pub enum Feed {
    /// The formula's text.
    Text,
    /// An answer that was written before.
    Answer,
    /// A proof that was written before.
    Proof,
    /// A witness that was written before.
    Witness,
}

/// The outputs.
#[derive(Clone, Copy, Debug, PartialEq, Eq)]
pub enum Port {
    /// The answer.
    Answer,
    /// The proof.
    Proof,
    /// The witness.
    Witness,
    /// Remarks to the user.
    Notes,
}

/// The sixteen acts. A desk counts the failures of each.
#[derive(Clone, Copy, Debug, PartialEq, Eq)]
pub enum Act {
    /// Opening a feed.
    OpenFeed(Feed),
    /// Opening a port.
    OpenPort(Port),
    /// Reading from a feed.
    Read(Feed),
    /// Writing to a port.
    Write(Port),
}

/// A call of a desk failed. The count of its act rose.
#[derive(Clone, Copy, Debug, PartialEq, Eq)]
pub struct Failed;

impl Display for Failed {
    fn fmt<W: fmt::Write>(&self, f: &mut Formatter<W>) -> fmt::Result {
        f.write_str("a call of the desk failed")
    }
}

impl Error for Failed {}

/// The outside world: feeds to read from, and ports to write to.
///
/// A call that answers `Failed` raises the count of its act, unless that stands at 2^64 - 1, and
/// moves no byte. No call changes another act's count, another feed or another port.
pub trait Desk {
    /// What the desk tells of itself.
    ghost told: { Self → Told };

    /// Opens a feed by its name. The empty name may stand for a feed that needs none.
    fn open_feed(&mut self, feed: Feed, name: &str) -> Result<(), Failed>
        ensures same { SameBytes (told self.old) (told self.new) }
        ensures only { CountsOnly (Act.OpenFeed feed) (told self.old) (told self.new) }
        ensures cause { OnErr result (Rose (Act.OpenFeed feed) (told self.old) (told self.new)) };

    /// Opens a port by its name. The empty name may stand for a port that needs none.
    fn open_port(&mut self, port: Port, name: &str) -> Result<(), Failed>
        ensures same { SameBytes (told self.old) (told self.new) }
        ensures only { CountsOnly (Act.OpenPort port) (told self.old) (told self.new) }
        ensures cause { OnErr result (Rose (Act.OpenPort port) (told self.old) (told self.new)) };

    /// Reads some bytes of a feed into the front of `buf`, and answers how many. 0 is the end of
    /// the input.
    fn read(&mut self, feed: Feed, buf: &mut [u8]) -> Result<usize, Failed>
        requires { 0 < length buf.old }
        ensures count { IfOk result (λ k. k ≤ length buf.old) }
        ensures took { IfOk result
            (λ k. Took feed (take k buf.new) (told self.old) (told self.new)) }
        ensures end { IfOk result (λ k. k ≡ 0 → AtEnd feed (told self.old)) }
        ensures only { ReadsOnly feed (told self.old) (told self.new) }
        ensures cause { OnErr result (Rose (Act.Read feed) (told self.old) (told self.new)) }
        ensures err { OnErr result (SameBytes (told self.old) (told self.new)) };

    /// Writes a front of `bytes` to a port, and answers its length: at least 1, unless there is no
    /// byte.
    fn write(&mut self, port: Port, bytes: &[u8]) -> Result<usize, Failed>
        ensures count { IfOk result (λ k. k ≤ length bytes.now) }
        ensures gave { IfOk result
            (λ k. Gave port (take k bytes.now) (told self.old) (told self.new)) }
        ensures moves { IfOk result (λ k. 0 < length bytes.now → 0 < k) }
        ensures only { WritesOnly port (told self.old) (told self.new) }
        ensures cause { OnErr result (Rose (Act.Write port) (told self.old) (told self.new)) }
        ensures err { OnErr result (SameBytes (told self.old) (told self.new)) };
}
