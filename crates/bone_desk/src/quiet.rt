//! A desk that never fails, and keeps none of the bytes that are written.
ghost use Rattle.std.specs.Prelude.{◌≡◌, ◌≢◌, ◌≤◌, ◌<◌, ◌++◌, [], length, take, min, replicate, IsOk, IfOk};

use crate::counts::count_written;
use crate::front::copy_front;
use crate::{Desk, Failed, Feed, Port};
use std::alloc::Global;

/// A desk whose feeds are vectors, on which no call fails. It tells the bytes of its feeds, and not
/// those that it is given: it counts them, and keeps none.
///
/// Set the texts before its use. Opening needs no name, and changes nothing.
#[derive(Drop)]
pub struct QuietDesk {
    /// What the feed `Text` has.
    pub text: Vec<u8>,
    /// What the feed `Answer` has.
    pub answer: Vec<u8>,
    /// What the feed `Proof` has.
    pub proof: Vec<u8>,
    /// What the feed `Witness` has.
    pub witness: Vec<u8>,
    /// How many bytes of each feed have been read, in the order of `Feed`.
    pub at: [usize; 4],
    /// The most bytes that a call moves: at least 1.
    pub piece: usize,
    /// How many bytes were written to each port, in the order of `Port`. A count stays at 2^64 - 1.
    pub wrote: [u64; 4],
    ghost moves: { 1 ≤ piece },
}

impl QuietDesk {
    ghost use Rattle.bone_desk.specs.Quiet.{feed_text};
    ghost use Rattle.bone_desk.specs.declared.desk.Feed.{Feed};

    /// A desk with empty texts, of which a call moves at most `piece` bytes. It takes no memory.
    pub fn new(alloc: Global, piece: usize) -> QuietDesk
        requires { 1 ≤ piece }
        ensures texts { (feed : Feed) → feed_text result feed ≡ [] }
        ensures unread { result.at ≡ replicate 4 0 }
        ensures piece { result.piece ≡ piece }
        ensures wrote { result.wrote ≡ replicate 4 0 }
    {
        QuietDesk {
            text: Vec::new(alloc),
            answer: Vec::new(alloc),
            proof: Vec::new(alloc),
            witness: Vec::new(alloc),
            at: [0; 4],
            piece,
            wrote: [0; 4],
        }
    }
}

impl Desk for QuietDesk {
    ghost use Rattle.bone_desk.specs.Quiet.{quiet_told, unread, counts_after};

    ghost told = { quiet_told };

    fn open_feed(&mut self, feed: Feed, _name: &str) -> Result<(), Failed>
        ensures never_fails { IsOk result }
        ensures same { self.new ≡ self.old }
    {
        Ok(())
    }

    fn open_port(&mut self, port: Port, _name: &str) -> Result<(), Failed>
        ensures never_fails { IsOk result }
        ensures same { self.new ≡ self.old }
    {
        Ok(())
    }

    fn read(&mut self, feed: Feed, buf: &mut [u8]) -> Result<usize, Failed>
        requires { 0 < length buf.old }
        ensures moved { result ≡ Ok (min (min self.old.piece (length buf.old)) (length (unread self.old feed))) }
        ensures took { IfOk result
            (λ k. unread self.old feed ≡ take k buf.new ++ unread self.new feed) }
        ensures others { (other : Feed) → other ≢ feed → unread self.new other ≡ unread self.old other }
        ensures only { self.new ≡ record self.old { at = self.new.at } }
    {
        let moved = match feed {
            Feed::Text => copy_front(&self.text, &mut self.at[0], self.piece, buf),
            Feed::Answer => copy_front(&self.answer, &mut self.at[1], self.piece, buf),
            Feed::Proof => copy_front(&self.proof, &mut self.at[2], self.piece, buf),
            Feed::Witness => copy_front(&self.witness, &mut self.at[3], self.piece, buf),
        };
        Ok(moved)
    }

    fn write(&mut self, port: Port, bytes: &[u8]) -> Result<usize, Failed>
        ensures moved { result ≡ Ok (min self.old.piece (length bytes.now)) }
        ensures wrote { self.new
            ≡ record self.old { wrote = counts_after self.old.wrote port (min self.old.piece (length bytes.now)) } }
    {
        let moved = self.piece.min(bytes.len());
        count_written(&mut self.wrote, port, moved);
        Ok(moved)
    }
}
