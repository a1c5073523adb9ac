//! A desk in memory: for tests, and for runs on texts that are at hand.
ghost use Rattle.std.specs.Prelude.{◌≡◌, ◌≢◌, ◌≤◌, ◌<◌, ◌+◌, ◌-◌, ◌^◌, ◌++◌, ◌↔◌, ◌⊎◌, length, take, drop};
ghost use Rattle.std.specs.Prelude.{min, IsTrue, Contains, IsErr, IfOk, OnOk, OnErr, vec_len, vec_capacity};

use crate::counts::{ACTS, count_fault};
use crate::front::copy_front;
use crate::{Act, Desk, Failed, Feed, Port};
use std::alloc::{AllocError, Global};
use std::error::Error;
use std::fmt;
use std::fmt::{Display, Formatter};

/// There was no memory for a desk.
#[derive(Clone, Copy, Debug, PartialEq, Eq)]
pub struct DeskMemory;

impl Display for DeskMemory {
    fn fmt<W: fmt::Write>(&self, f: &mut Formatter<W>) -> fmt::Result {
        f.write_str("no memory for a desk")
    }
}

impl Error for DeskMemory {}

impl From<AllocError> for DeskMemory {
    fn from(_: AllocError) -> Self {
        DeskMemory
    }
}

/// A desk whose feeds and ports are vectors. It tells all bytes.
///
/// Set the texts and `fail` before its use. Opening needs no name, and changes nothing but counts. A
/// call fails exactly where its number is one of `fail`, or where it writes to a port that has no room
/// left; then it counts the failure of its act and does nothing else.
#[derive(Drop)]
pub struct MemDesk {
    /// What the feed `Text` has.
    pub text: Vec<u8>,
    /// What the feed `Answer` has.
    pub answer: Vec<u8>,
    /// What the feed `Proof` has.
    pub proof: Vec<u8>,
    /// What the feed `Witness` has.
    pub witness: Vec<u8>,
    /// What was written to the port `Answer`.
    pub out_answer: Vec<u8>,
    /// What was written to the port `Proof`.
    pub out_proof: Vec<u8>,
    /// What was written to the port `Witness`.
    pub out_witness: Vec<u8>,
    /// What was written to the port `Notes`.
    pub out_notes: Vec<u8>,
    /// The numbers of the calls that fail. The first call is 1.
    pub fail: Vec<u64>,
    /// How many calls of all kinds there were. It stays at 2^64 - 1.
    pub calls: u64,
    /// How often each act failed, in the order of `Act`'s variants and theirs. A count stays at
    /// 2^64 - 1.
    pub faults: [u64; ACTS],
    /// The most bytes that a call moves: at least 1.
    pub piece: usize,
    /// The most bytes that each port takes. The room for them was made with the desk.
    pub spare: usize,
    /// How many bytes of each feed have been read, in the order of `Feed`.
    pub at: [usize; 4],
    ghost moves: { 1 ≤ piece },
    ghost room_answer: { spare ≤ vec_capacity out_answer },
    ghost room_proof: { spare ≤ vec_capacity out_proof },
    ghost room_witness: { spare ≤ vec_capacity out_witness },
    ghost room_notes: { spare ≤ vec_capacity out_notes },
}

impl MemDesk {
    ghost use Rattle.bone_desk.specs.Memory.{IsFresh};

    /// A desk with empty texts, on which no call fails. A call moves at most `piece` bytes, and a
    /// port takes `spare`.
    pub fn new(alloc: Global, piece: usize, spare: usize) -> Result<MemDesk, DeskMemory>
        requires { 1 ≤ piece }
        ensures fresh { IfOk result IsFresh }
        ensures piece { IfOk result (λ desk. desk.piece ≡ piece) }
        ensures spare { IfOk result (λ desk. desk.spare ≡ spare) }
    {
        Ok(MemDesk {
            text: Vec::new(alloc),
            answer: Vec::new(alloc),
            proof: Vec::new(alloc),
            witness: Vec::new(alloc),
            out_answer: Vec::with_capacity(alloc, spare)?,
            out_proof: Vec::with_capacity(alloc, spare)?,
            out_witness: Vec::with_capacity(alloc, spare)?,
            out_notes: Vec::with_capacity(alloc, spare)?,
            fail: Vec::new(alloc),
            calls: 0,
            faults: [0; ACTS],
            piece,
            spare,
            at: [0; 4],
        })
    }
}

/// Counts a call, and says whether it is to fail.
fn is_to_fail(calls: &mut u64, fail: &[u64]) -> bool
    ensures counted { calls.new ≡ min (calls.old + 1) (2 ^ 64 - 1) }
    ensures planned { IsTrue result ↔ Contains fail.now calls.new }
{
    *calls = calls.saturating_add(1);
    fail.contains(calls)
}

/// Appends a front of `bytes` to an output that has room, and answers its length.
fn append_front(out: &mut Vec<u8>, spare: usize, piece: usize, bytes: &[u8]) -> usize
    requires room { vec_len out.old < spare }
    requires capacity { spare ≤ vec_capacity out.old }
    ensures moved { result ≡ min (min piece (length bytes.now)) (spare - vec_len out.old) }
    ensures gave { out.new.items ≡ out.old.items ++ take result bytes.now }
    ensures capacity { spare ≤ vec_capacity out.new }
{
    let moved = piece.min(bytes.len()).min(spare - out.len());
    out.extend_from_slice(&bytes[..moved]).unwrap();
    moved
}

impl MemDesk {
    ghost use Rattle.bone_desk.specs.Memory.{IsFull};

    /// Whether a port takes no byte more.
    fn is_full(&self, port: Port) -> bool
        ensures { IsTrue result ↔ IsFull self.now port }
    {
        match port {
            Port::Answer => self.spare <= self.out_answer.len(),
            Port::Proof => self.spare <= self.out_proof.len(),
            Port::Witness => self.spare <= self.out_witness.len(),
            Port::Notes => self.spare <= self.out_notes.len(),
        }
    }
}

impl Desk for MemDesk {
    ghost use Rattle.bone_desk.specs.Told.{SameBytes, CountsOnly, ReadsOnly, WritesOnly, Rose, Took, Gave, AtEnd};
    ghost use Rattle.bone_desk.specs.Memory.{memory_told, unread, room, IsListed, IsFull};
    ghost use Rattle.bone_desk.specs.Memory.{CountsFault, ChangesCalls, ChangesPlace, ChangesOutput};

    ghost told = { memory_told };

    fn open_feed(&mut self, feed: Feed, _name: &str) -> Result<(), Failed>
        ensures same { SameBytes (memory_told self.old) (memory_told self.new) }
        ensures only { CountsOnly (Act.OpenFeed feed) (memory_told self.old) (memory_told self.new) }
        ensures cause { OnErr result (Rose (Act.OpenFeed feed) (memory_told self.old) (memory_told self.new)) }

        // What this desk does beyond the trait's clauses, exactly.
        ensures fails { IsErr result ↔ IsListed self.old }
        ensures done { OnOk result (ChangesCalls self.old self.new) }
        ensures refused { OnErr result (CountsFault (Act.OpenFeed feed) self.old self.new) }
    {
        if is_to_fail(&mut self.calls, &self.fail) {
            count_fault(&mut self.faults, Act::OpenFeed(feed));
            return Err(Failed);
        }
        Ok(())
    }

    fn open_port(&mut self, port: Port, _name: &str) -> Result<(), Failed>
        ensures same { SameBytes (memory_told self.old) (memory_told self.new) }
        ensures only { CountsOnly (Act.OpenPort port) (memory_told self.old) (memory_told self.new) }
        ensures cause { OnErr result (Rose (Act.OpenPort port) (memory_told self.old) (memory_told self.new)) }

        // What this desk does beyond the trait's clauses, exactly.
        ensures fails { IsErr result ↔ IsListed self.old }
        ensures done { OnOk result (ChangesCalls self.old self.new) }
        ensures refused { OnErr result (CountsFault (Act.OpenPort port) self.old self.new) }
    {
        if is_to_fail(&mut self.calls, &self.fail) {
            count_fault(&mut self.faults, Act::OpenPort(port));
            return Err(Failed);
        }
        Ok(())
    }

    fn read(&mut self, feed: Feed, buf: &mut [u8]) -> Result<usize, Failed>
        requires { 0 < length buf.old }
        ensures count { IfOk result (λ k. k ≤ length buf.old) }
        ensures took { IfOk result
            (λ k. Took feed (take k buf.new) (memory_told self.old) (memory_told self.new)) }
        ensures end { IfOk result (λ k. k ≡ 0 → AtEnd feed (memory_told self.old)) }
        ensures only { ReadsOnly feed (memory_told self.old) (memory_told self.new) }
        ensures cause { OnErr result (Rose (Act.Read feed) (memory_told self.old) (memory_told self.new)) }
        ensures err { OnErr result (SameBytes (memory_told self.old) (memory_told self.new)) }

        // What this desk does beyond the trait's clauses, exactly.
        ensures fails { IsErr result ↔ IsListed self.old }
        ensures moved { IfOk result (λ k.
            k ≡ min (min self.old.piece (length buf.old)) (length (unread self.old feed))) }
        ensures rest { IfOk result (λ k. drop k buf.new ≡ drop k buf.old) }
        ensures done { OnOk result (ChangesPlace feed self.old self.new) }
        ensures refused { OnErr result (CountsFault (Act.Read feed) self.old self.new) }
        ensures kept { OnErr result (buf.new ≡ buf.old) }
    {
        if is_to_fail(&mut self.calls, &self.fail) {
            count_fault(&mut self.faults, Act::Read(feed));
            return Err(Failed);
        }
        let moved = match feed {
            Feed::Text => copy_front(&self.text, &mut self.at[0], self.piece, buf),
            Feed::Answer => copy_front(&self.answer, &mut self.at[1], self.piece, buf),
            Feed::Proof => copy_front(&self.proof, &mut self.at[2], self.piece, buf),
            Feed::Witness => copy_front(&self.witness, &mut self.at[3], self.piece, buf),
        };
        Ok(moved)
    }

    fn write(&mut self, port: Port, bytes: &[u8]) -> Result<usize, Failed>
        ensures count { IfOk result (λ k. k ≤ length bytes.now) }
        ensures gave { IfOk result
            (λ k. Gave port (take k bytes.now) (memory_told self.old) (memory_told self.new)) }
        ensures moves { IfOk result (λ k. 0 < length bytes.now → 0 < k) }
        ensures only { WritesOnly port (memory_told self.old) (memory_told self.new) }
        ensures cause { OnErr result (Rose (Act.Write port) (memory_told self.old) (memory_told self.new)) }
        ensures err { OnErr result (SameBytes (memory_told self.old) (memory_told self.new)) }

        // What this desk does beyond the trait's clauses, exactly.
        ensures fails { IsErr result ↔ (IsListed self.old ⊎ IsFull self.old port) }
        ensures moved { IfOk result (λ k.
            k ≡ min (min self.old.piece (length bytes.now)) (room self.old port)) }
        ensures done { OnOk result (ChangesOutput port self.old self.new) }
        ensures refused { OnErr result (CountsFault (Act.Write port) self.old self.new) }
    {
        if is_to_fail(&mut self.calls, &self.fail) {
            count_fault(&mut self.faults, Act::Write(port));
            return Err(Failed);
        }
        if self.is_full(port) {
            count_fault(&mut self.faults, Act::Write(port));
            return Err(Failed);
        }
        let moved = match port {
            Port::Answer => append_front(&mut self.out_answer, self.spare, self.piece, bytes),
            Port::Proof => append_front(&mut self.out_proof, self.spare, self.piece, bytes),
            Port::Witness => append_front(&mut self.out_witness, self.spare, self.piece, bytes),
            Port::Notes => append_front(&mut self.out_notes, self.spare, self.piece, bytes),
        };
        Ok(moved)
    }
}
