//! The memory of a reader of lines.
ghost use Rattle.std.specs.Prelude.{◌≡◌, ◌≤◌, ◌<◌, ◌+◌, ◌-◌, ℕ, List, [], ◌++◌, length, take, drop, vec_len};
ghost use Rattle.std.specs.Prelude.{IfOk, OnOk, OnErr};
ghost use Rattle.bone_desk.specs.Told.{Rose, ReadsOnly, SameBytes, AtEnd};
ghost use Rattle.text_lines.specs.Feeds.{Came};

use bone_desk::{Act, Desk, Failed, Feed};
use cnf_core::NoMemory;
use std::alloc::Global;
use std::marker::Model;

/// How many bytes there is room for at first.
const PIECE: usize = 65_536;

/// The line that was handed out last, and behind it the bytes that were read ahead.
#[derive(Drop)]
pub struct Window {
    bytes: Vec<u8>,
    /// Where the line begins.
    start: usize,
    /// Behind its last byte.
    end: usize,
    /// Where the bytes ahead begin.
    next: usize,
    /// Behind the last of them.
    filled: usize,
}

impl Model for Window {
    ghost use Rattle.std.specs.Prelude.{◌≤◌, ◌-◌, take, drop, vec_len};
    ghost use Rattle.text_lines.specs.Steps.Window.{Held};

    ghost Value = { Held };

    ghost view = { λ w. record {
      line = take (w.end - w.start) (drop w.start w.bytes.items);
      ahead = take (w.filled - w.next) (drop w.next w.bytes.items);
      free = vec_len w.bytes - w.filled;
    } };

    ghost invariant = { λ w. (w.start ≤ w.end) × (w.end ≤ w.next) × (w.next ≤ w.filled) × (w.filled ≤ vec_len w.bytes) };
}

impl Window {
    /// A window with no bytes, which takes no memory.
    pub fn new(alloc: Global) -> Window
        ensures { result ≡ record { line = []; ahead = []; free = 0 } }
    {
        Window {
            bytes: Vec::new(alloc),
            start: 0,
            end: 0,
            next: 0,
            filled: 0,
        }
    }

    /// The line that was handed out last.
    pub fn line(&self) -> &[u8]
        ensures { result.now ≡ self.now.line }
    {
        &self.bytes[self.start..self.end]
    }

    /// The bytes that were read and stand behind it.
    pub fn ahead(&self) -> &[u8]
        ensures { result.now ≡ self.now.ahead }
    {
        &self.bytes[self.next..self.filled]
    }

    /// Makes the first bytes ahead the line, and skips as many behind it.
    pub fn cut(&mut self, len: usize, skipped: usize)
        requires { len + skipped ≤ length self.old.ahead }
        ensures line { self.new.line ≡ take len self.old.ahead }
        ensures ahead { self.new.ahead ≡ drop (len + skipped) self.old.ahead }
    {
        self.start = self.next;
        self.end = self.start + len;
        self.next = self.end + skipped;
    }

    /// Makes room behind the bytes ahead. They go to the front, over the line and all before it; where they fill
    /// the window, it grows to twice its size.
    pub fn make_room(&mut self) -> Result<(), NoMemory>
        ensures ahead { self.new.ahead ≡ self.old.ahead }
        ensures room { OnOk result (0 < self.new.free) }
    {
        if self.next > 0 {
            self.bytes.copy_within(self.next..self.filled, 0);
            self.filled -= self.next;
            self.start = 0;
            self.end = 0;
            self.next = 0;
        }
        if self.filled == self.bytes.len() {
            grow(&mut self.bytes)?;
        }
        Ok(())
    }

    /// Reads some bytes into the room behind those ahead, and answers how many; 0 is the end of the feed.
    pub fn fill<D: Desk>(&mut self, desk: &mut D, feed: Feed) -> Result<usize, Failed>
        requires { 0 < self.old.free }
        ensures came { IfOk result (λ k. (bytes : List ℕ) × Came feed (D.told desk.old) (D.told desk.new) bytes
            × (length bytes ≡ k) × (self.new.ahead ≡ self.old.ahead ++ bytes)) }
        ensures end { IfOk result (λ k. k ≡ 0 → AtEnd feed (D.told desk.new)) }
        ensures only { OnErr result (ReadsOnly feed (D.told desk.old) (D.told desk.new)) }
        ensures err { OnErr result (SameBytes (D.told desk.old) (D.told desk.new)) }
        ensures cause { OnErr result (Rose (Act.Read feed) (D.told desk.old) (D.told desk.new)) }
    {
        let count = read_behind(desk, feed, &mut self.bytes, self.filled)?;
        self.filled += count;
        Ok(count)
    }
}

/// Reads some bytes of the feed to this place and on, and answers how many; 0 is the end of the feed.
fn read_behind<D: Desk>(
    desk: &mut D,
    feed: Feed,
    bytes: &mut [u8],
    place: usize,
) -> Result<usize, Failed>
    requires { place < length bytes.old }
    ensures size { length bytes.new ≡ length bytes.old }
    ensures front { take place bytes.new ≡ take place bytes.old }
    ensures count { IfOk result (λ k. place + k ≤ length bytes.old) }
    ensures came { IfOk result (λ k. Came feed (D.told desk.old) (D.told desk.new) (take k (drop place bytes.new))) }
    ensures end { IfOk result (λ k. k ≡ 0 → AtEnd feed (D.told desk.new)) }
    ensures only { OnErr result (ReadsOnly feed (D.told desk.old) (D.told desk.new)) }
    ensures err { OnErr result (SameBytes (D.told desk.old) (D.told desk.new)) }
    ensures cause { OnErr result (Rose (Act.Read feed) (D.told desk.old) (D.told desk.new)) }
{
    desk.read(feed, &mut bytes[place..])
}

/// Twice as many bytes, of which the first are as before.
fn grow(bytes: &mut Vec<u8>) -> Result<(), NoMemory>
    ensures front { take (vec_len bytes.old) bytes.new.items ≡ bytes.old.items }
    ensures more { OnOk result (vec_len bytes.old < vec_len bytes.new) }
    ensures err { vec_len bytes.old ≤ vec_len bytes.new }
{
    let size = bytes.len().saturating_mul(2).max(PIECE);
    bytes.resize(size, 0)?;
    Ok(())
}
