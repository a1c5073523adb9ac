//! Reading a feed line by line.
ghost use Rattle.std.specs.Prelude.{◌≡◌, ◌≤◌, ◌<◌, ◌+◌, ◌-◌, ◌^◌, ℕ, true, false, Bool, List, [], ◌∷◌, ◌++◌, length, take, drop};
ghost use Rattle.std.specs.Prelude.{Ok, IfOk, IfErr, OnOk, Contains};
ghost use Rattle.bone_desk.specs.Told.{Told};
ghost use Rattle.text_lines.specs.Lines.{Line, IsPlain};
ghost use Rattle.text_lines.specs.Progress.{HasRead, Advanced, Drained, unread};
ghost use Rattle.text_lines.specs.Steps.Onward.{IsFirstFeed, IsOnward, IsStopped, EndsAt, IsFound, reads_left};

use crate::window::Window;
use bone_desk::{Desk, Failed, Feed};
use cnf_core::NoMemory;
use memchr::memchr;
use std::alloc::Global;
use std::marker::Model;

/// Why a feed gives no further line.
#[derive(Clone, Copy, Debug, PartialEq, Eq)]
pub enum FeedEnd {
    /// A read failed.
    Fault,
    /// More bytes came than the limit.
    TooLong,
    /// There was no memory.
    Memory,
}

impl From<Failed> for FeedEnd {
    ghost use Rattle.std.specs.Prelude.{◌≡◌};
    ghost use Rattle.text_lines.specs.declared.feed.FeedEnd.TheVariants.{Fault};

    ghost from_gives = { λ _ end. end ≡ Fault };

    fn from(_failed: Failed) -> Self {
        FeedEnd::Fault
    }
}

impl From<NoMemory> for FeedEnd {
    ghost use Rattle.std.specs.Prelude.{◌≡◌};
    ghost use Rattle.text_lines.specs.declared.feed.FeedEnd.TheVariants.{Memory};

    ghost from_gives = { λ _ end. end ≡ Memory };

    fn from(_error: NoMemory) -> Self {
        FeedEnd::Memory
    }
}

/// Hands out the lines of a feed, each in place: no line is copied, and what is left of a piece moves to the
/// front at most once a read. Memory grows only for a line that is longer than what there is.
///
/// A contract sees it as the feed, the line that was handed out last, the bytes that were read behind it, how many
/// more may come, and whether the end of the feed was met.
#[derive(Drop)]
pub struct FeedLines {
    feed: Feed,
    window: Window,
    ended: bool,
    room: u64,
    over: bool,
}

impl Model for FeedLines {
    ghost use Rattle.text_lines.specs.Progress.{Progress};
    ghost use Rattle.text_lines.specs.Lines.{Line};

    ghost Value = { Progress };

    ghost view = { λ r. record {
      feed = r.feed;
      line = record { bytes = r.window.line; ended = r.ended };
      ahead = r.window.ahead;
      room = r.room;
      over = r.over;
    } };
}

impl FeedLines {
    /// A reader of this feed, of which no more than `limit` bytes may come. It takes no memory yet.
    pub fn new(alloc: Global, feed: Feed, limit: u64) -> FeedLines
        ensures unread { result ≡ unread feed limit }
        ensures start { (told : Told) → HasRead limit told told result [] [] }
    {
        FeedLines {
            feed,
            window: Window::new(alloc),
            ended: false,
            room: limit,
            over: false,
        }
    }

    /// Goes on to the next line, which [`FeedLines::bytes`] and [`FeedLines::is_ended`] then tell. There is none
    /// exactly where the whole text was read and handed out. A line that was read whole is handed out before the
    /// desk is asked again, and once the end of the feed was met the desk isn't asked at all. After an error
    /// nothing is known but the text that came.
    pub fn advance<D: Desk>(&mut self, desk: &mut D) -> Result<bool, FeedEnd>
        ensures advanced { (limit : ℕ) (start : Told) (text : List ℕ) (done : List Line)
            → HasRead limit start (D.told desk.old) self.old text done
            → Advanced limit start (D.told desk.new) self.new text done result }
        ensures feed { self.new.feed ≡ self.old.feed }
        ensures ready { self.old.over ≡ false → Contains self.old.ahead 10
            → (result ≡ Ok true) × (D.told desk.new ≡ D.told desk.old) }
        ensures over { self.old.over ≡ true → (result ≡ Ok false) × (D.told desk.new ≡ D.told desk.old) }
    {
        if self.over {
            return Ok(false);
        }
        match self.find_line_feed(desk)? {
            Some(place) => {
                self.window.cut(place, 1);
                self.ended = true;
                Ok(true)
            }
            None => {
                let len = self.window.ahead().len();
                self.window.cut(len, 0);
                self.ended = false;
                Ok(len > 0)
            }
        }
    }

    /// The bytes of the present line, without its line feed.
    pub fn bytes(&self) -> &[u8]
        ensures { result.now ≡ self.now.line.bytes }
    {
        self.window.line()
    }

    /// Whether the present line has its line feed. Only the last line of a text may have none.
    pub fn is_ended(&self) -> bool
        ensures { result ≡ self.now.line.ended }
    {
        self.ended
    }

    /// Reads on to the end of the feed, and gives up all lines that are left.
    pub fn drain<D: Desk>(&mut self, desk: &mut D) -> Result<(), FeedEnd>
        ensures { (limit : ℕ) (start : Told) (text : List ℕ) (done : List Line)
            → HasRead limit start (D.told desk.old) self.old text done
            → Drained self.old.feed limit start (D.told desk.new) text done result }
    {
        while !self.over {
            let unread = self.window.ahead().len();
            self.window.cut(0, unread);
            self.read_more(desk)?;
        }
        Ok(())
    }

    /// The place of the first line feed ahead. Where there is none, more is read, up to the end of the feed.
    fn find_line_feed<D: Desk>(&mut self, desk: &mut D) -> Result<Option<usize>, FeedEnd>
        requires { self.old.over ≡ false }
        ensures found { IfOk result (λ place. (more : List ℕ)
            × IsOnward (D.told desk.old) (D.told desk.new) self.old self.new more × EndsAt self.new place) }
        ensures err { IfErr result (λ end. IsStopped self.old.feed self.old.room (D.told desk.old) (D.told desk.new) end) }
        ensures feed { self.new.feed ≡ self.old.feed }
        ensures ready { Contains self.old.ahead 10 → IsFound result × (D.told desk.new ≡ D.told desk.old) }
    {
        let mut seen = 0;
        loop {
            if let Some(place) = line_feed_from(self.window.ahead(), seen) {
                return Ok(Some(place));
            }
            if self.over {
                return Ok(None);
            }
            seen = self.window.ahead().len();
            self.read_more(desk)?;
        }
    }

    /// Reads some bytes more, or finds that the feed is at its end.
    fn read_more<D: Desk>(&mut self, desk: &mut D) -> Result<(), FeedEnd>
        ensures onward { OnOk result ((more : List ℕ)
            × IsOnward (D.told desk.old) (D.told desk.new) self.old self.new more) }
        ensures over { OnOk result (self.new.over ≡ true → self.new.ahead ≡ self.old.ahead) }
        ensures less { OnOk result (self.old.over ≡ false → reads_left self.new < reads_left self.old) }
        ensures err { IfErr result (λ end. IsStopped self.old.feed self.old.room (D.told desk.old) (D.told desk.new) end) }
        ensures feed { self.new.feed ≡ self.old.feed }
    {
        self.window.make_room()?;
        let count = self.window.fill(desk, self.feed)? as u64;
        if count > self.room {
            return Err(FeedEnd::TooLong);
        }
        self.room -= count;
        self.over = count == 0;
        Ok(())
    }
}

/// The place of the first line feed, where there is none among the first bytes, which were seen already.
fn line_feed_from(bytes: &[u8], seen: usize) -> Option<usize>
    requires within { seen ≤ length bytes.now }
    requires plain { IsPlain (take seen bytes.now) }
    ensures { IsFirstFeed bytes.now result }
{
    let place = memchr(b'\n', &bytes[seen..])?;
    Some(seen + place)
}
