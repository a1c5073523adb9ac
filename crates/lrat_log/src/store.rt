ghost use Rattle.std.specs.Prelude.{◌≡◌, ◌+◌, ◌<◌, ◌≤◌, ◌^◌, [], ◌∷◌, ◌++◌, length, take, drop, true, IfOk, OnOk, OnErr};
ghost use Rattle.std.specs.Vec.{vec_len};
ghost use Rattle.lrat_log.specs.Steps.Paged.{stored_at, KeepsPages, IsWritten};

use cnf_core::NoMemory;
use std::alloc::Global;
use std::marker::Model;

/// How many bytes a page has room for, unless one larger entry fills it.
const PAGE_BYTES: usize = 65_536;

/// Bytes of several entries, each whole.
#[derive(Debug, Drop)]
struct Page {
    bytes: Vec<u8>,
}

impl Model for Page {
    ghost use Rattle.std.specs.Prelude.{ℕ, List};

    ghost Value = { List ℕ };

    ghost view = { λ p. p.bytes.items };
}

impl Page {
    /// An empty page with room for so many bytes.
    fn new(alloc: Global, room: usize) -> Result<Page, NoMemory>
        ensures { IfOk result (λ p. p ≡ []) }
    {
        Ok(Page {
            bytes: Vec::with_capacity(alloc, room)?,
        })
    }

    /// How many bytes there are.
    fn len(&self) -> usize
        ensures { result ≡ length self.now }
    {
        self.bytes.len()
    }

    /// How many more bytes fit.
    fn room(&self) -> usize {
        self.bytes.capacity().saturating_sub(self.bytes.len())
    }

    /// So many bytes from a place on.
    fn part(&self, start: usize, size: usize) -> &[u8]
        requires { start + size ≤ length self.now }
        ensures { result.now ≡ take size (drop start self.now) }
    {
        &self.bytes[start..start + size]
    }

    /// Puts bytes behind the others. Without memory for them the page stays as it was.
    fn append(&mut self, bytes: &[u8]) -> Result<(), NoMemory>
        ensures ok { OnOk result (self.new ≡ self.old ++ bytes.now) }
        ensures err { OnErr result (self.new ≡ self.old) }
    {
        self.bytes.extend_from_slice(bytes)?;
        Ok(())
    }
}

/// Where the bytes of an entry stand, where its hints begin among them, and its clock.
#[derive(Clone, Copy, Debug)]
struct Slot {
    page: u32,
    start: u32,
    size: u32,
    hints: u32,
    clock: u32,
}

/// Byte strings in pages, by an index. Each stands whole in one page.
///
/// Contracts see the strings, each with the place of the hints in it and a clock.
#[derive(Debug, Drop)]
pub struct Store {
    pages: Vec<Page>,
    index: Vec<Slot>,
}

impl Model for Store {
    ghost use Rattle.std.specs.Prelude.{List, All};
    ghost use Rattle.lrat_log.specs.Steps.Paged.{Stored, all_stored, IsSlot};

    ghost Value = { List Stored };

    ghost view = { λ s. all_stored s.pages.items s.index.items };

    ghost invariant = { λ s. All (IsSlot s.pages.items) s.index.items };
}

impl Store {
    /// Nothing is stored. It takes no memory.
    pub fn new(alloc: Global) -> Store
        ensures { result ≡ [] }
    {
        Store {
            pages: Vec::new(alloc),
            index: Vec::new(alloc),
        }
    }

    /// How many byte strings there are.
    pub fn len(&self) -> u64
        ensures value { result ≡ length self.now }
        ensures bound { result < 2 ^ 63 }
    {
        self.index.len() as u64
    }

    /// Stores a byte string, with the place of the hints in it and a clock. Without memory for it all stays as it was.
    pub fn push(&mut self, bytes: &[u8], hints: usize, clock: u32) -> Result<(), NoMemory>
        requires { hints ≤ length bytes.now }
        ensures ok { OnOk result (self.new
            ≡ self.old ++ record { bytes = bytes.now; hints = hints; clock = clock } ∷ []) }
        ensures err { OnErr result (self.new ≡ self.old) }
    {
        self.index.reserve(1)?;
        let size = narrow(bytes.len())?;
        let hints = narrow(hints)?;
        let place = write(&mut self.pages, *self.index.allocator(), bytes)?;
        self.index.push_reserved(Slot {
            page: place.page,
            start: place.start,
            size,
            hints,
            clock,
        });
        Ok(())
    }

    /// The bytes at a place.
    pub fn bytes(&self, i: u64) -> &[u8]
        requires { i < length self.now }
        ensures { result.now ≡ (stored_at self.now i).bytes }
    {
        let slot = self.index[i as usize];
        self.pages[slot.page as usize].part(slot.start as usize, slot.size as usize)
    }

    /// Where the hints begin among the bytes at a place.
    pub fn hints_at(&self, i: u64) -> usize
        requires { i < length self.now }
        ensures { result ≡ (stored_at self.now i).hints }
    {
        self.index[i as usize].hints as usize
    }

    /// The clock at a place.
    pub fn clock(&self, i: u64) -> u32
        requires { i < length self.now }
        ensures { result ≡ (stored_at self.now i).clock }
    {
        self.index[i as usize].clock
    }
}

/// A place in a page.
#[derive(Clone, Copy, Debug)]
struct Place {
    page: u32,
    start: u32,
}

/// Puts bytes behind the others of the last page, or into a new page where that has no room for them.
fn write(pages: &mut Vec<Page>, alloc: Global, bytes: &[u8]) -> Result<Place, NoMemory>
    ensures kept { KeepsPages pages.old.items pages.new.items }
    ensures ok { IfOk result (λ p. IsWritten pages.new.items p.page p.start bytes.now) }
{
    make_room(pages, alloc, bytes.len())?;
    let last = pages.len() - 1;
    let page = narrow(last)?;
    let start = narrow(pages[last].len())?;
    pages[last].append(bytes)?;
    Ok(Place { page, start })
}

/// Begins a page where the last one has no room for so many bytes.
fn make_room(pages: &mut Vec<Page>, alloc: Global, size: usize) -> Result<(), NoMemory>
    ensures kept { KeepsPages pages.old.items pages.new.items }
    ensures some { OnOk result (0 < vec_len pages.new) }
{
    if has_room(pages, size) {
        return Ok(());
    }
    pages.push(Page::new(alloc, size.max(PAGE_BYTES))?)?;
    Ok(())
}

/// Whether the last page has room for so many bytes.
fn has_room(pages: &[Page], size: usize) -> bool
    ensures { result ≡ true → 0 < length pages.now }
{
    match pages.last() {
        Some(page) => page.room() >= size,
        None => false,
    }
}

/// The number in 32 bits. An index has no place for larger ones.
fn narrow(number: usize) -> Result<u32, NoMemory>
    ensures { IfOk result (λ n. n ≡ number) }
{
    u32::try_from(number).map_err(|_| NoMemory)
}
