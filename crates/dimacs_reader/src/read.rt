ghost use Rattle.std.specs.Prelude.{◌≡◌, ◌<◌, ℕ, List, length, vec_len, IfOk};
ghost use Rattle.dimacs_reader.specs.Feeds.{Came, ReadsFormula, read_end_of};
ghost use Rattle.dimacs_reader.specs.Steps.Reads.{ScansText};
ghost use Rattle.dimacs_reader.specs.declared.read.ReadEnd.TheVariants.{Memory};

use crate::{BadKind, Scan, ScanEnd};
use bone_desk::{Desk, Feed};
use cnf_core::{Formula, NoMemory};
use std::alloc::{AllocError, Global};

/// The most bytes of a text that is read: 2^27.
pub const TEXT_LIMIT: usize = 134_217_728;

/// How many bytes are read at once.
const BUFFER: usize = 65_536;

/// Why no formula was read.
#[derive(Clone, Copy, Debug, PartialEq, Eq)]
pub enum ReadEnd {
    /// A read failed.
    Fault,
    /// The text has more than [`TEXT_LIMIT`] bytes.
    TooLong,
    /// The text's first fault, with its place from 0.
    Bad { kind: BadKind, place: u64 },
    /// There was no memory.
    Memory,
}

impl From<ScanEnd> for ReadEnd {
    ghost from_gives = { λ scan_end end. end ≡ read_end_of scan_end };

    fn from(end: ScanEnd) -> ReadEnd {
        match end {
            ScanEnd::Bad { kind, place } => ReadEnd::Bad { kind, place },
            ScanEnd::Memory => ReadEnd::Memory,
        }
    }
}

impl From<NoMemory> for ReadEnd {
    ghost from_gives = { λ _ end. end ≡ Memory };

    fn from(_error: NoMemory) -> ReadEnd {
        ReadEnd::Memory
    }
}

impl From<AllocError> for ReadEnd {
    ghost from_gives = { λ _ end. end ≡ Memory };

    fn from(_error: AllocError) -> ReadEnd {
        ReadEnd::Memory
    }
}

/// So many zeros.
fn zeros(alloc: Global, count: usize) -> Result<Vec<u8>, AllocError>
    ensures { IfOk result (λ v. vec_len v ≡ count) }
{
    vec![in alloc; 0u8; count]
}

/// Reads the feed `Text` to its end, unless it is too long, and gives a scan of it. The buffer is
/// for the pieces.
fn scan_text<D: Desk>(alloc: Global, desk: &mut D, buffer: &mut [u8]) -> Result<Scan, ReadEnd>
    requires { 0 < length buffer.old }
    ensures { (text : List ℕ) × Came (D.told desk.old) (D.told desk.new) text
        × ScansText (D.told desk.old) (D.told desk.new) text result }
{
    let mut scan = Scan::new(alloc);
    let mut room = TEXT_LIMIT;
    loop {
        let Ok(count) = desk.read(Feed::Text, buffer) else {
            return Err(ReadEnd::Fault);
        };
        if count == 0 {
            return Ok(scan);
        }
        if count > room {
            return Err(ReadEnd::TooLong);
        }
        scan.feed(&buffer[..count])?;
        room -= count;
    }
}

/// Reads the feed `Text` to its end, also past a fault of the text, and gives the formula that it
/// writes. It stops as soon as more than [`TEXT_LIMIT`] bytes came, so that a feed without end is
/// too long; past the limit that is the only answer.
pub fn read_formula<D: Desk>(alloc: Global, desk: &mut D) -> Result<Formula, ReadEnd>
    ensures { ReadsFormula (D.told desk.old) (D.told desk.new) result }
{
    let mut buffer = zeros(alloc, BUFFER)?;
    let scan = scan_text(alloc, desk, &mut buffer)?;
    Ok(scan.finish()?)
}
