//! One line of a proof's text.
ghost use Rattle.std.specs.Prelude.{◌≡◌, ℕ, List};
ghost use Rattle.cnf_core.specs.Formulas.{Cnf};
ghost use Rattle.lrat_lines.specs.declared.line.Line.{Line as ProofLine};
ghost use Rattle.lrat_lines.specs.Tokens.{is_gap};
ghost use Rattle.lrat_checker.specs.Checking.{StandsFor};
ghost use Rattle.bone_check.specs.Proving.{is_skipped};
ghost use Rattle.bone_check.specs.Steps.Taking.{untaken_end, untaken_refusal, LineSays, TakesText};

use crate::Reason;
use lrat_checker::{Checker, Refused};
use lrat_lines::{Line, LineEnd, read_line};
use std::alloc::Global;

/// Why a line isn't taken.
#[derive(Clone, Copy, Debug, PartialEq, Eq)]
pub enum Untaken {
    /// It doesn't read, or is refused.
    Fails(Reason),
    /// There was no memory.
    Memory,
}

/// Has the checker take what a line of a proof's text says, if it says something.
pub fn take_line(alloc: Global, checker: &mut Checker, bytes: &[u8]) -> Result<(), Untaken>
    ensures { TakesText bytes.now checker.old checker.new result }
{
    if is_skipped(bytes) {
        return Ok(());
    }
    match read_line(alloc, bytes) {
        Ok(line) => take_read(checker, &line),
        Err(end) => Err(untaken_end(end)),
    }
}

/// Has the checker take the line.
fn take_read(checker: &mut Checker, line: &Line) -> Result<(), Untaken>
    ensures { (F : Cnf) (lines : List ProofLine) → StandsFor checker.old F lines
        → LineSays F lines line.now checker.new result }
{
    match checker.line(line) {
        Ok(()) => Ok(()),
        Err(refused) => Err(untaken_refusal(refused)),
    }
}

/// Whether the line says nothing: it has gaps alone, or its first other byte is a `c`.
fn is_skipped(bytes: &[u8]) -> bool
    ensures { result ≡ is_skipped bytes.now }
{
    for byte in bytes {
        if !is_gap(*byte) {
            return *byte == b'c';
        }
    }
    true
}

/// Whether the byte parts tokens.
fn is_gap(byte: u8) -> bool
    ensures { result ≡ is_gap byte }
{
    byte == b' ' || byte == b'\t' || byte == b'\r' || byte == b'\n'
}

fn untaken_end(end: LineEnd) -> Untaken
    ensures { result ≡ untaken_end end }
{
    match end {
        LineEnd::BadToken => Untaken::Fails(Reason::BadToken),
        LineEnd::NotEnded => Untaken::Fails(Reason::NotEnded),
        LineEnd::NegativeHint => Untaken::Fails(Reason::NegativeHint),
        LineEnd::Memory => Untaken::Memory,
    }
}

fn untaken_refusal(refused: Refused) -> Untaken
    ensures { result ≡ untaken_refusal refused }
{
    match refused {
        Refused::IdNotRising(_) => Untaken::Fails(Reason::IdNotRising),
        Refused::VarRange(_) => Untaken::Fails(Reason::VarRange),
        Refused::UnknownHint(_) => Untaken::Fails(Reason::UnknownHint),
        Refused::NotUnit(_) => Untaken::Fails(Reason::NotUnit),
        Refused::NoConflict => Untaken::Fails(Reason::NoConflict),
        Refused::Memory => Untaken::Memory,
    }
}
