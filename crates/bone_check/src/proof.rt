//! The feed with the proof.
ghost use Rattle.std.specs.Prelude.{◌≡◌};
ghost use Rattle.bone_check.specs.ProofFeed.{ReadsProof};
ghost use Rattle.bone_check.specs.Steps.Taking.{TakesText};
ghost use Rattle.bone_check.specs.Steps.Ending.{proof_end, untaken_at};

use crate::line::{Untaken, take_line};
use crate::{CheckEnd, Reason};
use bone_desk::{Desk, Feed};
use cnf_core::Formula;
use lrat_checker::Checker;
use std::alloc::Global;
use text_lines::{FeedEnd, FeedLines};

/// How many bytes a proof may have: 2^45.
pub const MAX_PROOF: u64 = 35_184_372_088_832;

/// What became of a proof.
#[derive(Drop)]
pub enum ProofEnd {
    /// All lines were taken.
    Taken(Checker),
    /// The line, from 1, is the first that doesn't read or is refused.
    Fails { reason: Reason, line: u64 },
}

/// Has a checker over the formula take the lines of the Proof feed. A line is judged before the desk is asked for
/// what follows it, and isn't kept.
pub fn check_proof<D: Desk>(
    alloc: Global,
    formula: &Formula,
    desk: &mut D,
) -> Result<ProofEnd, CheckEnd>
    ensures { ReadsProof formula.now (D.told desk.old) (D.told desk.new) result }
{
    let mut checker = Checker::new(alloc, formula)?;
    let mut lines = FeedLines::new(alloc, Feed::Proof, MAX_PROOF);
    let mut line = 0;
    loop {
        let more = match lines.advance(desk) {
            Ok(more) => more,
            Err(end) => return Err(proof_end(end)),
        };
        if !more {
            return Ok(ProofEnd::Taken(checker));
        }
        line += 1;
        if let Err(untaken) = take_next(alloc, &mut checker, &lines) {
            return untaken_at(untaken, line);
        }
    }
}

/// Has the checker take what the line says that came last.
fn take_next(alloc: Global, checker: &mut Checker, lines: &FeedLines) -> Result<(), Untaken>
    ensures { TakesText lines.now.line.bytes checker.old checker.new result }
{
    take_line(alloc, checker, lines.bytes())
}

/// Why the proof gives no further line.
fn proof_end(end: FeedEnd) -> CheckEnd
    ensures { result ≡ proof_end end }
{
    match end {
        FeedEnd::Fault => CheckEnd::Fault(Feed::Proof),
        FeedEnd::TooLong => CheckEnd::TooLong(Feed::Proof),
        FeedEnd::Memory => CheckEnd::Memory,
    }
}

/// What a line leads to that isn't taken.
fn untaken_at(untaken: Untaken, line: u64) -> Result<ProofEnd, CheckEnd>
    ensures { result ≡ untaken_at untaken line }
{
    match untaken {
        Untaken::Fails(reason) => Ok(ProofEnd::Fails { reason, line }),
        Untaken::Memory => Err(CheckEnd::Memory),
    }
}
