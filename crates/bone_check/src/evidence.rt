//! The feed with the witness.
ghost use Rattle.bone_check.specs.Steps.Evidence.{ReadsEvidence};
ghost use Rattle.std.specs.Prelude.{◌≤◌, ◌^◌};

use crate::CheckEnd;
use bone_desk::{Desk, Feed};
use std::alloc::Global;
use witness_text::{WitnessEnd, WitnessText, read_witness};

/// What a witness says.
#[derive(Drop)]
pub enum Evidence {
    /// It isn't asked for, and counts as empty.
    Unasked,
    /// What its lines tell.
    Tells(WitnessText),
    /// The first line that isn't one of a witness, from 1.
    BadLine(u64),
}

/// Reads the Witness feed to its end, if it is asked for.
pub fn read_evidence<D: Desk>(
    alloc: Global,
    desk: &mut D,
    vars: u32,
    witness: bool,
) -> Result<Evidence, CheckEnd>
    requires { vars ≤ 2 ^ 20 }
    ensures { ReadsEvidence vars witness (D.told desk.old) (D.told desk.new) result }
{
    if !witness {
        return Ok(Evidence::Unasked);
    }
    match read_witness(alloc, desk, vars) {
        Ok(text) => Ok(Evidence::Tells(text)),
        Err(WitnessEnd::BadLine(line)) => Ok(Evidence::BadLine(line)),
        Err(WitnessEnd::Fault) => Err(CheckEnd::Fault(Feed::Witness)),
        Err(WitnessEnd::TooLong) => Err(CheckEnd::TooLong(Feed::Witness)),
        Err(WitnessEnd::Memory) => Err(CheckEnd::Memory),
    }
}
