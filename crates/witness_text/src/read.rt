//! Reading a witness from its feed.
ghost use Rattle.std.specs.Prelude.{◌≤◌, ◌^◌};
ghost use Rattle.text_lines.specs.Lines.{Line};
ghost use Rattle.witness_text.specs.Texts.{ReadsWitness, line_step, no_end_fault};

use crate::lines::Lines;
use crate::{PackedModels, WitnessLine};
use bone_desk::{Desk, Feed};
use cnf_core::NoMemory;
use std::alloc::Global;
use std::error::Error;
use std::fmt;
use text_lines::{LineByLine, Refusal, TextEnd, read_lines};

/// How many bytes a witness may have: 2^45.
pub const MAX_WITNESS: u64 = 35_184_372_088_832;

/// What a witness tells.
#[derive(Debug, Drop)]
pub struct WitnessText {
    /// The models, in the order of their lines.
    pub models: PackedModels,
    /// The drop lines, in their order.
    pub drops: Vec<WitnessLine>,
}

/// Why there is no witness.
#[derive(Clone, Copy, Debug, PartialEq, Eq)]
pub enum WitnessEnd {
    /// A read failed.
    Fault,
    /// The text has more than 2^45 bytes.
    TooLong,
    /// This line, from 1, is the first that isn't one of a witness, or can't stand where it does.
    BadLine(u64),
    /// There was no memory.
    Memory,
}

impl fmt::Display for WitnessEnd {
    fn fmt<W: fmt::Write>(&self, f: &mut fmt::Formatter<W>) -> fmt::Result {
        match self {
            WitnessEnd::Fault => write!(f, "the witness could not be read"),
            WitnessEnd::TooLong => write!(f, "the witness is too long"),
            WitnessEnd::BadLine(line) => write!(f, "line {line} of the witness is at fault"),
            WitnessEnd::Memory => write!(f, "out of memory"),
        }
    }
}

impl Error for WitnessEnd {}

impl LineByLine for Lines {
    type Fault = ();

    ghost step = { line_step };

    ghost end = { no_end_fault };

    fn take(&mut self, bytes: &[u8], ended: bool) -> Result<(), Refusal<()>> {
        if !ended {
            return Err(Refusal::Fault(()));
        }
        match self.take_line(bytes) {
            Ok(true) => Ok(()),
            Ok(false) => Err(Refusal::Fault(())),
            Err(NoMemory) => Err(Refusal::Memory),
        }
    }

    fn finish(&self) -> Option<()> {
        None
    }
}

/// Reads the Witness feed to its end, as a witness over so many variables, at most 2^20. It takes memory for
/// the models, one bit a variable, for the drop lines and for the longest line.
pub fn read_witness<D: Desk>(
    alloc: Global,
    desk: &mut D,
    vars: u32,
) -> Result<WitnessText, WitnessEnd>
    requires { vars ≤ 2 ^ 20 }
    ensures { ReadsWitness vars (D.told desk.old) (D.told desk.new) result }
{
    let mut lines = Lines::new(alloc, vars);
    match read_lines(alloc, desk, Feed::Witness, MAX_WITNESS, &mut lines) {
        Ok(()) => {
            let (models, drops) = lines.into_parts();
            Ok(WitnessText { models, drops })
        }
        Err(TextEnd::Fault) => Err(WitnessEnd::Fault),
        Err(TextEnd::TooLong) => Err(WitnessEnd::TooLong),
        Err(
            TextEnd::Bad {
                line,
                fault: _fault,
            },
        ) => Err(WitnessEnd::BadLine(line)),
        Err(TextEnd::Memory) => Err(WitnessEnd::Memory),
    }
}
