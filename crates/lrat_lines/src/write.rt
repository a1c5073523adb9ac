ghost use Rattle.std.specs.Prelude.{◌≡◌, ◌++◌, All, OnOk, OnErr, IfErr};
ghost use Rattle.bone_desk.specs.Told.{WritesOnly, Gave};
ghost use Rattle.bone_desk.specs.Gives.{GaveFront, Pushed};
ghost use Rattle.lrat_lines.specs.Printed.{proof_text, IsPrintable, IsInMemory};
ghost use Rattle.lrat_lines.specs.Writings.{HasCause};
ghost use Rattle.lrat_lines.specs.declared.write.ProofEnd.TheVariants.{Fault, Memory};

use crate::{Line, Proof, print_line};
use bone_desk::{Desk, Failed, Port, PortBuffer};
use cnf_core::NoMemory;
use std::alloc::Global;
use std::error::Error;
use std::fmt;
use std::fmt::{Display, Formatter};

/// Why a proof was not written whole.
#[derive(Clone, Copy, Debug, PartialEq, Eq)]
pub enum ProofEnd {
    /// A write to the Proof port failed.
    Fault,
    /// There was no memory.
    Memory,
}

impl Display for ProofEnd {
    fn fmt<W: fmt::Write>(&self, f: &mut Formatter<W>) -> fmt::Result {
        f.write_str(match self {
            ProofEnd::Fault => "the proof could not be written",
            ProofEnd::Memory => "out of memory",
        })
    }
}

impl Error for ProofEnd {}

impl From<Failed> for ProofEnd {
    ghost from_gives = { λ _ end. end ≡ Fault };

    fn from(_failed: Failed) -> ProofEnd {
        ProofEnd::Fault
    }
}

impl From<NoMemory> for ProofEnd {
    ghost from_gives = { λ _ end. end ≡ Memory };

    fn from(_error: NoMemory) -> ProofEnd {
        ProofEnd::Memory
    }
}

/// Writes all lines of a proof, each in its printed spelling, to the Proof port. All ids are at least
/// 1. At a fault and at want of memory the port has a front of the text.
pub fn write_proof<D: Desk>(alloc: Global, desk: &mut D, proof: &Proof) -> Result<(), ProofEnd>
    requires { All IsPrintable proof.now }
    ensures given { OnOk result (Gave Port.Proof (proof_text proof.now) (D.told desk.old) (D.told desk.new)) }
    ensures front { OnErr result (GaveFront Port.Proof (proof_text proof.now) (D.told desk.old) (D.told desk.new)) }
    ensures only { WritesOnly Port.Proof (D.told desk.old) (D.told desk.new) }
    ensures cause { IfErr result (λ end. HasCause end (D.told desk.old) (D.told desk.new)) }
    ensures in_memory { OnOk result (All IsInMemory proof.now) }
{
    let mut buffer = PortBuffer::new(Port::Proof);
    push_lines(alloc, desk, &mut buffer, &proof.lines)?;
    buffer.flush(desk)?;
    Ok(())
}

/// The lines, one behind another.
fn push_lines<D: Desk>(
    alloc: Global,
    desk: &mut D,
    buffer: &mut PortBuffer,
    lines: &[Line],
) -> Result<(), ProofEnd>
    requires lines { All IsPrintable lines.now }
    requires port { buffer.old.port ≡ Port.Proof }
    ensures ok { OnOk result (Pushed (proof_text lines.now) buffer.old buffer.new (D.told desk.old) (D.told desk.new)) }
    ensures front { OnErr result (GaveFront Port.Proof (buffer.old.bytes ++ proof_text lines.now)
        (D.told desk.old) (D.told desk.new)) }
    ensures only { WritesOnly Port.Proof (D.told desk.old) (D.told desk.new) }
    ensures cause { IfErr result (λ end. HasCause end (D.told desk.old) (D.told desk.new)) }
    ensures in_memory { OnOk result (All IsInMemory lines.now) }
{
    let mut text = Vec::new(alloc);
    for line in lines {
        text.clear();
        print_line(line, &mut text)?;
        buffer.push(desk, &text)?;
    }
    Ok(())
}
