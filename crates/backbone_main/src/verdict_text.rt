//! The line that tells a verdict.
ghost use Rattle.std.specs.Prelude.{◌≡◌, OnOk, OnErr};
ghost use Rattle.bone_desk.specs.Told.{Rose, WritesOnly, Gave};
ghost use Rattle.bone_desk.specs.Gives.{GaveFront, Pushed, CutOff};
ghost use Rattle.backbone_main.specs.Verdicts.{reason_name, verdict_text};

use crate::note::push_number;
use bone_check::{Reason, Verdict};
use bone_desk::{Act, Desk, Failed, Port, PortBuffer};

/// Writes the verdict to the Answer port, and takes no memory. At a fault the port has a front of the line.
pub fn write_verdict<D: Desk>(desk: &mut D, verdict: Verdict) -> Result<(), Failed>
    ensures given { OnOk result (Gave Port.Answer (verdict_text verdict) (D.told desk.old) (D.told desk.new)) }
    ensures front { OnErr result (GaveFront Port.Answer (verdict_text verdict) (D.told desk.old) (D.told desk.new)) }
    ensures only { WritesOnly Port.Answer (D.told desk.old) (D.told desk.new) }
    ensures cause { OnErr result (Rose (Act.Write Port.Answer) (D.told desk.old) (D.told desk.new)) }
{
    let mut buffer = PortBuffer::new(Port::Answer);
    push_verdict(desk, &mut buffer, verdict)?;
    buffer.flush(desk)
}

/// The line.
fn push_verdict<D: Desk>(
    desk: &mut D,
    buffer: &mut PortBuffer,
    verdict: Verdict,
) -> Result<(), Failed>
    ensures ok { OnOk result (Pushed (verdict_text verdict) buffer.old buffer.new (D.told desk.old) (D.told desk.new)) }
    ensures err { OnErr result (CutOff (verdict_text verdict) buffer.old (D.told desk.old) (D.told desk.new)) }
{
    match verdict {
        Verdict::Verified => buffer.push(desk, b"verified\n"),
        Verdict::NotVerified { reason, place } => push_reason(desk, buffer, reason, place),
    }
}

/// The line of a test that failed.
fn push_reason<D: Desk>(
    desk: &mut D,
    buffer: &mut PortBuffer,
    reason: Reason,
    place: u64,
) -> Result<(), Failed>
    ensures ok { OnOk result (Pushed (verdict_text (Verdict.NotVerified reason place)) buffer.old buffer.new
        (D.told desk.old) (D.told desk.new)) }
    ensures err { OnErr result (CutOff (verdict_text (Verdict.NotVerified reason place)) buffer.old
        (D.told desk.old) (D.told desk.new)) }
{
    buffer.push(desk, b"not verified: ")?;
    buffer.push(desk, reason_name(reason))?;
    push_number(desk, buffer, b" at ", place)?;
    buffer.push(desk, b"\n")
}

/// The word for a reason.
fn reason_name(reason: Reason) -> &'static [u8]
    ensures { result.now ≡ reason_name reason }
{
    match reason {
        Reason::BadLine => b"BadLine",
        Reason::NotSorted => b"NotSorted",
        Reason::Unfinished => b"Unfinished",
        Reason::BadToken => b"BadToken",
        Reason::NotEnded => b"NotEnded",
        Reason::NegativeHint => b"NegativeHint",
        Reason::IdNotRising => b"IdNotRising",
        Reason::VarRange => b"VarRange",
        Reason::UnknownHint => b"UnknownHint",
        Reason::NotUnit => b"NotUnit",
        Reason::NoConflict => b"NoConflict",
        Reason::NoEmpty => b"NoEmpty",
        Reason::NotShown => b"NotShown",
        Reason::NoUnit => b"NoUnit",
        Reason::WitnessLine => b"WitnessLine",
        Reason::NoModel => b"NoModel",
        Reason::NotAModel => b"NotAModel",
        Reason::NotAgainst => b"NotAgainst",
        Reason::NotCovered => b"NotCovered",
    }
}
