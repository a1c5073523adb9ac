//! Writing an answer to its port.
ghost use Rattle.std.specs.Prelude.{◌≡◌, OnOk, OnErr};
ghost use Rattle.bone_desk.specs.Told.{Rose, WritesOnly, Gave};
ghost use Rattle.bone_desk.specs.Gives.{GaveFront, Pushed, CutOff};
ghost use Rattle.cnf_core.specs.Spelling.{literal_text};
ghost use Rattle.answer_text.specs.AnswerText.{IsInOrder, text_of, literal_line, literal_lines, groups_text};

use crate::Answer;
use bone_desk::{Act, Desk, Failed, Port, PortBuffer};
use cnf_core::Lit;
use itoa::Buffer;
use std::error::Error;
use std::fmt;

/// A write to the Answer port failed.
#[derive(Clone, Copy, Debug, PartialEq, Eq)]
pub struct WriteFault;

impl fmt::Display for WriteFault {
    fn fmt<W: fmt::Write>(&self, f: &mut fmt::Formatter<W>) -> fmt::Result {
        write!(f, "the answer could not be written")
    }
}

impl Error for WriteFault {}

impl From<Failed> for WriteFault {
    fn from(_failed: Failed) -> Self {
        WriteFault
    }
}

/// Writes the text of an answer to the Answer port, and takes no memory. At a fault the port has a front
/// of the text. The literals of each list rise strictly by variable, and the lists share no variable, so
/// that the text is in the answer's grammar.
pub fn write_answer<D: Desk>(desk: &mut D, answer: &Answer) -> Result<(), WriteFault>
    requires { IsInOrder answer.now }
    ensures given { OnOk result (Gave Port.Answer (text_of answer.now) (D.told desk.old) (D.told desk.new)) }
    ensures front { OnErr result (GaveFront Port.Answer (text_of answer.now) (D.told desk.old) (D.told desk.new)) }
    ensures only { WritesOnly Port.Answer (D.told desk.old) (D.told desk.new) }
    ensures cause { OnErr result (Rose (Act.Write Port.Answer) (D.told desk.old) (D.told desk.new)) }
{
    let mut buffer = PortBuffer::new(Port::Answer);
    push_answer(desk, &mut buffer, answer)?;
    buffer.flush(desk)?;
    Ok(())
}

/// All lines of the answer.
fn push_answer<D: Desk>(
    desk: &mut D,
    buffer: &mut PortBuffer,
    answer: &Answer,
) -> Result<(), Failed>
    ensures ok { OnOk result (Pushed (text_of answer.now) buffer.old buffer.new (D.told desk.old) (D.told desk.new)) }
    ensures err { OnErr result (CutOff (text_of answer.now) buffer.old (D.told desk.old) (D.told desk.new)) }
{
    match answer {
        Answer::Unsat => buffer.push(desk, b"s UNSATISFIABLE\n"),
        Answer::Sat(fixed) => push_groups(desk, buffer, b"s SATISFIABLE\n", fixed, &[]),
        Answer::Partial { fixed, still } => push_groups(desk, buffer, b"s PARTIAL\n", fixed, still),
        Answer::Unknown => buffer.push(desk, b"s UNKNOWN\n"),
    }
}

/// The verdict, a line for each literal of the backbone and for each that may be in it, and the end
/// line.
fn push_groups<D: Desk>(
    desk: &mut D,
    buffer: &mut PortBuffer,
    verdict: &[u8],
    fixed: &[Lit],
    still: &[Lit],
) -> Result<(), Failed>
    ensures ok { OnOk result (Pushed (groups_text verdict.now fixed.now still.now) buffer.old buffer.new
        (D.told desk.old) (D.told desk.new)) }
    ensures err { OnErr result (CutOff (groups_text verdict.now fixed.now still.now) buffer.old
        (D.told desk.old) (D.told desk.new)) }
{
    buffer.push(desk, verdict)?;
    push_lines(desk, buffer, b'b', fixed)?;
    push_lines(desk, buffer, b'u', still)?;
    buffer.push(desk, b"b 0\n")
}

/// A line for each literal, with this letter.
fn push_lines<D: Desk>(
    desk: &mut D,
    buffer: &mut PortBuffer,
    letter: u8,
    lits: &[Lit],
) -> Result<(), Failed>
    ensures ok { OnOk result (Pushed (literal_lines letter lits.now) buffer.old buffer.new
        (D.told desk.old) (D.told desk.new)) }
    ensures err { OnErr result (CutOff (literal_lines letter lits.now) buffer.old
        (D.told desk.old) (D.told desk.new)) }
{
    for lit in lits {
        push_line(desk, buffer, letter, *lit)?;
    }
    Ok(())
}

/// One line for a literal, with this letter.
fn push_line<D: Desk>(
    desk: &mut D,
    buffer: &mut PortBuffer,
    letter: u8,
    lit: Lit,
) -> Result<(), Failed>
    ensures ok { OnOk result (Pushed (literal_line letter lit) buffer.old buffer.new
        (D.told desk.old) (D.told desk.new)) }
    ensures err { OnErr result (CutOff (literal_line letter lit) buffer.old (D.told desk.old) (D.told desk.new)) }
{
    let mut digits = Buffer::new();
    buffer.push(desk, &[letter, b' '])?;
    buffer.push(desk, literal_bytes(&mut digits, lit))?;
    buffer.push(desk, b"\n")
}

/// The literal's number, as bytes in this buffer.
fn literal_bytes(digits: &mut Buffer, lit: Lit) -> &[u8]
    ensures { result.now ≡ literal_text lit }
{
    digits.format(lit.number()).as_bytes()
}
