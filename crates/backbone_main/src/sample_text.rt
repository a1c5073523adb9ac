//! The text of a sample.
ghost use Rattle.std.specs.Prelude.{◌≡◌, ◌≤◌, ◌^◌, ◌++◌, decimal, length, OnOk, OnErr};
ghost use Rattle.bone_desk.specs.Told.{Rose, WritesOnly, Gave};
ghost use Rattle.bone_desk.specs.Gives.{GaveFront, Pushed, CutOff};
ghost use Rattle.cnf_core.specs.Literals.{AreWithin};
ghost use Rattle.backbone_main.specs.Sampling.{numbers_line};
ghost use Rattle.backbone_main.specs.Steps.Finish.{asked_sample};
ghost use Rattle.backbone_main.specs.Steps.Findings.{finding_lines, finding_text, summary_lines, summary_of};

use crate::note::push_number;
use crate::sampling::Sampling;
use bone_desk::{Act, Desk, Failed, Port, PortBuffer};
use cnf_core::Lit;

/// What is told of a backbone.
#[derive(Clone, Copy, Debug, PartialEq, Eq)]
pub struct Summary {
    /// Over how many variables its formula is.
    pub vars: u32,
    /// How many literals it has.
    pub literals: u64,
    /// How many of them are negative.
    pub negative: u64,
    /// The sum of their variables.
    pub sum: u64,
}

/// What was found out about a sample.
#[derive(Clone, Copy, Debug, PartialEq, Eq)]
pub enum Finding {
    /// Its backbone.
    Backbone(Summary),
    /// A model, and not all of its backbone.
    Part,
    /// No model.
    Nothing,
}

/// What is told of a backbone of so many variables. It has at most 2^20 literals, of variables up to 2^20.
pub fn summary_of(vars: u32, lits: &[Lit]) -> Summary
    requires few { length lits.now ≤ 2 ^ 20 }
    requires within { AreWithin (2 ^ 20) lits.now }
    ensures { result ≡ summary_of vars lits.now }
{
    Summary {
        vars,
        literals: lits.len() as u64,
        negative: lits.iter().filter(|lit| !lit.positive()).count() as u64,
        sum: lits.iter().map(|lit| u64::from(lit.var())).sum(),
    }
}

/// Writes the text of a sample to the Answer port, and takes no memory. At a fault the port has a front of the text.
pub fn write_finding<D: Desk>(
    desk: &mut D,
    sampling: Sampling,
    finding: Finding,
) -> Result<(), Failed>
    ensures given { OnOk result (Gave Port.Answer (finding_text (asked_sample sampling) finding)
        (D.told desk.old) (D.told desk.new)) }
    ensures front { OnErr result (GaveFront Port.Answer (finding_text (asked_sample sampling) finding)
        (D.told desk.old) (D.told desk.new)) }
    ensures only { WritesOnly Port.Answer (D.told desk.old) (D.told desk.new) }
    ensures cause { OnErr result (Rose (Act.Write Port.Answer) (D.told desk.old) (D.told desk.new)) }
{
    let mut buffer = PortBuffer::new(Port::Answer);
    push_text(desk, &mut buffer, sampling, finding)?;
    buffer.flush(desk)
}

/// All lines of the text.
fn push_text<D: Desk>(
    desk: &mut D,
    buffer: &mut PortBuffer,
    sampling: Sampling,
    finding: Finding,
) -> Result<(), Failed>
    ensures ok { OnOk result (Pushed (finding_text (asked_sample sampling) finding) buffer.old buffer.new
        (D.told desk.old) (D.told desk.new)) }
    ensures err { OnErr result (CutOff (finding_text (asked_sample sampling) finding) buffer.old
        (D.told desk.old) (D.told desk.new)) }
{
    push_numbers(desk, buffer, sampling)?;
    push_lines(desk, buffer, finding)
}

/// The first line, with the numbers that make the formula.
fn push_numbers<D: Desk>(
    desk: &mut D,
    buffer: &mut PortBuffer,
    sampling: Sampling,
) -> Result<(), Failed>
    ensures ok { OnOk result (Pushed (numbers_line (asked_sample sampling)) buffer.old buffer.new (D.told desk.old) (D.told desk.new)) }
    ensures err { OnErr result (CutOff (numbers_line (asked_sample sampling)) buffer.old (D.told desk.old) (D.told desk.new)) }
{
    push_count(desk, buffer, b"sample vars ", sampling.vars)?;
    push_count(desk, buffer, b" clauses ", sampling.clauses)?;
    push_number(desk, buffer, b" seed ", sampling.settings.seed)?;
    buffer.push(desk, b"\n")
}

/// The lines behind the first one.
fn push_lines<D: Desk>(
    desk: &mut D,
    buffer: &mut PortBuffer,
    finding: Finding,
) -> Result<(), Failed>
    ensures ok { OnOk result (Pushed (finding_lines finding) buffer.old buffer.new (D.told desk.old) (D.told desk.new)) }
    ensures err { OnErr result (CutOff (finding_lines finding) buffer.old (D.told desk.old) (D.told desk.new)) }
{
    match finding {
        Finding::Backbone(summary) => push_summary(desk, buffer, summary),
        Finding::Part => buffer.push(desk, b"s PARTIAL\n"),
        Finding::Nothing => buffer.push(desk, b"s UNKNOWN\n"),
    }
}

/// Some words, and a count.
fn push_count<D: Desk>(
    desk: &mut D,
    buffer: &mut PortBuffer,
    words: &[u8],
    count: u32,
) -> Result<(), Failed>
    ensures ok { OnOk result (Pushed (words.now ++ decimal count) buffer.old buffer.new
        (D.told desk.old) (D.told desk.new)) }
    ensures err { OnErr result (CutOff (words.now ++ decimal count) buffer.old
        (D.told desk.old) (D.told desk.new)) }
{
    push_number(desk, buffer, words, u64::from(count))
}

/// The verdict and the summary, where the backbone is known.
fn push_summary<D: Desk>(
    desk: &mut D,
    buffer: &mut PortBuffer,
    summary: Summary,
) -> Result<(), Failed>
    ensures ok { OnOk result (Pushed (summary_lines summary) buffer.old buffer.new (D.told desk.old) (D.told desk.new)) }
    ensures err { OnErr result (CutOff (summary_lines summary) buffer.old (D.told desk.old) (D.told desk.new)) }
{
    push_number(desk, buffer, b"s SATISFIABLE\nbackbone ", summary.literals)?;
    push_count(desk, buffer, b" of ", summary.vars)?;
    push_number(desk, buffer, b", ", summary.negative)?;
    push_number(desk, buffer, b" negative, sum ", summary.sum)?;
    buffer.push(desk, b"\n")
}
