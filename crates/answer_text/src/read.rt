//! Reading an answer back.
ghost use Rattle.std.specs.Prelude.{◌≡◌, ◌≤◌, ◌<◌, ◌^◌, ℕ, length, Some, None, IfSome, IfOk};
ghost use Rattle.answer_text.specs.Reading.{up_to, variable_of, literal_of, line_literal, verdict_line, fixed_line, still_line, either_line, line_at};
ghost use Rattle.answer_text.specs.Reading.{line_read, end_read, end_at, nothing_read};
ghost use Rattle.answer_text.specs.Steps.Verdicts.{verdict_stage, literal_at, end_line_at};
ghost use Rattle.answer_text.specs.Answers.{ReadsAnswer, Says};
ghost use Rattle.cnf_core.specs.Spelling.{number_of_digits};
ghost use Rattle.text_lines.specs.Readings.{Takes};

use crate::Answer;
use crate::stage::{LineFault, Stage};
use bone_desk::{Desk, Feed};
use cnf_core::Lit;
use std::alloc::{AllocError, Global};
use std::marker::Model;
use text_lines::{LineByLine, Refusal, TextEnd, read_lines};

/// The most bytes of an answer that is read: 2^27.
pub const ANSWER_LIMIT: u64 = 134_217_728;

/// Why no answer was read.
#[derive(Clone, Copy, Debug, PartialEq, Eq)]
pub enum AnswerEnd {
    /// A read failed.
    Fault,
    /// The text has more than [`ANSWER_LIMIT`] bytes.
    TooLong,
    /// This line, counted from 1, may not stand there, or is missing.
    BadLine(u64),
    /// The variable of this line isn't above that of the line before in the same group.
    NotSorted(u64),
    /// There was no memory.
    Memory,
}

/// What the lines so far say.
#[derive(Drop)]
struct Reader {
    vars: u32,
    stage: Stage,
    fixed: Vec<Lit>,
    still: Vec<Lit>,
    last: u32,
    /// For each variable from 0 on, whether one of `fixed` has it.
    taken: Vec<bool>,
}

impl Model for Reader {
    ghost use Rattle.std.specs.Prelude.{◌≡◌, ◌≤◌, ◌+◌, ◌^◌, ℕ, vec_len, slice_index_or, false};
    ghost use Rattle.answer_text.specs.Reading.{Read, has_var};

    ghost Value = { Read };

    ghost view = { λ r. record { vars = r.vars; stage = r.stage; fixed = r.fixed.items; still = r.still.items; last = r.last } };

    ghost invariant = { λ r. (r.vars ≤ 2 ^ 20) × (vec_len r.taken ≡ r.vars + 1)
        × ((v : ℕ) → slice_index_or r.taken.items v false ≡ has_var r.fixed.items v) };
}

/// The number that digits write, if it is at most `vars`.
fn number(bytes: &[u8], vars: u32) -> Option<u32>
    requires filled { 0 < length bytes.now }
    requires vars { vars ≤ 2 ^ 20 }
    ensures { result ≡ up_to vars (number_of_digits bytes.now) }
{
    let mut number = 0;
    for byte in bytes {
        if !byte.is_ascii_digit() {
            return None;
        }
        number = number * 10 + u32::from(*byte - b'0');
        if number > vars {
            return None;
        }
    }
    Some(number)
}

/// The variable that digits without a leading zero write.
fn variable(bytes: &[u8], vars: u32) -> Option<u32>
    requires { vars ≤ 2 ^ 20 }
    ensures value { result ≡ variable_of vars bytes.now }
    ensures range { IfSome result (λ v. (0 < v) × (v ≤ vars)) }
{
    match bytes {
        [] | [b'0', ..] => None,
        _ => number(bytes, vars),
    }
}

/// The literal that is written so, with a variable from 1 to `vars`.
fn literal(bytes: &[u8], vars: u32) -> Option<Lit>
    requires { vars ≤ 2 ^ 20 }
    ensures value { result ≡ literal_of vars bytes.now }
    ensures range { IfSome result (λ l. l.var ≤ vars) }
{
    match bytes {
        [b'-', digits @ ..] => Some(Lit::new(variable(digits, vars)?, false)),
        _ => Some(Lit::new(variable(bytes, vars)?, true)),
    }
}

/// The literal of a line with this letter.
fn line_literal(bytes: &[u8], letter: u8, vars: u32) -> Option<Lit>
    requires { vars ≤ 2 ^ 20 }
    ensures value { result ≡ line_literal vars letter bytes.now }
    ensures range { IfSome result (λ l. l.var ≤ vars) }
{
    let [first, second, rest @ ..] = bytes else {
        return None;
    };
    if *first == letter && *second == b' ' {
        return literal(rest, vars);
    }
    None
}

/// What the verdict opens.
fn verdict(bytes: &[u8]) -> Option<Stage>
    ensures { result ≡ verdict_stage bytes.now }
{
    if bytes == b"s UNSATISFIABLE".as_slice() {
        return Some(Stage::Unsat);
    }
    if bytes == b"s SATISFIABLE".as_slice() {
        return Some(Stage::Backbone);
    }
    if bytes == b"s PARTIAL".as_slice() {
        return Some(Stage::Fixed);
    }
    if bytes == b"s UNKNOWN".as_slice() {
        return Some(Stage::Unknown);
    }
    None
}

const BAD: Refusal<LineFault> = Refusal::Fault(LineFault::Bad);

impl Reader {
    /// A reader of the literals with variables from 1 to `vars`.
    fn new(alloc: Global, vars: u32) -> Result<Reader, AllocError>
        requires { vars ≤ 2 ^ 20 }
        ensures { IfOk result (λ r. r ≡ nothing_read vars) }
    {
        Ok(Reader {
            vars,
            stage: Stage::First,
            fixed: Vec::new(alloc),
            still: Vec::new(alloc),
            last: 0,
            taken: vec![in alloc; false; vars as usize + 1]?,
        })
    }

    fn take_verdict(&mut self, bytes: &[u8]) -> Result<(), Refusal<LineFault>>
        ensures { Takes (verdict_line self.old bytes.now) self.new result }
    {
        match verdict(bytes) {
            Some(stage) => {
                self.stage = stage;
                Ok(())
            }
            None => Err(BAD),
        }
    }

    /// Takes a literal that is known to be in the backbone.
    fn take_fixed(&mut self, lit: Option<Lit>) -> Result<(), Refusal<LineFault>>
        requires { IfSome lit (λ l. l.var ≤ self.old.vars) }
        ensures { Takes (fixed_line self.old lit) self.new result }
    {
        let Some(lit) = lit else {
            return Err(BAD);
        };
        let var = lit.var();
        if var <= self.last {
            return Err(Refusal::Fault(LineFault::NotSorted));
        }
        if self.fixed.push(lit).is_err() {
            return Err(Refusal::Memory);
        }
        self.last = var;
        self.taken[var as usize] = true;
        Ok(())
    }

    /// Takes a literal that may be in the backbone.
    fn take_still(&mut self, lit: Option<Lit>) -> Result<(), Refusal<LineFault>>
        requires { IfSome lit (λ l. l.var ≤ self.old.vars) }
        ensures { Takes (still_line self.old lit) self.new result }
    {
        let Some(lit) = lit else {
            return Err(BAD);
        };
        let var = lit.var();
        if self.taken[var as usize] {
            return Err(BAD);
        }
        if var <= self.last {
            return Err(Refusal::Fault(LineFault::NotSorted));
        }
        if self.still.push(lit).is_err() {
            return Err(Refusal::Memory);
        }
        self.last = var;
        Ok(())
    }

    /// Takes a line of the first group of two, or the first one of the second.
    fn take_either(&mut self, bytes: &[u8]) -> Result<(), Refusal<LineFault>>
        ensures { Takes (either_line self.old bytes.now (line_literal self.old.vars 98 bytes.now)) self.new result }
    {
        if let Some(lit) = line_literal(bytes, b'b', self.vars) {
            return self.take_fixed(Some(lit));
        }
        self.stage = Stage::Still;
        self.last = 0;
        let lit = line_literal(bytes, b'u', self.vars);
        self.take_still(lit)
    }

    /// Takes a line before the end line.
    fn take_literal(&mut self, bytes: &[u8]) -> Result<(), Refusal<LineFault>>
        ensures { Takes (literal_at self.old.stage self.old bytes.now) self.new result }
    {
        match self.stage {
            Stage::Backbone => {
                let lit = line_literal(bytes, b'b', self.vars);
                self.take_fixed(lit)
            }
            Stage::Fixed => self.take_either(bytes),
            Stage::Still => {
                let lit = line_literal(bytes, b'u', self.vars);
                self.take_still(lit)
            }
            _ => Err(BAD),
        }
    }

    /// Takes a line without its line feed.
    fn take_line(&mut self, bytes: &[u8]) -> Result<(), Refusal<LineFault>>
        ensures { Takes (line_at self.old.stage self.old bytes.now) self.new result }
    {
        if self.stage == Stage::First {
            return self.take_verdict(bytes);
        }
        if bytes == b"b 0".as_slice() {
            return self.take_end();
        }
        self.take_literal(bytes)
    }

    /// Takes the end line.
    fn take_end(&mut self) -> Result<(), Refusal<LineFault>>
        ensures { Takes (end_line_at self.old.stage self.old) self.new result }
    {
        self.stage = match self.stage {
            Stage::Backbone => Stage::Sat,
            Stage::Fixed | Stage::Still => Stage::Partial,
            _ => return Err(BAD),
        };
        Ok(())
    }

    /// The answer, once all lines were taken.
    fn into_answer(self) -> Answer
        requires { end_at self.stage ≡ None }
        ensures { Says self result }
    {
        let Reader {
            stage,
            fixed,
            still,
            ..
        } = self;
        match stage {
            Stage::Sat => Answer::Sat(fixed),
            Stage::Partial => Answer::Partial { fixed, still },
            Stage::Unknown => Answer::Unknown,
            _ => Answer::Unsat,
        }
    }
}

impl LineByLine for Reader {
    type Fault = LineFault;

    ghost step = { line_read };

    ghost end = { end_read };

    fn take(&mut self, bytes: &[u8], ended: bool) -> Result<(), Refusal<LineFault>> {
        if !ended {
            return Err(BAD);
        }
        self.take_line(bytes)
    }

    fn finish(&self) -> Option<LineFault> {
        match self.stage {
            Stage::Unsat | Stage::Sat | Stage::Partial | Stage::Unknown => None,
            Stage::First | Stage::Backbone | Stage::Fixed | Stage::Still => Some(LineFault::Bad),
        }
    }
}

impl From<TextEnd<LineFault>> for AnswerEnd {
    ghost use Rattle.std.specs.Prelude.{◌≡◌};
    ghost use Rattle.answer_text.specs.Steps.Verdicts.{answer_end_of};

    ghost from_gives = { λ text_end end. end ≡ answer_end_of text_end };

    fn from(end: TextEnd<LineFault>) -> Self {
        match end {
            TextEnd::Fault => AnswerEnd::Fault,
            TextEnd::TooLong => AnswerEnd::TooLong,
            TextEnd::Bad {
                line,
                fault: LineFault::Bad,
            } => AnswerEnd::BadLine(line),
            TextEnd::Bad {
                line,
                fault: LineFault::NotSorted,
            } => AnswerEnd::NotSorted(line),
            TextEnd::Memory => AnswerEnd::Memory,
        }
    }
}

impl From<AllocError> for AnswerEnd {
    ghost use Rattle.std.specs.Prelude.{◌≡◌};
    ghost use Rattle.answer_text.specs.declared.read.AnswerEnd.TheVariants.{Memory};

    ghost from_gives = { λ _ end. end ≡ Memory };

    fn from(_error: AllocError) -> Self {
        AnswerEnd::Memory
    }
}

/// Reads the feed `Answer` to its end, and gives the answer that its text is, over literals with variables from 1 to
/// `vars`. A failed read and a text of more than [`ANSWER_LIMIT`] bytes come also behind a line at fault. The grammar
/// is in `specs/Reading`; the first line at fault decides.
pub fn read_answer<D: Desk>(alloc: Global, desk: &mut D, vars: u32) -> Result<Answer, AnswerEnd>
    requires { vars ≤ 2 ^ 20 }
    ensures { ReadsAnswer vars (D.told desk.old) (D.told desk.new) result }
{
    let mut reader = Reader::new(alloc, vars)?;
    read_lines(alloc, desk, Feed::Answer, ANSWER_LIMIT, &mut reader)?;
    Ok(reader.into_answer())
}
