ghost use Rattle.std.specs.Prelude.{◌≡◌, false, ℕ, IfOk, OnOk};
ghost use Rattle.dimacs_reader.specs.Reading.{limited, show_number, ended, Partial};
ghost use Rattle.dimacs_reader.specs.Steps.Words.{number_in};
ghost use Rattle.dimacs_reader.specs.Steps.Machine.{AfterFormat, AfterVars, Clauses, Showing, Done};
ghost use Rattle.dimacs_reader.specs.Steps.Machine.{stage_at, course_at, first_course, stage_of, failed};
ghost use Rattle.dimacs_reader.specs.Steps.Machine.{word_stage, after_literal, show_stage, after_word};
ghost use Rattle.dimacs_reader.specs.Steps.Machine.{comment_line, show_course, after_remark};
ghost use Rattle.dimacs_reader.specs.Steps.Machine.{is_remark_line, after_token, after_end};
ghost use Rattle.dimacs_reader.specs.Steps.Machine.{outcome_at, is_idle};

use crate::partial::{ClauseCount, Partial};
use crate::word::Word;
use crate::{BadKind, Fault};
use cnf_core::{Formula, Lit, MAX_CLAUSES, MAX_LITERALS, MAX_VARS, NoMemory};
use std::alloc::Global;
use std::marker::Model;

/// How far a text has come.
#[derive(Clone, Copy, Debug, PartialEq, Eq)]
pub enum Phase {
    /// Before the header.
    Before,
    /// After the word `p`.
    AfterWord,
    /// After the word `cnf`.
    AfterFormat,
    /// After the number of variables.
    AfterVars,
    /// After the number of clauses, in the same line.
    AfterCount,
    /// Among the clauses.
    Clauses,
    /// In a show line, before its end.
    Showing,
    /// In a show line, behind its end.
    Shown,
    /// Behind a line that ends the clauses.
    Done,
    /// After the first fault.
    Failed(Fault),
}

/// What the line that is being read has shown so far.
#[derive(Clone, Copy, Debug, PartialEq, Eq)]
pub enum LineKind {
    /// No token yet.
    Fresh,
    /// It is a comment.
    Comment,
    /// The token `c` alone: it is a comment, unless a show line.
    AfterC,
    /// The tokens `c` and `p`: the same.
    AfterCP,
    /// A token that is no comment, or those of a show line.
    Inside,
}

/// What the tokens of a text led to: how far it has come, and what was read behind the header, as far
/// as it has come.
#[derive(Debug, Drop)]
pub struct Course {
    alloc: Global,
    line: LineKind,
    phase: Phase,
    count: ClauseCount,
    partial: Partial,
}

impl Model for Course {
    ghost use Rattle.dimacs_reader.specs.Steps.Machine.{Course, stage_at, course_at};

    ghost Value = { Course };

    ghost view = { λ c. course_at c.line (stage_at c.phase c.count c.partial) };
}

impl Course {
    /// The course before any token. It takes no memory.
    pub fn new(alloc: Global) -> Course
        ensures { result ≡ first_course }
    {
        Course {
            alloc,
            line: LineKind::Fresh,
            phase: Phase::Before,
            count: ClauseCount::new(0),
            partial: Partial::new(alloc, 0),
        }
    }

    /// Whether the rest of the line is passed over: in a comment, behind the clauses, after a fault.
    fn is_idle(&self) -> bool
        ensures { result ≡ is_idle self.now }
    {
        matches!(self.line, LineKind::Comment)
            || matches!(self.phase, Phase::Done | Phase::Failed(_))
    }

    /// After one token more, at this place.
    pub fn end_token(&mut self, place: u64, word: Word) -> Result<(), NoMemory>
        ensures { OnOk result (self.new ≡ after_token self.old place word) }
    {
        if self.is_idle() {
            return Ok(());
        }
        if is_remark_line(self.line, word) {
            return self.read_remark(word);
        }
        let first = matches!(self.line, LineKind::Fresh);
        self.line = LineKind::Inside;
        self.read_word(first, place, word)
    }

    /// After a token of a line that is a comment, or a show line whose words aren't all there yet. It is
    /// apart, so that the path of a clause's tokens stays short.
    #[inline(never)]
    fn read_remark(&mut self, word: Word) -> Result<(), NoMemory>
        ensures { OnOk result (self.new ≡ after_remark self.old.line self.old.stage word) }
    {
        match self.line {
            LineKind::AfterCP if word.is_show() => self.begin_show(),
            line => {
                self.line = comment_line(line, word);
                Ok(())
            }
        }
    }

    /// After the words that begin a show line. Elsewhere than among the clauses it is a comment.
    fn begin_show(&mut self) -> Result<(), NoMemory>
        ensures { OnOk result (self.new ≡ show_course self.old.stage) }
    {
        if matches!(self.phase, Phase::Clauses) {
            self.partial.restrict()?;
            self.line = LineKind::Inside;
            self.phase = Phase::Showing;
        } else {
            self.line = LineKind::Comment;
        }
        Ok(())
    }

    /// After a token that is no comment, and may be the first of its line.
    fn read_word(&mut self, first: bool, place: u64, word: Word) -> Result<(), NoMemory>
        ensures { OnOk result (self.new
            ≡ course_at self.old.line (after_word first self.old.stage place word)) }
    {
        self.phase = match self.phase {
            Phase::Clauses => {
                if first && word.is_percent() {
                    percent_phase(&self.partial, self.count, place)
                } else {
                    literal_phase(&mut self.partial, self.alloc, self.count, place, word)?
                }
            }
            Phase::Before => expected(word.is_p(), Phase::AfterWord, BadKind::NoHeader, place),
            Phase::AfterWord => expected(
                word.is_cnf(),
                Phase::AfterFormat,
                BadKind::BadHeader,
                place,
            ),
            Phase::AfterFormat => vars_phase(&mut self.partial, self.alloc, place, word),
            Phase::AfterVars => count_phase(&mut self.count, place, word),
            Phase::AfterCount => failed(BadKind::BadHeader, place),
            Phase::Showing => show_phase(&mut self.partial, place, word)?,
            Phase::Shown => failed(BadKind::BadShow, place),
            Phase::Done => Phase::Done,
            Phase::Failed(fault) => Phase::Failed(fault),
        };
        Ok(())
    }

    /// After a line that ends at this place.
    pub fn end_line(&mut self, place: u64)
        ensures { self.new ≡ after_end self.old place }
    {
        self.line = LineKind::Fresh;
        match self.phase {
            Phase::AfterWord | Phase::AfterFormat | Phase::AfterVars => {
                self.phase = failed(BadKind::BadHeader, place);
            }
            Phase::Showing => self.phase = failed(BadKind::BadShow, place),
            Phase::AfterCount | Phase::Shown => self.phase = Phase::Clauses,
            Phase::Before | Phase::Clauses | Phase::Done | Phase::Failed(_) => {}
        }
    }

    /// What the text gives where it ends at this place.
    pub fn outcome(self, place: u64) -> Result<Formula, Fault>
        ensures { result ≡ outcome_at place self.stage }
    {
        let Course {
            phase,
            count,
            partial,
            ..
        } = self;
        match phase {
            Phase::Before => Err(Fault {
                kind: BadKind::NoHeader,
                place,
            }),
            Phase::AfterWord | Phase::AfterFormat | Phase::AfterVars => Err(Fault {
                kind: BadKind::BadHeader,
                place,
            }),
            Phase::Showing => Err(Fault {
                kind: BadKind::BadShow,
                place,
            }),
            Phase::AfterCount | Phase::Clauses | Phase::Shown => {
                partial.into_formula(count, place)
            }
            Phase::Done => Ok(partial.into_ended()),
            Phase::Failed(fault) => Err(fault),
        }
    }
}

/// Whether the line begins as a comment may begin, with one word more.
fn is_remark_line(line: LineKind, word: Word) -> bool
    ensures { result ≡ is_remark_line line word }
{
    match line {
        LineKind::Inside => false,
        LineKind::Fresh => word.is_remark(),
        LineKind::Comment | LineKind::AfterC | LineKind::AfterCP => true,
    }
}

/// The line that began as a comment may begin, after one word more.
fn comment_line(line: LineKind, word: Word) -> LineKind
    ensures { result ≡ comment_line line word }
{
    match line {
        LineKind::Fresh if word.is_c() => LineKind::AfterC,
        LineKind::AfterC if word.is_p() => LineKind::AfterCP,
        _ => LineKind::Comment,
    }
}

/// The phase after a fault.
fn failed(kind: BadKind, place: u64) -> Phase
    ensures { result ≡ Phase.Failed (record { kind = kind; place = place }) }
{
    Phase::Failed(Fault { kind, place })
}

/// After a word of the header that has to be there.
fn expected(fits: bool, next: Phase, kind: BadKind, place: u64) -> Phase
    ensures { (n : ℕ) (b : Partial)
        → stage_at result n b ≡ word_stage fits (stage_at next n b) kind place }
{
    if fits { next } else { failed(kind, place) }
}

/// The number of a header's token, which is at most the limit.
fn limited(limit: u32, place: u64, word: Word) -> Result<u32, Fault>
    ensures { result ≡ limited limit place (number_in word) }
{
    match word {
        Word::Digits(number) if number <= limit => Ok(number),
        Word::Digits(_) => Err(Fault {
            kind: BadKind::OverLimit,
            place,
        }),
        _ => Err(Fault {
            kind: BadKind::BadHeader,
            place,
        }),
    }
}

/// After the header's number of variables.
fn vars_phase(partial: &mut Partial, alloc: Global, place: u64, word: Word) -> Phase
    ensures { (n : ℕ) → stage_at result n partial.new ≡ after_word false AfterFormat place word }
{
    match limited(MAX_VARS, place, word) {
        Ok(vars) => {
            *partial = Partial::new(alloc, vars);
            Phase::AfterVars
        }
        Err(fault) => Phase::Failed(fault),
    }
}

/// After the header's number of clauses.
fn count_phase(count: &mut ClauseCount, place: u64, word: Word) -> Phase
    ensures { (b : Partial) → stage_at result count.new b ≡ after_word false (AfterVars b) place word }
{
    match limited(MAX_CLAUSES as u32, place, word) {
        Ok(clauses) => {
            *count = ClauseCount::new(clauses);
            Phase::AfterCount
        }
        Err(fault) => Phase::Failed(fault),
    }
}

/// After the token that ends the clauses.
fn percent_phase(partial: &Partial, count: ClauseCount, place: u64) -> Phase
    ensures { stage_at result count partial.now ≡ stage_of Done (ended count place partial.now) }
{
    match partial.check_ended(count, place) {
        Ok(()) => Phase::Done,
        Err(fault) => Phase::Failed(fault),
    }
}

/// After a token among the clauses.
fn literal_phase(
    partial: &mut Partial,
    alloc: Global,
    count: ClauseCount,
    place: u64,
    word: Word,
) -> Result<Phase, NoMemory>
    ensures { IfOk result (λ phase. stage_at phase count partial.new
        ≡ stage_of (Clauses count) (after_literal count partial.old place word)) }
{
    if partial.clause_count() >= count.get() {
        return Ok(failed(BadKind::TooManyClauses, place));
    }
    let (var, positive) = match word {
        Word::Digits(var) => (var, true),
        Word::Negative(var) if var > 0 => (var, false),
        _ => return Ok(failed(BadKind::BadNumber, place)),
    };
    if var == 0 {
        partial.end_clause(alloc)?;
        return Ok(Phase::Clauses);
    }
    if var > partial.vars() {
        return Ok(failed(BadKind::LiteralRange, place));
    }
    if partial.literals() >= MAX_LITERALS {
        return Ok(failed(BadKind::OverLimit, place));
    }
    partial.push(Lit::new(var, positive))?;
    Ok(Phase::Clauses)
}

/// The number of a show line's token: one of so many variables, or 0.
fn show_number(vars: u32, place: u64, word: Word) -> Result<u32, Fault>
    ensures { result ≡ show_number vars place (number_in word) }
{
    match word {
        Word::Digits(number) if number <= vars => Ok(number),
        _ => Err(Fault {
            kind: BadKind::BadShow,
            place,
        }),
    }
}

/// After a token of a show line.
#[inline(never)]
fn show_phase(partial: &mut Partial, place: u64, word: Word) -> Result<Phase, NoMemory>
    ensures { IfOk result (λ phase. (n : ℕ) → stage_at phase n partial.new
        ≡ after_word false (Showing n partial.old) place word) }
{
    match show_number(partial.vars(), place, word) {
        Ok(0) => Ok(Phase::Shown),
        Ok(var) => {
            partial.show(var)?;
            Ok(Phase::Showing)
        }
        Err(fault) => Ok(Phase::Failed(fault)),
    }
}
