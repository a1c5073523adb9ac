ghost use Rattle.std.specs.Prelude.{◌≡◌};
ghost use Rattle.bone_check.specs.declared.verdict.CheckEnd.TheVariants.{Memory};

use bone_desk::Feed;
use cnf_core::NoMemory;

/// Why an answer isn't verified. Each comes with a place: the number of a line, from 1, of the answer, the
/// proof or the witness, or 1, or a variable.
#[derive(Clone, Copy, Debug, PartialEq, Eq)]
pub enum Reason {
    /// The line of the answer isn't one that may stand there.
    BadLine,
    /// The variable on the line of the answer isn't above that of the line before.
    NotSorted,
    /// The answer is neither that there is no model nor a whole backbone. The place is 1.
    Unfinished,
    /// A token of the proof's line doesn't fit.
    BadToken,
    /// The proof's line is over before its end.
    NotEnded,
    /// The proof's line has a negative hint.
    NegativeHint,
    /// The id of the proof's line isn't above all before it.
    IdNotRising,
    /// A literal of the proof's line is none of the formula's.
    VarRange,
    /// No clause is known by a hint or a deleted id of the proof's line.
    UnknownHint,
    /// A hint of the proof's line leaves two or more literals.
    NotUnit,
    /// The hints of the proof's line show nothing.
    NoConflict,
    /// There is said to be no model, and the proof doesn't reach the empty clause. The place is 1.
    NoEmpty,
    /// The literal on the line of the answer has a variable that isn't asked for.
    NotShown,
    /// The proof doesn't reach the literal on the line of the answer.
    NoUnit,
    /// The line of the witness isn't one that may stand there, or there are lines where there is said to be
    /// no model. In the second case the place is 1.
    WitnessLine,
    /// The witness has no model. The place is 1.
    NoModel,
    /// The model on the line of the witness is none.
    NotAModel,
    /// The line of the witness has no model against its literal.
    NotAgainst,
    /// The shown variable, which is the place, is neither in the answer nor dropped by the witness.
    NotCovered,
}

/// What the tests say of an answer, a proof and a witness.
#[derive(Clone, Copy, Debug, PartialEq, Eq)]
pub enum Verdict {
    /// All tests pass.
    Verified,
    /// The first test that fails, and where.
    NotVerified { reason: Reason, place: u64 },
}

/// Why there is no verdict.
#[derive(Clone, Copy, Debug, PartialEq, Eq)]
pub enum CheckEnd {
    /// A read of the feed failed.
    Fault(Feed),
    /// The feed has more bytes than are read.
    TooLong(Feed),
    /// There was no memory.
    Memory,
}

impl From<NoMemory> for CheckEnd {
    ghost from_gives = { λ _ end. end ≡ Memory };

    fn from(_error: NoMemory) -> CheckEnd {
        CheckEnd::Memory
    }
}
