//! What a command line asks for, and why it may ask for nothing.
ghost use Rattle.std.specs.Prelude.{◌≡◌};
ghost use Rattle.bone_words.specs.declared.asked.WordsEnd.TheVariants.{Memory};

use std::alloc::{AllocError, AllocFailed};
use std::error::Error;
use std::fmt;

/// What the words of a command line ask for.
#[derive(Debug, Drop)]
pub enum Settings {
    /// Read a formula, and write its backbone.
    Extract {
        /// The name of the text; the empty name is standard input.
        text: String,
        /// The name to write the proof to, if it is wanted.
        proof: Option<String>,
        /// The name to write the witness to, if it is wanted.
        witness: Option<String>,
        /// How many workers search, from 1 to 16.
        workers: u32,
        /// How many clauses each worker may learn in the whole run, from 1 to 2^40.
        budget: u64,
        /// What the workers draw their choices by.
        seed: u64,
    },
    /// Judge an answer with its proof and its witness.
    Check {
        /// The name of the formula's text.
        text: String,
        /// The name of the answer's text.
        answer: String,
        /// The name of the proof.
        proof: String,
        /// The name of the witness, if there is one.
        witness: Option<String>,
    },
    /// Make a formula from numbers, and search it as `Extract` does.
    Sample {
        /// How many variables it has, from 3 to 2^20.
        vars: u32,
        /// How many clauses it has, at most 2^21.
        clauses: u32,
        /// How many workers search, from 1 to 16.
        workers: u32,
        /// How many clauses each worker may learn in the whole run, from 1 to 2^40.
        budget: u64,
        /// What the formula is made by, and what the workers draw their choices by.
        seed: u64,
    },
}

/// Why words have no settings.
#[derive(Clone, Copy, Debug, PartialEq, Eq)]
pub enum WordsEnd {
    /// The words have no meaning.
    Usage,
    /// There was no memory to read them.
    Memory,
}

impl fmt::Display for WordsEnd {
    fn fmt<W: fmt::Write>(&self, f: &mut fmt::Formatter<W>) -> fmt::Result {
        match self {
            WordsEnd::Usage => write!(f, "the words have no meaning"),
            WordsEnd::Memory => write!(f, "out of memory"),
        }
    }
}

impl Error for WordsEnd {}

impl From<AllocError> for WordsEnd {
    ghost from_gives = { λ _ end. end ≡ Memory };

    fn from(_error: AllocError) -> WordsEnd {
        WordsEnd::Memory
    }
}
