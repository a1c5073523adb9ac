ghost use Rattle.std.specs.Prelude.{◌≡◌, ◌+◌, ◌^◌, ◌≤◌, ℕ, List, ◌++◌, length, Some, IsSome};
ghost use Rattle.std.specs.Prelude.{IsNone, IsErr, IsErrOf, OnOk, OnErr};
ghost use Rattle.dimacs_reader.specs.Reading.{reading_of};
ghost use Rattle.dimacs_reader.specs.Scans.{Stands, byte_count, Gives};
ghost use Rattle.dimacs_reader.specs.Steps.Machine.{fresh_scan};

use crate::ScanEnd;
use crate::pass::Pass;
use cnf_core::{Formula, NoMemory};
use std::alloc::Global;
use std::marker::Model;

/// Reads a text that comes in pieces, cut anywhere. It keeps none of the text's bytes, and takes memory
/// for the formula and for the literals of the clause that is open. Once it has found no memory it
/// answers so from then on.
#[derive(Debug, Drop)]
pub struct Scan {
    pass: Option<Pass>,
}

impl Model for Scan {
    ghost use Rattle.std.specs.Prelude.{Option};
    ghost use Rattle.dimacs_reader.specs.Steps.Machine.{Scanned};

    ghost Value = { Option Scanned };

    ghost view = { λ s. s.pass };
}

impl Scan {
    /// A scan that stands for the empty text. It takes no memory.
    pub fn new(alloc: Global) -> Scan
        ensures { result ≡ Some fresh_scan }
    {
        Scan {
            pass: Some(Pass::new(alloc)),
        }
    }

    /// Reads a piece more of the text, which has at most 2^27 bytes with it.
    pub fn feed(&mut self, piece: &[u8]) -> Result<(), NoMemory>
        requires { byte_count self.old + length piece.now ≤ 2 ^ 27 }

        // The scan stands for the longer text, wherever the text is cut.
        ensures stands { (text : List ℕ) → Stands self.old text → Stands self.new (text ++ piece.now) }
        ensures count { OnOk result (byte_count self.new ≡ byte_count self.old + length piece.now) }

        // After want of memory there is want of memory from then on.
        ensures ok { OnOk result (IsSome self.new) }
        ensures memory { OnErr result (IsNone self.new) }
        ensures again { IsNone self.old → IsErr result }
    {
        let Some(pass) = self.pass.take() else {
            return Err(NoMemory);
        };
        self.pass = Some(pass.read(piece)?);
        Ok(())
    }

    /// The formula of the text that was read, or its first fault.
    pub fn finish(self) -> Result<Formula, ScanEnd>
        ensures gives { (text : List ℕ) → Stands self text → Gives result (reading_of text) }
        ensures again { IsNone self → IsErrOf result ScanEnd.Memory }
    {
        let Scan { pass } = self;
        match pass {
            Some(pass) => pass.outcome(),
            None => Err(ScanEnd::Memory),
        }
    }
}
