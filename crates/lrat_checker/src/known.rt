ghost use Rattle.std.specs.Prelude.{◌≡◌, ℕ, ◌==◌, [], None, if◌then◌else◌, OnOk, OnErr};
ghost use Rattle.std.specs.Option.{option_copied};
ghost use Rattle.lrat_lines.specs.Proofs.{with_set};
ghost use Rattle.lrat_checker.specs.Checking.{known_of};

use cnf_core::{Clause, NoMemory};
use std::alloc::Global;
use std::collections::BTreeMap;
use std::marker::Model;

/// The clauses that are known, in the order of their ids.
#[derive(Drop)]
pub struct Known {
    clauses: BTreeMap<u64, Clause>,
}

impl Model for Known {
    ghost use Rattle.std.specs.Prelude.{ℕ, List};
    ghost use Rattle.cnf_core.specs.Literals.{Literals};

    ghost Value = { List (ℕ × Literals) };

    ghost view = { λ k. k.clauses.entries };
}

impl Known {
    /// None. It takes no memory.
    pub fn new(alloc: Global) -> Known
        ensures { result ≡ [] }
    {
        Known {
            clauses: BTreeMap::new(alloc),
        }
    }

    /// The clause of this id.
    pub fn get(&self, id: u64) -> Option<&Clause>
        ensures { option_copied result ≡ known_of self.now id }
    {
        self.clauses.get(&id)
    }

    /// Adds a clause, in place of any that has the id.
    pub fn insert(&mut self, id: u64, clause: Clause) -> Result<(), NoMemory>
        ensures ok { OnOk result
            ((q : ℕ) → known_of self.new q ≡ with_set (known_of self.old) id clause q) }
        ensures err { OnErr result (self.new ≡ self.old) }
    {
        self.clauses.insert(id, clause)?;
        Ok(())
    }

    /// Takes the clause of this id away, if there is one.
    pub fn remove(&mut self, id: u64)
        ensures { (q : ℕ) → known_of self.new q
            ≡ (if id == q then None else known_of self.old q) }
    {
        let _ = self.clauses.remove(&id);
    }
}
