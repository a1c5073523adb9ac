ghost use Rattle.std.specs.Prelude.{◌≡◌, ℕ, ◌+◌, ◌*◌, ◌<◌, false, [], ◌∷◌, ◌++◌, length, All, IfOk, OnOk, slice_index_or};
ghost use Rattle.cnf_core.specs.Literals.{Literal, negated, code_of};
ghost use Rattle.lrat_lines.specs.Sets.{has};
ghost use Rattle.lrat_lines.specs.Propagation.{open_literals};
ghost use Rattle.lrat_checker.specs.Steps.Assigned.{IsTable, opened};
ghost use Rattle.lrat_checker.specs.declared.assignment.Open.TheVariants.{Single};

use cnf_core::{Lit, NoMemory};
use std::alloc::Global;
use std::marker::Model;

/// Which literals of a clause are not false.
#[derive(Clone, Copy)]
pub enum Open {
    /// None.
    Never,
    /// A single one, however often it stands there.
    Single(Lit),
    /// Two or more.
    Several,
}

/// Literals that are taken to be true. A contract sees them in order, with how many codes there are.
///
/// The false literals are marked in a table by their codes, so that a test costs one look-up, and the
/// true ones are listed, so that it costs no more to clear than it took to fill.
#[derive(Drop)]
pub struct Assignment {
    falses: Vec<bool>,
    trues: Vec<Lit>,
}

impl Model for Assignment {
    ghost use Rattle.std.specs.Prelude.{length};
    ghost use Rattle.lrat_checker.specs.Steps.Assigned.{Assigned, assigned, IsTable};

    ghost Value = { Assigned };

    ghost view = { λ a. assigned (length a.falses.items) a.trues.items };

    ghost invariant = { λ a. IsTable a.falses.items a.trues.items };
}

impl Assignment {
    ghost use Rattle.lrat_checker.specs.Steps.Assigned.{assigned, HasPlace, open_of};

    /// No true literals, where codes are below this number.
    pub fn new(alloc: Global, codes: usize) -> Result<Assignment, NoMemory>
        ensures { IfOk result (λ a. a ≡ assigned codes []) }
    {
        Ok(Assignment {
            falses: vec![in alloc; false; codes]?,
            trues: Vec::new(alloc),
        })
    }

    /// No true literals any more.
    pub fn clear(&mut self)
        ensures { self.new ≡ assigned self.old.codes [] }
    {
        forget_all(&mut self.falses, &mut self.trues);
    }

    /// Whether the literal's negation is true.
    pub fn is_false(&self, lit: Lit) -> bool
        requires { HasPlace self.now.codes lit }
        ensures { result ≡ has self.now.trues (negated lit) }
    {
        self.falses[lit.code() as usize]
    }

    /// One true literal more.
    pub fn make_true(&mut self, lit: Lit) -> Result<(), NoMemory>
        requires { HasPlace self.old.codes lit }
        ensures ok { OnOk result (self.new ≡ assigned self.old.codes (self.old.trues ++ lit ∷ [])) }
        ensures codes { self.new.codes ≡ self.old.codes }
    {
        self.trues.push(lit)?;
        self.falses[lit.negated().code() as usize] = true;
        Ok(())
    }

    /// Which literals of a clause are not false.
    pub fn open_literals(&self, lits: &[Lit]) -> Open
        requires { All (HasPlace self.now.codes) lits.now }
        ensures { result ≡ open_of (open_literals self.now.trues lits.now) }
    {
        let mut found = Open::Never;
        for lit in lits {
            if !self.is_false(*lit) {
                found = with_open(found, *lit);
            }
        }
        found
    }
}

/// One literal more that is not false.
fn with_open(before: Open, lit: Lit) -> Open
    ensures { result ≡ opened before lit }
{
    match before {
        Open::Never => Open::Single(lit),
        Open::Single(other) => pair(other, lit),
        Open::Several => Open::Several,
    }
}

/// Two literals, which may be the same.
fn pair(first: Lit, second: Lit) -> Open
    ensures { result ≡ opened (Single first) second }
{
    if first == second {
        Open::Single(first)
    } else {
        Open::Several
    }
}

/// Takes all true literals away, and the marks of the false ones with them.
fn forget_all(falses: &mut [bool], trues: &mut Vec<Lit>)
    requires { IsTable falses.old trues.old.items }
    ensures falses { (l : Literal) → slice_index_or falses.new (code_of l) false ≡ false }
    ensures trues { trues.new.items ≡ [] }
{
    while let Some(lit) = trues.pop() {
        falses[lit.negated().code() as usize] = false;
    }
}
