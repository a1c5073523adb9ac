ghost use Rattle.std.specs.Prelude.{◌≡◌, length};
ghost use Rattle.std.specs.Slice.Iter.{iter_rest};

use crate::Lit;
use std::marker::Model;
use std::slice;

/// A clause: literals of which one has to be true. They stand as they came, doubled ones too.
#[derive(Debug, Drop)]
pub struct Clause {
    pub lits: Vec<Lit>,
}

impl Model for Clause {
    ghost use Rattle.cnf_core.specs.Literals.{Literals};

    ghost Value = { Literals };

    ghost view = { λ c. c.lits.items };
}

impl Clause {
    /// The literals, in their order.
    pub fn as_slice(&self) -> &[Lit]
        ensures { result.now ≡ self.now }
    {
        &self.lits
    }

    /// How many literals there are.
    pub fn len(&self) -> usize
        ensures { result ≡ length self.now }
    {
        self.lits.len()
    }
}

impl<'a> IntoIterator for &'a Clause {
    type Item = &'a Lit;

    type IntoIter = slice::Iter<'a, Lit>;

    ghost into_iter_gives = { λ clause it. iter_rest it ≡ clause.now };

    fn into_iter(self) -> slice::Iter<'a, Lit> {
        self.lits.iter()
    }
}
