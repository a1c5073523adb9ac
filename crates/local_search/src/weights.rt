ghost use Rattle.std.specs.Prelude.{◌≡◌, ◌+◌, ◌*◌, ◌/◌, ◌<◌, ◌^◌, ℕ, min, length};
ghost use Rattle.local_search.specs.Weights.{weight_of};

use cnf_core::NoMemory;
use std::alloc::Global;
use std::marker::Model;

/// How many weights there are: all greater numbers of breaks have the last one.
const COUNT: u32 = 256;

/// By how many clauses a flip breaks, how likely it is: falling with the square of 0.9 more than that number, as in
/// probSAT (Balint and Schöning 2012).
#[derive(Debug, Drop)]
pub(crate) struct Weights {
    table: Vec<u32>,
}

impl Model for Weights {
    ghost use Rattle.std.specs.Prelude.{ℕ, length};
    ghost use Rattle.local_search.specs.Weights.{AreWeights};

    ghost Value = { ℕ };

    ghost view = { λ w. length w.table.items };

    ghost invariant = { λ w. AreWeights w.table.items };
}

impl Weights {
    /// The table of them.
    pub(crate) fn new(alloc: Global) -> Result<Weights, NoMemory> {
        let mut table = vec![in alloc; 0u32; COUNT as usize]?;
        for breaks in 0..COUNT {
            table[breaks as usize] = weight(breaks);
        }
        Ok(Weights { table })
    }

    /// The weight of a variable whose flip breaks so many clauses.
    #[inline(always)]
    pub(crate) fn of(&self, breaks: u32) -> u32
        ensures value { result ≡ weight_of (min breaks 255) }
        ensures limit { result < 2 ^ 31 }
    {
        self.table[breaks.min(COUNT - 1) as usize]
    }
}

/// The weight by the rule.
fn weight(breaks: u32) -> u32
    requires { breaks < 256 }
    ensures value { result ≡ weight_of breaks }
    ensures limit { result < 2 ^ 31 }
{
    let root = 9 + 10 * breaks;
    1_677_721_600 / (root * root) + 1
}
