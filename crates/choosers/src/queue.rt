ghost use Rattle.std.specs.Prelude.{◌≡◌, IfSome};
ghost use Rattle.chooser_core.specs.Choosing.{IsFree, IsLeastFree, once_more};

use crate::free::{free_from, is_free};
use crate::weights::{Weights, scaled};
use chooser_core::Chooser;
use cnf_core::NoMemory;
use std::alloc::Global;

/// What the first bumps add.
const FIRST_WEIGHT: u64 = 1 << 20;

/// A weight past this one calls for scaling down.
const MOST_WEIGHT: u64 = 1 << 60;

/// Prefers the variables that were bumped most, of which the newest bumps weigh most (after VSIDS, Moskewicz and
/// others 2001, with the growing weight of MiniSat, Eén and Sörensson 2003).
///
/// A bump adds the present weight to its variable's activity. The first call of `pick` or `freed` after bumps
/// raises the weight by a twentieth. Variables that were never bumped come when no other is left, in turn.
#[derive(Debug, Drop)]
pub struct QueueChooser {
    asked: u64,
    weights: Weights,
    /// What a bump adds now.
    weight: u64,
    /// There were bumps since the weight was raised.
    bumped: bool,
    /// Where the next variable that was never bumped is looked for.
    cursor: u32,
}

impl QueueChooser {
    /// A chooser that wasn't asked yet. It takes no memory.
    pub fn new(alloc: Global) -> QueueChooser
        ensures { result.asked ≡ 0 }
    {
        QueueChooser {
            asked: 0,
            weights: Weights::new(alloc),
            weight: FIRST_WEIGHT,
            bumped: false,
            cursor: 1,
        }
    }

    /// Raises the weight, if there were bumps since that was done last.
    #[inline(always)]
    fn end_batch(&mut self)
        ensures { self.new.asked ≡ self.old.asked }
    {
        if self.bumped {
            self.raise_weight();
        }
    }

    fn raise_weight(&mut self)
        ensures { self.new.asked ≡ self.old.asked }
    {
        self.bumped = false;
        self.weight = self.weight.saturating_add(self.weight / 20 + 1);
        if self.weight > MOST_WEIGHT {
            self.scale_down();
        }
    }

    /// Scales the weight and all activities down.
    #[cold]
    fn scale_down(&mut self)
        ensures { self.new.asked ≡ self.old.asked }
    {
        self.weight = scaled(self.weight);
        self.weights.scale_down();
    }

    /// The most active variable without a value, taken out of the heap; the more active ones are taken out too.
    fn pop_free(&mut self, values: &[i8]) -> Option<u32>
        ensures asked { self.new.asked ≡ self.old.asked }
        ensures free { IfSome result (λ v. IsFree values.now v) }
    {
        while self.weights.count() > 0 {
            let var = self.weights.pop();
            if is_free(values, var) {
                return Some(var);
            }
        }
        None
    }
}

impl Chooser for QueueChooser {
    ghost asks = { λ c. c.asked };

    fn begin(&mut self, vars: u32, _seed: u64) -> Result<(), NoMemory> {
        self.asked = 0;
        self.weights = Weights::of(self.weights.allocator(), vars)?;
        self.weight = FIRST_WEIGHT;
        self.bumped = false;
        self.cursor = 1;
        Ok(())
    }

    fn pick(&mut self, values: &[i8], free: u32) -> u32
        requires { IsLeastFree values.now free }
        ensures asked { self.new.asked ≡ once_more self.old.asked }
        ensures free { IsFree values.now result }
    {
        self.asked = self.asked.saturating_add(1);
        self.end_batch();
        if let Some(var) = self.pop_free(values) {
            return var;
        }
        self.cursor = free_from(values, self.cursor.max(free), free);
        self.cursor
    }

    fn bump(&mut self, var: u32) {
        self.bumped = true;
        if self.weights.bump(var, self.weight) {
            self.scale_down();
        }
    }

    fn freed(&mut self, var: u32) {
        self.end_batch();
        self.weights.put_back(var);
    }

    fn asked(&self) -> u64 {
        self.asked
    }
}
