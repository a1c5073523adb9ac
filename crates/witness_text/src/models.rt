ghost use Rattle.std.specs.Prelude.{◌≡◌, ◌<◌, ◌≤◌, ℕ, length};
ghost use Rattle.cnf_core.specs.Literals.{value_of};
ghost use Rattle.witness_text.specs.Models.{model_in};
ghost use Rattle.model_store.specs.Steps.Packed.{all_unpacked};
ghost use Rattle.witness_text.specs.Steps.Blocks.{IsPacked};

use crate::packing::{WORD, words_for};
use cnf_core::{NoMemory, Values};
use std::alloc::Global;
use std::marker::Model;

/// The models of a witness in the order of their lines, each of whole words of 64 bits in one block:
/// a model of 2^20 variables takes 128 KiB. That they are models of a formula isn't known.
///
/// A contract sees it as the list of the assignments.
#[derive(Debug, Drop)]
pub struct PackedModels {
    vars: u32,
    count: u64,
    words: Vec<u64>,
}

impl Model for PackedModels {
    ghost use Rattle.std.specs.Prelude.{List};
    ghost use Rattle.cnf_core.specs.Literals.{Assignment};
    ghost use Rattle.model_store.specs.Steps.Packed.{all_unpacked};
    ghost use Rattle.witness_text.specs.Steps.Blocks.{IsPacked};

    ghost Value = { List Assignment };

    ghost view = { λ m. all_unpacked m.words.items m.vars m.count };

    ghost invariant = { λ m. IsPacked m.words.items m.vars m.count };
}

impl PackedModels {
    /// So many assignments of so many values each, in these words.
    pub(crate) fn of_words(vars: u32, count: u64, words: Vec<u64>) -> PackedModels
        requires { IsPacked words.items vars count }
        ensures { result ≡ all_unpacked words.items vars count }
    {
        PackedModels { vars, count, words }
    }

    /// How many models there are.
    pub fn len(&self) -> u64
        ensures { result ≡ length self.now }
    {
        self.count
    }

    /// How many values each model has.
    pub fn vars(&self) -> u32
        ensures { (model : ℕ) → model < length self.now → length (model_in self.now model) ≡ result }
    {
        self.vars
    }

    /// The value that the model at a place, from 0, gives a variable, from 1.
    pub fn value(&self, model: u64, var: u32) -> bool
        requires model_in { model < length self.now }
        requires var_in { (0 < var) × (var ≤ length (model_in self.now model)) }
        ensures { result ≡ value_of (model_in self.now model) var }
    {
        let first = model as usize * words_for(self.vars as usize);
        let k = var as usize - 1;
        self.words[first + k / WORD] >> (k % WORD) & 1 == 1
    }

    /// Copies the model at a place, from 0, into an assignment of as many variables.
    pub fn copy_to(&self, model: u64, values: &mut Values)
        requires model_in { model < length self.now }
        requires same { length values.old ≡ length (model_in self.now model) }
        ensures { values.new ≡ model_in self.now model }
    {
        for k in 0..values.len() {
            values.set(k + 1, self.value(model, k + 1));
        }
    }
}
