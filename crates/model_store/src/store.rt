ghost use Rattle.std.specs.Prelude.{◌≡◌, ◌+◌, ◌<◌, ◌≤◌, ◌^◌, ◌↔◌, All, length, IsTrue, IfOk, OnOk, OnErr};
ghost use Rattle.cnf_core.specs.Literals.{value_of, is_true, clause_true, all_true, IsWithin, AreWithin};
ghost use Rattle.cnf_core.specs.Formulas.{IsModel, IsAgainst};
ghost use Rattle.model_check.specs.Flips.{flipped};
ghost use Rattle.model_store.specs.Stores.{
  empty_store,
  with_model,
  with_models,
  model_at,
  HoldsModels,
};
ghost use Rattle.model_store.specs.Witnesses.{IsInRange, witness_in};

use crate::Witness;
use crate::packed::{WORD, push_packed, words_for};
use cnf_core::{Clause, Formula, Lit, NoMemory, Values};
use std::alloc::Global;
use std::marker::Model;

/// Models of one formula, in the order in which they came, each of whole words of 64 bits in one block
/// that grows: a model of 2^20 variables takes 128 KiB. Nothing but a model of the formula gets in.
#[derive(Debug, Drop)]
pub struct ModelStore<'f> {
    formula: &'f Formula,
    count: u32,
    words: Vec<u64>,
}

impl<'f> Model for ModelStore<'f> {
    ghost use Rattle.model_store.specs.Steps.Packed.{all_unpacked};
    ghost use Rattle.model_store.specs.Stores.{Store, store_of};
    ghost use Rattle.model_store.specs.Steps.Blocks.{IsBlock};

    ghost Value = { Store };

    ghost view = { λ s. record {
      formula = s.formula.now;
      models = all_unpacked s.words.items s.formula.now.vars s.count;
    } };

    ghost invariant = { λ s. IsBlock s.words.items s.formula.now s.count };
}

impl<'f> ModelStore<'f> {
    /// The store of a formula's models, without any. It takes no memory.
    pub fn new(alloc: Global, formula: &'f Formula) -> ModelStore<'f>
        ensures { result ≡ empty_store formula.now }
    {
        ModelStore {
            formula,
            count: 0,
            words: Vec::new(alloc),
        }
    }

    /// Adds a model at the end, and answers its place. Without memory the store stays as it was.
    pub fn push(&mut self, model: &Values) -> Result<u32, NoMemory>
        requires model { IsModel self.old.formula model.now }
        requires room { length self.old.models < 2 ^ 26 }
        ensures place { IfOk result (λ place. place ≡ length self.old.models) }
        ensures ok { OnOk result (self.new ≡ with_model self.old model.now) }
        ensures err { OnErr result (self.new ≡ self.old) }
    {
        let place = self.count;
        push_packed(&mut self.words, model)?;
        self.count += 1;
        Ok(place)
    }

    /// Adds the other store's models at the end, and answers what is added to their places. Without
    /// memory the store stays as it was, and the other one is gone.
    pub fn append(&mut self, mut other: ModelStore<'f>) -> Result<u32, NoMemory>
        requires same { other.formula ≡ self.old.formula }
        requires room { length self.old.models + length other.models ≤ 2 ^ 26 }
        ensures place { IfOk result (λ place. place ≡ length self.old.models) }
        ensures ok { OnOk result (self.new ≡ with_models self.old other.entry) }
        ensures err { OnErr result (self.new ≡ self.old) }
    {
        let place = self.count;
        self.words.append(&mut other.words)?;
        self.count += other.count;
        Ok(place)
    }

    /// How many models are stored, at most 2^26.
    pub fn len(&self) -> u32
        ensures value { result ≡ length self.now.models }
        ensures holds { HoldsModels self.now }
    {
        self.count
    }

    /// The value that the stored model at a place gives a variable.
    pub fn value(&self, model: u32, var: u32) -> bool
        requires model_in { model < length self.now.models }
        requires var_in { (0 < var) × (var ≤ self.now.formula.vars) }
        ensures value { result ≡ value_of (model_at self.now model) var }
        ensures holds { HoldsModels self.now }
    {
        let first = model as usize * words_for(self.formula.vars());
        let k = var as usize - 1;
        self.words[first + k / WORD] >> (k % WORD) & 1 == 1
    }

    /// Whether the witness is one against the variable's value `phase`: whether the stored model, with
    /// the variable flipped where the witness says so, is a model and gives the variable the other value.
    ///
    /// Without a flip it looks at one bit. With a flip it reads the formula, each clause up to a true
    /// literal. Whoever has many drops by flips of one model goes by the marks of `flip_literals`.
    /// It takes no memory.
    pub fn against(&self, w: Witness, phase: bool) -> bool
        requires { IsInRange self.now w }
        ensures { IsTrue result ↔ IsAgainst self.now.formula (witness_in self.now w) w.var phase }
    {
        let value = self.value(w.model, w.var);
        if w.flip {
            value == phase && self.is_flipped_model(w.model, w.var)
        } else {
            value != phase
        }
    }

    /// Whether the stored model with the variable flipped is a model.
    fn is_flipped_model(&self, model: u32, var: u32) -> bool
        requires model_in { model < length self.now.models }
        requires var_in { (0 < var) × (var ≤ self.now.formula.vars) }
        ensures { IsTrue result ↔ IsModel self.now.formula (flipped (model_at self.now model) var) }
    {
        self.are_satisfied(model, var, self.formula.clauses())
    }

    /// Whether the stored model with the variable flipped makes a literal of each clause true.
    fn are_satisfied(&self, model: u32, var: u32, clauses: &[Clause]) -> bool
        requires model_in { model < length self.now.models }
        requires var_in { (0 < var) × (var ≤ self.now.formula.vars) }
        requires within { All (AreWithin self.now.formula.vars) clauses.now }
        ensures { result ≡ all_true (flipped (model_at self.now model) var) clauses.now }
    {
        clauses
            .iter()
            .all(|clause| self.is_satisfied(model, var, &clause.lits))
    }

    /// Whether the stored model with the variable flipped makes one of the literals true.
    fn is_satisfied(&self, model: u32, var: u32, lits: &[Lit]) -> bool
        requires model_in { model < length self.now.models }
        requires var_in { (0 < var) × (var ≤ self.now.formula.vars) }
        requires within { AreWithin self.now.formula.vars lits.now }
        ensures { result ≡ clause_true (flipped (model_at self.now model) var) lits.now }
    {
        lits.iter().any(|lit| self.is_true(model, var, *lit))
    }

    /// Whether the stored model with the variable flipped makes the literal true.
    fn is_true(&self, model: u32, var: u32, lit: Lit) -> bool
        requires model_in { model < length self.now.models }
        requires var_in { (0 < var) × (var ≤ self.now.formula.vars) }
        requires within { IsWithin self.now.formula.vars lit }
        ensures { result ≡ is_true (flipped (model_at self.now model) var) lit }
    {
        let value = self.value(model, lit.var()) != (lit.var() == var);
        value == lit.positive()
    }
}
