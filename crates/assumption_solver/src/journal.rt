ghost use Rattle.std.specs.Prelude.{◌≡◌, ◌+◌, ◌<◌, ◌≤◌, [], ◌∷◌, length, IfOk, IfSome, IfNone, OnOk, OnErr};
ghost use Rattle.cnf_core.specs.Literals.{IsWithin};
ghost use Rattle.cnf_core.specs.Formulas.{Entails};
ghost use Rattle.lrat_lines.specs.Tight.{IsTight};
ghost use Rattle.lrat_log.specs.Entries.{empty_log, learnt_count, id_after, known_after, with_import, with_new_query};
ghost use Rattle.lrat_log.specs.Fresh.{learnt_in, IsFresh};
ghost use Rattle.lrat_log.specs.Kept.{IsShown, IsLog};
ghost use Rattle.assumption_solver.specs.Units.{IsUnitAt, HasUnit};
ghost use Rattle.assumption_solver.specs.Logs.{IsEntryAt};
ghost use Rattle.assumption_solver.specs.Steps.Noted.{IsNoted, HasLearnt};

use cnf_core::{Formula, Lit, NoMemory};
use lrat_log::{Kind, Log};
use std::alloc::Global;
use std::marker::Model;

/// A log, and for each literal the entry that shows it by itself.
#[derive(Debug, Drop)]
pub struct Journal<'f> {
    log: Log<'f>,
    /// The id of such an entry by packed literal, 0 where there is none.
    ids: Vec<u64>,
    /// The id of the first entry.
    first: u64,
}

impl<'f> Model for Journal<'f> {
    ghost use Rattle.lrat_log.specs.Entries.{Recorded};
    ghost use Rattle.assumption_solver.specs.Steps.Tables.{IsTable};

    ghost Value = { Recorded };

    ghost view = { λ j. j.log };

    ghost invariant = { λ j. IsTable j.log j.ids.items j.first };
}

impl<'f> Journal<'f> {
    /// A journal of the formula, without entries.
    pub fn new(alloc: Global, formula: &'f Formula) -> Result<Journal<'f>, NoMemory>
        ensures { IfOk result (λ j. j ≡ empty_log formula.now) }
    {
        let count = 2 * formula.vars() as usize + 2;
        Ok(Journal {
            log: Log::new(alloc, formula),
            ids: vec![in alloc; 0; count]?,
            first: formula.clauses().len() as u64 + 1,
        })
    }

    /// The log.
    pub fn log(&self) -> &Log<'f>
        ensures { result.now ≡ self.now }
    {
        &self.log
    }

    /// The log alone.
    pub fn into_log(self) -> Log<'f>
        ensures { result ≡ self.entry }
    {
        self.log
    }

    /// How many clauses were learnt.
    pub fn count_learnt(&self) -> u64
        ensures { result ≡ learnt_count self.now.entries }
    {
        self.log.count_learnt()
    }

    /// The log keeps what it owes.
    pub fn prove_log(&self)
        ensures { IsLog self.now }
    {
        let _len = self.log.len();
    }

    /// The id of an entry that shows the literal by itself.
    #[inline(always)]
    pub fn unit_id(&self, lit: Lit) -> Option<u64>
        ensures some { IfSome result (λ id. IsUnitAt self.now id lit) }
        ensures none { IfNone result (HasUnit self.now lit → ⊥) }
    {
        match self.ids.get(lit.code() as usize).copied() {
            None | Some(0) => None,
            Some(id) => Some(id),
        }
    }

    /// Begins a query.
    pub fn begin_query(&mut self)
        ensures value { self.new ≡ with_new_query self.old }
        ensures none { learnt_in self.new.entries self.new.query ≡ [] }
    {
        self.log.begin_query();
    }

    /// Writes a clause that was learnt from a conflict, and answers its id.
    pub fn learnt(&mut self, lits: &[Lit], hints: &[u64]) -> Result<u64, NoMemory>
        requires shown { IsShown self.old.formula self.old.entries hints.now lits.now }
        requires fresh { IsFresh self.old.formula self.old.entries self.old.query lits.now }
        requires tight { IsTight (known_after self.old.formula self.old.entries) hints.now lits.now }
        ensures id { IfOk result (λ id. id ≡ id_after self.old.formula self.old.entries) }
        ensures ok { OnOk result (HasLearnt self.old self.new lits.now) }
        ensures err { OnErr result (self.new ≡ self.old) }
    {
        self.log.learnt(lits, hints)
    }

    /// Writes a literal that holds in every model, unless such an entry is there, and answers the entry's id.
    pub fn unit(&mut self, lit: Lit, hints: &[u64]) -> Result<u64, NoMemory>
        requires { IsShown self.old.formula self.old.entries hints.now (lit ∷ []) }
        ensures unit { IfOk result (λ id. IsEntryAt self.new id Kind.Unit (lit ∷ [])) }
        ensures noted { IsNoted self.old self.new }
    {
        if let Some(known) = self.unit_id(lit) {
            if self.log.kind(known - self.first) == Kind::Unit {
                return Ok(known);
            }
        }
        let id = self.log.unit(lit, hints)?;
        self.ids[lit.code() as usize] = id;
        Ok(id)
    }

    /// Writes a clause that refutes assumptions, and answers its id.
    pub fn core(&mut self, lits: &[Lit], hints: &[u64]) -> Result<u64, NoMemory>
        requires { IsShown self.old.formula self.old.entries hints.now lits.now }
        ensures core { IfOk result (λ id. IsEntryAt self.new id Kind.Core lits.now) }
        ensures noted { IsNoted self.old self.new }
    {
        self.log.core(lits, hints)
    }

    /// Writes the empty clause, and answers its id.
    pub fn empty(&mut self, hints: &[u64]) -> Result<u64, NoMemory>
        requires { IsShown self.old.formula self.old.entries hints.now [] }
        ensures empty { IfOk result (λ id. IsEntryAt self.new id Kind.Empty []) }
        ensures noted { IsNoted self.old self.new }
    {
        self.log.empty(hints)
    }

    /// Writes a literal that another log shows, and answers its id.
    pub fn import(&mut self, lit: Lit, stamp: u32) -> Result<u64, NoMemory>
        requires within { IsWithin self.old.formula.vars lit }
        requires entailed { Entails self.old.formula lit }
        ensures unit { IfOk result (λ id. IsUnitAt self.new id lit) }
        ensures ok { OnOk result (self.new ≡ with_import self.old lit stamp) }
        ensures err { OnErr result (self.new ≡ self.old) }
    {
        let id = self.log.import(lit, stamp)?;
        self.ids[lit.code() as usize] = id;
        Ok(id)
    }
}
