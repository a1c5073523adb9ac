//! The clauses of a formula, as a search takes them.
ghost use Rattle.std.specs.Prelude.{◌≡◌, ◌+◌, ◌∷◌, [], IfOk, IfSome, IfNone, true, false};
ghost use Rattle.cnf_core.specs.Literals.{AreWithin};
ghost use Rattle.cnf_core.specs.Formulas.{models};
ghost use Rattle.conflict_analysis.specs.Members.{HasClause};
ghost use Rattle.lrat_log.specs.Entries.{known_after, empty_log};
ghost use Rattle.assumption_solver.specs.Answers.{IsEmptyAt};
ghost use Rattle.assumption_solver.specs.Steps.Noted.{IsNoted};
ghost use Rattle.assumption_solver.specs.Steps.Standing.{Stands};
ghost use Rattle.assumption_solver.specs.Steps.Loading.{IsEachOnce, PlainSays, IsLoading, StaysTaken};
ghost use Rattle.assumption_solver.specs.Steps.States.{Solves};

use crate::journal::Journal;
use crate::phases::Phases;
use crate::search::{Counts, Removals, Search};
use clause_arena::Arena;
use cnf_core::{Formula, Lit, NoMemory};
use conflict_analysis::Analyser;
use lrat_log::laws::logged_clause_is_entailed;
use search_policy::{Epochs, Restarts};
use std::alloc::Global;
use trail_core::{Reason, Trail};
use watch_lists::Watches;

impl<'f> Search<'f> {
    /// A search without clauses.
    pub fn begun(alloc: Global, formula: &'f Formula) -> Result<Search<'f>, NoMemory>
        ensures loading { IfOk result IsLoading }
        ensures journal { IfOk result (λ s. s.journal ≡ empty_log formula.now) }
    {
        let vars = formula.vars();
        Ok(Search {
            alloc,
            arena: Arena::new(alloc),
            watches: Watches::new(alloc, vars)?,
            trail: Trail::new(alloc, vars)?,
            analyser: Analyser::new(alloc, vars)?,
            phases: Phases::new(alloc, vars)?,
            journal: Journal::new(alloc, formula)?,
            epochs: Epochs::new(),
            restarts: Restarts::new(),
            removals: Removals { done: 0, learnt: 0 },
            settled: 0,
            base: 0,
            counts: Counts::default(),
        })
    }

    /// Takes the clauses of the formula: those of one literal as units, and no tautologies. Where that shows the
    /// empty clause, the answer is its id.
    pub fn load(&mut self, formula: &Formula) -> Result<Option<u64>, NoMemory>
        requires loading { IsLoading self.old }
        requires formula { self.old.journal.formula ≡ formula.now }
        ensures solves { IfOk result (λ o. IfNone o (Solves self.new)) }
        ensures root { IfOk result (λ o. IfNone o (self.new.trail.level ≡ 0)) }
        ensures empty { IfOk result (λ o. IfSome o (λ id. IsEmptyAt self.new.journal id × (models self.new.journal.formula ≡ []))) }
        ensures noted { IsNoted self.old.journal self.new.journal }
    {
        let mut plain = Vec::new(self.alloc);
        let clauses = formula.clauses();
        for i in 0..clauses.len() {
            plain.clear();
            let clause = &clauses[i];
            plain.extend_from_slice(&clause.lits)?;
            if !make_plain(&mut plain) {
                continue;
            }
            if let Some(id) = self.take_plain(&plain, i as u64 + 1)? {
                self.journal.prove_log();
                logged_clause_is_entailed();
                return Ok(Some(id));
            }
        }
        self.watches.rebuild(&self.arena)?;
        Ok(None)
    }

    /// Takes a clause of which each variable stands in it once, and that is known by this id.
    fn take_plain(&mut self, lits: &[Lit], id: u64) -> Result<Option<u64>, NoMemory>
        requires loading { IsLoading self.old }
        requires within { AreWithin self.old.journal.formula.vars lits.now }
        requires once { IsEachOnce lits.now }
        requires known { HasClause (known_after self.old.journal.formula self.old.journal.entries) id lits.now }
        ensures loading { IsLoading self.new }
        ensures taken { StaysTaken self.old self.new }
        ensures noted { IsNoted self.old.journal self.new.journal }
        ensures stands { IfOk result (λ o. IfNone o (Stands self.new.arena self.new.trail.entries false lits.now)) }
        ensures empty { IfOk result (λ o. IfSome o (λ id. IsEmptyAt self.new.journal id)) }
    {
        if lits.is_empty() {
            return Ok(Some(self.journal.empty(&[id])?));
        }
        if lits.len() == 1 {
            return self.take_single(lits[0], id);
        }
        let _r = self.arena.add(lits, id, false)?;
        Ok(None)
    }

    /// Takes a literal that is known by this id.
    fn take_single(&mut self, lit: Lit, id: u64) -> Result<Option<u64>, NoMemory>
        requires loading { IsLoading self.old }
        requires within { AreWithin self.old.journal.formula.vars (lit ∷ []) }
        requires known { HasClause (known_after self.old.journal.formula self.old.journal.entries) id (lit ∷ []) }
        ensures loading { IsLoading self.new }
        ensures taken { StaysTaken self.old self.new }
        ensures noted { IsNoted self.old.journal self.new.journal }
        ensures stands { IfOk result (λ o. IfNone o (Stands self.new.arena self.new.trail.entries false (lit ∷ []))) }
        ensures empty { IfOk result (λ o. IfSome o (λ id. IsEmptyAt self.new.journal id)) }
    {
        let unit = self.journal.unit(lit, &[id])?;
        if let Some(other) = self.journal.unit_id(lit.negated()) {
            return Ok(Some(self.journal.empty(&[unit, other])?));
        }
        match self.trail.value(lit) {
            None => {
                self.trail.push(lit, Reason::Unit(unit));
                let _level = self.trail.level();
                Ok(None)
            }
            Some(_value) => Ok(None),
        }
    }
}

/// Leaves each literal once. Whether none is the negation of another.
fn make_plain(lits: &mut Vec<Lit>) -> bool
    ensures { PlainSays result lits.old.items lits.new.items }
{
    lits.sort_unstable();
    lits.dedup();
    for i in 1..lits.len() {
        if lits[i - 1].var() == lits[i].var() {
            return false;
        }
    }
    true
}
