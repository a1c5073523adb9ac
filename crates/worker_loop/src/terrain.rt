//! What a worker's local searches go over, and the searches.
ghost use Rattle.std.specs.Prelude.{◌≡◌, ◌^◌, ◌≤◌, IsTrue, IfOk, IfSome, length};
ghost use Rattle.cnf_core.specs.Literals.{AreWithin};
ghost use Rattle.cnf_core.specs.Formulas.{IsModel};
ghost use Rattle.assumption_solver.specs.Answers.{HasFalse};
ghost use Rattle.worker_loop.specs.Steps.Jumps.{IsEnough, IsLanding, met_count};

use crate::turn::BLOCK;
use assumption_solver::Solver;
use cnf_core::{Formula, Lit, NoMemory, Values};
use local_search::{Descent, LocalSearch, Tables};
use model_check::is_true;
use std::alloc::Global;
use std::marker::Model;

/// A descent ends within so many visits, beside those of its beginning.
const DESCENT: u64 = 2_000_000;

/// How a search for a model against given literals ended.
#[derive(Clone, Copy, Debug)]
pub(crate) struct Landing {
    pub found: bool,
    /// How few broken clauses it had at its best.
    pub low: u32,
}

/// Tables of the formula, the searches over them, and what they took.
#[derive(Drop)]
pub(crate) struct Terrain<'f> {
    tables: Tables<'f>,
    search: LocalSearch,
    descent: Descent,
    /// The variables of the solver's root literals, which no search flips.
    fixed: Values,
    /// So many root literals are marked there.
    marked: u32,
    /// How many visits the searches took.
    visits: u64,
}

impl<'f> Model for Terrain<'f> {
    ghost use Rattle.cnf_core.specs.Formulas.{Cnf};
    ghost use Rattle.worker_loop.specs.Steps.Jumps.{IsTerrain};

    ghost Value = { Cnf };

    ghost view = { λ g. g.tables.formula };

    ghost invariant = { λ g. IsTerrain g.tables g.search g.descent g.fixed };
}

impl<'f> Terrain<'f> {
    /// The terrain of a formula, with draws from this seed on.
    pub fn new(alloc: Global, formula: &'f Formula, seed: u64) -> Result<Terrain<'f>, NoMemory>
        ensures { IfOk result (λ terrain. terrain ≡ formula.now) }
    {
        let tables = Tables::new(alloc, formula)?;
        let search = LocalSearch::new(alloc, &tables, seed)?;
        let descent = Descent::new(alloc, &tables)?;
        let fixed = Values::new(alloc, tables.vars())?;
        Ok(Terrain {
            tables,
            search,
            descent,
            fixed,
            marked: 0,
            visits: 0,
        })
    }

    /// How many visits the searches took by now.
    pub fn visits(&self) -> u64 {
        self.visits
    }

    /// From here on no search flips a variable of the solver's root literals.
    pub fn begin(&mut self, solver: &Solver)
        ensures { self.new ≡ self.old }
    {
        mark_roots(&mut self.fixed, self.marked, solver);
        self.marked = solver.root_count();
    }

    /// A model in which as many wanted literals are true as a block has, or some literal of the core is false, after which
    /// none is left, or the solver goes on by the signs of a model in which all the others are true: with how near the
    /// search for that one came. It may take so many visits.
    pub fn jump(
        &mut self,
        alloc: Global,
        solver: &mut Solver,
        model: &Values,
        wanted: &[Lit],
        core: &[Lit],
        effort: u64,
    ) -> Result<Values, u32>
        requires model { IsModel self.old model.now }
        requires wanted { AreWithin self.old.vars wanted.now }
        requires core { AreWithin self.old.vars core.now }
        ensures same { self.new ≡ self.old }
        ensures solver { solver.new ≡ solver.old }
        ensures landing { IfOk result (IsLanding self.old wanted.now core.now) }
    {
        let Ok(better) = self.descend(model, wanted) else {
            return Err(u32::MAX);
        };
        if !is_enough(&better, wanted, core) {
            return Err(u32::MAX);
        }
        let Ok(rest) = unmet(alloc, wanted, &better) else {
            return Err(u32::MAX);
        };
        if rest.is_empty() {
            return Ok(better);
        }
        let end = self.freeze(solver, &better, &rest, effort);
        if end.found { Ok(better) } else { Err(end.low) }
    }

    /// A model with more of the wanted literals true, or an equal one where none is found.
    fn descend(&mut self, start: &Values, wanted: &[Lit]) -> Result<Values, NoMemory>
        requires model { IsModel self.old start.now }
        requires wanted { AreWithin self.old.vars wanted.now }
        ensures same { self.new ≡ self.old }
        ensures model { IfOk result (IsModel self.old) }
    {
        let size = u64::from(self.tables.literals()) + u64::from(self.tables.vars());
        let end = self.descent.descend(
            &mut self.search,
            &self.tables,
            start,
            &self.fixed,
            wanted,
            10 * size + DESCENT,
        );
        self.visits = self.visits.saturating_add(end.visits);
        if end.found {
            return self.search.values().copy();
        }
        start.copy()
    }

    /// Looks for a model in which the literals are false, from other values on. Where it finds one the solver goes on by its
    /// signs. It may take so many visits beside those of its beginning.
    pub fn freeze(
        &mut self,
        solver: &mut Solver,
        start: &Values,
        lits: &[Lit],
        effort: u64,
    ) -> Landing
        requires start { length start.now ≡ self.old.vars }
        requires lits { AreWithin self.old.vars lits.now }
        ensures same { self.new ≡ self.old }
        ensures solver { solver.new ≡ solver.old }
    {
        let size = 3 * u64::from(self.tables.literals()) + 2 * u64::from(self.tables.vars());
        let end = self.search.freeze(
            &self.tables,
            start,
            &self.fixed,
            lits,
            size.saturating_add(effort),
        );
        self.visits = self.visits.saturating_add(end.visits);
        if end.found {
            prefer_values(solver, self.search.values());
        }
        Landing {
            found: end.found,
            low: end.low,
        }
    }
}

/// Marks the variables of the solver's root literals from a place on.
fn mark_roots(fixed: &mut Values, from: u32, solver: &Solver)
    ensures { length fixed.new ≡ length fixed.old }
{
    for place in from..solver.root_count() {
        mark(fixed, solver.root_at(place).var());
    }
}

/// Marks a variable, if it has a value.
fn mark(values: &mut Values, var: u32)
    ensures { length values.new ≡ length values.old }
{
    if 0 < var && var <= values.len() {
        values.set(var, true);
    }
}

/// From here on the solver decides the variables by these values.
pub(crate) fn prefer_values(solver: &mut Solver, values: &Values)
    requires { length values.now ≤ 2 ^ 20 }
    ensures { solver.new ≡ solver.old }
{
    for i in 0..values.len() {
        solver.prefer(Lit::new(i + 1, values.get(i + 1)));
    }
}

/// Whether as many of the wanted literals are true in the model as a block has, or some literal of the core is false.
fn is_enough(model: &Values, wanted: &[Lit], core: &[Lit]) -> bool
    requires wanted { AreWithin (length model.now) wanted.now }
    requires core { AreWithin (length model.now) core.now }
    ensures { IsTrue result → IsEnough model.now wanted.now core.now }
{
    if has_false(model, core) {
        return true;
    }
    met(model, wanted) >= wanted.len().min(BLOCK as usize).max(1)
}

/// Whether some of the literals is false.
fn has_false(model: &Values, lits: &[Lit]) -> bool
    requires { AreWithin (length model.now) lits.now }
    ensures { IsTrue result → HasFalse model.now lits.now }
{
    for lit in lits {
        if !is_true(*lit, model) {
            return true;
        }
    }
    false
}

/// How many of the literals are true.
fn met(model: &Values, lits: &[Lit]) -> usize
    requires { AreWithin (length model.now) lits.now }
    ensures { result ≡ met_count model.now lits.now }
{
    lits.iter().filter(|lit| is_true(**lit, model)).count()
}

/// The negations of those literals that are false.
fn unmet(alloc: Global, lits: &[Lit], model: &Values) -> Result<Vec<Lit>, NoMemory>
    requires { AreWithin (length model.now) lits.now }
    ensures { IfOk result (λ found. AreWithin (length model.now) found.items) }
{
    let mut found = Vec::new(alloc);
    for lit in lits {
        if !is_true(*lit, model) {
            found.push(lit.negated())?;
        }
    }
    Ok(found)
}
