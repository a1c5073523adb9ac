//! Jumps over what a model leaves open, and help for long queries, by local search.
//!
//! Where few candidates are left open that are in no backbone, they seldom clash by propagation, and a solver that splits
//! them finds a model against all of them late. Local search often finds one at once.
ghost use Rattle.std.specs.Prelude.{◌≡◌, IfSome, length};
ghost use Rattle.cnf_core.specs.Literals.{IsWithin, AreWithin};
ghost use Rattle.cnf_core.specs.Formulas.{IsModel};
ghost use Rattle.worker_loop.specs.Steps.Jumps.{IsLanding};

use crate::pace::{HelpPace, Pace};
use crate::terrain::Terrain;
use assumption_solver::Solver;
use cnf_core::{Formula, Lit, Values};
use std::alloc::Global;
use std::marker::Model;

/// A search for a model against all that is left may take so many visits, and so many more with each try.
const FREEZE: u64 = 500_000;

/// In the zone a jump is tried so many times more.
const MORE_TRIES: u64 = 3;

/// Help may take so many visits for each conflict since the last.
const HELP: u64 = 3000;

/// The local search of a worker. Its terrain is made when it is first needed; without memory for it there is none.
#[derive(Drop)]
pub(crate) struct Jumper<'f> {
    formula: &'f Formula,
    seed: u64,
    /// How many literals the formula's clauses have.
    literals: u64,
    pace: Pace,
    help_pace: HelpPace,
    /// Whether the turn is in the zone of its last candidates in which only small steps help.
    in_zone: bool,
    terrain: Option<Terrain<'f>>,
}

impl<'f> Model for Jumper<'f> {
    ghost use Rattle.std.specs.Prelude.{◌≡◌, IfSome};
    ghost use Rattle.cnf_core.specs.Formulas.{Cnf};

    ghost Value = { Cnf };

    ghost view = { λ j. j.formula.now };

    ghost invariant = { λ j. IfSome j.terrain (λ F. F ≡ j.formula.now) };
}

impl<'f> Jumper<'f> {
    /// A jumper over the models of a formula, with draws from this seed on.
    pub fn new(formula: &'f Formula, seed: u64) -> Jumper<'f>
        ensures { result ≡ formula.now }
    {
        Jumper {
            formula,
            seed,
            literals: literals_of(formula),
            pace: Pace::new(),
            help_pace: HelpPace::new(),
            in_zone: false,
            terrain: None,
        }
    }

    /// How many literals the formula's clauses have.
    pub fn literals(&self) -> u64 {
        self.literals
    }

    /// A core query about so many candidates begins, the first of a turn.
    pub fn begin_core_query(&mut self, solver: &Solver, candidates: usize)
        ensures { self.new ≡ self.old }
    {
        self.pace.begin_turn(solver, candidates);
        self.in_zone = false;
        self.help_pace.begin_query(solver, true);
    }

    /// A chunk query begins, about the core that was found: whether the turn is in the zone.
    pub fn begin_split(&mut self, solver: &Solver) -> bool
        ensures { self.new ≡ self.old }
    {
        self.in_zone = self.pace.is_in_zone(solver);
        self.help_pace.begin_query(solver, false);
        self.in_zone
    }

    /// Whether the turn is in the zone.
    pub fn is_in_zone(&self) -> bool {
        self.in_zone
    }

    /// Whether a jump pays for a model that leaves so many candidates. It is asked once for each model.
    pub fn is_due(&mut self, solver: &Solver, left: usize) -> bool
        ensures { self.new ≡ self.old }
    {
        let beginning = self
            .literals
            .saturating_mul(13)
            .saturating_add(12 * u64::from(self.formula.vars()));
        self.pace.allows_jump(solver, beginning, left)
    }

    /// A model in which as many wanted literals are true as a block has, or some literal of the core is false, after which
    /// nothing wanted is left, or the solver finds the rest without a conflict.
    pub fn jump(
        &mut self,
        alloc: Global,
        solver: &mut Solver,
        model: &Values,
        wanted: &[Lit],
        core: &[Lit],
    ) -> Option<Values>
        requires model { IsModel self.old model.now }
        requires wanted { AreWithin self.old.vars wanted.now }
        requires core { AreWithin self.old.vars core.now }
        ensures same { self.new ≡ self.old }
        ensures solver { solver.new ≡ solver.old }
        ensures landing { IfSome result (IsLanding self.old wanted.now core.now) }
    {
        self.begin(alloc, solver);
        let tries = if self.in_zone { 1 + MORE_TRIES } else { 1 };
        let mut found = None;
        for attempt in 0..tries {
            if found.is_none() {
                found = self.jump_once(
                    alloc,
                    solver,
                    model,
                    wanted,
                    core,
                    FREEZE.saturating_mul(attempt.max(1)),
                );
            }
        }
        self.pace.note_jump();
        found
    }

    /// One try of a jump.
    fn jump_once(
        &mut self,
        alloc: Global,
        solver: &mut Solver,
        model: &Values,
        wanted: &[Lit],
        core: &[Lit],
        effort: u64,
    ) -> Option<Values>
        requires model { IsModel self.old model.now }
        requires wanted { AreWithin self.old.vars wanted.now }
        requires core { AreWithin self.old.vars core.now }
        ensures same { self.new ≡ self.old }
        ensures solver { solver.new ≡ solver.old }
        ensures landing { IfSome result (IsLanding self.old wanted.now core.now) }
    {
        let Some(terrain) = &mut self.terrain else {
            return None;
        };
        let landing = terrain.jump(alloc, solver, model, wanted, core, effort);
        self.pace.note_visits(terrain.visits());
        match landing {
            Ok(better) => {
                self.pace.note_low(0);
                Some(better)
            }
            Err(low) => {
                self.pace.note_low(low);
                None
            }
        }
    }

    /// Looks for a model in which the literal is false, from other values on. Where it finds one the solver goes on by its
    /// signs.
    pub fn step(&mut self, alloc: Global, solver: &mut Solver, start: &Values, lit: Lit) -> bool
        requires start { length start.now ≡ self.old.vars }
        requires lit { IsWithin self.old.vars lit }
        ensures same { self.new ≡ self.old }
        ensures solver { solver.new ≡ solver.old }
    {
        self.begin(alloc, solver);
        self.freeze(solver, start, &[lit], FREEZE) == Some(0)
    }

    /// So many visits help may take now, where it is due and pays.
    pub fn help_due(&mut self, solver: &Solver) -> Option<u64>
        ensures { self.new ≡ self.old }
    {
        let effort = HELP.saturating_mul(self.help_pace.is_due(solver)?);
        if self.pace.allows_help(solver, effort, self.literals) {
            Some(effort)
        } else {
            None
        }
    }

    /// Looks for what a query asks for: a model in which the literals are false, from other values on, within so many
    /// visits. Where it finds one the solver goes on by its signs.
    pub fn help(
        &mut self,
        alloc: Global,
        solver: &mut Solver,
        start: &Values,
        lits: &[Lit],
        effort: u64,
    )
        requires start { length start.now ≡ self.old.vars }
        requires lits { AreWithin self.old.vars lits.now }
        ensures same { self.new ≡ self.old }
        ensures solver { solver.new ≡ solver.old }
    {
        self.begin(alloc, solver);
        let Some(low) = self.freeze(solver, start, lits, effort) else {
            return;
        };
        self.help_pace.note(low == 0, low);
    }

    /// One search for a model in which the literals are false: how near it came, 0 where it has found one.
    fn freeze(
        &mut self,
        solver: &mut Solver,
        start: &Values,
        lits: &[Lit],
        effort: u64,
    ) -> Option<u32>
        requires start { length start.now ≡ self.old.vars }
        requires lits { AreWithin self.old.vars lits.now }
        ensures same { self.new ≡ self.old }
        ensures solver { solver.new ≡ solver.old }
    {
        let terrain = self.terrain.as_mut()?;
        let end = terrain.freeze(solver, start, lits, effort);
        self.pace.note_visits(terrain.visits());
        let low = if end.found { 0 } else { end.low.max(1) };
        if lits.len() > 1 {
            self.pace.note_low(low);
        }
        Some(low)
    }

    /// Makes the terrain, if there is none and there is memory for it, and takes over the solver's root literals.
    fn begin(&mut self, alloc: Global, solver: &Solver)
        ensures { self.new ≡ self.old }
    {
        if self.terrain.is_none() {
            self.terrain = Terrain::new(alloc, self.formula, self.seed).ok();
        }
        if let Some(terrain) = &mut self.terrain {
            terrain.begin(solver);
        }
    }
}

/// How many literals the clauses of a formula have.
fn literals_of(formula: &Formula) -> u64 {
    let mut literals: u64 = 0;
    for clause in formula.clauses() {
        literals = literals.saturating_add(clause.as_slice().len() as u64);
    }
    literals
}
