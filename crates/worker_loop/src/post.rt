ghost use Rattle.std.specs.Prelude.{◌≡◌};
ghost use Rattle.worker_loop.specs.Steps.Held.{state_of};
ghost use Rattle.worker_loop.specs.Steps.Handing.{HasHandedIn};

use crate::jumping::Jumper;
use crate::{End, Findings, Question};
use assumption_solver::Solver;
use candidate_words::Seat;
use chooser_core::Chooser;
use cnf_core::Lit;
use flip_literals::{Marks, Walker};
use model_store::{ModelStore, Witness};
use std::alloc::Global;

/// What a worker holds beside its chooser.
#[derive(Drop)]
pub(crate) struct Post<'f, 'r> {
    pub alloc: Global,
    pub question: &'r Question<'f>,
    pub seat: Seat,
    pub solver: Solver<'f>,
    pub models: ModelStore<'f>,
    /// With room for every variable, so that what was won is always recorded.
    pub drops: Vec<Witness>,
    pub fixes: Vec<Lit>,
    /// The words that the present turn has loaded.
    pub loaded: Vec<u64>,
    /// For each group a bit for each variable whose phase literal is known as a root unit of the solver.
    pub rooted: Vec<u32>,
    /// So many root literals of the solver were looked at.
    pub harvested: u32,
    /// The group at which the next block begins.
    pub first_group: u32,
    pub marks: Marks,
    pub walker: Walker,
    pub jumper: Jumper<'f>,
    pub budget: u64,
}

impl<'f, 'r> Post<'f, 'r> {
    /// What it hands in, with how often the chooser was asked until now.
    pub fn findings(self, worker: u32, chooser: &Box<dyn Chooser>, end: End) -> Findings<'f>
        ensures handed { HasHandedIn (state_of self.entry) worker end result }
        ensures decisions { result.decisions ≡ asks chooser.now }
    {
        Findings {
            worker,
            seat: self.seat,
            drops: self.drops,
            fixes: self.fixes,
            models: self.models,
            log: self.solver.into_log(),
            decisions: chooser.asked(),
            end,
        }
    }
}
