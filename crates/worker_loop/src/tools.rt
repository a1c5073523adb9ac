ghost use Rattle.std.specs.Prelude.{◌^◌, ◌<◌, ◌≤◌, IfOk, IfSome, false};
ghost use Rattle.board_core.specs.Rules.{IsView};
ghost use Rattle.worker_loop.specs.Posts.{IsFirst, IsUnused, IsNewPost};
ghost use Rattle.worker_loop.specs.Steps.Held.{IsWorker, state_of};
ghost use Rattle.worker_loop.specs.Steps.Tools.{AreTools};

use crate::jumping::Jumper;
use crate::post::Post;
use crate::{Question, Share};
use assumption_solver::Solver;
use candidate_words::Seat;
use chooser_core::Chooser;
use cnf_core::{Lit, NoMemory};
use flip_literals::{Marks, Walker};
use model_store::{ModelStore, Witness};
use std::alloc::Global;

/// What a worker needs beside its seat.
#[derive(Drop)]
pub(crate) struct Tools<'f> {
    solver: Solver<'f>,
    drops: Vec<Witness>,
    fixes: Vec<Lit>,
    loaded: Vec<u64>,
    rooted: Vec<u32>,
    marks: Marks,
    walker: Walker,
    jumper: Jumper<'f>,
}

impl<'f> Tools<'f> {
    /// All that takes memory. With no solver handed in a new one is made, and the chooser begins.
    pub fn new<'r>(
        alloc: Global,
        share: Share,
        question: &'r Question<'f>,
        first: Option<Solver<'f>>,
        chooser: &mut Box<dyn Chooser>,
    ) -> Result<Tools<'f>, NoMemory>
        requires budget { 1 ≤ share.budget }
        requires first { IfSome first (IsFirst question.now share.budget) }
        ensures { IfOk result (AreTools question.now share.budget) }
    {
        let vars = question.vars();
        let groups = vars.div_ceil(32) as usize;
        let walker = question.walker(alloc)?;
        let solver = match first {
            Some(solver) => solver,
            None => begun(alloc, share, question, chooser)?,
        };
        Ok(Tools {
            solver,
            drops: Vec::with_capacity(alloc, vars as usize)?,
            fixes: Vec::with_capacity(alloc, vars as usize)?,
            loaded: vec![in alloc; 0; groups]?,
            rooted: vec![in alloc; 0; groups]?,
            marks: Marks::new(alloc, vars)?,
            walker,
            jumper: Jumper::new(question.formula(), seed_of(share)),
        })
    }

    /// The post of a worker with these tools.
    pub fn at<'r>(
        self,
        alloc: Global,
        share: Share,
        question: &'r Question<'f>,
        seat: Seat,
    ) -> Post<'f, 'r>
        requires number { share.number < share.workers }
        requires budget { share.budget ≤ 2 ^ 40 }
        requires tools { AreTools question.now share.budget self }
        requires seat { IsView question.now seat.view }
        requires unused { IsUnused question.now seat }
        ensures post { IsWorker result false }
        ensures new { IsNewPost question.now seat share.budget (state_of result) }
    {
        let groups = u64::from(question.vars().div_ceil(32));
        let first_group = groups * u64::from(share.number) / u64::from(share.workers);
        Post {
            alloc,
            question,
            seat,
            solver: self.solver,
            models: ModelStore::new(alloc, question.formula()),
            drops: self.drops,
            fixes: self.fixes,
            loaded: self.loaded,
            rooted: self.rooted,
            harvested: 0,
            first_group: first_group as u32,
            marks: self.marks,
            walker: self.walker,
            jumper: self.jumper,
            budget: share.budget,
        }
    }
}

/// A new solver, with a chooser that begins.
fn begun<'f, 'r>(
    alloc: Global,
    share: Share,
    question: &'r Question<'f>,
    chooser: &mut Box<dyn Chooser>,
) -> Result<Solver<'f>, NoMemory>
    requires { 1 ≤ share.budget }
    ensures { IfOk result (IsFirst question.now share.budget) }
{
    let formula = question.formula();
    chooser.begin(formula.vars(), seed_of(share))?;
    Solver::new(alloc, formula)
}

/// The seed of a worker's draws.
fn seed_of(share: Share) -> u64 {
    share.seed.wrapping_add(u64::from(share.number))
}
