//! Which block a turn asks about.
ghost use Rattle.std.specs.Prelude.{◌≡◌, ◌<◌, ◌≤◌, IfOk, length, All};
ghost use Rattle.core_chunks.specs.Chunks.{IsBlockOf};
ghost use Rattle.worker_loop.specs.Steps.Held.{IsPost};
ghost use Rattle.worker_loop.specs.Steps.Moves.{IsLoaded, IsLooking};

use crate::post::Post;
use crate::turn::BLOCK;
use assumption_solver::Progress;
use chooser_core::Chooser;
use cnf_core::NoMemory;

/// So many places around the table are looked at for a block.
const PLACES: u32 = 8;

/// Where more candidates are open, nearly every block clashes.
const MOST_OPEN: u32 = 1024;

impl<'f, 'r> Post<'f, 'r> {
    /// The block to ask about: this one, or, where more are open than a block has but few, the first of several around
    /// the table for which the solver needs no conflict, or comes to one by propagation alone.
    pub fn choose_block(
        &mut self,
        block: Vec<u32>,
        chooser: &mut Box<dyn Chooser>,
    ) -> Result<Vec<u32>, NoMemory>
        requires post { IsPost self.old }
        requires copied { IsLoaded self.old }
        requires block { IsBlockOf self.old.loaded.items self.old.question.now.formula.vars 256 block.items }
        ensures looking { IsLooking self.old self.new }
        ensures block { IfOk result (λ chosen. IsBlockOf self.old.loaded.items self.old.question.now.formula.vars 256 chosen.items) }
    {
        if !self.is_dense()? {
            return Ok(block);
        }
        if self.is_easy(&block, chooser)? {
            return Ok(block);
        }
        for place in 1..PLACES {
            let other = self.block_at(place)?;
            if self.is_easy(&other, chooser)? {
                self.begin_behind(&other);
                return Ok(other);
            }
        }
        Ok(block)
    }

    /// Whether more candidates are open than a block has, but few.
    fn is_dense(&self) -> Result<bool, NoMemory>
        requires post { IsPost self.now }
        requires copied { IsLoaded self.now }
    {
        let open = self.open_block(0, MOST_OPEN + 1)?.len();
        Ok(open > BLOCK as usize && open <= MOST_OPEN as usize)
    }

    /// The block at one of so many places around the table.
    fn block_at(&self, place: u32) -> Result<Vec<u32>, NoMemory>
        requires post { IsPost self.now }
        requires copied { IsLoaded self.now }
        requires place { place < 8 }
        ensures { IfOk result (λ block. IsBlockOf self.now.loaded.items self.now.question.now.formula.vars 256 block.items) }
    {
        let groups = self.loaded.len() as u32;
        let from = (self.first_group + place * groups / PLACES) % groups;
        self.open_block(from, BLOCK)
    }

    /// Whether the solver needs no conflict to say if all of the block can be against their phases, or comes to one by
    /// propagation alone.
    fn is_easy(&mut self, block: &[u32], chooser: &mut Box<dyn Chooser>) -> Result<bool, NoMemory>
        requires post { IsPost self.old }
        requires block { IsBlockOf self.old.loaded.items self.old.question.now.formula.vars 256 block.now }
        ensures looking { IsLooking self.old self.new }
    {
        let assume = self.against(block)?;
        self.solver.begin(chooser);
        let asked = chooser.asked();
        match self.slice(&assume, &[], chooser, 0) {
            Progress::Found(_) => Ok(true),
            Progress::Paused => Ok(chooser.asked() == asked),
        }
    }
}
