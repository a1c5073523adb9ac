//! Queries, in slices.
ghost use Rattle.std.specs.Prelude.{◌≡◌, ◌+◌, ◌<◌, ◌≤◌, length, All, IsTrue, IfOk, IfSome, false, []};
ghost use Rattle.cnf_core.specs.Literals.{IsWithin, AreWithin};
ghost use Rattle.candidate_words.specs.Seats.{Sits};
ghost use Rattle.lrat_log.specs.Entries.{learnt_count};
ghost use Rattle.assumption_solver.specs.Logs.{IsContinued};
ghost use Rattle.assumption_solver.specs.Answers.{FoundSays, ProgressSays};
ghost use Rattle.worker_loop.specs.Steps.Held.{IsPost};
ghost use Rattle.worker_loop.specs.Steps.Moves.{IsLoaded, IsOnward, IsUnmoved, IsAskedTimes, IsClosed, queries_of};
ghost use Rattle.worker_loop.specs.Steps.Asked.{IsPart};
ghost use Rattle.worker_loop.specs.Steps.Asked.{AskedSays};

use crate::masks::{group_of, has_bit, open_bits};
use crate::post::Post;
use assumption_solver::{Found, Progress};
use candidate_words::Words;
use chooser_core::Chooser;
use cnf_core::{Lit, NoMemory, Values};

/// What a query came to.
#[derive(Drop)]
pub(crate) enum Asked {
    /// The solver has answered.
    Answered(Found),
    /// Others have closed all that was asked about.
    Closed,
}

/// After so many conflicts of a query the others' changes are looked at for the first time.
const FIRST_SLICE: u64 = 125;

/// Then each time after twice as many as before, up to so many.
const MOST_SLICE: u64 = 1000;

impl<'f, 'r> Post<'f, 'r> {
    /// Asks the solver under assumptions, or about a chunk. Afterwards all new root literals are fixed.
    pub fn ask(
        &mut self,
        words: &Words,
        assume: &[Lit],
        chunk: &[Lit],
        chooser: &mut Box<dyn Chooser>,
    ) -> Asked
        requires post { IsPost self.old }
        requires sits { Sits words.now self.old.seat }
        requires copied { IsLoaded self.old }
        requires assume { AreWithin self.old.question.now.formula.vars assume.now }
        requires chunk { AreWithin self.old.question.now.formula.vars chunk.now }
        requires apart { 0 < length assume.now → length chunk.now ≡ 0 }
        ensures post { IsPost self.new }
        ensures sits { Sits words.now self.new.seat }
        ensures onward { IsOnward self.old self.new }
        ensures models { self.new.models ≡ self.old.models }
        ensures asked { IsAskedTimes 1 self.old.solver.log self.new.solver.log }
        ensures says { AskedSays result assume.now chunk.now self.new }
    {
        self.solver.begin(chooser);
        let asked = self.go_on(words, assume, chunk, chooser);
        self.harvest(words);
        asked
    }

    /// Asks the solver under assumptions, as far as it comes with at most so many conflicts. Afterwards all new root literals
    /// are fixed.
    pub fn look(
        &mut self,
        words: &Words,
        assume: &[Lit],
        chooser: &mut Box<dyn Chooser>,
        conflicts: u64,
    ) -> Option<Found>
        requires post { IsPost self.old }
        requires sits { Sits words.now self.old.seat }
        requires copied { IsLoaded self.old }
        requires assume { AreWithin self.old.question.now.formula.vars assume.now }
        ensures post { IsPost self.new }
        ensures sits { Sits words.now self.new.seat }
        ensures onward { IsOnward self.old self.new }
        ensures models { self.new.models ≡ self.old.models }
        ensures asked { IsAskedTimes (queries_of conflicts) self.old.solver.log self.new.solver.log }
        ensures says { IfSome result (λ found. FoundSays found assume.now [] self.new.budget self.new.solver.log) }
    {
        self.solver.begin(chooser);
        let found = self.go_on_for(assume, chooser, conflicts);
        self.harvest(words);
        found
    }

    /// Goes on with a query under assumptions for at most so many conflicts.
    fn go_on_for(
        &mut self,
        assume: &[Lit],
        chooser: &mut Box<dyn Chooser>,
        conflicts: u64,
    ) -> Option<Found>
        requires post { IsPost self.old }
        requires assume { AreWithin self.old.question.now.formula.vars assume.now }
        ensures post { IsPost self.new }
        ensures part { IsPart self.old self.new }
        ensures most { learnt_count self.new.solver.log.entries ≤ learnt_count self.old.solver.log.entries + conflicts }
        ensures says { IfSome result (λ found. FoundSays found assume.now [] self.new.budget self.new.solver.log) }
    {
        let mut left = conflicts;
        let mut slice = FIRST_SLICE;
        loop {
            let now = slice.min(left);
            if let Progress::Found(found) = self.slice(assume, &[], chooser, now) {
                return Some(found);
            }
            left -= now;
            if left == 0 {
                return None;
            }
            self.help(assume, &[]);
            slice = (2 * slice).min(MOST_SLICE);
        }
    }

    /// Goes on with a query until it has its answer, or all that it asks about was closed.
    fn go_on(
        &mut self,
        words: &Words,
        assume: &[Lit],
        chunk: &[Lit],
        chooser: &mut Box<dyn Chooser>,
    ) -> Asked
        requires post { IsPost self.old }
        requires sits { Sits words.now self.old.seat }
        requires copied { IsLoaded self.old }
        requires assume { AreWithin self.old.question.now.formula.vars assume.now }
        requires chunk { AreWithin self.old.question.now.formula.vars chunk.now }
        requires apart { 0 < length assume.now → length chunk.now ≡ 0 }
        ensures post { IsPost self.new }
        ensures sits { Sits words.now self.new.seat }
        ensures onward { IsOnward self.old self.new }
        ensures models { self.new.models ≡ self.old.models }
        ensures log { IsContinued self.old.solver.log self.new.solver.log }
        ensures says { AskedSays result assume.now chunk.now self.new }
    {
        let mut conflicts = FIRST_SLICE;
        loop {
            if let Progress::Found(found) = self.slice(assume, chunk, chooser, conflicts) {
                return Asked::Answered(found);
            }
            if self.is_all_closed(words, assume, chunk) {
                return Asked::Closed;
            }
            self.help(assume, chunk);
            conflicts = (2 * conflicts).min(MOST_SLICE);
        }
    }

    /// Where a query takes long, has a local search look for what it asks for.
    fn help(&mut self, assume: &[Lit], chunk: &[Lit])
        requires post { IsPost self.old }
        requires assume { AreWithin self.old.question.now.formula.vars assume.now }
        requires chunk { AreWithin self.old.question.now.formula.vars chunk.now }
        ensures post { IsPost self.new }
        ensures same { IsUnmoved self.old self.new }
    {
        let Some(effort) = self.jumper.help_due(&self.solver) else {
            return;
        };
        let Ok(start) = self.recent_model() else {
            return;
        };
        let Ok(wanted) = self.asked_false(assume, chunk) else {
            return;
        };
        self.jumper
            .help(self.alloc, &mut self.solver, &start, &wanted, effort);
    }

    /// What is false in a model that a query asks for: the negated assumptions, and one literal of the chunk.
    fn asked_false(&self, assume: &[Lit], chunk: &[Lit]) -> Result<Vec<Lit>, NoMemory>
        requires assume { AreWithin self.now.question.now.formula.vars assume.now }
        requires chunk { AreWithin self.now.question.now.formula.vars chunk.now }
        ensures { IfOk result (λ lits. AreWithin self.now.question.now.formula.vars lits.items) }
    {
        let mut lits = Vec::with_capacity(self.alloc, assume.len() + 1)?;
        for lit in assume {
            lits.push(lit.negated())?;
        }
        if let Some(lit) = self.first_unfixed(chunk) {
            lits.push(lit)?;
        }
        Ok(lits)
    }

    /// The first of the literals that isn't a root literal of the solver.
    pub fn first_unfixed(&self, lits: &[Lit]) -> Option<Lit>
        requires { AreWithin self.now.question.now.formula.vars lits.now }
        ensures { IfSome result (IsWithin self.now.question.now.formula.vars) }
    {
        for lit in lits {
            if !self.solver.is_root(*lit) {
                return Some(*lit);
            }
        }
        None
    }

    /// The model that was stored last, or the first one.
    pub fn recent_model(&self) -> Result<Values, NoMemory>
        requires { IsPost self.now }
        ensures { IfOk result (λ m. length m ≡ self.now.question.now.formula.vars) }
    {
        let vars = self.question.vars();
        let mut model = Values::new(self.alloc, vars)?;
        for i in 0..vars {
            model.set(i + 1, self.recent_value(i + 1));
        }
        Ok(model)
    }

    /// The value of a variable in the model that was stored last, or in the first one.
    fn recent_value(&self, var: u32) -> bool
        requires post { IsPost self.now }
        requires var { (0 < var) × (var ≤ self.now.question.now.formula.vars) }
    {
        match self.models.len().checked_sub(1) {
            Some(last) => self.models.value(last, var),
            None => self.question.phase(var),
        }
    }

    /// Whether all that a query asks about is closed, as the words are now.
    fn is_all_closed(&mut self, words: &Words, assume: &[Lit], chunk: &[Lit]) -> bool
        requires post { IsPost self.old }
        requires sits { Sits words.now self.old.seat }
        requires assume { AreWithin self.old.question.now.formula.vars assume.now }
        requires chunk { AreWithin self.old.question.now.formula.vars chunk.now }
        ensures post { IsPost self.new }
        ensures sits { Sits words.now self.new.seat }
        ensures onward { IsOnward self.old self.new }
        ensures models { self.new.models ≡ self.old.models }
        ensures solver { self.new.solver ≡ self.old.solver }
        ensures assumed { IsTrue result → All (λ l. IsClosed self.new l.var) assume.now }
        ensures asked { IsTrue result → All (λ l. IsClosed self.new l.var) chunk.now }
    {
        if !self.are_closed(words, assume) {
            return false;
        }
        self.are_closed(words, chunk)
    }

    /// One slice of a query, of so many conflicts.
    pub fn slice(
        &mut self,
        assume: &[Lit],
        chunk: &[Lit],
        chooser: &mut Box<dyn Chooser>,
        conflicts: u64,
    ) -> Progress
        requires post { IsPost self.old }
        requires assume { AreWithin self.old.question.now.formula.vars assume.now }
        requires chunk { AreWithin self.old.question.now.formula.vars chunk.now }
        requires apart { 0 < length assume.now → length chunk.now ≡ 0 }
        ensures post { IsPost self.new }
        ensures seat { self.new.seat ≡ self.old.seat }
        ensures onward { IsOnward self.old self.new }
        ensures models { self.new.models ≡ self.old.models }
        ensures log { IsContinued self.old.solver.log self.new.solver.log }
        ensures progress { ProgressSays result assume.now chunk.now self.new.budget
            (learnt_count self.old.solver.log.entries + conflicts) self.new.solver.log }
        ensures most { learnt_count self.new.solver.log.entries ≤ learnt_count self.old.solver.log.entries + conflicts }
    {
        self.solver
            .go_on(assume, chunk, chooser, self.budget, conflicts)
    }

    /// Whether the variables of all of the literals are closed, as the words are now.
    fn are_closed(&mut self, words: &Words, lits: &[Lit]) -> bool
        requires post { IsPost self.old }
        requires sits { Sits words.now self.old.seat }
        requires lits { AreWithin self.old.question.now.formula.vars lits.now }
        ensures post { IsPost self.new }
        ensures sits { Sits words.now self.new.seat }
        ensures onward { IsOnward self.old self.new }
        ensures models { self.new.models ≡ self.old.models }
        ensures solver { self.new.solver ≡ self.old.solver }
        ensures closed { IsTrue result → All (λ l. IsClosed self.new l.var) lits.now }
    {
        for lit in lits {
            if self.is_open_now(words, lit.var()) {
                return false;
            }
        }
        true
    }

    /// Whether the variable is open, as its word is now.
    fn is_open_now(&mut self, words: &Words, var: u32) -> bool
        requires post { IsPost self.old }
        requires sits { Sits words.now self.old.seat }
        requires var { (0 < var) × (var ≤ self.old.question.now.formula.vars) }
        ensures post { IsPost self.new }
        ensures sits { Sits words.now self.new.seat }
        ensures onward { IsOnward self.old self.new }
        ensures models { self.new.models ≡ self.old.models }
        ensures solver { self.new.solver ≡ self.old.solver }
        ensures open { result ≡ false → IsClosed self.new var }
    {
        let word = words.refresh(&mut self.seat, group_of(var));
        has_bit(open_bits(word), (var - 1) % 32)
    }
}
