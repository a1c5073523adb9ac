ghost use Rattle.std.specs.Prelude.{◌≡◌, ◌+◌, ◌<◌, ◌≤◌, IsTrue, IfOk, IfSome, IfNone, false, length};
ghost use Rattle.cnf_core.specs.Literals.{AreWithin};
ghost use Rattle.cnf_core.specs.Formulas.{IsModel};
ghost use Rattle.model_check.specs.Flips.{flipped};
ghost use Rattle.local_search.specs.Cleaned.{IsTabled};
ghost use Rattle.local_search.specs.Searches.{IsSearchOf, IsDescentOf, IsFixedModel, unmet_count, values_of};
ghost use Rattle.local_search.specs.Steps.States.{IsState, IsOnward, IsFree, IsSameButDraws};
ghost use Rattle.local_search.specs.Steps.Descents.{IsStepped, IsUndone, IsBack};

use crate::scores::Scores;
use crate::{LocalSearch, Tables};
use cnf_core::{Lit, NoMemory, Values};
use model_check::is_true;
use rand_core::utils::NextWord;
use std::alloc::Global;

/// How often a descent flips in vain, since the best model, before it gives up.
const PATIENCE: usize = 20_000;

/// How a descent ended.
#[derive(Clone, Copy, Debug, PartialEq, Eq)]
pub struct Descended {
    /// Whether the values with which it ended are a model with more of the wanted literals true than where it began.
    pub found: bool,
    /// How many visits of its effort it took.
    pub visits: u64,
    /// How many of the wanted literals are false in them; where it found none, how many were at the start.
    pub left: usize,
}

/// What a descent remembers beside a search. It is made once, with all its memory, and used for any number of descents.
#[derive(Drop)]
pub struct Descent {
    scores: Scores,
    /// Which variables were flipped since the best model.
    journal: Vec<u32>,
}

impl Descent {
    /// A descent over these tables.
    pub fn new(alloc: Global, tables: &Tables) -> Result<Descent, NoMemory>
        requires { IsTabled tables.now }
        ensures { IfOk result (IsDescentOf tables.now) }
    {
        Ok(Descent {
            scores: Scores::new(alloc, tables.len() as u32, tables.vars())?,
            journal: zeros(alloc, PATIENCE)?,
        })
    }

    /// Searches a model in which more of the wanted literals are true than in `start`, a model, in the way of SATLike
    /// (Lei and Cai 2018): the clauses are hard, each with a weight, and the wanted literals are wishes, each with a
    /// weight. It flips a variable that saves much weight; where none saves any, it adds weight to what is broken. The
    /// search has the best model in the end. Variables that are marked as fixed are never flipped.
    ///
    /// It ends within its effort, a number of visits: a beginning takes ten for each literal of the clauses and ten for
    /// each variable, a flip ten, three for each clause that has the variable, and one for each literal of those whose
    /// scores it changes, and so does a new weight for each literal of the clause. It ends also where all that is wanted is
    /// true, and after 20,000 flips without a better model. It takes no memory.
    pub fn descend(
        &mut self,
        search: &mut LocalSearch,
        tables: &Tables,
        start: &Values,
        fixed: &Values,
        wanted: &[Lit],
        effort: u64,
    ) -> Descended
        requires descent { IsDescentOf tables.now self.old }
        requires search { IsSearchOf tables.now search.old }
        requires start { IsModel tables.now.formula start.now }
        requires fixed { length fixed.now ≡ tables.now.formula.vars }
        requires wanted { AreWithin tables.now.formula.vars wanted.now }
        ensures descent { IsDescentOf tables.now self.new }
        ensures search { IsSearchOf tables.now search.new }
        ensures found { IsTrue result.found → IsFixedModel tables.now.formula start.now fixed.now (values_of search.new) }
        ensures more { IsTrue result.found → unmet_count (values_of search.new) wanted.now < unmet_count start.now wanted.now }
        ensures left { IsTrue result.found → result.left ≡ unmet_count (values_of search.new) wanted.now }
        ensures same { result.found ≡ false → result.left ≡ unmet_count start.now wanted.now }
        ensures effort { result.visits ≤ effort }
        ensures none { effort ≡ 0 → result.found ≡ false }
    {
        let before = unmet(wanted, start);
        let beginning = 10 * u64::from(tables.literals()) + 10 * u64::from(tables.vars());
        if effort <= beginning {
            return Descended {
                found: false,
                visits: 0,
                left: before,
            };
        }
        search.begin(tables, start, fixed);
        search.tally(tables);
        self.begin(search, tables, wanted);
        let visits = self.run(search, tables, effort - beginning);
        let left = unmet(wanted, search.values());
        Descended {
            found: left < before,
            visits: beginning + visits,
            left: left.min(before),
        }
    }

    /// Sets the scores by the wishes and by which clauses rest on one variable.
    fn begin(&mut self, search: &LocalSearch, tables: &Tables, wanted: &[Lit])
        requires descent { IsDescentOf tables.now self.old }
        requires state { IsState tables.now search.now }
        requires wanted { AreWithin tables.now.formula.vars wanted.now }
        ensures { IsDescentOf tables.now self.new }
    {
        self.scores.begin();
        for lit in wanted {
            self.scores.wish(*lit, &search.values, &search.held);
        }
        self.scores.rest(tables, &search.counts, &search.held);
    }

    /// Flips until all is won, or the patience or the effort is used up, and goes back to the best model. Answers the
    /// visits.
    fn run(&mut self, search: &mut LocalSearch, tables: &Tables, effort: u64) -> u64
        requires descent { IsDescentOf tables.now self.old }
        requires state { IsState tables.now search.old }
        requires model { IsModel tables.now.formula search.old.values }
        ensures descent { IsDescentOf tables.now self.new }
        ensures back { IsBack tables.now search.old search.new }
        ensures effort { result ≤ effort }
    {
        let mut left = effort;
        let mut best = self.scores.unwon();
        let mut since = 0;
        while since < PATIENCE && best > 0 {
            let Some(var) = self.step(search, tables, &mut left) else {
                break;
            };
            since = self.note(search, tables, var, since, &mut best);
        }
        undo(search, tables, &self.journal, since);
        effort - left
    }

    /// One flip of a variable, if there is one to flip and the flip costs at most what is left.
    fn step(&mut self, search: &mut LocalSearch, tables: &Tables, left: &mut u64) -> Option<u32>
        requires descent { IsDescentOf tables.now self.old }
        requires state { IsState tables.now search.old }
        ensures descent { IsDescentOf tables.now self.new }
        ensures journal { self.new.journal.items ≡ self.old.journal.items }
        ensures onward { IsOnward tables.now search.old search.new }
        ensures some { IfSome result (λ v. IsStepped tables.now search.old search.new v left.old left.new) }
        ensures none { IfNone result (search.new.values ≡ search.old.values) }
        ensures most { left.new ≤ left.old }
    {
        let Some(var) = self.choose(search, tables, left) else {
            return None;
        };
        let cost = tables.listed(var).saturating_mul(3).saturating_add(10);
        if *left < cost {
            return None;
        }
        let lost = Lit::new(var, search.values.get(var));
        search.flip(tables, var);
        let changes = self
            .scores
            .flipped(tables, &search.counts, &search.held, lost, *left);
        *left = (*left - cost).saturating_sub(changes);
        Some(var)
    }

    /// The variable to flip next, if there is one.
    fn choose(&mut self, search: &mut LocalSearch, tables: &Tables, left: &mut u64) -> Option<u32>
        requires descent { IsDescentOf tables.now self.old }
        requires state { IsState tables.now search.old }
        ensures descent { IsDescentOf tables.now self.new }
        ensures journal { self.new.journal.items ≡ self.old.journal.items }
        ensures same { IsSameButDraws search.old search.new }
        ensures free { IfSome result (IsFree tables.now.formula.vars search.old.held) }
        ensures most { left.new ≤ left.old }
    {
        if let Some(var) = self.scores.best_good(&mut search.rng, &search.held) {
            return Some(var);
        }
        if search.counts.count() == 0 {
            *left = self.scores.raise_soft(&search.held, *left);
            let word = search.rng.next_word();
            return self.scores.unwon_at(word, &search.held);
        }
        *left = self
            .scores
            .raise_hard(tables, &search.counts, &search.held, *left);
        let Some(place) = search.draw_broken() else {
            return None;
        };
        self.scores.best_of(tables.clause(place), &search.held)
    }

    /// Notes that a variable was flipped, and answers how many flips the best model is back.
    fn note(
        &mut self,
        search: &LocalSearch,
        tables: &Tables,
        var: u32,
        since: usize,
        best: &mut usize,
    ) -> usize
        requires descent { IsDescentOf tables.now self.old }
        requires state { IsState tables.now search.now }
        requires free { IsFree tables.now.formula.vars search.now.held var }
        requires since { since < 20000 }
        requires undone { IsUndone tables.now.formula search.now.held (flipped search.now.values var) self.old.journal.items since }
        ensures descent { IsDescentOf tables.now self.new }
        ensures since { result ≤ 20000 }
        ensures undone { IsUndone tables.now.formula search.now.held search.now.values self.new.journal.items result }
    {
        let unwon = self.scores.unwon();
        if search.counts.count() == 0 && unwon < *best {
            *best = unwon;
            return 0;
        }
        self.journal[since] = var;
        since + 1
    }
}

/// So many zeros.
fn zeros(alloc: Global, count: usize) -> Result<Vec<u32>, NoMemory>
    ensures { IfOk result (λ v. length v.items ≡ count) }
{
    Ok(vec![in alloc; 0u32; count]?)
}

/// Takes the last flips back.
fn undo(search: &mut LocalSearch, tables: &Tables, journal: &[u32], flips: usize)
    requires sizes { IsSearchOf tables.now search.old }
    requires flips { flips ≤ length journal.now }
    requires undone { IsUndone tables.now.formula search.old.held search.old.values journal.now flips }
    ensures { IsBack tables.now search.old search.new }
{
    let mut place = flips;
    while place > 0 {
        place -= 1;
        let var = journal[place];
        let value = search.values.get(var);
        search.values.set(var, !value);
    }
}

/// How many of the literals are false.
fn unmet(lits: &[Lit], values: &Values) -> usize
    requires { AreWithin (length values.now) lits.now }
    ensures { result ≡ unmet_count values.now lits.now }
{
    lits.iter().filter(|lit| !is_true(**lit, values)).count()
}
