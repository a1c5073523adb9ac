//! When local search pays, by what it cost so far and by what came of it.

use assumption_solver::Solver;

/// A search that came to so few broken clauses was near to a model.
const NEAR: u32 = 30;

/// Few enough that it was a few flips away.
const VERY_NEAR: u32 = 4;

/// At most so many open candidates are few.
const FEW: usize = 256;

/// So many visits are allowed before the solver has done anything.
const FIRST_VISITS: u64 = 2_000_000;

/// For each of its first conflicts so many more are, as far as to this one.
const EARLY_VISITS: u64 = 15_000;

const EARLY: u64 = 1_000;

/// A core query of so many conflicts is long.
const LONG_QUERY: u64 = 50;

/// Help comes after so many conflicts of a query, at first and at most.
const FIRST_HELP: u64 = 300;

const LAST_HELP: u64 = 20_000;

/// What searches a worker made, and whether another one pays.
#[derive(Clone, Copy, Debug)]
pub(crate) struct Pace {
    /// How many visits they took.
    visits: u64,
    /// How few broken clauses the last one had at its best that looked for a model against several literals.
    low: u32,
    /// How many jumps in a row didn't come near.
    hopeless: u32,
    /// So many models are passed over, as long as the search is easy or they leave more than few candidates.
    skip: u32,
    /// The solver's conflicts when the turn began.
    turn_began: u64,
    /// Whether the turn began with few open candidates.
    few_open: bool,
}

impl Pace {
    /// The pace before the first search.
    pub fn new() -> Pace {
        Pace {
            visits: 0,
            low: u32::MAX,
            hopeless: 0,
            skip: 0,
            turn_began: 0,
            few_open: false,
        }
    }

    /// How many visits are allowed now: a tenth of the solver's work, and more of it where the last search came near, some
    /// before it and some for its first conflicts.
    fn allowance(&self, solver: &Solver) -> u64 {
        let counts = solver.counts();
        let work = counts
            .propagations
            .saturating_mul(10)
            .saturating_add(counts.conflicts.saturating_mul(500));
        let earned = if self.low <= NEAR {
            work.saturating_mul(3)
        } else {
            work / 10
        };
        earned
            .saturating_add(FIRST_VISITS)
            .saturating_add(counts.conflicts.min(EARLY).saturating_mul(EARLY_VISITS))
            .saturating_sub(self.visits)
    }

    /// Whether a jump that begins with so many visits pays for a model that leaves so many candidates.
    pub fn allows_jump(&mut self, solver: &Solver, beginning: u64, left: usize) -> bool {
        if self.skip > 0 {
            self.skip = self.skip.saturating_sub(1);
            if left > FEW || solver.counts().conflicts < EARLY {
                return false;
            }
        }
        self.allowance(solver) >= beginning.saturating_add(100_000)
    }

    /// The searches took so many visits by now.
    pub fn note_visits(&mut self, visits: u64) {
        self.visits = visits;
    }

    /// A search for a model against several literals had so few broken clauses at its best.
    pub fn note_low(&mut self, low: u32) {
        self.low = low;
    }

    /// A jump has ended, of which the last search was noted.
    pub fn note_jump(&mut self) {
        self.hopeless = if self.low <= NEAR {
            0
        } else {
            self.hopeless.saturating_add(1)
        };
        self.skip = self.hopeless.min(64);
    }

    /// A turn begins with so many open candidates.
    pub fn begin_turn(&mut self, solver: &Solver, open: usize) {
        self.turn_began = solver.counts().conflicts;
        self.few_open = open < FEW;
    }

    /// Whether the core query was a hard one over the last candidates, where a model was near.
    pub fn is_in_zone(&self, solver: &Solver) -> bool {
        let took = solver.counts().conflicts.saturating_sub(self.turn_began);
        let is_hard = took >= LONG_QUERY || self.low <= VERY_NEAR;
        self.few_open && self.low <= NEAR && is_hard
    }

    /// Whether help of so many visits pays for a query, over clauses with so many literals.
    pub fn allows_help(&self, solver: &Solver, visits: u64, literals: u64) -> bool {
        visits >= literals.saturating_mul(4) && visits / 8 <= self.allowance(solver)
    }
}

/// After how many conflicts a query is helped.
#[derive(Clone, Copy, Debug)]
pub(crate) struct HelpPace {
    /// The first distance of a chunk query, and that of a core query.
    first: [u64; 2],
    /// Whether the present query is a core query.
    is_core: bool,
    /// The distance to the next help, and the solver's conflicts at which it is due.
    distance: u64,
    due: u64,
    /// A search has found what the query asks for.
    is_over: bool,
    /// So many times the distance the next query of the kind begins with; once where none was in vain.
    growth: u64,
}

impl HelpPace {
    /// The pace before the first query.
    pub fn new() -> HelpPace {
        HelpPace {
            first: [FIRST_HELP; 2],
            is_core: false,
            distance: FIRST_HELP,
            due: FIRST_HELP,
            is_over: false,
            growth: 1,
        }
    }

    /// A query begins.
    pub fn begin_query(&mut self, solver: &Solver, is_core: bool) {
        let last = self.first[usize::from(self.is_core)];
        self.first[usize::from(self.is_core)] = last.saturating_mul(self.growth).min(LAST_HELP);
        self.is_core = is_core;
        self.distance = self.first[usize::from(is_core)];
        self.due = solver.counts().conflicts.saturating_add(self.distance);
        self.is_over = false;
        self.growth = 1;
    }

    /// The distance that the solver went since the last help, where one is due again.
    pub fn is_due(&mut self, solver: &Solver) -> Option<u64> {
        let conflicts = solver.counts().conflicts;
        if self.is_over || conflicts < self.due {
            return None;
        }
        let went = self.distance;
        self.distance = went.saturating_mul(2);
        self.due = conflicts.saturating_add(self.distance);
        Some(went)
    }

    /// A search for what the query asks for has ended.
    pub fn note(&mut self, found: bool, low: u32) {
        self.is_over = found;
        if found {
            self.first[usize::from(self.is_core)] = FIRST_HELP;
            self.growth = 1;
        } else {
            self.growth = if low <= NEAR { 2 } else { 4 };
        }
    }
}
