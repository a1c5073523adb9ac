ghost use Rattle.std.specs.Prelude.{◌≡◌, ◌<◌, ◌≤◌};
ghost use Rattle.board_core.specs.Subjects.{groups, Opposed, Entailed};
ghost use Rattle.board_core.specs.Boards.{EachOf};
ghost use Rattle.candidate_words.specs.Seats.{Sits};

use candidate_words::{Seat, Words};
use cnf_core::NoMemory;
use std::alloc::Global;
use table_cases::{Case, is_case, may_drop, may_fix};

/// How often each thing is done.
#[derive(Clone, Copy)]
pub struct Rounds {
    pub loads: u32,
    pub drops: u32,
    pub fixes: u32,
}

/// What was found and won.
#[derive(Clone, Copy)]
pub struct Counts {
    /// How many loads found the first variable of their group alive.
    pub alive: u64,
    pub dropped: u64,
    pub fixed: u64,
}

/// The mask of variable 1, which is fixed, and that of variable 2, which is dropped.
const FIRST: u32 = 1;

const SECOND: u32 = 2;

/// Loads the groups from 0 on.
fn load_all(words: &Words, seat: &mut Seat, count: u32) -> u64
    requires seat { Sits words.now seat.old }
    requires count { count ≤ groups words.now.about.formula.vars }
    ensures { Sits words.now seat.new }
{
    let mut alive = 0u64;
    for group in 0..count {
        alive = alive.wrapping_add(words.load(seat, group) & 1);
    }
    alive
}

/// Loads the groups from 0 on so many times.
fn load_often(words: &Words, seat: &mut Seat, count: u32, rounds: u32) -> u64
    requires seat { Sits words.now seat.old }
    requires count { count ≤ groups words.now.about.formula.vars }
    ensures { Sits words.now seat.new }
{
    let mut alive = 0u64;
    for _ in 0..rounds {
        alive = alive.wrapping_add(load_all(words, seat, count));
    }
    alive
}

/// Drops variable 2 so many times.
fn drop_often(words: &Words, seat: &mut Seat, rounds: u32) -> u64
    requires seat { Sits words.now seat.old }
    requires mask { (0 < groups words.now.about.formula.vars) × EachOf words.now.about (Opposed words.now.about) 0 SECOND }
    ensures { Sits words.now seat.new }
{
    let mut won = 0u64;
    for _ in 0..rounds {
        let bits = words.drop_bits(seat, 0, SECOND);
        won = won.wrapping_add(u64::from(bits.count_ones()));
    }
    won
}

/// Fixes variable 1 so many times.
fn fix_often(words: &Words, seat: &mut Seat, rounds: u32) -> u64
    requires seat { Sits words.now seat.old }
    requires mask { (0 < groups words.now.about.formula.vars) × EachOf words.now.about (Entailed words.now.about) 0 FIRST }
    ensures { Sits words.now seat.new }
{
    let mut won = 0u64;
    for _ in 0..rounds {
        let bits = words.fix_bits(seat, 0, FIRST);
        won = won.wrapping_add(u64::from(bits.count_ones()));
    }
    won
}

/// Does it all on a table of its own, by the seat of the root. None where variable 1 can't be fixed or 2 not dropped.
pub fn run(alloc: Global, case: &Case, rounds: Rounds) -> Result<Option<Counts>, NoMemory> {
    if !is_case(case) || !may_drop(case, 0, SECOND) || !may_fix(case, 0, FIRST) {
        return Ok(None);
    }
    let (words, mut root) = Words::open(alloc, &case.formula, &case.phases)?;
    let count = case.formula.vars().div_ceil(32);
    Ok(Some(Counts {
        alive: load_often(&words, &mut root, count, rounds.loads),
        dropped: drop_often(&words, &mut root, rounds.drops),
        fixed: fix_often(&words, &mut root, rounds.fixes),
    }))
}
