ghost use Rattle.std.specs.Prelude.{◌≡◌, ℕ, ◌+◌, ◌-◌, ◌*◌, ◌^◌, ◌<◌, ◌≤◌, suc, [], ◌∷◌, IsTrue, IfOk, OnOk, length, All, Contains, slice_index};
ghost use Rattle.std.specs.Int.{bit_at};
ghost use Rattle.std.specs.Thread.{IsSync};
ghost use Rattle.cnf_core.specs.Formulas.{IsModel};
ghost use Rattle.cnf_core.specs.Literals.{Literal, IsWithin};
ghost use Rattle.board_core.specs.Subjects.{about, groups, Opposed, Entailed};
ghost use Rattle.board_core.specs.Boards.{EachOf};
ghost use Rattle.candidate_words.specs.Seats.{Sits, IsRoot, IsOutOf, HasDropped, HasFixed};
ghost use Rattle.shared_fixed.specs.Rushes.{IsAfterDrops, IsRushing, IsAfterRush};
ghost use Rattle.table_cases.specs.Cases.{IsCase};

use crate::{origin, publish};
use candidate_words::{Seat, Words};
use cnf_core::{Formula, Values};
use std::alloc::Global;
use std::process::Abort;
use std::test::Fail;
use std::thread;
use std::thread::Threads;
use table_cases::{Case, is_case, may_drop, may_fix};

/// The assignment of so many variables that makes just these true.
fn values(alloc: Global, vars: u32, trues: &[u32]) -> Result<Values, Fail> {
    let mut values = Values::new(alloc, vars)?;
    for var in trues {
        if 0 < *var && *var <= values.len() {
            values.set(*var, true);
        }
    }
    Ok(values)
}

fn make_case(
    alloc: Global,
    vars: u32,
    numbers: &[i32],
    phases: &[u32],
    other: &[u32],
) -> Result<Case, Fail> {
    Ok(Case {
        formula: Formula::of_numbers(alloc, vars, numbers)?,
        phases: values(alloc, vars, phases)?,
        other: values(alloc, vars, other)?,
    })
}

/// Drops after a look whether the case allows it.
fn drop_bits(
    rt: &impl Abort,
    words: &Words,
    seat: &mut Seat,
    case: &Case,
    group: u32,
    mask: u32,
) -> u32
    requires case { IsCase case.now.formula case.now.phases case.now.other }
    requires about { words.now.about ≡ about case.now.formula case.now.phases }
    requires seat { Sits words.now seat.old }
    ensures dropped { HasDropped seat.old group mask result seat.new }
    ensures sits { Sits words.now seat.new }
{
    let allowed = may_drop(case, group, mask);
    assert!(rt; allowed);
    words.drop_bits(seat, group, mask)
}

/// Fixes after a look whether the case allows it.
fn fix_bits(
    rt: &impl Abort,
    words: &Words,
    seat: &mut Seat,
    case: &Case,
    group: u32,
    mask: u32,
) -> u32
    requires case { IsCase case.now.formula case.now.phases case.now.other }
    requires about { words.now.about ≡ about case.now.formula case.now.phases }
    requires seat { Sits words.now seat.old }
    ensures fixed { HasFixed seat.old group mask result seat.new }
    ensures sits { Sits words.now seat.new }
{
    let allowed = may_fix(case, group, mask);
    assert!(rt; allowed);
    words.fix_bits(seat, group, mask)
}

const CHAIN: [i32; 4] = [32, 0, -33, 0];

#[test]
fn answers_are_the_bits_that_were_won(rt: HostRuntime) -> Result<(), Fail> {
    let case = make_case(rt.alloc(), 33, &CHAIN, &EVERY[..32], &[32])?;
    assert!(rt; is_case(&case));
    let (words, mut root) = Words::open(rt.alloc(), &case.formula, &case.phases)?;
    assert_eq!(rt; drop_bits(&rt, &words, &mut root, &case, 0, 5), 5);
    assert_eq!(rt; drop_bits(&rt, &words, &mut root, &case, 0, 5), 0);
    assert_eq!(rt;
        fix_bits(&rt, &words, &mut root, &case, 0, 2_147_483_648),
        2_147_483_648
    );
    assert_eq!(rt; words.load(&mut root, 0), 9_223_372_041_149_743_098);
    Ok(())
}

/// What one seat wins of a mask of group 0, and the seat after it.
fn drop_once(words: &Words, mut seat: Seat, mask: u32) -> (u32, Seat)
    requires seat { Sits words.now seat }
    requires mask { (0 < groups words.now.about.formula.vars) × EachOf words.now.about (Opposed words.now.about) 0 mask }
    ensures dropped { HasDropped seat 0 mask result.0 result.1 }
    ensures sits { Sits words.now result.1 }
{
    let won = words.drop_bits(&mut seat, 0, mask);
    (won, seat)
}

/// Two threads that drop the same mask.
fn race<R: Threads + Sync>(
    rt: &R,
    words: &Words,
    root: Seat,
    seat: Seat,
    mask: u32,
) -> ((u32, Seat), (u32, Seat))
    requires root { Sits words.now root }
    requires seat { Sits words.now seat }
    requires mask { (0 < groups words.now.about.formula.vars) × EachOf words.now.about (Opposed words.now.about) 0 mask }
    ensures root { HasDropped root 0 mask result.0.0 result.0.1 × Sits words.now result.0.1 }
    ensures seat { HasDropped seat 0 mask result.1.0 result.1.1 × Sits words.now result.1.1 }
{
    thread::join(
        rt,
        move || -> (u32, Seat)
            requires { Sits words.now root × (0 < groups words.now.about.formula.vars) × EachOf words.now.about (Opposed words.now.about) 0 mask }
            ensures { HasDropped root 0 mask result.0 result.1 × Sits words.entry.now result.1 }
        { drop_once(words, root, mask) },
        move || -> (u32, Seat)
            requires { Sits words.now seat × (0 < groups words.now.about.formula.vars) × EachOf words.now.about (Opposed words.now.about) 0 mask }
            ensures { HasDropped seat 0 mask result.0 result.1 × Sits words.entry.now result.1 }
        { drop_once(words, seat, mask) },
    )
}

/// The clauses of 1 with each choice of signs of 2, 3 and 4.
const LEADING: [i32; 40] = [
    1, 2, 3, 4, 0, 1, 2, 3, -4, 0, 1, 2, -3, 4, 0, 1, 2, -3, -4, 0, 1, -2, 3, 4, 0, 1, -2, 3, -4,
    0, 1, -2, -3, 4, 0, 1, -2, -3, -4, 0,
];

#[test]
fn two_threads_share_the_drops_of_one_mask(rt: HostRuntime) -> Result<(), Fail> {
    let case = make_case(rt.alloc(), 4, &LEADING, &[1, 2, 3, 4], &[1])?;
    assert!(rt; is_case(&case));
    let (words, mut root) = Words::open(rt.alloc(), &case.formula, &case.phases)?;
    let allowed = may_drop(&case, 0, 14);
    assert!(rt; allowed);
    let seat = words.split(&mut root);
    let ((first, mut root), (second, seat)) = race(&rt, &words, root, seat, 14);
    assert_eq!(rt; (first | second, first & second), (14, 0));
    words.join(&mut root, seat);
    let closed = words.close(rt.alloc(), root)?;
    assert_eq!(rt; closed.as_slice(), [1].as_slice());
    Ok(())
}

/// Fixes variable 1 and publishes it with stamp 1, where the fix is this seat's own.
fn fix_and_publish(words: &Words, seat: &mut Seat) -> bool
    requires seat { Sits words.now seat.old }
    requires new { (seat.old.view.published ≡ []) × (seat.old.view.imports ≡ []) }
    requires mask { (0 < groups words.now.about.formula.vars) × EachOf words.now.about (Entailed words.now.about) 0 1 }
    ensures { Sits words.now seat.new }
{
    if words.fix_bits(seat, 0, 1) != 1 {
        return false;
    }
    publish(words, seat, 1, 1);
    true
}

#[test]
fn an_origin_is_told_after_its_publish(rt: HostRuntime) -> Result<(), Fail> {
    let case = make_case(rt.alloc(), 2, &[1, 0, 1, -2, 0], &[1, 2], &[1])?;
    assert!(rt; is_case(&case));
    let (words, mut root) = Words::open(rt.alloc(), &case.formula, &case.phases)?;
    let allowed = may_fix(&case, 0, 1);
    assert!(rt; allowed);
    let mut seat = words.split(&mut root);
    assert_eq!(rt; origin(&words, &mut seat, 1), None);
    assert!(rt; fix_and_publish(&words, &mut root));
    assert_eq!(rt; origin(&words, &mut seat, 1), Some(1));
    Ok(())
}

/// Drops the masks of group 0.
fn drop_all(words: &Words, seat: &mut Seat, masks: &[u32])
    requires seat { Sits words.now seat.old }
    requires group { 0 < groups words.now.about.formula.vars }
    requires masks { All (EachOf words.now.about (Opposed words.now.about) 0) masks.now }
    ensures { IsAfterDrops words.now seat.old seat.new }
{
    for mask in masks {
        words.drop_bits(seat, 0, *mask);
    }
}

/// Drops the masks of group 0, and gives the seat back.
fn dropped(words: &Words, mut seat: Seat, masks: &[u32]) -> Seat
    requires seat { Sits words.now seat }
    requires group { 0 < groups words.now.about.formula.vars }
    requires masks { All (EachOf words.now.about (Opposed words.now.about) 0) masks.now }
    ensures { IsAfterDrops words.now seat result }
{
    drop_all(words, &mut seat, masks);
    seat
}

/// So many seats drop the masks at the same time, each in a thread of its own, and the root takes them all in.
fn rush<R: Threads + Sync>(rt: &R, words: &Words, root: Seat, count: u32, masks: &[u32]) -> Seat
    requires root { IsRushing words.now root count }
    requires group { 0 < groups words.now.about.formula.vars }
    requires masks { All (EachOf words.now.about (Opposed words.now.about) 0) masks.now }
    ensures { IsAfterRush words.now root result }
{
    if count == 0 {
        return root;
    }
    let mut root = root;
    let seat = words.split(&mut root);
    let (mut root, seat) = thread::join(
        rt,
        move || -> Seat
            requires { IsSync R.row × (0 < count) × IsRushing words.now root (count - 1) × (0 < groups words.now.about.formula.vars)
                × All (EachOf words.now.about (Opposed words.now.about) 0) masks.now }
            ensures { IsAfterRush words.entry.now root result }
        { rush(rt, words, root, count - 1, masks) },
        move || -> Seat
            requires { Sits words.now seat × (0 < groups words.now.about.formula.vars)
                × All (EachOf words.now.about (Opposed words.now.about) 0) masks.now }
            ensures { IsAfterDrops words.entry.now seat result }
        { dropped(words, seat, masks) },
    );
    words.join(&mut root, seat);
    root
}

/// Whether all the masks of group 0 may be dropped.
fn may_drop_all(case: &Case, masks: &[u32]) -> bool
    requires { IsCase case.now.formula case.now.phases case.now.other }
    ensures { IsTrue result → All (EachOf (about case.now.formula case.now.phases) (Opposed (about case.now.formula case.now.phases)) 0) masks.now }
{
    for mask in masks {
        if !may_drop(case, 0, *mask) {
            return false;
        }
    }
    true
}

/// Overlapping masks that have all 32 bits together.
const MASKS: [u32; 16] = [
    0x0000_00ff,
    0x0000_ff00,
    0x00ff_0000,
    0xff00_0000,
    0x0f0f_0f0f,
    0xf0f0_f0f0,
    0x3333_3333,
    0xcccc_cccc,
    0x5555_5555,
    0xaaaa_aaaa,
    0x0000_ffff,
    0xffff_0000,
    0x00ff_ff00,
    0xff00_00ff,
    0xffff_ffff,
    0x8000_0001,
];

#[test]
fn the_root_has_what_sixteen_threads_dropped(rt: HostRuntime) -> Result<(), Fail> {
    for _ in 0..8 {
        let case = make_case(rt.alloc(), 33, &[33, 0], &[33], &EVERY)?;
        assert!(rt; is_case(&case));
        let allowed = may_drop_all(&case, &MASKS);
        assert!(rt; allowed);
        let (words, root) = Words::open(rt.alloc(), &case.formula, &case.phases)?;
        let root = rush(&rt, &words, root, 16, &MASKS);
        let closed = words.close(rt.alloc(), root)?;
        assert_eq!(rt; closed.as_slice(), [0, 1].as_slice());
    }
    Ok(())
}

/// The variables 1 to 33.
const EVERY: [u32; 33] = [
    1, 2, 3, 4, 5, 6, 7, 8, 9, 10, 11, 12, 13, 14, 15, 16, 17, 18, 19, 20, 21, 22, 23, 24, 25, 26,
    27, 28, 29, 30, 31, 32, 33,
];
