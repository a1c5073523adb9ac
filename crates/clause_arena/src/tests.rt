ghost use Rattle.std.specs.Prelude.{IsTrue};
ghost use Rattle.clause_arena.specs.Entries.{IsLive};

use crate::{Arena, ClauseRef};
use cnf_core::Lit;
use std::alloc::Global;
use std::test::Fail;

/// What threads may share, as each type of this crate.
fn shared<T: Send + Sync>(value: &T) -> &T {
    value
}

fn is_live(arena: &Arena, r: ClauseRef) -> bool
    ensures { IsTrue result → IsLive arena.now r }
{
    r.place() < arena.len() && arena.is_live(r)
}

fn add(
    alloc: Global,
    arena: &mut Arena,
    numbers: &[i32],
    id: u64,
    learnt: bool,
) -> Result<ClauseRef, Fail> {
    let mut lits = Vec::new(alloc);
    for number in numbers {
        lits.push(Lit::of(*number).ok_or("a literal")?)?;
    }
    Ok(arena.add(&lits, id, learnt)?)
}

/// The live clauses: the id, 1 more than twice it where the clause is learnt, the literals, and 0.
fn listing(alloc: Global, arena: &Arena) -> Result<Vec<i32>, Fail> {
    let mut numbers = Vec::new(alloc);
    for place in 0..arena.len() {
        let r = ClauseRef::at(place);
        if is_live(arena, r) {
            let id = i32::try_from(arena.id(r)).unwrap_or(-1);
            numbers.push(id)?;
            numbers.push(i32::from(arena.is_learnt(r)))?;
            for i in 0..arena.len_of(r) {
                numbers.push(arena.lit(r, i).number())?;
            }
            numbers.push(0)?;
        }
    }
    Ok(numbers)
}

#[test]
fn compaction_keeps_the_live_clauses_and_says_where_they_went(rt: HostRuntime) -> Result<(), Fail> {
    let mut arena = Arena::new(rt.alloc());
    let first = add(rt.alloc(), &mut arena, &[1, -2], 11, false)?;
    let second = add(rt.alloc(), &mut arena, &[3], 12, false)?;
    let third = add(rt.alloc(), &mut arena, &[], 13, true)?;
    let last = add(rt.alloc(), &mut arena, &[4, 5, -6], 14, true)?;
    let before = listing(rt.alloc(), shared(&arena))?;
    assert_eq!(rt;
        before.as_slice(),
        [11, 0, 1, -2, 0, 12, 0, 3, 0, 13, 1, 0, 14, 1, 4, 5, -6, 0].as_slice()
    );
    assert!(rt; is_live(&arena, second) && is_live(&arena, last) && arena.len_of(last) == 3);
    arena.swap(last, 0, 2);
    assert!(rt; is_live(&arena, second));
    arena.remove(second);
    assert!(rt; !is_live(&arena, second));
    let moves = arena.compact()?;
    let after = listing(rt.alloc(), &arena)?;
    assert_eq!(rt;
        after.as_slice(),
        [11, 0, 1, -2, 0, 13, 1, 0, 14, 1, -6, 5, 4, 0].as_slice()
    );
    for (old, new) in [
        (first, Some(0)),
        (second, None),
        (third, Some(1)),
        (last, Some(2)),
    ] {
        assert_eq!(rt; shared(&moves).to(old).map(|r| r.place()), new);
    }
    assert_eq!(rt; moves.to(ClauseRef::at(4)), None);
    Ok(())
}
