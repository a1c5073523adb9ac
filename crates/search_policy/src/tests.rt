use crate::{Epochs, Restarts, choose_removals, luby};
use clause_arena::Arena;
use cnf_core::Lit;
use std::alloc::{AllocError, Global};
use std::test::Fail;
use trail_core::Trail;

#[test]
fn the_first_fifteen_terms_are_lubys(rt: HostRuntime) -> Result<(), Fail> {
    let mut terms = [0; 15];
    for i in 1u32..16 {
        terms[i as usize - 1] = luby(u64::from(i));
    }
    assert_eq!(rt; terms, [1, 1, 2, 1, 1, 2, 4, 1, 1, 2, 1, 1, 2, 4, 8]);
    assert_eq!(rt; luby(1_099_511_627_776), 1);
    assert_eq!(rt; luby(1_099_511_627_775), 549_755_813_888);
    Ok(())
}

#[test]
fn restarts_come_after_a_hundred_times_each_term(rt: HostRuntime) -> Result<(), Fail> {
    let mut restarts = Restarts::new();
    let mut found = Vec::new(rt.alloc());
    for conflict in 1u32..701 {
        if restarts.due() {
            found.push(conflict)?;
        }
    }
    assert_eq!(rt; found.as_slice(), [100, 200, 400, 500, 600].as_slice());
    Ok(())
}

#[test]
fn epochs_end_behind_1000_3000_and_7000_clauses(rt: HostRuntime) -> Result<(), Fail> {
    let mut epochs = Epochs::new();
    let mut found = Vec::new(rt.alloc());
    for clause in 1u32..7001 {
        if epochs.due() {
            found.push(clause)?;
        }
    }
    assert_eq!(rt; found.as_slice(), [1000, 3000, 7000].as_slice());
    epochs.begin();
    assert!(rt; !epochs.due());
    Ok(())
}

#[test]
fn the_longer_half_of_the_learnt_clauses_goes_the_oldest_first(
    rt: HostRuntime,
) -> Result<(), Fail> {
    let alloc = rt.alloc();
    let lits = [Lit::new(1, true), Lit::new(2, true), Lit::new(3, true)];
    let mut arena = Arena::new(alloc);
    for (len, learnt) in [
        (3, false),
        (2, true),
        (3, true),
        (1, true),
        (3, true),
        (2, true),
    ] {
        let _clause = arena.add(&lits[..len], 1, learnt)?;
    }
    let trail = Trail::new(alloc, 3)?;
    let chosen = choose_removals(alloc, &arena, &trail)?;
    let mut places = Vec::new(alloc);
    for clause in &chosen {
        places.push(clause.place())?;
    }
    assert_eq!(rt; places.as_slice(), [2, 4].as_slice());
    Ok(())
}
