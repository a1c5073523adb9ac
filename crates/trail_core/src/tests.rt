ghost use Rattle.std.specs.Prelude.{◌≡◌, ℕ, ◌<◌, length, IsTrue};
ghost use Rattle.cnf_core.specs.Literals.{IsWithin};
ghost use Rattle.trail_core.specs.Trails.{assigned_at, IsFree, HasVariable};

use crate::{Reason, Trail};
use clause_arena::ClauseRef;
use cnf_core::Lit;
use std::process::Abort;
use std::test::Fail;

/// What threads may share, as each type of this crate.
fn shared<T: Send + Sync>(value: &T) -> &T {
    value
}

fn is_free(trail: &Trail, lit: Lit) -> bool
    ensures { IsTrue result → IsWithin trail.now.vars lit × IsFree trail.now.entries lit.var }
{
    if lit.var() > trail.vars() {
        return false;
    }
    match trail.value(lit) {
        None => true,
        Some(_) => false,
    }
}

/// Whether the literal is true.
fn is_set(trail: &Trail, lit: Lit) -> bool
    ensures { IsTrue result → HasVariable trail.now.entries lit.var }
{
    lit.var() <= trail.vars() && trail.is_true(lit)
}

/// Decides the literal where there is no reason.
fn assign(rt: &impl Abort, trail: &mut Trail, number: i32, reason: Reason) -> Result<(), Fail> {
    let lit = Lit::of(number).ok_or("a literal")?;
    assert!(rt; is_free(trail, lit));
    match reason {
        Reason::Decision => trail.decide(lit),
        _ => trail.push(lit, reason),
    }
    Ok(())
}

#[test]
fn a_root_literal_gets_a_unit_as_its_reason(rt: HostRuntime) -> Result<(), Fail> {
    let mut trail = Trail::new(rt.alloc(), 3)?;
    let lit = Lit::new(2, false);
    let because = Reason::Clause(ClauseRef::at(0));
    trail.push(lit, because);
    let other = Lit::new(3, true);
    trail.push(other, because);
    trail.root(2, 41);
    assert!(rt; is_set(&trail, lit) && is_set(&trail, other));
    assert_eq!(rt; trail.reason_of(2), Reason::Unit(41));
    assert_eq!(rt; trail.reason_of(3), because);
    assert_eq!(rt; (trail.level_of(2), trail.place_of(2)), (0, 0));
    Ok(())
}

#[test]
fn going_back_frees_the_variables_of_higher_levels(rt: HostRuntime) -> Result<(), Fail> {
    let mut trail = Trail::new(rt.alloc(), 4)?;
    let because = Reason::Clause(ClauseRef::at(7));
    for (number, reason) in [(2, Reason::Decision), (-3, because), (1, Reason::Decision)] {
        assign(&rt, &mut trail, number, reason)?;
    }
    assert_eq!(rt; shared(&trail).values(), [1i8, 1, -1, 0].as_slice());
    assert_eq!(rt;
        (trail.first_free(), trail.level(), trail.len()),
        (Some(4), 2, 3)
    );
    let third = Lit::of(-3).ok_or("a literal")?;
    assert!(rt; is_set(&trail, third));
    assert_eq!(rt; trail.level_of(third.var()), 1);
    assert_eq!(rt; trail.reason_of(third.var()), because);
    assert!(rt; trail.len() == 3);
    trail.set_gone(3);
    assert!(rt; trail.level() >= 1);
    trail.backtrack(1);
    assert_eq!(rt; trail.values(), [0i8, 1, -1, 0].as_slice());
    assert_eq!(rt;
        (trail.first_free(), trail.level(), trail.gone()),
        (Some(1), 1, 2)
    );
    assert!(rt; trail.len() == 2);
    assert_eq!(rt; trail.lit_at(1).number(), -3);
    let kept = trail.entry(1);
    assert_eq!(rt;
        (kept.lit.number(), kept.level, kept.reason),
        (-3, 1, because)
    );
    for number in [4, 1] {
        assign(&rt, &mut trail, number, Reason::Decision)?;
    }
    assert_eq!(rt; (trail.first_free(), trail.level()), (None, 3));
    Ok(())
}
