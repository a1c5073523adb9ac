ghost use Rattle.std.specs.Prelude.{IfSome};
ghost use Rattle.chooser_core.specs.Choosing.{IsLeastFree};

use crate::{OrderChooser, QueueChooser, RandomChooser};
use chooser_core::Chooser;
use std::test::Fail;

/// The least variable without a value.
fn least_free(values: &[i8]) -> Option<u32>
    ensures { IfSome result (λ v. IsLeastFree values.now v) }
{
    for (place, value) in values.iter().enumerate() {
        if *value == 0 {
            return u32::try_from(place + 1).ok();
        }
    }
    None
}

/// Picks and, where `takes` says so, gives the variable a value.
fn pick<C: Chooser>(chooser: &mut C, values: &mut [i8], takes: bool) -> Result<u32, Fail> {
    let free = least_free(values).ok_or("a free variable")?;
    let var = chooser.pick(values, free);
    if takes {
        set(values, var, 1)?;
    }
    Ok(var)
}

/// Gives a variable a value.
fn set(values: &mut [i8], var: u32, value: i8) -> Result<(), Fail> {
    let place = (var as usize).checked_sub(1).ok_or("a variable")?;
    *values.get_mut(place).ok_or("a variable")? = value;
    Ok(())
}

#[test]
fn order_picks_the_least(rt: HostRuntime) -> Result<(), Fail> {
    let mut chooser = OrderChooser::new();
    chooser.begin(4, 0)?;
    let mut values = [1i8, 0, -1, 0];
    assert_eq!(rt; pick(&mut chooser, &mut values, true)?, 2);
    assert_eq!(rt; pick(&mut chooser, &mut values, true)?, 4);
    assert_eq!(rt; chooser.asked(), 2);
    Ok(())
}

#[test]
fn random_draws_by_the_words_of_its_seed(rt: HostRuntime) -> Result<(), Fail> {
    let mut values = vec![in rt.alloc(); 0i8; 1000]?;
    let mut chooser = RandomChooser::new();
    for (seed, picks) in [(5u64, [543u32, 713, 222, 264]), (6, [857, 301, 231, 573])] {
        chooser.begin(1000, seed)?;
        for expected in picks {
            assert_eq!(rt; pick(&mut chooser, &mut values, false)?, expected);
        }
    }
    Ok(())
}

#[test]
fn queue_prefers_the_newest_bumps_and_then_goes_in_turn(rt: HostRuntime) -> Result<(), Fail> {
    let mut chooser = QueueChooser::new(rt.alloc());
    chooser.begin(6, 0)?;
    let mut values = [0i8; 6];
    // Each line is a batch: 5 has two old bumps, 4 an old one, 2 a newer one.
    for batch in [[5u32, 4], [5, 0], [2, 0]] {
        for var in batch {
            chooser.bump(var);
        }
        chooser.freed(1);
    }
    for expected in [5u32, 2, 4, 1, 3, 6] {
        assert_eq!(rt; pick(&mut chooser, &mut values, true)?, expected);
    }
    // What was freed comes back, the most active first; 6 was never bumped.
    for var in [6u32, 4, 2] {
        set(&mut values, var, 0)?;
        chooser.freed(var);
    }
    for expected in [2u32, 4, 6] {
        assert_eq!(rt; pick(&mut chooser, &mut values, true)?, expected);
    }
    Ok(())
}

#[test]
fn queue_keeps_its_order_when_activities_are_scaled_down(rt: HostRuntime) -> Result<(), Fail> {
    let mut chooser = QueueChooser::new(rt.alloc());
    chooser.begin(3, 0)?;
    let mut values = [0i8; 3];
    chooser.bump(3);
    // 2,000 batches raise the weight past its limit more than once.
    for _ in 0..2000u32 {
        chooser.bump(2);
        chooser.freed(1);
    }
    for expected in [2u32, 3, 1] {
        assert_eq!(rt; pick(&mut chooser, &mut values, true)?, expected);
    }
    Ok(())
}
