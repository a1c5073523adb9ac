use crate::Words;
use cnf_core::{Formula, Values};
use std::test::Fail;

/// What threads may share.
fn shared<T: Send + Sync>(value: &T) -> &T {
    value
}

#[test]
fn a_table_opens_with_all_variables_alive(rt: HostRuntime) -> Result<(), Fail> {
    let formula = Formula::new(rt.alloc(), 33);
    let phases = Values::new(rt.alloc(), 33)?;
    let (words, mut root) = Words::open(rt.alloc(), &formula, &phases)?;
    shared(&words);
    let mut seat = words.split(&mut root);
    let first = words.load(&mut seat, 0);
    let second = words.load(&mut seat, 1);
    assert_eq!(rt; (first, second), (4_294_967_295, 1));
    assert_eq!(rt; words.origin_load(&mut seat, 33), 0);
    words.join(&mut root, seat);
    let closed = words.close(rt.alloc(), root)?;
    assert_eq!(rt; closed.as_slice(), [4_294_967_295, 1].as_slice());
    Ok(())
}
