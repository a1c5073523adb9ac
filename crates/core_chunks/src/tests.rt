use crate::{block, chunk_of};
use cnf_core::Lit;
use std::test::Fail;

/// Two groups: the variables 1, 3, 33 and 34 are alive, of which 3 and 34 are fixed too.
const SEEN: [u64; 2] = [0x0000_0004_0000_0005, 0x0000_0002_0000_0003];

#[test]
fn blocks_go_round_and_leave_out_what_is_closed(rt: HostRuntime) -> Result<(), Fail> {
    let all = [0x0000_0000_8000_0003, 0, 0x0000_0001_0000_0005];
    for (from, size, expected) in [
        (0, 256, [1, 2, 32, 67].as_slice()),
        (0, 3, [1, 2, 32].as_slice()),
        (1, 2, [67, 1].as_slice()),
        (2, 256, [67, 1, 2, 32].as_slice()),
    ] {
        let found = block(rt.alloc(), &all, from, size)?;
        assert_eq!(rt; found.as_slice(), expected);
    }
    Ok(())
}

#[test]
fn chunks_keep_the_open_literals_in_their_order(rt: HostRuntime) -> Result<(), Fail> {
    let core = [
        Lit::new(33, false),
        Lit::new(3, true),
        Lit::new(2, true),
        Lit::new(1, true),
        Lit::new(34, false),
        Lit::new(100, true),
    ];
    let chunk = chunk_of(rt.alloc(), &SEEN, &core)?;
    assert_eq!(rt;
        chunk.as_slice(),
        [Lit::new(33, false), Lit::new(1, true)].as_slice()
    );
    Ok(())
}
