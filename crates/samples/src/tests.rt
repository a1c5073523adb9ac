use crate::Draws;
use std::test::Fail;

#[test]
fn draws_are_the_generators_first_numbers(rt: HostRuntime) -> Result<(), Fail> {
    let mut draws = Draws::new(0);
    let first = [draws.next(), draws.next(), draws.next()];
    assert_eq!(rt; first, [4_214_539_449, 2_171_750_232, 3_320_289_294]);
    let mut others = Draws::new(7);
    assert_eq!(rt;
        [others.next(), others.next()],
        [3_088_549_603, 2_511_482_410]
    );
    let mut small = Draws::new(0);
    assert_eq!(rt;
        [small.below(10), small.below(10), small.below(10)],
        [9, 2, 4]
    );
    let lit = Draws::new(0).literal(10);
    assert_eq!(rt; lit.number(), 10);
    Ok(())
}
