//! The written text of each answer, whole and cut off by a fault.
ghost use Rattle.std.specs.Prelude.{IfOk};
ghost use Rattle.answer_text.specs.AnswerText.{IsInOrder};

use crate::{Answer, WriteFault, write_answer};
use bone_desk::MemDesk;
use cnf_core::Lit;
use std::alloc::{AllocError, Global};
use std::test::Fail;

mod reading;

const BACKBONE: &[u8] = b"s SATISFIABLE\nb 1\nb -32\nb 1048576\nb 0\n";

const UNFINISHED: &[u8] = b"s PARTIAL\nb 2\nu -1\nu 30\nb 0\n";

/// The answer of a formula whose backbone is 1, -32 and 1048576.
fn three_fixed(alloc: Global) -> Result<Answer, AllocError>
    ensures { IfOk result IsInOrder }
{
    let mut fixed = Vec::new(alloc);
    fixed.push(Lit::new(1, true))?;
    fixed.push(Lit::new(32, false))?;
    fixed.push(Lit::new(1_048_576, true))?;
    Ok(Answer::Sat(fixed))
}

/// The answer where 2 is in the backbone, and -1 and 30 may be.
fn one_fixed_and_two_open(alloc: Global) -> Result<Answer, AllocError>
    ensures { IfOk result IsInOrder }
{
    let mut fixed = Vec::new(alloc);
    fixed.push(Lit::new(2, true))?;
    let mut still = Vec::new(alloc);
    still.push(Lit::new(1, false))?;
    still.push(Lit::new(30, true))?;
    Ok(Answer::Partial { fixed, still })
}

#[test]
fn each_answer_has_its_text(rt: HostRuntime) -> Result<(), Fail> {
    let alloc = rt.alloc();
    let mut desk = MemDesk::new(alloc, 5, 100)?;
    assert_eq!(rt; write_answer(&mut desk, &Answer::Unsat), Ok(()));
    assert_eq!(rt; desk.out_answer.as_slice(), b"s UNSATISFIABLE\n".as_slice());

    let mut desk = MemDesk::new(alloc, 64, 100)?;
    assert_eq!(rt;
        write_answer(&mut desk, &Answer::Sat(Vec::new(alloc))),
        Ok(())
    );
    assert_eq!(rt;
        desk.out_answer.as_slice(),
        b"s SATISFIABLE\nb 0\n".as_slice()
    );

    let mut desk = MemDesk::new(alloc, 1, 100)?;
    assert_eq!(rt; write_answer(&mut desk, &three_fixed(alloc)?), Ok(()));
    assert_eq!(rt; desk.out_answer.as_slice(), BACKBONE);

    let mut desk = MemDesk::new(alloc, 5, 100)?;
    let unfinished = one_fixed_and_two_open(alloc)?;
    assert_eq!(rt; write_answer(&mut desk, &unfinished), Ok(()));
    assert_eq!(rt; desk.out_answer.as_slice(), UNFINISHED);

    let mut desk = MemDesk::new(alloc, 5, 100)?;
    assert_eq!(rt; write_answer(&mut desk, &Answer::Unknown), Ok(()));
    assert_eq!(rt; desk.out_answer.as_slice(), b"s UNKNOWN\n".as_slice());
    Ok(())
}

#[test]
fn a_fault_leaves_a_front_of_the_text(rt: HostRuntime) -> Result<(), Fail> {
    let alloc = rt.alloc();
    for (fail, given) in [(1, 0), (2, 5), (4, 15)] {
        let mut desk = MemDesk::new(alloc, 5, 100)?;
        desk.fail.push(fail)?;
        assert_eq!(rt;
            write_answer(&mut desk, &three_fixed(alloc)?),
            Err(WriteFault)
        );
        assert_eq!(rt; desk.out_answer.as_slice(), &BACKBONE[..given]);
    }
    let mut desk = MemDesk::new(alloc, 5, 12)?;
    let unfinished = one_fixed_and_two_open(alloc)?;
    assert_eq!(rt; write_answer(&mut desk, &unfinished), Err(WriteFault));
    assert_eq!(rt; desk.out_answer.as_slice(), &UNFINISHED[..12]);
    Ok(())
}
