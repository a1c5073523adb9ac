//! Lines of texts in memory, cut by pieces of any length, and a grammar over them.
ghost use Rattle.std.specs.Prelude.{◌≡◌, ◌<◌, ◌^◌};
ghost use Rattle.std.specs.Prelude.{[], ◌∷◌, ◌++◌, length, Some, None, Ok, Err};
ghost use Rattle.text_lines.specs.declared.tests.Unmeasured.TheVariants.{Empty, Missing};

use crate::{FeedEnd, FeedLines, LineByLine, Refusal, TextEnd, read_lines};
use bone_desk::{Feed, MemDesk};
use std::alloc::Global;
use std::marker::Model;
use std::test::Fail;

/// What is wrong with a line that is measured.
#[derive(Clone, Copy, Debug, PartialEq, Eq)]
pub enum Unmeasured {
    /// It has no byte.
    Empty,
    /// There is none.
    Missing,
}

/// The lengths of all lines so far.
#[derive(Drop)]
struct Lengths {
    lengths: Vec<usize>,
}

impl Model for Lengths {
    ghost use Rattle.std.specs.Prelude.{ℕ, List};

    ghost Value = { List ℕ };

    ghost view = { λ r. r.lengths.items };
}

impl LineByLine for Lengths {
    type Fault = Unmeasured;

    ghost step = { λ lengths l. elim l.bytes [ [] ↦ Err Empty | ◌∷◌ b bs ↦ Ok (lengths ++ length l.bytes ∷ []) ] };

    ghost end = { λ lengths. elim lengths [ [] ↦ Some Missing | ◌∷◌ n ns ↦ None ] };

    fn take(&mut self, bytes: &[u8], _ended: bool) -> Result<(), Refusal<Unmeasured>> {
        if bytes.is_empty() {
            return Err(Refusal::Fault(Unmeasured::Empty));
        }
        match self.lengths.push(bytes.len()) {
            Ok(()) => Ok(()),
            Err(_) => Err(Refusal::Memory),
        }
    }

    fn finish(&self) -> Option<Unmeasured> {
        if self.lengths.is_empty() {
            return Some(Unmeasured::Missing);
        }
        None
    }
}

const LINES: [(&[u8], &[&[u8]], bool); 6] = [
    (b"", &[], true),
    (b"\n", &[b""], true),
    (b"a", &[b"a"], false),
    (b"a\n\nbc\n", &[b"a", b"", b"bc"], true),
    (b"a\nbc", &[b"a", b"bc"], false),
    (b"abcdefgh\ni", &[b"abcdefgh", b"i"], false),
];

/// A desk with this proof, of which each read gives so many bytes.
fn desk_of(alloc: Global, proof: &[u8], piece: usize) -> Result<MemDesk, Fail>
    requires { 0 < piece }
{
    let mut desk = MemDesk::new(alloc, piece, 0)?;
    desk.proof = Vec::from_slice(alloc, proof)?;
    Ok(desk)
}

#[test]
fn lines_are_the_same_by_any_pieces(rt: HostRuntime) -> Result<(), Fail> {
    let alloc = rt.alloc();
    for piece in [1, 2, 3, 100] {
        for (text, wanted, ended) in LINES {
            let mut desk = desk_of(alloc, text, piece)?;
            let mut lines = FeedLines::new(alloc, Feed::Proof, 10);
            for (i, line) in wanted.iter().enumerate() {
                assert_eq!(rt; lines.advance(&mut desk), Ok(true), "piece {piece}");
                assert_eq!(rt; lines.bytes(), *line, "piece {piece}");
                assert_eq!(rt;
                    lines.is_ended(),
                    ended || i + 1 < wanted.len(),
                    "piece {piece}"
                );
            }
            assert_eq!(rt; lines.advance(&mut desk), Ok(false), "piece {piece}");
            assert_eq!(rt; lines.advance(&mut desk), Ok(false), "piece {piece}");
        }
    }
    Ok(())
}

#[test]
fn a_line_longer_than_what_there_is_makes_it_grow(rt: HostRuntime) -> Result<(), Fail> {
    let alloc = rt.alloc();
    let mut long = vec![in alloc; b'x'; 200_000]?;
    long.push(b'\n')?;
    long.push(b'y')?;
    let mut desk = desk_of(alloc, &long, 50_000)?;
    let mut lines = FeedLines::new(alloc, Feed::Proof, 1 << 45);
    assert_eq!(rt; lines.advance(&mut desk), Ok(true));
    assert_eq!(rt; lines.bytes().len(), 200_000);
    assert!(rt; lines.bytes().iter().all(|byte| *byte == b'x'));
    assert_eq!(rt; lines.advance(&mut desk), Ok(true));
    assert_eq!(rt; lines.bytes(), b"y".as_slice());
    Ok(())
}

#[test]
fn a_whole_line_is_handed_out_before_the_next_read(rt: HostRuntime) -> Result<(), Fail> {
    let alloc = rt.alloc();
    let mut desk = desk_of(alloc, b"a\nb\nc\n", 5)?;
    desk.fail.push(2)?;
    let mut lines = FeedLines::new(alloc, Feed::Proof, 5);
    assert_eq!(rt; lines.advance(&mut desk), Ok(true));
    assert_eq!(rt; lines.advance(&mut desk), Ok(true));
    assert_eq!(rt; desk.calls, 1);
    assert_eq!(rt; lines.advance(&mut desk), Err(FeedEnd::Fault));
    assert_eq!(rt; lines.advance(&mut desk), Err(FeedEnd::TooLong));
    Ok(())
}

/// How the measuring of a text ends under a limit.
fn measured(alloc: Global, text: &[u8], limit: u64) -> Result<Result<(), TextEnd<Unmeasured>>, Fail>
    requires { limit < 2 ^ 63 }
{
    let mut desk = desk_of(alloc, text, 2)?;
    let mut reader = Lengths {
        lengths: Vec::new(alloc),
    };
    Ok(read_lines(alloc, &mut desk, Feed::Proof, limit, &mut reader))
}

#[test]
fn the_first_line_at_fault_decides_where_the_text_is_read_to_its_end(
    rt: HostRuntime,
) -> Result<(), Fail> {
    let alloc = rt.alloc();
    let empty = Err(TextEnd::Bad {
        line: 2,
        fault: Unmeasured::Empty,
    });
    let missing = Err(TextEnd::Bad {
        line: 1,
        fault: Unmeasured::Missing,
    });
    assert_eq!(rt; measured(alloc, b"a\nbc", 4)?, Ok(()));
    assert_eq!(rt; measured(alloc, b"a\n\n\nb\n", 9)?, empty);
    assert_eq!(rt; measured(alloc, b"a\n\n\nb\n", 5)?, Err(TextEnd::TooLong));
    assert_eq!(rt; measured(alloc, b"", 5)?, missing);
    Ok(())
}
