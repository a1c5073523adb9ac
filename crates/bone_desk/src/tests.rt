//! What no clause says: which calls fail in memory, how short calls join, and that files work.
use crate::{
    Desk, Failed, Feed, MemDesk, NamedDesk, Port, PortBuffer, QuietDesk, RealDesk, write_all,
};
use std::alloc::AllocError;
use std::test::Fail;

const TEXT: &[u8] = b"p cnf 2 1\n1 -2 0\n";

/// Reads a feed to its end, or to the first failure, and says whether it came to the end.
fn read_on<D: Desk>(desk: &mut D, feed: Feed, all: &mut Vec<u8>) -> Result<bool, AllocError> {
    let mut buf = [0; 7];
    for _ in 0..1000 {
        match desk.read(feed, &mut buf) {
            Ok(0) => return Ok(true),
            Ok(moved) => all.extend_from_slice(&buf[..moved])?,
            Err(Failed) => return Ok(false),
        }
    }
    Ok(false)
}

#[test]
fn calls_fail_by_number_and_short_reads_give_the_whole_text(rt: HostRuntime) -> Result<(), Fail> {
    let alloc = rt.alloc();
    for (piece, before) in [(1, 2), (5, 10), (64, 14)] {
        let mut desk = MemDesk::new(alloc, piece, 0)?;
        desk.text = TEXT.to_vec(alloc)?;
        desk.proof = b"other".to_vec(alloc)?;
        desk.fail = [1, 2, 6].to_vec(alloc)?;
        let mut all = Vec::new(alloc);
        assert_eq!(rt; desk.open_feed(Feed::Text, ""), Err(Failed));
        assert_eq!(rt; desk.open_port(Port::Proof, ""), Err(Failed));
        assert_eq!(rt; desk.open_feed(Feed::Text, ""), Ok(()));
        assert!(rt; !read_on(&mut desk, Feed::Text, &mut all)?, "piece {piece}");
        assert_eq!(rt; all.as_slice(), &TEXT[..before], "piece {piece}");
        assert!(rt; read_on(&mut desk, Feed::Text, &mut all)?, "piece {piece}");
        assert_eq!(rt; all.as_slice(), TEXT, "piece {piece}");
        assert_eq!(rt;
            desk.faults,
            [1, 0, 0, 0, 0, 1, 0, 0, 1, 0, 0, 0, 0, 0, 0, 0]
        );
    }
    Ok(())
}

/// Pushes 1,000 lines of ten bytes and a long piece, and gives what waits at the end.
fn push_lines<D: Desk>(desk: &mut D, port: Port) -> Result<(), Failed> {
    let mut buffer = PortBuffer::new(port);
    for _ in 0..1000 {
        buffer.push(desk, b"d 12 -34 ")?;
        buffer.push(desk, b"\n")?;
    }
    buffer.push(desk, &[b'e'; 5000])?;
    buffer.flush(desk)
}

#[test]
fn lines_come_whole_or_by_a_front(rt: HostRuntime) -> Result<(), Fail> {
    let alloc = rt.alloc();
    let mut whole = Vec::new(alloc);
    for _ in 0..1000 {
        whole.extend_from_slice(b"d 12 -34 \n")?;
    }
    whole.extend_from_slice(&[b'e'; 5000])?;
    for (piece, spare, fail, given) in [
        (1, 20000, 0, 15000),
        (5, 20000, 0, 15000),
        (64, 20000, 0, 15000),
        (1, 20000, 4000, 3999),
        (5, 20000, 2900, 14495),
        (64, 20000, 66, 4154),
        (64, 10001, 0, 10001),
    ] {
        let mut desk = MemDesk::new(alloc, piece, spare)?;
        desk.fail.push(fail)?;
        let outcome = push_lines(&mut desk, Port::Proof);
        assert_eq!(rt; outcome.is_ok(), given == 15000, "piece {piece}");
        assert_eq!(rt; desk.out_proof.len(), given, "piece {piece}");
        assert!(rt; whole.starts_with(&desk.out_proof), "piece {piece}");
        let mut faults = [0; 16];
        faults[13] = u64::from(given < 15000);
        assert_eq!(rt; desk.faults, faults, "piece {piece}");
        assert!(rt; desk.out_answer.is_empty() && desk.out_notes.is_empty());
    }
    Ok(())
}

#[test]
fn a_quiet_desk_gives_its_texts_and_counts_what_is_written(rt: HostRuntime) -> Result<(), Fail> {
    let alloc = rt.alloc();
    for piece in [1, 5, 64] {
        let mut desk = QuietDesk::new(alloc, piece);
        desk.text = TEXT.to_vec(alloc)?;
        desk.wrote[3] = u64::MAX - 10;
        let mut all = Vec::new(alloc);
        assert_eq!(rt; desk.open_feed(Feed::Text, "missing"), Ok(()));
        assert!(rt; read_on(&mut desk, Feed::Text, &mut all)?, "piece {piece}");
        assert_eq!(rt; all.as_slice(), TEXT, "piece {piece}");
        assert_eq!(rt; desk.read(Feed::Proof, &mut [0; 7]), Ok(0), "piece {piece}");
        assert_eq!(rt; push_lines(&mut desk, Port::Proof), Ok(()), "piece {piece}");
        assert_eq!(rt;
            write_all(&mut desk, Port::Notes, TEXT),
            Ok(()),
            "piece {piece}"
        );
        assert_eq!(rt; desk.wrote, [0, 15000, 0, u64::MAX], "piece {piece}");
    }
    Ok(())
}

#[test]
fn a_real_file_is_written_and_read_back(rt: HostRuntime) -> Result<(), Fail> {
    let mut desk = RealDesk::new(rt);
    assert_eq!(rt; desk.open_port(Port::Proof, "proof.txt"), Ok(()));
    assert_eq!(rt; write_all(&mut desk, Port::Proof, TEXT), Ok(()));
    assert_eq!(rt; desk.open_feed(Feed::Text, "proof.txt"), Ok(()));
    let mut all = Vec::new(rt.alloc());
    assert!(rt; read_on(&mut desk, Feed::Text, &mut all)?);
    assert_eq!(rt; all.as_slice(), TEXT);
    assert_eq!(rt; write_all(&mut desk, Port::Notes, b"a note\n"), Ok(()));
    assert_eq!(rt; desk.faults, [0; 16]);

    assert_eq!(rt; desk.open_feed(Feed::Answer, "missing.txt"), Err(Failed));
    assert_eq!(rt;
        desk.open_port(Port::Witness, "missing/witness.txt"),
        Err(Failed)
    );
    assert!(rt; !read_on(&mut desk, Feed::Answer, &mut all)?);
    assert_eq!(rt; write_all(&mut desk, Port::Witness, TEXT), Err(Failed));
    assert_eq!(rt;
        desk.faults,
        [0, 1, 0, 0, 0, 0, 1, 0, 0, 1, 0, 0, 0, 0, 1, 0]
    );
    Ok(())
}

#[test]
fn a_named_desk_reads_and_writes_each_text_by_its_name(rt: HostRuntime) -> Result<(), Fail> {
    let alloc = rt.alloc();
    let mut desk = NamedDesk::new(alloc);
    desk.input = b"typed".to_vec(alloc)?;
    desk.put("a", b"other")?;
    desk.put("b", b"second")?;
    desk.put("a", TEXT)?;
    assert_eq!(rt; desk.open_port(Port::Proof, "p"), Ok(()));
    assert_eq!(rt; write_all(&mut desk, Port::Proof, b"4 2 0 1 2 0\n"), Ok(()));
    assert_eq!(rt; write_all(&mut desk, Port::Notes, b"a note"), Ok(()));
    let feeds: [(Feed, &str, &[u8]); 5] = [
        (Feed::Text, "a", TEXT),
        (Feed::Text, "", b"typed"),
        (Feed::Text, "b", b"second"),
        (Feed::Answer, "b", b"second"),
        (Feed::Proof, "p", b"4 2 0 1 2 0\n"),
    ];
    for (feed, name, text) in feeds {
        assert_eq!(rt; desk.open_feed(feed, name), Ok(()), "{name}");
        let mut all = Vec::new(alloc);
        assert!(rt; read_on(&mut desk, feed, &mut all)?, "{name}");
        assert_eq!(rt; all.as_slice(), text, "{name}");
    }
    assert_eq!(rt; desk.text("p"), Some(b"4 2 0 1 2 0\n".as_slice()));
    assert_eq!(rt; desk.text("q"), None);
    assert_eq!(rt; desk.out_notes.as_slice(), b"a note".as_slice());
    assert_eq!(rt; desk.faults, [0; 16]);
    Ok(())
}

#[test]
fn what_is_not_open_on_a_named_desk_fails(rt: HostRuntime) -> Result<(), Fail> {
    let alloc = rt.alloc();
    let mut desk = NamedDesk::new(alloc);
    desk.put("a", TEXT)?;
    assert_eq!(rt; desk.open_feed(Feed::Text, "b"), Err(Failed));
    assert_eq!(rt; desk.open_feed(Feed::Witness, ""), Err(Failed));
    assert_eq!(rt; desk.read(Feed::Text, &mut [0; 7]), Err(Failed));
    assert_eq!(rt; desk.write(Port::Witness, TEXT), Err(Failed));
    assert_eq!(rt;
        desk.faults,
        [1, 0, 0, 1, 0, 0, 0, 0, 1, 0, 0, 0, 0, 0, 1, 0]
    );
    Ok(())
}

#[test]
fn a_full_output_takes_not_even_an_empty_piece(rt: HostRuntime) -> Result<(), Fail> {
    let mut desk = MemDesk::new(rt.alloc(), 64, 4)?;
    assert_eq!(rt; desk.write(Port::Notes, b""), Ok(0));
    assert_eq!(rt; desk.write(Port::Notes, TEXT), Ok(4));
    assert_eq!(rt; desk.write(Port::Notes, b""), Err(Failed));
    assert_eq!(rt; desk.calls, 3);
    Ok(())
}
