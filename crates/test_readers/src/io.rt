//! What no clause says: that the calls succeed with memory to spare, and that the real files and
//! standard output are reached.
use rv_io::{Disk, MemSink, MemStore, ReadError, Sink, Stdout, Store, put_all};
use std::fs;
use std::test::Fail;

/// Whether the read gives this text or this fault.
fn reads(read: Result<Vec<u8>, ReadError>, wanted: Result<&str, ReadError>) -> bool {
    match (read, wanted) {
        (Ok(bytes), Ok(text)) => bytes.as_slice() == text.as_bytes(),
        (Err(fault), Err(wanted)) => fault == wanted,
        _ => false,
    }
}

#[test]
fn listed_reads_fail_and_others_give_the_newest_file(rt: HostRuntime) -> Result<(), Fail> {
    let mut store = MemStore::new(rt.alloc());
    store.add("a", b"old")?;
    store.add("b", b"other")?;
    store.add("a", b"new")?;
    store.fail_at(2)?;
    const CASES: &[(&str, Result<&str, ReadError>)] = &[
        ("a", Ok("new")),
        ("a", Err(ReadError::Failed)),
        ("c", Err(ReadError::NoFile)),
        ("b", Ok("other")),
    ];
    for &(name, wanted) in CASES {
        assert!(rt; reads(store.read(rt.alloc(), name), wanted), "at {name}");
    }
    Ok(())
}

#[test]
fn listed_puts_fail_and_others_take_what_fits(rt: HostRuntime) -> Result<(), Fail> {
    const CASES: &[(usize, usize, u64, &str, bool, &str)] = &[
        (4, 10, 9, "abcdefgh", true, "abcdefgh"),
        (4, 10, 2, "abcdefgh", false, "abcd"),
        (4, 6, 9, "abcdefgh", false, "abcdef"),
        (16, 8, 1, "abcdefgh", false, ""),
        (1, 0, 9, "", true, ""),
    ];
    for &(most, room, listed, text, is_whole, taken) in CASES {
        let mut sink = MemSink::new(rt.alloc(), most, room)?;
        sink.fail_at(listed)?;
        let whole = put_all(&mut sink, text.as_bytes()).is_ok();
        assert!(rt;
            whole == is_whole && sink.taken() == taken.as_bytes(),
            "at {taken}"
        );
    }
    Ok(())
}

#[test]
fn a_file_is_read_whole_and_a_missing_one_is_told(rt: HostRuntime) -> Result<(), Fail> {
    let name = "rv_io_disk_test.txt";
    let long = [b'x'; 5000];
    fs::write(&rt, name, long.as_slice())?;
    let mut disk = Disk::new(&rt);
    let read = disk.read(rt.alloc(), name);
    fs::remove_file(&rt, name)?;
    assert!(rt; read?.as_slice() == long.as_slice());
    for (other, fault) in [(name, ReadError::NoFile), (".", ReadError::Failed)] {
        assert!(rt;
            reads(disk.read(rt.alloc(), other), Err(fault)),
            "at {other}"
        );
    }
    Ok(())
}

#[test]
fn a_file_is_read_one_byte_past_its_limit(rt: HostRuntime) -> Result<(), Fail> {
    let name = "rv_io_short_test.txt";
    let long = [b'x'; 5000];
    fs::write(&rt, name, long.as_slice())?;
    let mut disk = Disk::new(&rt);
    let whole = disk.read_short(rt.alloc(), name, 4999);
    let cut = disk.read_short(rt.alloc(), name, 4998);
    fs::remove_file(&rt, name)?;
    assert!(rt; whole?.len() == 5000);
    assert!(rt; cut?.len() == 4999);
    Ok(())
}

/// Whether the piece is this text, at the front of a buffer of dashes, or this fault.
fn is_piece(piece: Result<usize, ReadError>, into: &[u8], wanted: Result<&str, ReadError>) -> bool {
    match (piece, wanted) {
        (Ok(count), Ok(text)) => {
            let (front, back) = into.split_at(count.min(into.len()));
            front == text.as_bytes() && back.iter().all(|byte| *byte == b'-')
        }
        (Err(fault), Err(wanted)) => fault == wanted,
        _ => false,
    }
}

#[test]
fn pieces_are_cut_and_listed_ones_fail(rt: HostRuntime) -> Result<(), Fail> {
    let mut store = MemStore::new(rt.alloc());
    store.add("a", b"abcdefgh")?;
    store.cut(3);
    store.fail_at(4)?;
    const CASES: &[(&str, u64, usize, Result<&str, ReadError>)] = &[
        ("a", 0, 5, Ok("abc")),
        ("a", 6, 5, Ok("gh")),
        ("a", 3, 2, Ok("de")),
        ("a", 3, 2, Err(ReadError::Failed)),
        ("a", 8, 5, Ok("")),
        ("a", 99, 5, Ok("")),
        ("a", 0, 0, Ok("")),
        ("b", 0, 5, Err(ReadError::NoFile)),
    ];
    for &(name, from, room, wanted) in CASES {
        let mut into = [b'-'; 5];
        let piece = store.piece(rt.alloc(), name, from, &mut into[..room]);
        assert!(rt; is_piece(piece, &into, wanted), "at {name} {from}");
    }
    Ok(())
}

#[test]
fn a_file_is_read_forward_and_opened_anew_for_what_was_passed(rt: HostRuntime) -> Result<(), Fail> {
    let name = "rv_io_piece_test.txt";
    fs::write(&rt, name, "0123456789")?;
    let mut disk = Disk::new(&rt);
    const CASES: &[(u64, &str)] = &[
        (0, "0123"),
        (4, "4567"),
        (9, "9"),
        (10, ""),
        (2, "2345"),
        (20, ""),
    ];
    for &(from, wanted) in CASES {
        let mut into = [b'-'; 4];
        let piece = disk.piece(rt.alloc(), name, from, &mut into);
        assert!(rt; is_piece(piece, &into, Ok(wanted)), "at {from}");
    }
    fs::remove_file(&rt, name)?;
    let gone = disk.piece(rt.alloc(), name, 0, &mut [0; 4]);
    assert!(rt; gone == Err(ReadError::NoFile));
    Ok(())
}

#[test]
fn standard_output_takes_a_piece(rt: HostRuntime) -> Result<(), Fail> {
    let mut out = Stdout::new(&rt);
    assert!(rt; put_all(&mut out, b"rv_io: a piece\n") == Ok(()) && out.put(b"") == Ok(0));
    Ok(())
}
