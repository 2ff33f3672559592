// Worked examples of what the contracts leave open for desks and sinks.
ghost use Rattle.std.specs.Prelude.{◌<◌, IfOk, IsFalse, OnOk};

use desk_io::*;
use std::alloc::{AllocError, Global};
use std::test::Fail;
use std::{fs, io};

/// A desk with a file `a` of five bytes and an empty file `b`.
fn small_desk(alloc: Global, most: usize, fail_at: Vec<u64>) -> Result<MemDesk, AllocError>
    requires { 0 < most }
    ensures { IfOk result (λ desk. IsFalse (⟦<MemDesk as Desk>⟧.created desk)) }
{
    let a = String::from_str(alloc, "a")?;
    let b = String::from_str(alloc, "b")?;
    let files = vec![in alloc; (a, b"house".to_vec(alloc)?), (b, Vec::new(alloc))]?;
    Ok(MemDesk::new(files, most, fail_at))
}

/// Creates a file with these bytes and closes it, if no call fails.
fn write_file<D: Desk>(desk: &mut D, name: &str, bytes: &[u8]) -> Result<(), DeskFault>
    requires { IsFalse (D.created desk.old) }
    ensures { OnOk result (IsFalse (D.created desk.new)) }
{
    desk.create_file(name)?;
    write_whole(desk, bytes)?;
    desk.close_file()
}

#[test]
fn reads_whole_files_in_pieces_of_any_size(rt: HostRuntime) -> Result<(), Fail> {
    let alloc = rt.alloc();
    for most in 1..8 {
        let mut desk = small_desk(alloc, most, Vec::new(alloc))?;
        for (name, limit, want) in [
            ("a", 4, Err(ReadEnd::TooLarge)),
            ("a", 5, Ok("house")),
            ("a", 6, Ok("house")),
            ("b", 0, Ok("")),
            ("c", 6, Err(ReadEnd::NoFile)),
        ] {
            let got = read_file(alloc, &mut desk, name, limit);
            match (got, want) {
                (Ok(bytes), Ok(text)) => assert_eq!(rt; bytes.as_slice(), text.as_bytes()),
                (Err(end), Err(other)) => assert_eq!(rt; end, other, "{name} at {limit}"),
                _ => panic!(rt; "{name} at {limit}"),
            }
        }
    }
    Ok(())
}

/// With a limit of 100 bytes a file of 100 is read, and one of 101 is too large.
#[test]
fn a_file_may_have_as_many_bytes_as_the_limit(rt: HostRuntime) -> Result<(), Fail> {
    let alloc = rt.alloc();
    let bytes = [b'-'; 101];
    for (count, fits) in [(100, true), (101, false)] {
        let name = String::from_str(alloc, "a")?;
        let files = vec![in alloc; (name, bytes[..count].to_vec(alloc)?)]?;
        let mut desk = MemDesk::new(files, 7, Vec::new(alloc));
        match read_file(alloc, &mut desk, "a", 100) {
            Ok(read) => assert!(rt; fits && read.len() == 100),
            Err(end) => assert!(rt; !fits && end == ReadEnd::TooLarge),
        }
    }
    Ok(())
}

#[test]
fn a_desk_in_memory_fails_where_it_is_asked_to(rt: HostRuntime) -> Result<(), Fail> {
    let alloc = rt.alloc();
    // An open, reads of three and of two bytes, and a read that finds the end.
    for call in 0..6 {
        let mut desk = small_desk(alloc, 3, vec![in alloc; call]?)?;
        match read_file(alloc, &mut desk, "a", 5) {
            Ok(bytes) => {
                assert!(rt; call >= 4, "call {call}");
                assert_eq!(rt; bytes.as_slice(), b"house".as_slice());
            }
            Err(end) => {
                assert!(rt; call < 4, "call {call}");
                assert_eq!(rt; end, ReadEnd::Failed);
            }
        }
    }
    Ok(())
}

#[test]
fn a_desk_in_memory_lends_its_files(rt: HostRuntime) -> Result<(), Fail> {
    let alloc = rt.alloc();
    let desk = small_desk(alloc, 1, Vec::new(alloc))?;
    assert_eq!(rt; desk.file("a"), Some(b"house".as_slice()));
    assert_eq!(rt; desk.file("house"), None);
    Ok(())
}

#[test]
fn writes_whole_files_in_pieces_of_any_size(rt: HostRuntime) -> Result<(), Fail> {
    let alloc = rt.alloc();
    for most in 1..8 {
        for name in ["a", "b", "c"] {
            let mut desk = small_desk(alloc, most, Vec::new(alloc))?;
            assert!(rt; write_file(&mut desk, name, b"mills").is_ok());
            for (other, before) in [
                ("a", Some(b"house".as_slice())),
                ("b", Some(b"".as_slice())),
                ("c", None),
            ] {
                let want = if other == name {
                    Some(b"mills".as_slice())
                } else {
                    before
                };
                assert_eq!(rt; desk.file(other), want, "{other} after {name}");
            }
        }
    }
    Ok(())
}

#[test]
fn a_desk_in_memory_fails_to_write_where_it_is_asked_to(rt: HostRuntime) -> Result<(), Fail> {
    let alloc = rt.alloc();
    // The creation, writes of two, two and one byte, and the close.
    for (call, written, text) in [
        (0, false, "house"),
        (1, false, ""),
        (2, false, "mi"),
        (3, false, "mill"),
        (4, false, "mills"),
        (5, true, "mills"),
    ] {
        let mut desk = small_desk(alloc, 2, vec![in alloc; call]?)?;
        let got = write_file(&mut desk, "a", b"mills");
        assert_eq!(rt; got.is_ok(), written, "call {call}");
        assert_eq!(rt; desk.file("a"), Some(text.as_bytes()), "call {call}");
        assert_eq!(rt; desk.file("b"), Some(b"".as_slice()), "call {call}");
    }
    Ok(())
}

#[test]
fn a_file_is_read_while_another_is_written(rt: HostRuntime) -> Result<(), Fail> {
    let alloc = rt.alloc();
    let mut desk = small_desk(alloc, 3, Vec::new(alloc))?;
    if desk.create_file("c").is_err() || write_whole(&mut desk, b"mill").is_err() {
        panic!(rt; "no file");
    }
    let a = read_file(alloc, &mut desk, "a", 9);
    let c = read_file(alloc, &mut desk, "c", 9);
    assert!(rt; write_whole(&mut desk, b"s").is_ok());
    match (a, c) {
        (Ok(a), Ok(c)) => {
            assert_eq!(rt; a.as_slice(), b"house".as_slice());
            assert_eq!(rt; c.as_slice(), b"mill".as_slice());
        }
        _ => panic!(rt; "not read"),
    }
    assert_eq!(rt; desk.file("c"), Some(b"mills".as_slice()));
    Ok(())
}

#[test]
fn a_sink_in_memory_fails_where_it_is_asked_to(rt: HostRuntime) -> Result<(), Fail> {
    let alloc = rt.alloc();
    for (most, call, sent, text) in [
        (2, 0, false, ""),
        (2, 1, false, "ho"),
        (2, 2, false, "hous"),
        (2, 3, true, "house"),
        (9, 1, true, "house"),
    ] {
        let mut sink = MemSink::new(alloc, most, vec![in alloc; call]?);
        let got = send_whole(&mut sink, b"house");
        assert_eq!(rt; got.is_ok(), sent, "call {call}");
        assert_eq!(rt; sink.bytes(), text.as_bytes(), "call {call}");
    }
    Ok(())
}

#[test]
fn the_system_reads_a_file(rt: HostRuntime) -> Result<(), Fail> {
    let alloc = rt.alloc();
    fs::write(&rt, "house.txt", "house")?;
    let mut desk = RealDesk::new(&rt);
    let bytes = read_file(alloc, &mut desk, "house.txt", 5);
    let missing = read_file(alloc, &mut desk, "no such file", 5);
    let folder = read_file(alloc, &mut desk, ".", 5);
    fs::remove_file(&rt, "house.txt")?;
    match bytes {
        Ok(bytes) => assert_eq!(rt; bytes.as_slice(), b"house".as_slice()),
        Err(end) => panic!(rt; "{end:?}"),
    }
    assert!(rt; matches!(missing, Err(ReadEnd::NoFile)));
    assert!(rt; matches!(folder, Err(ReadEnd::Failed)));
    Ok(())
}

#[test]
fn the_system_keeps_a_created_file(rt: HostRuntime) -> Result<(), Fail> {
    let alloc = rt.alloc();
    for text in ["a mill and a house", "", "mills"] {
        let mut desk = RealDesk::new(&rt);
        assert!(rt; write_file(&mut desk, "mill.txt", text.as_bytes()).is_ok());
        match read_file(alloc, &mut desk, "mill.txt", 20) {
            Ok(bytes) => assert_eq!(rt; bytes.as_slice(), text.as_bytes()),
            Err(end) => panic!(rt; "{end:?}"),
        }
    }
    fs::remove_file(&rt, "mill.txt")?;
    let mut desk = RealDesk::new(&rt);
    assert!(rt; matches!(desk.create_file("."), Err(DeskFault::Failed)));
    Ok(())
}

#[test]
fn the_system_takes_text(rt: HostRuntime) -> Result<(), Fail> {
    let mut sink = RealSink::new(io::writer(&rt));
    assert!(rt; send_whole(&mut sink, b"house\n").is_ok());
    Ok(())
}
