ghost use Rattle.mt_outside.specs.Reading.{IsFile};

use super::*;
use crate::reading::Reading;
use std::io::{Cursor, Read, Seek};
use std::test::*;
use std::{env, fs, process};

#[test]
fn a_file_in_memory_is_made_grown_and_read(rt: HostRuntime) -> Result<(), Fail> {
    let mut files = MemoryFiles::new(rt.alloc(), Vec::new(rt.alloc()));
    files.create("a")?;
    files.append("a", b"abcde")?;
    let mut piece = [0u8; 4];
    assert_eq!(rt; files.read("a", 1, &mut piece), Ok(4));
    assert_eq!(rt; &piece, b"bcde");
    Ok(())
}

#[test]
fn a_file_is_put_and_read_whole(rt: HostRuntime) -> Result<(), Fail> {
    let long = [7u8; 5000];
    let mut files = MemoryFiles::new(rt.alloc(), Vec::new(rt.alloc()));
    files.put("long", &long)?;
    assert!(rt; files.content("long").is_some());
    let bytes = read_file(rt.alloc(), &mut files, "long", 5000)?;
    assert_eq!(rt; bytes.as_slice(), long.as_slice());
    Ok(())
}

#[test]
fn a_sink_in_memory_takes_a_text(rt: HostRuntime) -> Result<(), Fail> {
    let mut sink = MemorySink::new(rt.alloc(), Vec::new(rt.alloc()));
    write_all(&mut sink, b"one\ntwo\n")?;
    assert_eq!(rt; sink.written(), b"one\ntwo\n".as_slice());
    Ok(())
}

#[test]
fn a_real_file_is_read_past_a_gap_and_back(rt: HostRuntime) -> Result<(), Fail> {
    let folder = env::temp_dir(&rt)?;
    let id = process::id(rt.process());
    let path = format!(in rt.alloc(); "{}/mt_outside-{id}", folder.display())?;
    let mut files = RealFiles::new(&rt, rt.alloc());
    files.create(path.as_str())?;
    files.append(path.as_str(), b"abcde")?;
    files.append(path.as_str(), b"fghij")?;
    for (at, want) in [(0, "abcd"), (6, "ghij"), (8, "ij"), (1, "bcde"), (12, "")] {
        let mut piece = [0u8; 4];
        let count = files.read(path.as_str(), at, &mut piece);
        assert_eq!(rt; count, Ok(want.len()), "from {at}");
        assert!(rt; piece.starts_with(want.as_bytes()), "from {at}");
    }
    fs::remove_file(&rt, path.as_str())?;
    assert_eq!(rt; files.append(path.as_str(), b"x"), Err(Failed));
    Ok(())
}

/// A cursor gives the bytes from its position on, as a reading asks of a type of files.
fn cursors_are_files()
    ensures { IsFile ⟦<Cursor<Vec<u8>> as Read>⟧.remaining ⟦<Cursor<Vec<u8>> as Seek>⟧.stream_position ⟦<Cursor<Vec<u8>> as Seek>⟧.stream_bytes }
{}

#[test]
fn a_cursor_is_read_at_a_place(rt: HostRuntime) -> Result<(), Fail> {
    cursors_are_files();
    let bytes = Vec::from_slice(rt.alloc(), b"abcdef")?;
    let mut reading = Reading::new(String::new(rt.alloc()), Cursor::new(bytes));
    let mut piece = [0u8; 3];
    assert_eq!(rt; reading.read_at(2, &mut piece), Ok(3));
    assert_eq!(rt; &piece, b"cde");
    Ok(())
}

#[test]
fn standard_output_takes_all(rt: HostRuntime) -> Result<(), Fail> {
    let mut sink = RealSink::new(&rt);
    write_all(&mut sink, b"one\ntwo\n")?;
    Ok(())
}
