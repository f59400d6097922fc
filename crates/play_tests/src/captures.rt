use capture_check::{CaptureRefusal, Entry, one_answer, one_judgement, one_spelling, read_capture};
use mt_base::{Kind, Role};
use std::test::*;

/// The number of the line that is no entry; `None` of a capture, or of any other refusal.
fn bad_line(rt: HostRuntime, text: &[u8]) -> Option<u64> {
    match read_capture(rt.alloc(), text) {
        Err(CaptureRefusal::BadLine { line }) => Some(line),
        _ => None,
    }
}

#[test]
fn an_empty_text_has_no_entries(rt: HostRuntime) -> Result<(), Fail> {
    let capture = read_capture(rt.alloc(), b"")?;
    assert!(rt; capture.entries().is_empty());
    Ok(())
}

#[test]
fn a_request_is_read(rt: HostRuntime) -> Result<(), Fail> {
    let text = b"issue 7 reliable 000102030405060708090a0b0c0d0e0f\n";
    let capture = read_capture(rt.alloc(), text)?;
    match capture.entries() {
        [Entry::Issue { id, kind, cookie }] => {
            assert_eq!(rt; (*id, *kind), (7, Kind::Reliable));
            assert_eq!(rt;
                *cookie,
                [0, 1, 2, 3, 4, 5, 6, 7, 8, 9, 10, 11, 12, 13, 14, 15]
            );
        }
        _ => assert!(rt; false, "a request"),
    }
    Ok(())
}

#[test]
fn a_message_is_read_at_both_ends(rt: HostRuntime) -> Result<(), Fail> {
    let capture = read_capture(
        rt.alloc(),
        b"open 1 A\nsent server 1 6869\ngot client 1 6869",
    )?;
    match capture.entries() {
        [
            Entry::Open { id: 1, name },
            Entry::Sent {
                side: Role::Server,
                id: 1,
                message,
            },
            Entry::Got {
                side: Role::Client,
                id: 1,
                message: got,
            },
        ] => {
            assert_eq!(rt; name.bytes(), b"A".as_slice());
            assert_eq!(rt; message.bytes(), b"hi".as_slice());
            assert_eq!(rt; got.bytes(), b"hi".as_slice());
        }
        _ => assert!(rt; false, "a message"),
    }
    Ok(())
}

#[test]
fn a_datagram_is_read(rt: HostRuntime) -> Result<(), Fail> {
    let text = b"out client lossy 18446744073709551615 -\nin client lossy 0\n";
    let capture = read_capture(rt.alloc(), text)?;
    match capture.entries() {
        [
            Entry::Out {
                side: Role::Client,
                kind: Kind::Lossy,
                number,
                datagram,
            },
            Entry::In {
                side: Role::Client,
                kind: Kind::Lossy,
                number: 0,
            },
        ] => {
            assert_eq!(rt; *number, 18446744073709551615);
            assert!(rt; datagram.bytes().is_empty());
        }
        _ => assert!(rt; false, "a datagram"),
    }
    Ok(())
}

#[test]
fn the_main_stream_and_a_word_are_read(rt: HostRuntime) -> Result<(), Fail> {
    let capture = read_capture(rt.alloc(), b"main server 00ff\nword client reliable 3\n")?;
    match capture.entries() {
        [
            Entry::Main {
                side: Role::Server,
                bytes,
            },
            Entry::Word {
                side: Role::Client,
                kind: Kind::Reliable,
                id: 3,
            },
        ] => assert_eq!(rt; bytes.bytes(), b"\x00\xff".as_slice()),
        _ => assert!(rt; false, "bytes and a word"),
    }
    Ok(())
}

#[test]
fn the_first_bad_line_is_told(rt: HostRuntime) {
    let rows: [(&[u8], u64); 5] = [
        (b"jump", 1),
        (b"\n", 1),
        (b"open 1 A\n\nopen 2 B\n", 2),
        (b"open 1 A\nopen 2 B\n# a comment", 3),
        (b"open 1 A\nopen 2 B\nopen 3\njump", 3),
    ];
    for (text, line) in rows {
        assert_eq!(rt; bad_line(rt, text), Some(line));
    }
}

#[test]
fn other_words_are_no_entry(rt: HostRuntime) {
    let rows: [&[u8]; 11] = [
        b" open 1 A",
        b"open 1 A ",
        b"open  1 A",
        b"open 01 A",
        b"open 4294967296 A",
        b"in server reliable 18446744073709551616",
        b"in server Reliable 0",
        b"got both 1 00",
        b"main client 0",
        b"sent client 1 FF",
        b"issue 7 lossy 000102030405060708090a0b0c0d0e",
    ];
    for text in rows {
        assert_eq!(rt; bad_line(rt, text), Some(1));
    }
}

#[test]
fn laws_are_public() {
    one_spelling();
    one_answer();
    one_judgement();
}
