use mt_base::{Kind, Role};
use mt_script::{
    Event, LineFault, ScriptRefusal, Text, Words, count_lines, cut_into_lines, cut_line,
    events_read, hex_bytes, one_answer, one_meaning, one_spelling, read_script,
};
use std::test::*;

#[test]
fn lines_that_do_something_are_read(rt: HostRuntime) -> Result<(), Fail> {
    let text = b"# a greeting\nopen A\n\nsend server 1 6869\nmain client all";
    let script = read_script(rt.alloc(), text)?;
    assert_eq!(rt; (script.len(), script.is_empty()), (3, false));
    for (line, number) in script.lines().iter().zip([2, 4, 5]) {
        assert_eq!(rt; line.number, number);
    }
    Ok(())
}

#[test]
fn a_name_is_any_word(rt: HostRuntime) -> Result<(), Fail> {
    let script = read_script(rt.alloc(), b"open #\xff\r\n")?;
    match script.event(0) {
        Some((Event::Open { name }, 1)) => assert_eq!(rt; name.bytes(), b"#\xff\r".as_slice()),
        _ => assert!(rt; false, "a name"),
    }
    Ok(())
}

#[test]
fn a_message_is_read(rt: HostRuntime) -> Result<(), Fail> {
    let rows: [(&[u8], u32, &[u8]); 2] = [
        (b"send client 0 -\n", 0, b""),
        (b"\nsend client 4294967295 00ff\n", 4294967295, b"\x00\xff"),
    ];
    for (text, wanted, bytes) in rows {
        let script = read_script(rt.alloc(), text)?;
        match script.event(0) {
            Some((Event::Send { side, id, message }, _)) => {
                assert_eq!(rt; (*side, *id), (Role::Client, wanted));
                assert_eq!(rt; message.bytes(), bytes);
            }
            _ => assert!(rt; false, "a message"),
        }
    }
    Ok(())
}

#[test]
fn the_first_bad_line_is_told(rt: HostRuntime) -> Result<(), Fail> {
    let rows: [(&[u8], ScriptRefusal); 9] = [
        (b"hello", ScriptRefusal::BadCommand { line: 1 }),
        (b" open A", ScriptRefusal::BadCommand { line: 1 }),
        (
            b"open A\n\n\nsettle 1\nopen",
            ScriptRefusal::BadCommand { line: 4 },
        ),
        (b"open  A", ScriptRefusal::BadWords { line: 1 }),
        (b"#\nmain client 5", ScriptRefusal::BadWords { line: 2 }),
        (b"main client all\r\n", ScriptRefusal::BadWords { line: 1 }),
        (b"send server 007 68", ScriptRefusal::BadWords { line: 1 }),
        (
            b"send server 4294967296 68",
            ScriptRefusal::BadWords { line: 1 },
        ),
        (b"send server 1 FF", ScriptRefusal::BadWords { line: 1 }),
    ];
    for (text, wanted) in rows {
        match read_script(rt.alloc(), text) {
            Ok(_) => assert!(rt; false, "a bad line is read"),
            Err(refusal) => assert_eq!(rt; refusal, wanted),
        }
    }
    Ok(())
}

#[test]
fn lines_are_cut_and_counted(rt: HostRuntime) -> Result<(), Fail> {
    assert_eq!(rt; count_lines(b"a\n\nb"), 3);
    assert_eq!(rt; cut_line(b"a\n\nb"), (b"a".as_slice(), b"\nb".as_slice()));
    Ok(())
}

#[test]
fn words_of_bytes_are_read(rt: HostRuntime) -> Result<(), Fail> {
    let rows: [(&[u8], Option<&[u8]>); 4] = [
        (b"-", Some(b"")),
        (b"00ff", Some(b"\x00\xff")),
        (b"0", None),
        (b"FF", None),
    ];
    for (word, bytes) in rows {
        let read = hex_bytes(rt.alloc(), word)?;
        assert_eq!(rt; read.as_ref().map(|text| text.bytes()), bytes);
    }
    Ok(())
}

#[test]
fn words_are_taken_one_by_one(rt: HostRuntime) {
    let mut words = Words::new(b"out lossy 18446744073709551615");
    assert_eq!(rt; words.word(), Some(b"out".as_slice()));
    assert_eq!(rt; words.kind(), Ok(Kind::Lossy));
    assert_eq!(rt; words.count(), Ok(18446744073709551615));
    assert_eq!(rt; words.end(), Ok(()));
}

#[test]
fn a_cookie_has_sixteen_bytes(rt: HostRuntime) {
    let mut words = Words::new(b"000102030405060708090a0b0c0d0e0f 0001");
    let cookie = [0, 1, 2, 3, 4, 5, 6, 7, 8, 9, 10, 11, 12, 13, 14, 15];
    assert_eq!(rt; words.cookie(rt.alloc()), Ok(cookie));
    assert_eq!(rt; words.cookie(rt.alloc()), Err(LineFault::BadWords));
}

#[test]
fn a_text_has_its_bytes(rt: HostRuntime) -> Result<(), Fail> {
    let text = Text::new(rt.alloc(), b"abc")?;
    assert_eq!(rt; text.bytes(), b"abc".as_slice());
    Ok(())
}

#[test]
fn laws_are_public() {
    cut_into_lines();
    one_spelling();
    one_meaning();
    one_answer();
    events_read();
}
