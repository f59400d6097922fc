use crate::top::rdpmt;
use mt_base::NoMemory;
use mt_outside::{MemoryFiles, MemorySink};
use std::alloc::Global;
use std::test::*;

const USAGE: &str =
    "usage: rdpmt play SCRIPT [CAPTURE] | serve PORT FILE.. | connect PORT FILE.. | show FILE | check CAPTURE | bulk N K\n";

/// The report on a message of the bytes `abc` from the server to the client.
const REPORT: &str = "channel 1 files server \
    sent 1 ba7816bf8f01cfea414140de5dae2223b00361a396177a9cb410ff61f20015ad \
    delivered 1 ba7816bf8f01cfea414140de5dae2223b00361a396177a9cb410ff61f20015ad\n\
    channel 1 files client \
    sent 0 e3b0c44298fc1c149afbf4c8996fb92427ae41e4649b934ca495991b7852b855 \
    delivered 0 e3b0c44298fc1c149afbf4c8996fb92427ae41e4649b934ca495991b7852b855\n\
    main server 34 client 16\n";

/// The status of a call over a store with one file, `s`, and the sink after it. The calls of these
/// numbers fail, of the store's and of the sink's.
fn call(
    alloc: Global,
    words: &[&str],
    text: &str,
    [file_fails, sink_fails]: [&[u64]; 2],
) -> Result<(u8, MemorySink), NoMemory> {
    let mut list = Vec::new(alloc);
    for word in words {
        list.push(String::from_str(alloc, word)?)?;
    }
    let mut files = MemoryFiles::new(alloc, Vec::from_slice(alloc, file_fails)?);
    files.put("s", text.as_bytes())?;
    let mut out = MemorySink::new(alloc, Vec::from_slice(alloc, sink_fails)?);
    let status = rdpmt(alloc, &list, &mut files, &mut out);
    Ok((status, out))
}

#[test]
fn a_script_is_played(rt: HostRuntime) -> Result<(), Fail> {
    let first = "main server all\nmain client all\nopen files\nmain server all\nmain client all\n\
        send server 1 616263\nmain server all\n";
    for (text, output) in [(first, REPORT), ("", "main server 0 client 0\n")] {
        let (status, out) = call(rt.alloc(), &["play", "s"], text, [&[]; 2])?;
        assert_eq!(rt; out.written(), output.as_bytes());
        assert_eq!(rt; status, 0);
    }
    Ok(())
}

#[test]
fn a_refused_line_of_a_script_is_named(rt: HostRuntime) -> Result<(), Fail> {
    let rows = [
        ("jump\n", "refused line 1 BadCommand\n"),
        ("#\n\nmain  server all", "refused line 3 BadWords\n"),
        ("send server 1 00\n", "refused line 1 UnknownChannel\n"),
        ("open files\n", "refused line 1 NotReady\n"),
        (
            "main server all\nmain client all\nopen a\nsend server 1 00\n",
            "refused line 4 NotOpen\n",
        ),
    ];
    for (text, output) in rows {
        let (status, out) = call(rt.alloc(), &["play", "s"], text, [&[]; 2])?;
        assert_eq!(rt; out.written(), output.as_bytes());
        assert_eq!(rt; status, 2);
    }
    Ok(())
}

#[test]
fn other_words_get_the_usage_line(rt: HostRuntime) -> Result<(), Fail> {
    let rows: [&[&str]; 4] = [&["play"], &["--help"], &["show", "-"], &["play", "s", "t"]];
    for words in rows {
        let (status, out) = call(rt.alloc(), words, "", [&[]; 2])?;
        assert_eq!(rt; out.written(), USAGE.as_bytes());
        assert_eq!(rt; status, 1);
    }
    Ok(())
}

#[test]
fn a_show_file_is_shown_or_refused(rt: HostRuntime) -> Result<(), Fail> {
    let rows = [
        ("v2 0010603412000080\n", 0, "v2 type=0 log=6 aoa=4660\n"),
        ("v1 -\nplay\n", 2, "refused line 2 BadLine\n"),
    ];
    for (text, wanted, output) in rows {
        let (status, out) = call(rt.alloc(), &["show", "s"], text, [&[]; 2])?;
        assert_eq!(rt; out.written(), output.as_bytes());
        assert_eq!(rt; status, wanted);
    }
    Ok(())
}

#[test]
fn a_capture_is_checked_or_refused(rt: HostRuntime) -> Result<(), Fail> {
    let rows = [
        ("", 0, "holds\n"),
        (
            "in server reliable 0\nout server reliable 0 -\n",
            8,
            "broken line 1 rule 2\n",
        ),
        ("jump\n", 2, "refused line 1 BadLine\n"),
    ];
    for (text, wanted, output) in rows {
        let (status, out) = call(rt.alloc(), &["check", "s"], text, [&[]; 2])?;
        assert_eq!(rt; out.written(), output.as_bytes());
        assert_eq!(rt; status, wanted);
    }
    Ok(())
}

#[test]
fn faults_of_devices_are_answered(rt: HostRuntime) -> Result<(), Fail> {
    let rows: [(&str, [&[u64]; 2], u8, &str); 3] = [
        ("missing", [&[]; 2], 3, "file fault\n"),
        ("s", [&[1], &[]], 3, "file fault\n"),
        ("s", [&[], &[0]], 4, ""),
    ];
    for (name, fails, wanted, output) in rows {
        let (status, out) = call(rt.alloc(), &["play", name], "#\n", fails)?;
        assert_eq!(rt; out.written(), output.as_bytes());
        assert_eq!(rt; status, wanted);
    }
    Ok(())
}
