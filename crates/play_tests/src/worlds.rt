use mt_world::{
    OpenRefusal, Refused, SendRefusal, StepRefusal, Text, World, all_arrives, net_is_safe,
    plays_safely, read_script, stream_is_read,
};
use std::alloc::{AllocError, Global};
use std::test::*;

/// Both ends tell each other what they can do, and the server creates a channel.
const OPENED: &str =
    "main server all\nmain client all\nopen files\nmain server all\nmain client all\n";

/// No message.
const NONE: &str = "0 e3b0c44298fc1c149afbf4c8996fb92427ae41e4649b934ca495991b7852b855";

/// One message, the bytes `abc`.
const ABC: &str = "1 ba7816bf8f01cfea414140de5dae2223b00361a396177a9cb410ff61f20015ad";

/// The same bytes in three messages.
const PARTS: &str = "3 ba7816bf8f01cfea414140de5dae2223b00361a396177a9cb410ff61f20015ad";

/// Plays a script up to the first line that is refused: its refusal, and the report then.
fn play(alloc: Global, text: &str) -> Result<(Option<StepRefusal>, Text), Fail> {
    let script = read_script(alloc, text.as_bytes())?;
    let mut world = World::new(alloc)?;
    for line in script.lines() {
        if let Err(cause) = world.step(&line.event) {
            return Ok((Some(cause), world.report()?));
        }
    }
    Ok((None, world.report()?))
}

/// The report on the channel `files`: what the server sent and what of it was delivered, and the
/// same of the client; and the main stream bytes of each side that moved.
fn report_on(alloc: Global, [a, b, c, d]: [&str; 4], main: &str) -> Result<String, AllocError> {
    format!(in alloc;
        "channel 1 files server sent {a} delivered {b}\n\
        channel 1 files client sent {c} delivered {d}\n{main}\n"
    )
}

#[test]
fn messages_are_delivered_and_reported(rt: HostRuntime) -> Result<(), Fail> {
    let rows = [
        ("", [NONE; 4], "main server 26 client 16"),
        (
            "send server 1 616263\n",
            [ABC, NONE, NONE, NONE],
            "main server 26 client 16",
        ),
        (
            "send server 1 616263\nmain server all\n",
            [ABC, ABC, NONE, NONE],
            "main server 34 client 16",
        ),
        (
            "send client 1 61\nsend client 1 6263\nsend client 1 -\nmain client all\n",
            [NONE, NONE, PARTS, PARTS],
            "main server 26 client 34",
        ),
    ];
    for (rest, counts, main) in rows {
        let text = format!(in rt.alloc(); "{OPENED}{rest}")?;
        let want = report_on(rt.alloc(), counts, main)?;
        let (refusal, report) = play(rt.alloc(), text.as_str())?;
        assert_eq!(rt; refusal, None);
        assert_eq!(rt; report.bytes(), want.as_bytes());
    }
    Ok(())
}

/// Why a channel is not created, as a step's refusal.
fn unopened(cause: OpenRefusal) -> StepRefusal {
    StepRefusal::Refused(Refused::Open(cause))
}

/// Why a message is not sent, as a step's refusal.
fn unsent(cause: SendRefusal) -> StepRefusal {
    StepRefusal::Refused(Refused::Send(cause))
}

#[test]
fn a_refused_line_is_told_and_changes_nothing(rt: HostRuntime) -> Result<(), Fail> {
    let start = "main server 0 client 0\n";
    let ready = "main server 15 client 7\n";
    let rows = [
        ("open files", unopened(OpenRefusal::NotReady), start),
        ("send server 1 00", StepRefusal::UnknownChannel, start),
        (
            "main server all\nmain client all\nopen fil\u{1f}s",
            unopened(OpenRefusal::BadName { at: 3 }),
            ready,
        ),
    ];
    for (text, want, same) in rows {
        let (refusal, report) = play(rt.alloc(), text)?;
        assert_eq!(rt; refusal, Some(want));
        assert_eq!(rt; report.bytes(), same.as_bytes());
    }
    Ok(())
}

#[test]
fn a_channel_refuses_before_it_is_open(rt: HostRuntime) -> Result<(), Fail> {
    let rows = [
        ("send server 1 00", SendRefusal::NotOpen),
        ("send client 1 00", SendRefusal::UnknownChannel),
    ];
    for (line, cause) in rows {
        let text = format!(in rt.alloc(); "main server all\nmain client all\nopen a\n{line}")?;
        let (refusal, _) = play(rt.alloc(), text.as_str())?;
        assert_eq!(rt; refusal, Some(unsent(cause)));
    }
    Ok(())
}

#[test]
fn laws_are_public() {
    net_is_safe();
    all_arrives();
    plays_safely();
    stream_is_read();
}
