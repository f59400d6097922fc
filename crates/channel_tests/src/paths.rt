use mt_base::Kind;
use soft_sync::{Path, Paths, Placed, SyncRefusal};
use std::test::*;

const RELIABLE: Path = Path::Tunnel(Kind::Reliable);

#[test]
fn a_request_needs_version_three(rt: HostRuntime) -> Result<(), Fail> {
    let mut paths = Paths::new(rt.alloc())?;
    let refusal = SyncRefusal::OldVersion { version: 0 };
    assert_eq!(rt; paths.refusal(&[1], &[]), Some(refusal));
    assert_eq!(rt; paths.request(&[1], &[]), Err(refusal));
    paths.set_version(3);
    assert_eq!(rt; paths.outward(1), Path::Main);
    assert_eq!(rt; paths.answer_begin(), None);
    Ok(())
}

#[test]
fn an_open_channel_moves_to_an_open_tunnel(rt: HostRuntime) -> Result<(), Fail> {
    let mut paths = Paths::new(rt.alloc())?;
    paths.set_version(3);
    paths.set_channel(1, true);
    paths.set_open(Kind::Reliable, true);
    assert_eq!(rt; paths.request(&[1], &[]), Ok(()));
    assert_eq!(rt; paths.outward(1), RELIABLE);
    Ok(())
}

#[test]
fn a_request_that_is_read_waits_for_its_answer(rt: HostRuntime) -> Result<(), Fail> {
    let mut paths = Paths::new(rt.alloc())?;
    let number = paths.got_begin(true, false).ok_or("256 were read")?;
    assert!(rt; paths.names(number, Kind::Reliable));
    assert_eq!(rt; paths.unanswered(), Some(number));
    paths.respond(number, Kind::Reliable);
    paths.answered(number);
    assert_eq!(rt; paths.unanswered(), None);
    Ok(())
}

#[test]
fn data_on_main_behind_the_request_are_too_late(rt: HostRuntime) -> Result<(), Fail> {
    let mut paths = Paths::new(rt.alloc())?;
    let _ = paths.got_begin(true, false).ok_or("256 were read")?;
    paths.got_request(Kind::Reliable, 1);
    assert_eq!(rt; paths.inward(1), RELIABLE);
    assert_eq!(rt; paths.place(1, Path::Main), Placed::TooLateOnMain);
    Ok(())
}

#[test]
fn an_answer_names_a_kind(rt: HostRuntime) -> Result<(), Fail> {
    let mut paths = Paths::new(rt.alloc())?;
    paths.set_version(3);
    paths.set_channel(1, true);
    paths.set_open(Kind::Reliable, true);
    assert!(rt; paths.request(&[1], &[]).is_ok());
    assert_eq!(rt; paths.made_channel(0, 0), Some((1, Kind::Reliable)));
    assert_eq!(rt; paths.made_channel(0, 1), None);
    let number = paths.answer_begin().ok_or("no request was made")?;
    assert!(rt; paths.got_response(number, Kind::Reliable));
    assert_eq!(rt; paths.inward(1), RELIABLE);
    Ok(())
}
