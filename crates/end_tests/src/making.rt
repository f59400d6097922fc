//! An end that was made, and the steps of its own.

use dvc_channels::ChannelState;
use end_calls::{AskRefusal, CloseRefusal, OpenRefusal};
use end_session::{Session, TunnelState};
use mt_base::{Kind, Role};
use soft_sync::Path;
use std::test::*;

#[test]
fn a_server_tells_its_capabilities(rt: HostRuntime) -> Result<(), Fail> {
    let mut server = Session::new(rt.alloc(), Role::Server)?;
    assert_eq!(rt; server.main_queued(), 15);
    let mut out = [9; 16];
    assert_eq!(rt; server.main_out(&mut out), 15);
    assert_eq!(rt; out, [3, 12, 0, 0x50, 0, 3, 0, 0, 0, 0, 0, 0, 0, 0, 0, 9]);
    Ok(())
}

#[test]
fn a_client_begins_silently(rt: HostRuntime) -> Result<(), Fail> {
    let mut client = Session::new(rt.alloc(), Role::Client)?;
    assert_eq!(rt; client.main_queued(), 0);
    assert!(rt; client.take(1).is_none());
    Ok(())
}

#[test]
fn no_channel_before_capabilities_are_read(rt: HostRuntime) -> Result<(), Fail> {
    let mut server = Session::new(rt.alloc(), Role::Server)?;
    assert_eq!(rt; server.open_channel(b"echo"), Err(OpenRefusal::NotReady));
    assert_eq!(rt; server.main_queued(), 15);
    Ok(())
}

#[test]
fn a_server_asks_for_a_tunnel(rt: HostRuntime) -> Result<(), Fail> {
    let mut server = Session::new(rt.alloc(), Role::Server)?;
    let asks = server.ask_tunnel(Kind::Reliable, 7, &[1; 16]);
    assert_eq!(rt; (asks, server.main_queued()), (Ok(()), 42));
    let again = server.ask_tunnel(Kind::Reliable, 8, &[2; 16]);
    assert_eq!(rt; again, Err(AskRefusal::AlreadyAsked));
    assert_eq!(rt; server.tunnel(Kind::Reliable), TunnelState::Asked);
    Ok(())
}

#[test]
fn a_link_is_attached_and_falls_silent(rt: HostRuntime) -> Result<(), Fail> {
    let mut server = Session::new(rt.alloc(), Role::Server)?;
    assert_eq!(rt; server.ask_tunnel(Kind::Lossy, 7, &[1; 16]), Ok(()));
    assert!(rt; server.asked(Kind::Lossy).is_some());
    assert!(rt; !server.attached(Kind::Lossy));
    assert_eq!(rt; server.refusal(Kind::Lossy), None);
    assert_eq!(rt; server.waiting(Kind::Lossy).len(), 0);
    server.attach(Kind::Lossy);
    assert!(rt; server.attached(Kind::Lossy));
    server.silence(Kind::Lossy, 17);
    let silent = TunnelState::Silent { expiries: 17 };
    assert_eq!(rt; server.tunnel(Kind::Lossy), silent);
    Ok(())
}

#[test]
fn no_channel_is_closed_that_was_not_created(rt: HostRuntime) -> Result<(), Fail> {
    let mut server = Session::new(rt.alloc(), Role::Server)?;
    server.given(Kind::Reliable);
    assert_eq!(rt; server.waiting(Kind::Reliable).len(), 0);
    assert_eq!(rt;
        server.close_channel(1, 0),
        Err(CloseRefusal::UnknownChannel)
    );
    Ok(())
}

#[test]
fn an_end_tells_what_it_is(rt: HostRuntime) -> Result<(), Fail> {
    let server = Session::new(rt.alloc(), Role::Server)?;
    assert_eq!(rt; (server.role(), server.broken()), (Role::Server, None));
    assert_eq!(rt; server.channel(1), ChannelState::Unknown);
    assert_eq!(rt; server.outward(1), Path::Main);
    server.draw_nothing();
    server.miss();
    Ok(())
}
