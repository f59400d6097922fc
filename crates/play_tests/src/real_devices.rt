//! Devices over the real machine, each with a peer in the same process.

use mt_base::Role;
use mt_outside::{
    Bell, Chance, Clock, Failed, Got, RealChance, RealClock, Stream, TcpStreamOf, UdpWire, Wire,
};
use std::io::{Read, Write};
use std::net::{Ipv4Addr, OpenListener, TcpListener, UdpSocket};
use std::test::*;

/// This machine, at a port that it picks.
const ANY: (Ipv4Addr, u16) = (Ipv4Addr::LOCALHOST, 0);

#[test]
fn a_client_writes_reads_and_is_told_the_end(rt: HostRuntime) -> Result<(), Fail> {
    let bell = Bell::new();
    let listener = TcpListener::bind(&rt, ANY)?;
    let mut stream = TcpStreamOf::new(&rt, &bell);
    stream.open(Role::Client, listener.local_addr()?.port())?;
    let (mut peer, _) = listener.accept()?;
    let mut out = [0u8; 8];
    assert_eq!(rt; stream.read(&mut out), Ok(Got::Nothing));
    assert_eq!(rt; stream.write(b"ask"), Ok(3));
    assert_eq!(rt; peer.read(&mut out)?, 3);
    peer.write_all(b"answer")?;
    assert_eq!(rt; stream.read(&mut out), Ok(Got::Bytes(6)));
    assert!(rt; out.starts_with(b"answer"));
    drop(peer);
    assert_eq!(rt; stream.read(&mut out), Ok(Got::End));
    Ok(())
}

#[test]
fn a_stream_that_is_not_open_fails(rt: HostRuntime) -> Result<(), Fail> {
    let bell = Bell::new();
    let mut stream = TcpStreamOf::new(&rt, &bell);
    assert_eq!(rt; stream.read(&mut [0; 8]), Err(Failed));
    assert_eq!(rt; stream.write(b"ask"), Err(Failed));
    Ok(())
}

#[test]
fn two_wires_exchange_datagrams_and_drop_foreign_ones(rt: HostRuntime) -> Result<(), Fail> {
    let bells = [Bell::new(), Bell::new()];
    let port = UdpSocket::bind(&rt, ANY)?.local_addr()?.port();
    let mut server = UdpWire::new(&rt, &bells[0]);
    let mut client = UdpWire::new(&rt, &bells[1]);
    server.open(Role::Server, port)?;
    client.open(Role::Client, port)?;
    let mut out = [0u8; 1232];
    server.send(b"too early")?;
    client.send(b"one")?;
    assert_eq!(rt; server.take(&mut out), Ok(Some(3)));
    let foreign = UdpSocket::bind(&rt, ANY)?;
    foreign.send_to(b"foreign", (Ipv4Addr::LOCALHOST, port))?;
    client.send(&[7; 1233])?;
    client.send(b"two")?;
    assert_eq!(rt; server.take(&mut out), Ok(Some(3)));
    assert!(rt; out.starts_with(b"two"));
    assert_eq!(rt; server.take(&mut out), Ok(None));
    server.send(b"three")?;
    assert_eq!(rt; client.take(&mut out), Ok(Some(5)));
    Ok(())
}

#[test]
fn a_wire_gives_sixteen_datagrams_in_a_row(rt: HostRuntime) -> Result<(), Fail> {
    let bell = Bell::new();
    let port = UdpSocket::bind(&rt, ANY)?.local_addr()?.port();
    let mut wire = UdpWire::new(&rt, &bell);
    wire.open(Role::Server, port)?;
    let peer = UdpSocket::bind(&rt, ANY)?;
    for _ in 0..17 {
        peer.send_to(b"datagram", (Ipv4Addr::LOCALHOST, port))?;
    }
    let mut out = [0u8; 1232];
    for _ in 0..16 {
        assert_eq!(rt; wire.take(&mut out), Ok(Some(8)));
    }
    assert_eq!(rt; wire.take(&mut out), Ok(None));
    assert_eq!(rt; wire.take(&mut out), Ok(Some(8)));
    Ok(())
}

#[test]
fn a_closed_port_is_no_fault(rt: HostRuntime) -> Result<(), Fail> {
    let bell = Bell::new();
    let port = UdpSocket::bind(&rt, ANY)?.local_addr()?.port();
    let mut wire = UdpWire::new(&rt, &bell);
    wire.open(Role::Client, port)?;
    wire.send(b"one")?;
    wire.send(b"two")?;
    assert_eq!(rt; wire.take(&mut [0; 1232]), Ok(None));
    Ok(())
}

#[test]
fn the_machine_has_moments_and_words(rt: HostRuntime) -> Result<(), Fail> {
    let mut clock = RealClock::new(&rt);
    assert_eq!(rt; clock.now(), Ok(0));
    assert!(rt; clock.now()? < 60_000);
    let mut chance = RealChance::new(&rt);
    let mut words = [[0u8; 16]; 2];
    chance.sixteen(&mut words[0])?;
    chance.sixteen(&mut words[1])?;
    assert!(rt; words[0] != words[1]);
    Ok(())
}
