//! Devices in memory.

use mt_base::Role;
use mt_outside::{
    Chance, Clock, Failed, Got, MemoryChance, MemoryClock, MemoryStream, MemoryWire, Stream, Wire,
};
use std::test::*;

#[test]
fn a_stream_gives_its_pieces_and_ends(rt: HostRuntime) -> Result<(), Fail> {
    let mut pieces = Vec::new(rt.alloc());
    for piece in ["abc", "", "de"] {
        pieces.push(Vec::from_slice(rt.alloc(), piece.as_bytes())?)?;
    }
    let mut stream = MemoryStream::new(rt.alloc(), pieces, true, Vec::new(rt.alloc()));
    stream.open(Role::Server, 3389)?;
    let wants = [
        (Got::Bytes(2), "ab"),
        (Got::Bytes(1), "c"),
        (Got::Nothing, ""),
        (Got::Bytes(2), "de"),
        (Got::End, ""),
        (Got::End, ""),
    ];
    for (got, bytes) in wants {
        let mut out = [0u8; 2];
        assert_eq!(rt; stream.read(&mut out), Ok(got));
        assert!(rt; out.starts_with(bytes.as_bytes()));
    }
    Ok(())
}

#[test]
fn a_stream_fails_where_it_is_asked_to(rt: HostRuntime) -> Result<(), Fail> {
    let fails = Vec::from_slice(rt.alloc(), &[0, 2])?;
    let mut stream = MemoryStream::new(rt.alloc(), Vec::new(rt.alloc()), false, fails);
    assert_eq!(rt; stream.open(Role::Client, 3389), Err(Failed));
    assert_eq!(rt; stream.write(b"one"), Ok(3));
    assert_eq!(rt; stream.write(b"two"), Err(Failed));
    assert_eq!(rt; stream.write(b"three"), Ok(5));
    assert_eq!(rt; stream.read(&mut [0; 4]), Ok(Got::Nothing));
    assert_eq!(rt; stream.written(), b"onethree".as_slice());
    Ok(())
}

#[test]
fn a_wire_gives_its_datagrams_and_then_none(rt: HostRuntime) -> Result<(), Fail> {
    let mut datagrams = Vec::new(rt.alloc());
    for datagram in ["one", "", "three"] {
        datagrams.push(Vec::from_slice(rt.alloc(), datagram.as_bytes())?)?;
    }
    let fails = Vec::from_slice(rt.alloc(), &[2])?;
    let mut wire = MemoryWire::new(rt.alloc(), datagrams, fails);
    wire.open(Role::Server, 3389)?;
    let mut out = [0u8; 1232];
    assert_eq!(rt; wire.take(&mut out), Ok(Some(3)));
    assert_eq!(rt; wire.take(&mut out), Err(Failed));
    assert_eq!(rt; wire.take(&mut out), Ok(None));
    assert_eq!(rt; wire.take(&mut out), Ok(Some(5)));
    assert!(rt; out.starts_with(b"three"));
    assert_eq!(rt; wire.take(&mut out), Ok(None));
    Ok(())
}

#[test]
fn a_wire_keeps_what_is_sent(rt: HostRuntime) -> Result<(), Fail> {
    let mut wire = MemoryWire::new(rt.alloc(), Vec::new(rt.alloc()), Vec::new(rt.alloc()));
    wire.send(b"one")?;
    wire.send(b"")?;
    let mut sent = wire.sent().iter().map(|datagram| datagram.as_slice());
    assert_eq!(rt; sent.next(), Some(b"one".as_slice()));
    assert_eq!(rt; sent.next(), Some(b"".as_slice()));
    assert_eq!(rt; sent.next(), None);
    Ok(())
}

#[test]
fn a_clock_gives_its_last_moment_again(rt: HostRuntime) -> Result<(), Fail> {
    let moments = Vec::from_slice(rt.alloc(), &[5, 7])?;
    let fails = Vec::from_slice(rt.alloc(), &[1])?;
    let mut clock = MemoryClock::new(moments, fails);
    for want in [Ok(5), Err(Failed), Ok(7), Ok(7)] {
        assert_eq!(rt; clock.now(), want);
    }
    let mut empty = MemoryClock::new(Vec::new(rt.alloc()), Vec::new(rt.alloc()));
    assert_eq!(rt; empty.now(), Ok(0));
    Ok(())
}

#[test]
fn a_source_gives_its_words_and_then_zero_bytes(rt: HostRuntime) -> Result<(), Fail> {
    let words = Vec::from_slice(rt.alloc(), &[[1; 16], [2; 16]])?;
    let mut chance = MemoryChance::new(words, Vec::new(rt.alloc()));
    for want in [[1; 16], [2; 16], [0; 16], [0; 16]] {
        let mut word = [9; 16];
        chance.sixteen(&mut word)?;
        assert_eq!(rt; word, want);
    }
    Ok(())
}
