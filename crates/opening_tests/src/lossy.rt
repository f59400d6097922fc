ghost use Rattle.std.specs.Prelude.{◌<◌, ◌^◌};

mod stories;

use carrier::{LinkState, Post, PostRefusal, Reason, Took};
use lossy_mode::*;
use mt_base::{Kind, NoMemory, Role};
use std::alloc::Global;
use std::test::*;
use udp_open::{OpenSettings, hash_cookie};

/// What a server with version 0x0002 and the initial number 9 answers it with.
const SYN_ACK: [u8; 20] = [
    0, 0, 0, 1, 0x00, 0x40, 0x12, 0x05, 0, 0, 0, 9, 0x04, 0xd0, 0x04, 0xd0, 0, 1, 0, 2,
];

/// The server's first part, of one byte: the last number received, the window, the flag DATA, and its
/// number twice.
const FIRST: [u8; 17] = [
    0, 0, 0, 1, 0x00, 0x40, 0x00, 0x08, 0, 0, 0, 10, 0, 0, 0, 10, 0x41,
];

/// Its third part.
const THIRD: [u8; 17] = [
    0, 0, 0, 1, 0x00, 0x40, 0x00, 0x08, 0, 0, 0, 12, 0, 0, 0, 12, 0x43,
];

/// What the client tells of it: neither of the two parts before it came.
const TOLD: [u8; 12] = [0, 0, 0, 12, 0x00, 0x40, 0x00, 0x04, 0, 2, 0xc2, 0x01];

/// Data of forward error correction.
const CORRECTION: [u8; 21] = [
    0, 0, 0, 1, 0x00, 0x40, 0x00, 0x18, 0, 0, 0, 13, 0, 0, 0, 13, 1, 0, 0, 0, 0x41,
];

fn new_link(alloc: Global, role: Role, initial: u32) -> Result<LossyCore, NoMemory> {
    LossyCore::new(
        alloc,
        &OpenSettings {
            role,
            kind: Kind::Lossy,
            version: 2,
            initial,
            cookie_hash: hash_cookie(&[0; 16]),
        },
    )
}

/// A datagram of 1,232 bytes that begins so, with zeros behind.
fn filled(front: &[u8]) -> [u8; 1232] {
    let mut datagram = [0; 1232];
    for (place, byte) in datagram.iter_mut().zip(front) {
        *place = *byte;
    }
    datagram
}

/// What the link answers to a datagram.
fn takes(link: &mut LossyCore, now: u64, datagram: &[u8]) -> Took
    requires { now < 2 ^ 62 }
{
    link.input(now, datagram)
}

/// Polls the link, and says whether it sends a datagram that begins so, with zeros behind.
fn sends(link: &mut LossyCore, now: u64, front: &[u8]) -> bool
    requires { now < 2 ^ 62 }
{
    let mut out = [0; 1232];
    link.poll(now, &mut out).is_some() && out == filled(front)
}

/// Polls the link, and says whether it sends nothing.
fn is_silent(link: &mut LossyCore, now: u64) -> bool
    requires { now < 2 ^ 62 }
{
    let mut out = [0; 1232];
    link.poll(now, &mut out).is_none()
}

/// What the link answers where a part of one byte is posted.
fn posts(link: &mut LossyCore, byte: u8) -> Result<(), PostRefusal> {
    link.post(&[byte])
}

/// The byte of the part that the link hands out.
fn hands_out(link: &mut LossyCore) -> Option<u8> {
    let mut out = [0; 1232];
    match link.next(&mut out) {
        Some(1) => Some(out[0]),
        _ => None,
    }
}

/// Opens the link by a datagram of the other end.
fn opened(alloc: Global, role: Role, initial: u32, by: &[u8]) -> Result<LossyCore, NoMemory> {
    let mut link = new_link(alloc, role, initial)?;
    let _ = takes(&mut link, 0, &filled(by));
    let _ = is_silent(&mut link, 0);
    Ok(link)
}

#[test]
fn no_part_comes_after_a_newer_one(rt: HostRuntime) -> Result<(), NoMemory> {
    let mut client = opened(rt.alloc(), Role::Client, 1, &SYN_ACK)?;
    let old = Took::Ignored(Reason::Old);
    assert_eq!(rt; takes(&mut client, 10, &THIRD), Took::Used);
    assert_eq!(rt; takes(&mut client, 10, &FIRST), old);
    assert_eq!(rt; takes(&mut client, 10, &THIRD), old);
    assert!(rt; is_silent(&mut client, 59));
    assert!(rt; sends(&mut client, 60, &TOLD));
    assert_eq!(rt; hands_out(&mut client), Some(0x43));
    assert_eq!(rt; hands_out(&mut client), None);
    Ok(())
}

#[test]
fn corrections_are_dropped(rt: HostRuntime) -> Result<(), NoMemory> {
    let mut client = opened(rt.alloc(), Role::Client, 1, &SYN_ACK)?;
    let dropped = Took::Ignored(Reason::FecDropped);
    assert_eq!(rt; takes(&mut client, 0, &CORRECTION), dropped);
    Ok(())
}

#[test]
fn a_window_of_parts_waits_to_be_sent(rt: HostRuntime) -> Result<(), NoMemory> {
    let mut client = new_link(rt.alloc(), Role::Client, 1)?;
    for _part in 0..64 {
        assert_eq!(rt; posts(&mut client, 0x41), Ok(()));
    }
    let full = Err(PostRefusal::Full { queued: 64 });
    assert_eq!(rt; posts(&mut client, 0x41), full);
    assert_eq!(rt; client.queued(), 64);
    Ok(())
}

#[test]
fn a_syn_that_is_never_answered_closes(rt: HostRuntime) -> Result<(), NoMemory> {
    let mut client = new_link(rt.alloc(), Role::Client, 1)?;
    assert_eq!(rt; client.next_due(), Some(0));
    for expiry in 0..17 {
        let _ = is_silent(&mut client, 8_000 * expiry);
    }
    assert_eq!(rt; client.state(), LinkState::Opening);
    assert_eq!(rt; client.next_due(), Some(136_000));
    assert!(rt; is_silent(&mut client, 136_000));
    let closed = Err(PostRefusal::Closed { expiries: 17 });
    assert_eq!(rt; posts(&mut client, 0x41), closed);
    assert_eq!(rt; client.state(), LinkState::Closed { expiries: 17 });
    Ok(())
}
