//! Links that offer version 0x0101, from their opening on.

ghost use Rattle.udp_open.specs.OpeningView.{IsOffered};

use carrier::{LinkState, Reason, Refusal2};
use link_net::{Step, Story, THIRD_LOST, Turn, UNRULY, play_both};
use mt_base::{Kind, NoMemory, Role};
use std::alloc::Global;
use std::test::*;
use udp_open::{OpenSettings, UdpLink, hash_cookie};

/// What the SYN of a client with version 0x0101 and the initial number 1 begins with: at its end
/// stands the hash of 16 zeros.
const SYN: [u8; 52] = [
    0xff, 0xff, 0xff, 0xff, 0x00, 0x40, 0x10, 0x01, 0, 0, 0, 1, 0x04, 0xd0, 0x04, 0xd0, 0, 1, 1, 1,
    0x37, 0x47, 0x08, 0xff, 0xf7, 0x71, 0x9d, 0xd5, 0x97, 0x9e, 0xc8, 0x75, 0xd5, 0x6c, 0xd2, 0x28,
    0x6f, 0x6d, 0x3c, 0xf7, 0xec, 0x31, 0x7a, 0x3b, 0x25, 0x63, 0x2a, 0xab, 0x28, 0xec, 0x37, 0xbb,
];

/// What a server with version 0x0101 and the initial number 9 answers it with.
const SYN_ACK: [u8; 20] = [
    0, 0, 0, 1, 0x00, 0x40, 0x10, 0x05, 0, 0, 0, 9, 0x04, 0xd0, 0x04, 0xd0, 0, 1, 1, 1,
];

/// A reliable link that offers this version.
fn link(alloc: Global, role: Role, initial: u32, version: u16) -> Result<UdpLink, NoMemory>
    requires { IsOffered version }
{
    let settings = OpenSettings {
        role,
        kind: Kind::Reliable,
        version,
        initial,
        cookie_hash: hash_cookie(&[0; 16]),
    };
    UdpLink::new(alloc, &settings)
}

/// The ends open; bytes are given before, and the SYN and its answer come twice.
const OPENS: [Turn<'static>; 10] = [
    Turn::Near(Step::Gives(1, &[0x41, 0x42])),
    Turn::Far(Step::Gives(1, &[0x43])),
    Turn::Near(Step::SendsFilled(0, &SYN)),
    Turn::Far(Step::UsesFilled(0, &SYN)),
    Turn::Far(Step::UsesFilled(1, &SYN)),
    Turn::Far(Step::SendsFilled(1, &SYN_ACK)),
    Turn::Far(Step::SendsFilled(1, &SYN_ACK)),
    Turn::Near(Step::UsesFilled(2, &SYN_ACK)),
    Turn::Near(Step::Is(LinkState::Open)),
    // a client has no ear for a copy: its prefix byte would be 0x05, with the short length 0
    Turn::Near(Step::IgnoresFilled(3, &SYN_ACK, Reason::Second(Refusal2::ShortLength { at: 0 }))),
];

/// The bytes come, and a copy of the SYN is answered among them.
const GOES_ON: [Turn<'static>; 8] = [
    Turn::There(3),
    Turn::Far(Step::Pulls(&[0x41, 0x42])),
    Turn::Back(3),
    Turn::Near(Step::Pulls(&[0x43])),
    Turn::Near(Step::Queued(0)),
    Turn::Far(Step::UsesFilled(4, &SYN)),
    Turn::Far(Step::SendsFilled(4, &SYN_ACK)),
    Turn::There(53),
];

#[test]
fn a_link_of_version_3_opens_and_goes_on(rt: HostRuntime) -> Result<(), Fail> {
    let mut client = link(rt.alloc(), Role::Client, 1, 0x0101)?;
    let mut server = link(rt.alloc(), Role::Server, 9, 0x0101)?;
    assert_eq!(rt; play_both(&mut client, &mut server, &OPENS), Ok(()));
    assert_eq!(rt; play_both(&mut client, &mut server, &GOES_ON), Ok(()));
    Ok(())
}

/// Whether all bytes arrive on a bad network between a client and a server that offer these.
fn arrives(alloc: Global, client: u16, server: u16) -> Result<bool, NoMemory>
    requires client { IsOffered client }
    requires server { IsOffered server }
{
    let story = Story {
        there: &UNRULY,
        back: &THIRD_LOST,
        near: 130,
        far: 70,
    };
    let near = link(alloc, Role::Client, 1, client)?;
    let far = link(alloc, Role::Server, 9, server)?;
    Ok(story.run(alloc, near, far)?.is_whole(&story))
}

#[test]
fn all_bytes_arrive_in_the_lower_version(rt: HostRuntime) -> Result<(), Fail> {
    assert!(rt; arrives(rt.alloc(), 0x0101, 0x0101)?);
    assert!(rt; arrives(rt.alloc(), 0x0002, 0x0101)?);
    assert!(rt; arrives(rt.alloc(), 0x0101, 0x0002)?);
    Ok(())
}
