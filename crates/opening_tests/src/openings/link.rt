//! Links from their opening on.

use super::{OTHER_SYN, SYN, SYN_ACK};
use carrier::{Carrier, GiveRefusal, LinkState, Reason, Took};
use link_net::{Step, Turn, play, play_both, stories};
use mt_base::{Kind, NoMemory, Role};
use std::alloc::Global;
use std::test::*;
use udp_open::{OpenSettings, UdpLink, hash_cookie};

/// What the SYN of a client with version 0x0002 of a lossy link begins with.
const LOSSY_SYN: [u8; 20] = [
    0xff, 0xff, 0xff, 0xff, 0x00, 0x40, 0x12, 0x01, 0, 0, 0, 1, 0x04, 0xd0, 0x04, 0xd0, 0, 1, 0, 2,
];

/// What a SYN with version 0x0101 begins with, which goes on with a hash of zeros.
const HASHED_SYN: [u8; 20] = [
    0xff, 0xff, 0xff, 0xff, 0x00, 0x40, 0x10, 0x01, 0, 0, 0, 1, 0x04, 0xd0, 0x04, 0xd0, 0, 1, 1, 1,
];

/// What a server with version 0x0002 and the initial number 8 answers.
const OTHER_SYN_ACK: [u8; 20] = [
    0, 0, 0, 1, 0x00, 0x40, 0x10, 0x05, 0, 0, 0, 8, 0x04, 0xd0, 0x04, 0xd0, 0, 1, 0, 2,
];

/// A reliable link of version 0x0002.
fn link(alloc: Global, role: Role, initial: u32) -> Result<UdpLink, NoMemory> {
    let settings = OpenSettings {
        role,
        kind: Kind::Reliable,
        version: 2,
        initial,
        cookie_hash: hash_cookie(&[0; 16]),
    };
    UdpLink::new(alloc, &settings)
}

/// Goes through these turns at a new client and a new server; the inner `Err` has the place of the
/// first that does not hold.
fn go(
    alloc: Global,
    client: u32,
    server: u32,
    turns: &[Turn],
) -> Result<Result<(), usize>, NoMemory> {
    let mut client = link(alloc, Role::Client, client)?;
    let mut server = link(alloc, Role::Server, server)?;
    Ok(play_both(&mut client, &mut server, turns))
}

/// Goes through these steps at a new client.
fn client_goes(alloc: Global, steps: &[Step]) -> Result<Result<(), usize>, NoMemory> {
    let mut client = link(alloc, Role::Client, 1)?;
    Ok(play(&mut client, steps))
}

/// Whether the bytes that the server sends at 511 end with 0x43, and come too early to the client.
fn early_bytes<C: Carrier>(client: &mut C, server: &mut C) -> bool {
    let mut datagram = [0; 1232];
    match server.poll(511, &mut datagram) {
        Some(length) => {
            datagram[..length].last() == Some(&0x43)
                && client.input(520, &datagram[..length]) == Took::Ignored(Reason::NotOpen)
        }
        None => false,
    }
}

/// The moments at which a SYN comes again that is never answered.
const MOMENTS: [u32; 16] = [
    500, 1_500, 3_500, 7_500, 15_500, 23_500, 31_500, 39_500, 47_500, 55_500, 63_500, 71_500,
    79_500, 87_500, 95_500, 103_500,
];

/// A link whose SYN is never answered closes.
const ITS_SYN_IS_NEVER_ANSWERED: [Step<'static>; 9] = [
    Step::Gives(1, &[0x41]),
    Step::SendsFilled(0, &SYN),
    Step::Expires(&MOMENTS),
    Step::Is(LinkState::Opening),
    Step::Closes(111_500, 17),
    Step::Refuses(&[0x41], GiveRefusal::Closed { expiries: 17 }),
    Step::IgnoresFilled(111_501, &SYN_ACK, Reason::LinkClosed),
    Step::NotDue,
    Step::Silent(1_000_000),
];

/// An open link that hears nothing closes.
const IT_HEARS_NOTHING: [Step<'static>; 10] = [
    Step::SendsFilled(0, &SYN),
    Step::UsesFilled(0, &SYN_ACK),
    Step::Gives(1, &[0x41]),
    Step::DoesWhatIsDue(17),
    Step::Is(LinkState::Open),
    Step::DoesWhatIsDue(1),
    Step::Is(LinkState::Closed { expiries: 17 }),
    Step::NotDue,
    Step::IgnoresFilled(1_000_000, &SYN_ACK, Reason::LinkClosed),
    Step::Refuses(&[0x41], GiveRefusal::Closed { expiries: 17 }),
];

#[test]
fn a_link_closes(rt: HostRuntime) -> Result<(), Fail> {
    assert_eq!(rt;
        client_goes(rt.alloc(), &ITS_SYN_IS_NEVER_ANSWERED)?,
        Ok(())
    );
    assert_eq!(rt; client_goes(rt.alloc(), &IT_HEARS_NOTHING)?, Ok(()));
    Ok(())
}

/// Bytes are given before the ends have agreed.
const OPENS: [Turn<'static>; 16] = [
    Turn::Near(Step::Gives(1, &[0x41, 0x42])),
    Turn::Far(Step::Gives(1, &[0x43])),
    Turn::Near(Step::Is(LinkState::Opening)),
    Turn::Near(Step::Queued(2)),
    Turn::Near(Step::Pulls(&[])),
    Turn::Near(Step::Due(0)),
    Turn::Far(Step::NotDue),
    // the first SYN is lost, and the second one comes twice
    Turn::Near(Step::SendsFilled(0, &SYN)),
    Turn::Near(Step::Due(500)),
    Turn::Near(Step::SendsFilled(500, &SYN)),
    Turn::Far(Step::UsesFilled(510, &SYN)),
    Turn::Far(Step::Is(LinkState::Open)),
    Turn::Far(Step::UsesFilled(511, &SYN)),
    // so the server answers twice, and then it sends its bytes
    Turn::Far(Step::Due(511)),
    Turn::Far(Step::SendsFilled(511, &SYN_ACK)),
    Turn::Far(Step::SendsFilled(511, &SYN_ACK)),
];

/// The ends agree, and the bytes come.
const GOES_ON: [Turn<'static>; 12] = [
    // they come before the answer, and then the answer comes twice
    Turn::Near(Step::UsesFilled(530, &SYN_ACK)),
    Turn::Near(Step::Is(LinkState::Open)),
    Turn::There(530),
    Turn::Far(Step::Pulls(&[0x41, 0x42])),
    Turn::Near(Step::UsesFilled(540, &SYN_ACK)),
    Turn::Near(Step::Due(540)),
    // the server's bytes come again after 300 milliseconds
    Turn::There(540),
    Turn::Back(811),
    Turn::Near(Step::Pulls(&[0x43])),
    Turn::There(861),
    Turn::Near(Step::Queued(0)),
    Turn::Far(Step::Queued(0)),
];

#[test]
fn bytes_given_early_go_over_a_bad_network(rt: HostRuntime) -> Result<(), Fail> {
    let mut client = link(rt.alloc(), Role::Client, 1)?;
    let mut server = link(rt.alloc(), Role::Server, 9)?;
    assert_eq!(rt; play_both(&mut client, &mut server, &OPENS), Ok(()));
    assert!(rt; early_bytes(&mut client, &mut server));
    assert_eq!(rt; play_both(&mut client, &mut server, &GOES_ON), Ok(()));
    Ok(())
}

/// Datagrams of strangers are ignored, and the link opens.
const STRANGERS: [Turn<'static>; 12] = [
    Turn::Far(Step::IgnoresFilled(0, &LOSSY_SYN, Reason::WrongKind)),
    Turn::Far(Step::IgnoresFilled(0, &HASHED_SYN, Reason::UnknownCookie)),
    Turn::Far(Step::Is(LinkState::Opening)),
    Turn::Far(Step::Silent(0)),
    Turn::There(0),
    Turn::Far(Step::IgnoresFilled(0, &OTHER_SYN, Reason::NotOurs)),
    Turn::Back(0),
    Turn::Near(Step::IgnoresFilled(0, &OTHER_SYN_ACK, Reason::NotOurs)),
    Turn::Near(Step::IgnoresFilled(0, &SYN, Reason::NotOurs)),
    Turn::Near(Step::Gives(1, &[0x41])),
    Turn::There(0),
    Turn::Far(Step::Pulls(&[0x41])),
];

#[test]
fn strangers_do_not_disturb_a_link(rt: HostRuntime) -> Result<(), Fail> {
    assert_eq!(rt; go(rt.alloc(), 1, 9, &STRANGERS)?, Ok(()));
    Ok(())
}

/// The opening, and then these bytes in three parts each way.
fn crossing(text: &[u8]) -> [Turn<'_>; 12] {
    [
        Turn::Near(Step::Gives(1, text)),
        Turn::Far(Step::Gives(1, text)),
        Turn::There(0),
        Turn::Back(0),
        Turn::There(0),
        Turn::Back(0),
        Turn::There(1),
        Turn::Back(1),
        Turn::There(2),
        Turn::Back(2),
        Turn::Far(Step::Pulls(text)),
        Turn::Near(Step::Pulls(text)),
    ]
}

#[test]
fn numbers_wrap_among_the_first_parts(rt: HostRuntime) -> Result<(), Fail> {
    let mut text = [0; 2500];
    for (place, byte) in (0..=255).cycle().zip(text.iter_mut()) {
        *byte = place;
    }
    let turns = crossing(&text);
    for initial in [0, 1, 4_294_967_294, 4_294_967_295] {
        let server = 4_294_967_295 - initial;
        assert_eq!(rt;
            go(rt.alloc(), initial, server, &turns)?,
            Ok(()),
            "{initial}"
        );
    }
    Ok(())
}

#[test]
fn all_bytes_arrive_from_the_opening_on(rt: HostRuntime) -> Result<(), Fail> {
    for (place, story) in stories().iter().enumerate() {
        let client = link(rt.alloc(), Role::Client, 1)?;
        let server = link(rt.alloc(), Role::Server, 9)?;
        let ending = story.run(rt.alloc(), client, server)?;
        assert!(rt; ending.is_whole(story), "story {place}");
    }
    Ok(())
}
