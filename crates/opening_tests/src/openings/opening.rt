//! Openings, without what comes after them.

ghost use Rattle.std.specs.Prelude.{◌<◌, ◌^◌};
ghost use Rattle.udp_open.specs.OpeningView.{IsOffered};

use super::{OTHER_SYN, SYN, SYN_ACK};
use carrier::{Reason, Refusal1, Took};
use link_net::filled;
use mt_base::{Kind, Role, Short};
use std::test::*;
use udp_open::{OpenEnd, OpenSettings, Opening, hash_cookie};

/// What the SYN of a client with version 0x0101 and the initial number 1 begins with: it shows the hash
/// of a cookie of 16 zeros.
const SYN_3: [u8; 52] = [
    0xff, 0xff, 0xff, 0xff, 0x00, 0x40, 0x10, 0x01, 0, 0, 0, 1, 0x04, 0xd0, 0x04, 0xd0, 0, 1, 1, 1,
    0x37, 0x47, 0x08, 0xff, 0xf7, 0x71, 0x9d, 0xd5, 0x97, 0x9e, 0xc8, 0x75, 0xd5, 0x6c, 0xd2, 0x28,
    0x6f, 0x6d, 0x3c, 0xf7, 0xec, 0x31, 0x7a, 0x3b, 0x25, 0x63, 0x2a, 0xab, 0x28, 0xec, 0x37, 0xbb,
];

/// The same with the hash of another cookie.
const OTHER_SYN_3: [u8; 52] = [
    0xff, 0xff, 0xff, 0xff, 0x00, 0x40, 0x10, 0x01, 0, 0, 0, 1, 0x04, 0xd0, 0x04, 0xd0, 0, 1, 1, 1,
    0x37, 0x47, 0x08, 0xff, 0xf7, 0x71, 0x9d, 0xd5, 0x97, 0x9e, 0xc8, 0x75, 0xd5, 0x6c, 0xd2, 0x28,
    0x6f, 0x6d, 0x3c, 0xf7, 0xec, 0x31, 0x7a, 0x3b, 0x25, 0x63, 0x2a, 0xab, 0x28, 0xec, 0x37, 0xba,
];

/// What a server with version 0x0101 and the initial number 9 answers.
const SYN_ACK_3: [u8; 20] = [
    0, 0, 0, 1, 0x00, 0x40, 0x10, 0x05, 0, 0, 0, 9, 0x04, 0xd0, 0x04, 0xd0, 0, 1, 1, 1,
];

/// The same of the initial number 8.
const OTHER_SYN_ACK_3: [u8; 20] = [
    0, 0, 0, 1, 0x00, 0x40, 0x10, 0x05, 0, 0, 0, 8, 0x04, 0xd0, 0x04, 0xd0, 0, 1, 1, 1,
];

/// What answers the SYN of a client with the initial number 2.
const STRANGER: [u8; 20] = [
    0, 0, 0, 2, 0x00, 0x40, 0x10, 0x05, 0, 0, 0, 9, 0x04, 0xd0, 0x04, 0xd0, 0, 1, 0, 2,
];

/// The SYN of a client of a lossy link with version 0x0001 and the initial number 0, and its answer
/// by a server with the initial number 4,294,967,295.
const SYN_1: [u8; 16] = [
    0xff, 0xff, 0xff, 0xff, 0x00, 0x40, 0x02, 0x01, 0, 0, 0, 0, 0x04, 0xd0, 0x04, 0xd0,
];

const SYN_ACK_1: [u8; 16] = [
    0, 0, 0, 0, 0x00, 0x40, 0x02, 0x05, 0xff, 0xff, 0xff, 0xff, 0x04, 0xd0, 0x04, 0xd0,
];

/// A datagram with a head and no more, and one that is cut short.
const BARE: [u8; 8] = [0, 0, 0, 1, 0, 0x40, 0, 0];

const CUT: [u8; 5] = [0, 0, 0, 1, 0];

/// What is done with an opening, and how it answers. Moments are in milliseconds, and a datagram is
/// one of 1,232 bytes that begins so and goes on with zeros.
#[derive(Clone, Copy)]
enum Act<'a> {
    /// At this moment this datagram comes, and is used.
    Uses(u32, &'a [u8]),
    /// At this moment this datagram comes, and is ignored for this reason.
    Ignores(u32, &'a [u8], Reason),
    /// At this moment a datagram of just these bytes comes, and is ignored for this reason.
    IgnoresJust(u32, &'a [u8], Reason),
    /// At this moment it sends just this datagram.
    Sends(u32, &'a [u8]),
    /// At each of these moments it sends just this datagram, and has that moment as the next one.
    SendsEach(&'a [u32], &'a [u8]),
    /// At this moment it sends nothing.
    Silent(u32),
    /// This is the next moment at which something is due.
    Due(u64),
    /// Nothing is due.
    NotDue,
    /// So many expiries came in a row.
    Expiries(u32),
    /// The ends have not agreed.
    Waits,
    /// The ends agreed on this version, and this is the other one's initial number.
    Agrees(u16, u32),
}

/// Whether the opening sends just a datagram that begins so, with zeros behind.
fn sends(opening: &mut Opening, now: u64, front: &[u8]) -> bool
    requires { now < 2 ^ 62 }
{
    let mut out = [0xaa; 1232];
    opening.poll(now, &mut out) == Some(1232) && out == filled(front)
}

/// Whether the opening sends just such a datagram at each of these moments.
fn sends_each(opening: &mut Opening, moments: &[u32], front: &[u8]) -> bool {
    for at in moments {
        let moment = u64::from(*at);
        if opening.next_due() != Some(moment) || !sends(opening, moment, front) {
            return false;
        }
    }
    true
}

/// Whether the opening sends nothing.
fn is_silent(opening: &mut Opening, now: u64) -> bool
    requires { now < 2 ^ 62 }
{
    opening.poll(now, &mut [0; 1232]).is_none()
}

/// Whether the opening answers so.
fn holds(opening: &mut Opening, act: Act) -> bool {
    match act {
        Act::Uses(at, front) => opening.input(u64::from(at), &filled(front)) == Took::Used,
        Act::Ignores(at, front, reason) => {
            opening.input(u64::from(at), &filled(front)) == Took::Ignored(reason)
        }
        Act::IgnoresJust(at, bytes, reason) => {
            opening.input(u64::from(at), bytes) == Took::Ignored(reason)
        }
        Act::Sends(at, front) => sends(opening, u64::from(at), front),
        Act::SendsEach(moments, front) => sends_each(opening, moments, front),
        Act::Silent(at) => is_silent(opening, u64::from(at)),
        Act::Due(at) => opening.next_due() == Some(at),
        Act::NotDue => opening.next_due().is_none(),
        Act::Expiries(count) => opening.expiries() == count,
        Act::Waits => opening.end() == OpenEnd::Waiting,
        Act::Agrees(version, peer_initial) => {
            let agreed = OpenEnd::Agreed {
                version,
                peer_initial,
            };
            opening.end() == agreed
        }
    }
}

/// Goes through these acts at an opening up to the first that does not hold; `Err` has its place.
fn play(opening: &mut Opening, acts: &[Act]) -> Result<(), usize> {
    for (place, act) in acts.iter().enumerate() {
        if !holds(opening, *act) {
            return Err(place);
        }
    }
    Ok(())
}

/// Goes through these acts at a new opening of this version.
fn goes(role: Role, kind: Kind, version: u16, initial: u32, acts: &[Act]) -> Result<(), usize>
    requires { IsOffered version }
{
    let mut opening = Opening::new(&OpenSettings {
        role,
        kind,
        version,
        initial,
        cookie_hash: hash_cookie(&[0; 16]),
    });
    play(&mut opening, acts)
}

/// The same for a client of a reliable link that has version 0x0002 and the initial number 1.
fn client_goes(acts: &[Act]) -> Result<(), usize> {
    goes(Role::Client, Kind::Reliable, 2, 1, acts)
}

/// The same for a server of a reliable link that has version 0x0002 and the initial number 9.
fn server_goes(acts: &[Act]) -> Result<(), usize> {
    goes(Role::Server, Kind::Reliable, 2, 9, acts)
}

/// A client agrees with its server.
const A_CLIENT_AGREES: [Act<'static>; 6] = [
    Act::Waits,
    Act::Sends(0, &SYN),
    Act::Uses(0, &SYN_ACK),
    Act::Agrees(2, 9),
    Act::Silent(1_000_000),
    Act::NotDue,
];

/// An answer names the SYN.
const AN_ANSWER_NAMES_THE_SYN: [Act<'static>; 6] = [
    Act::Ignores(0, &STRANGER, Reason::BadAnswer),
    Act::Ignores(0, &SYN_ACK_3, Reason::BadAnswer),
    Act::Ignores(0, &SYN, Reason::NotOpen),
    Act::Uses(0, &SYN_ACK),
    Act::Uses(0, &SYN_ACK),
    Act::Ignores(0, &OTHER_SYN_ACK_3, Reason::NotOurs),
];

/// A SYN that is lost comes again.
const A_SYN_THAT_IS_LOST_COMES_AGAIN: [Act<'static>; 12] = [
    Act::Due(0),
    Act::Sends(3, &SYN),
    Act::Silent(502),
    Act::Sends(503, &SYN),
    Act::Expiries(1),
    Act::Silent(1502),
    Act::Sends(1503, &SYN),
    Act::Expiries(2),
    Act::Due(3503),
    Act::Uses(1600, &SYN_ACK),
    Act::Expiries(0),
    Act::Silent(3503),
];

/// The moments at which a SYN is sent that is never answered.
const MOMENTS: [u32; 17] = [
    0, 500, 1500, 3500, 7500, 15500, 23500, 31500, 39500, 47500, 55500, 63500, 71500, 79500, 87500,
    95500, 103500,
];

/// A SYN that is never answered closes.
const A_SYN_THAT_IS_NEVER_ANSWERED_CLOSES: [Act<'static>; 11] = [
    Act::SendsEach(&MOMENTS, &SYN),
    Act::Silent(111499),
    Act::Expiries(16),
    Act::Ignores(111499, &SYN, Reason::NotOpen),
    Act::Due(111500),
    Act::Silent(111500),
    Act::Expiries(17),
    Act::NotDue,
    Act::Ignores(111501, &SYN_ACK, Reason::LinkClosed),
    Act::Waits,
    Act::Silent(1_000_000),
];

/// A server agrees with its client.
const A_SERVER_AGREES: [Act<'static>; 4] = [
    Act::NotDue,
    Act::Uses(0, &SYN),
    Act::Sends(0, &SYN_ACK),
    Act::Agrees(2, 1),
];

/// Another SYN is not ours.
const ANOTHER_SYN_IS_NOT_OURS: [Act<'static>; 2] = [
    Act::Uses(0, &SYN),
    Act::Ignores(0, &OTHER_SYN, Reason::NotOurs),
];

/// A cookie is known by its hash.
const A_COOKIE_IS_KNOWN_BY_ITS_HASH: [Act<'static>; 3] = [
    Act::Ignores(0, &OTHER_SYN_3, Reason::UnknownCookie),
    Act::Uses(0, &SYN_3),
    Act::Sends(0, &SYN_ACK),
];

/// Each copy is answered once.
const EACH_COPY_IS_ANSWERED_ONCE: [Act<'static>; 9] = [
    Act::Uses(5, &SYN),
    Act::Uses(7, &SYN),
    Act::Due(7),
    Act::Sends(8, &SYN_ACK),
    Act::Sends(8, &SYN_ACK),
    Act::Silent(1_000_000),
    Act::Uses(1_000_000, &SYN),
    Act::Sends(1_000_000, &SYN_ACK),
    Act::Silent(1_000_000),
];

/// Nothing else opens.
const NOTHING_ELSE_OPENS: [Act<'static>; 6] = [
    Act::Ignores(0, &SYN_ACK, Reason::NotOpen),
    Act::IgnoresJust(0, &BARE, Reason::NotOpen),
    Act::IgnoresJust(0, &[0; 1233], Reason::TooLong),
    Act::IgnoresJust(
        0,
        &CUT,
        Reason::First(Refusal1::Short(Short { at: 4, need: 2 })),
    ),
    Act::Uses(0, &SYN),
    Act::IgnoresJust(0, &BARE, Reason::NotOurs),
];

#[test]
fn a_client_opens(rt: HostRuntime) {
    let stories: [(&str, &[Act]); 4] = [
        ("a client agrees", &A_CLIENT_AGREES),
        ("an answer names the syn", &AN_ANSWER_NAMES_THE_SYN),
        (
            "a syn that is lost comes again",
            &A_SYN_THAT_IS_LOST_COMES_AGAIN,
        ),
        (
            "a syn that is never answered closes",
            &A_SYN_THAT_IS_NEVER_ANSWERED_CLOSES,
        ),
    ];
    for (name, acts) in stories {
        assert_eq!(rt; client_goes(acts), Ok(()), "{name}");
    }
}

#[test]
fn a_server_opens(rt: HostRuntime) {
    let stories: [(&str, &[Act]); 5] = [
        ("a server agrees", &A_SERVER_AGREES),
        ("another syn is not ours", &ANOTHER_SYN_IS_NOT_OURS),
        (
            "a cookie is known by its hash",
            &A_COOKIE_IS_KNOWN_BY_ITS_HASH,
        ),
        ("each copy is answered once", &EACH_COPY_IS_ANSWERED_ONCE),
        ("nothing else opens", &NOTHING_ELSE_OPENS),
    ];
    for (name, acts) in stories {
        assert_eq!(rt; server_goes(acts), Ok(()), "{name}");
    }
}

#[test]
fn both_ends_agree_on_the_last_version(rt: HostRuntime) {
    assert!(rt; hash_cookie(&[0; 16]).as_slice() == &SYN_3[20..52]);
    let client = [
        Act::Sends(0, &SYN_3),
        Act::Uses(0, &SYN_ACK_3),
        Act::Agrees(0x0101, 9),
    ];
    assert_eq!(rt;
        goes(Role::Client, Kind::Reliable, 0x0101, 1, &client),
        Ok(())
    );
    let server = [Act::Uses(0, &SYN_3), Act::Sends(0, &SYN_ACK_3)];
    assert_eq!(rt;
        goes(Role::Server, Kind::Reliable, 0x0101, 9, &server),
        Ok(())
    );
}

#[test]
fn the_first_version_is_not_named(rt: HostRuntime) {
    let client = [
        Act::Sends(0, &SYN_1),
        Act::Uses(0, &SYN_ACK_1),
        Act::Agrees(1, 4_294_967_295),
    ];
    assert_eq!(rt; goes(Role::Client, Kind::Lossy, 1, 0, &client), Ok(()));
    let server = [Act::Uses(0, &SYN_1), Act::Sends(0, &SYN_ACK_1)];
    assert_eq!(rt;
        goes(Role::Server, Kind::Lossy, 2, 4_294_967_295, &server),
        Ok(())
    );
}

#[test]
fn a_link_of_the_other_kind_does_not_open(rt: HostRuntime) {
    let acts = [Act::Ignores(0, &SYN, Reason::WrongKind)];
    assert_eq!(rt; goes(Role::Server, Kind::Lossy, 2, 9, &acts), Ok(()));
}
