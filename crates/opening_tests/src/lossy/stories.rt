//! Stories of two links over a bad network, of numbers far apart, and of a full inbox.

ghost use Rattle.std.specs.Prelude.{◌<◌, ◌^◌};

use super::{FIRST, SYN_ACK, hands_out, new_link, opened, posts, takes};
use carrier::{Post, Reason, Took};
use link_net::{ALL_TWICE, Fate, MIXED_UP, Way};
use lossy_mode::LossyCore;
use mt_base::{NoMemory, Role};
use std::alloc::Global;
use std::test::*;

/// The plan by which nine in ten datagrams are lost.
const NINE_LOST: [Fate; 10] = [
    Fate::Lose,
    Fate::Lose,
    Fate::Lose,
    Fate::Lose,
    Fate::Lose,
    Fate::Lose,
    Fate::Lose,
    Fate::Lose,
    Fate::Lose,
    Fate::Pass,
];

/// The plan by which the second and the third of four datagrams are lost.
const TWO_LOST: [Fate; 4] = [Fate::Pass, Fate::Lose, Fate::Lose, Fate::Pass];

/// The part 2,147,483,657 of one byte, which is 2^31 - 1 above the server's first part; the one above
/// it; and the part 4,294,967,305, which is 2^31 above the first of them.
const FAR: [u8; 17] = [
    0, 0, 0, 1, 0x00, 0x40, 0x00, 0x08, 0x80, 0, 0, 9, 0x80, 0, 0, 9, 0x42,
];

const TOO_FAR: [u8; 17] = [
    0, 0, 0, 1, 0x00, 0x40, 0x00, 0x08, 0x80, 0, 0, 10, 0x80, 0, 0, 10, 0x43,
];

const AROUND: [u8; 17] = [
    0, 0, 0, 1, 0x00, 0x40, 0x00, 0x08, 0, 0, 0, 9, 0, 0, 0, 9, 0x44,
];

/// What happens to two links that are open: the client has this initial number and sends so many parts
/// of one byte, 0 and so on, by this plan; and these come at the server.
#[derive(Clone, Copy)]
struct Story<'a> {
    initial: u32,
    plan: &'a [Fate],
    parts: u8,
    come: &'a [u8],
}

/// Lets one link take what the other one sends first.
fn carry(from: &mut LossyCore, to: &mut LossyCore) {
    let mut out = [0; 1232];
    if let Some(length) = from.poll(0, &mut out) {
        let _took = to.input(0, &out[..length]);
    }
}

/// Puts all on its way that the link sends.
fn send(link: &mut LossyCore, way: &mut Way) -> Result<(), NoMemory> {
    let mut out = [0; 1232];
    for _part in 0..64 {
        if let Some(length) = link.poll(0, &mut out) {
            way.carry(&out[..length], 0)?;
        }
    }
    Ok(())
}

/// Lets the link take all that has arrived at this moment.
fn receive(link: &mut LossyCore, way: &mut Way, now: u64)
    requires { now < 2 ^ 62 }
{
    for _part in 0..64 {
        if let Some(datagram) = way.arrived(now) {
            let _took = link.input(now, &datagram);
        }
    }
}

/// Whether the link hands out these parts, in this order, and no others.
fn hands_out_just(link: &mut LossyCore, parts: &[u8]) -> bool {
    for part in parts {
        if hands_out(link) != Some(*part) {
            return false;
        }
    }
    hands_out(link).is_none()
}

/// Whether the story ends as it says.
fn goes(alloc: Global, story: &Story) -> Result<bool, NoMemory> {
    let mut client = new_link(alloc, Role::Client, story.initial)?;
    let mut server = new_link(alloc, Role::Server, 9)?;
    carry(&mut client, &mut server);
    carry(&mut server, &mut client);
    carry(&mut client, &mut server);
    for part in 0..story.parts {
        let _ = posts(&mut client, part);
    }
    let mut way = Way::new(alloc, story.plan);
    send(&mut client, &mut way)?;
    receive(&mut server, &mut way, 10);
    receive(&mut server, &mut way, 40);
    Ok(hands_out_just(&mut server, story.come))
}

#[test]
fn parts_that_come_are_handed_out_once_and_in_order(rt: HostRuntime) -> Result<(), NoMemory> {
    let stories = [
        // all come
        Story {
            initial: 1,
            plan: &[],
            parts: 3,
            come: &[0, 1, 2],
        },
        // nine in ten are lost
        Story {
            initial: 1,
            plan: &NINE_LOST,
            parts: 40,
            come: &[9, 19, 29, 39],
        },
        // each comes twice
        Story {
            initial: 1,
            plan: &ALL_TWICE,
            parts: 3,
            come: &[0, 1, 2],
        },
        // the others come behind these
        Story {
            initial: 1,
            plan: &MIXED_UP,
            parts: 10,
            come: &[1, 3, 4, 6, 8, 9],
        },
        // the parts 2^32 - 2 to 2^32 + 1
        Story {
            initial: 4_294_967_293,
            plan: &TWO_LOST,
            parts: 4,
            come: &[0, 3],
        },
    ];
    for (place, story) in stories.iter().enumerate() {
        assert!(rt; goes(rt.alloc(), story)?, "story {place}");
    }
    Ok(())
}

#[test]
fn a_part_comes_after_almost_all_of_a_modulus(rt: HostRuntime) -> Result<(), NoMemory> {
    let mut client = opened(rt.alloc(), Role::Client, 1, &SYN_ACK)?;
    let unnumbered = Took::Ignored(Reason::Unnumbered);
    assert_eq!(rt; takes(&mut client, 10, &TOO_FAR), unnumbered);
    // the last one is 2^32 above the first, and shows the same number
    for part in [FIRST, FAR, AROUND, FIRST] {
        assert_eq!(rt; takes(&mut client, 10, &part), Took::Used);
    }
    let old = Took::Ignored(Reason::Old);
    assert_eq!(rt; takes(&mut client, 10, &FIRST), old);
    assert!(rt; hands_out_just(&mut client, &[0x41, 0x42, 0x44, 0x41]));
    Ok(())
}

/// What the link answers to the server's part of this low number, which is below 256.
fn takes_part(link: &mut LossyCore, number: u8) -> Took {
    let mut part = FIRST;
    part[11] = number;
    part[15] = number;
    takes(link, 10, &part)
}

#[test]
fn a_window_of_parts_waits_to_be_handed_out(rt: HostRuntime) -> Result<(), NoMemory> {
    let mut client = opened(rt.alloc(), Role::Client, 1, &SYN_ACK)?;
    for number in 10..74 {
        assert_eq!(rt; takes_part(&mut client, number), Took::Used);
    }
    let beyond = Took::Ignored(Reason::Beyond { limit: 64 });
    assert_eq!(rt; takes_part(&mut client, 74), beyond);
    assert_eq!(rt; hands_out(&mut client), Some(0x41));
    assert_eq!(rt; takes_part(&mut client, 74), Took::Used);
    Ok(())
}
