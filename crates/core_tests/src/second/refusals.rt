//! What is refused, and what changes nothing.

use super::{PART_1, TELLS_1, goes};
use carrier::{GiveRefusal, LinkState, Reason, Refusal2};
use link_net::{Step, play};
use mt_base::Short;
use std::test::*;
use udp2_core::Udp2Core;

/// A forged telling settles nothing.
const A_FORGED_TELLING_SETTLES_NOTHING: [Step<'static>; 8] = [
    Step::Gives(1, &[0x41, 0x42]),
    // the transmissions 1 to 4, before any was made
    Step::Uses(0, &[0, 0x01, 0x60, 4, 0, 0, 0, 0xe0, 0, 3, 0, 0, 0]),
    Step::Queued(2),
    Step::Due(0),
    Step::Sends(0, &PART_1),
    // the transmissions 2 to 64, of which none was made
    Step::Uses(100, &[0, 0x08, 0x60, 2, 0, 1, 0xff, 0xc0]),
    Step::Queued(2),
    Step::Expires(&[300]),
];

/// What is no packet has no effect.
const WHAT_IS_NO_PACKET_HAS_NO_EFFECT: [Step<'static>; 5] = [
    Step::Ignores(
        10,
        &[0x41, 0x04, 0x60, 1, 0, 1, 0],
        Reason::Second(Refusal2::Short(Short { at: 0, need: 8 })),
    ),
    // an opening of the first layout
    Step::Ignores(
        10,
        &[
            0xff, 0xff, 0xff, 0xff, 0, 0x40, 0, 1, 0, 0, 0, 1, 4, 0xd0, 4, 0xd0,
        ],
        Reason::Second(Refusal2::ShortLength { at: 0 }),
    ),
    Step::Silent(1_000),
    Step::NotDue,
    Step::Is(LinkState::Open),
];

/// Two tellings at once are none.
const TWO_TELLINGS_AT_ONCE_ARE_NONE: [Step<'static>; 5] = [
    Step::Gives(1, &[0x41, 0x42]),
    Step::SendsOne(0),
    Step::Ignores(
        10,
        &[0, 0x09, 0x60, 1, 0, 0, 0, 0xe0, 0, 0, 1, 0, 1, 0xc1],
        Reason::Second(Refusal2::AckAndVector { at: 1 }),
    ),
    Step::Queued(2),
    Step::Due(300),
];

/// A part beyond the window is not told.
const A_PART_BEYOND_THE_WINDOW_IS_NOT_TOLD: [Step<'static>; 4] = [
    Step::Ignores(
        10,
        &[0x41, 0x04, 0x60, 1, 0, 0x41, 0, 0xe0],
        Reason::Beyond { limit: 65 },
    ),
    Step::NotDue,
    Step::Uses(10, &[0x41, 0x04, 0x60, 1, 0, 0x40, 0, 0xe0]),
    Step::Due(60),
];

/// A number that is near to none is not read.
const A_NUMBER_THAT_IS_NEAR_TO_NONE_IS_NOT_READ: [Step<'static>; 8] = [
    Step::Ignores(
        10,
        &[0x41, 0x04, 0x60, 1, 0, 1, 0x80, 0xe0],
        Reason::Unnumbered,
    ),
    Step::Ignores(
        10,
        &[0x41, 0x04, 0x60, 1, 0, 0xff, 0xff, 0xe0],
        Reason::Unnumbered,
    ),
    Step::Ignores(
        10,
        &[0x41, 0x04, 0x60, 0, 0x80, 1, 0, 0xe0],
        Reason::Unnumbered,
    ),
    Step::Ignores(
        10,
        &[0x41, 0x04, 0x60, 0xff, 0xff, 1, 0, 0xe0],
        Reason::Unnumbered,
    ),
    // a dummy under the transmission 0x8000
    Step::Ignores(10, &[9, 4, 0x60, 0, 0x80, 9, 9, 0xf0], Reason::Unnumbered),
    Step::NotDue,
    // a part before the first one is a copy
    Step::Uses(10, &[0x41, 0x04, 0x60, 1, 0, 0, 0, 0xe0]),
    Step::Due(60),
];

/// A full queue takes no byte more.
const A_FULL_QUEUE_TAKES_NO_BYTE_MORE: [Step<'static>; 11] = [
    Step::Gives(512, &[1; 4_096]),
    Step::Queued(2_097_152),
    Step::Refuses(&[1], GiveRefusal::Full { queued: 2_097_152 }),
    Step::Gives(1, &[]),
    // a part that is sent counts until it is settled
    Step::SendsOne(0),
    Step::Refuses(&[1], GiveRefusal::Full { queued: 2_097_152 }),
    Step::Uses(10, &TELLS_1),
    Step::Queued(2_096_152),
    Step::Due(10),
    Step::Gives(1, &[1; 1_000]),
    Step::Refuses(&[1], GiveRefusal::Full { queued: 2_097_152 }),
];

#[test]
fn what_is_refused_changes_nothing(rt: HostRuntime) -> Result<(), Fail> {
    let stories: [(&str, &[Step]); 6] = [
        (
            "a forged telling settles nothing",
            &A_FORGED_TELLING_SETTLES_NOTHING,
        ),
        (
            "what is no packet has no effect",
            &WHAT_IS_NO_PACKET_HAS_NO_EFFECT,
        ),
        (
            "two tellings at once are none",
            &TWO_TELLINGS_AT_ONCE_ARE_NONE,
        ),
        (
            "a part beyond the window is not told",
            &A_PART_BEYOND_THE_WINDOW_IS_NOT_TOLD,
        ),
        (
            "a number that is near to none is not read",
            &A_NUMBER_THAT_IS_NEAR_TO_NONE_IS_NOT_READ,
        ),
        (
            "a full queue takes no byte more",
            &A_FULL_QUEUE_TAKES_NO_BYTE_MORE,
        ),
    ];
    for (name, steps) in stories {
        assert_eq!(rt; goes(rt.alloc(), steps)?, Ok(()), "{name}");
    }
    Ok(())
}

#[test]
fn a_datagram_has_1232_bytes_at_most(rt: HostRuntime) -> Result<(), Fail> {
    let mut datagram = [0x41; 1233];
    datagram[..9].copy_from_slice(&PART_1);
    let steps = [
        Step::Ignores(10, &datagram, Reason::TooLong),
        Step::NotDue,
        Step::Uses(10, &datagram[..1232]),
        Step::PullsMany(1_225),
    ];
    assert_eq!(rt; goes(rt.alloc(), &steps)?, Ok(()));
    Ok(())
}

#[test]
fn a_link_that_starts_again_is_a_new_one(rt: HostRuntime) -> Result<(), Fail> {
    let mut link = Udp2Core::new(rt.alloc())?;
    let before = [
        Step::Gives(1, &[1; 2_000]),
        Step::SendsOne(7_000),
        Step::Uses(7_000, &PART_1),
    ];
    assert_eq!(rt; play(&mut link, &before), Ok(()));
    link.start();
    let after = [
        Step::Queued(0),
        Step::NotDue,
        Step::Is(LinkState::Open),
        Step::Pulls(&[]),
        Step::Silent(0),
        Step::Gives(1, &[0x41, 0x42]),
        Step::Sends(0, &PART_1),
        Step::Due(300),
    ];
    assert_eq!(rt; play(&mut link, &after), Ok(()));
    Ok(())
}
