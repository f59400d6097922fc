//! What is refused, and what changes nothing.

use super::{PART_2, TELLS_2, goes};
use carrier::{GiveRefusal, LinkState, Reason, Refusal1};
use link_net::{Step, play};
use std::test::*;
use udp1_core::Udp1Core;

/// A forged telling settles nothing.
const A_FORGED_TELLING_SETTLES_NOTHING: [Step<'static>; 8] = [
    Step::Gives(1, &[0x41, 0x42]),
    // the parts 2 to 5, before any was sent
    Step::Uses(0, &[0, 0, 0, 5, 0, 0x40, 0, 4, 0, 1, 4, 0]),
    Step::Queued(2),
    Step::Due(0),
    Step::Sends(0, &PART_2),
    // the parts 3 to 5, of which none was sent
    Step::Uses(100, &[0, 0, 0, 5, 0, 0x40, 0, 4, 0, 1, 3, 0]),
    Step::Queued(2),
    Step::Expires(&[500]),
];

/// A vector with a bad state settles nothing.
const A_VECTOR_WITH_A_BAD_STATE_SETTLES_NOTHING: [Step<'static>; 5] = [
    Step::Gives(1, &[0x41, 0x42]),
    Step::SendsOne(0),
    Step::Ignores(
        10,
        &[0, 0, 0, 3, 0, 0x40, 0, 4, 0, 2, 1, 0x41],
        Reason::First(Refusal1::BadState { at: 11 }),
    ),
    Step::Queued(2),
    Step::Due(500),
];

/// An opening is not ours.
const AN_OPENING_IS_NOT_OURS: [Step<'static>; 5] = [
    Step::Ignores(
        10,
        &[
            0xff, 0xff, 0xff, 0xff, 0, 0x40, 0, 1, 0, 0, 0, 1, 4, 0xd0, 4, 0xd0,
        ],
        Reason::NotOurs,
    ),
    Step::Ignores(
        10,
        &[0, 0, 0, 1, 0, 0x40, 0, 5, 0, 0, 0, 1, 4, 0xd0, 4, 0xd0],
        Reason::NotOurs,
    ),
    Step::Silent(1_000),
    Step::NotDue,
    Step::Is(LinkState::Open),
];

/// What corrects errors is dropped and its telling used.
const WHAT_CORRECTS_ERRORS_IS_DROPPED_AND_ITS_TELLING_USED: [Step<'static>; 7] = [
    Step::Ignores(
        0,
        &[
            0, 0, 0, 1, 0, 0x40, 0, 0x18, 0, 0, 0, 2, 0, 0, 0, 2, 1, 0, 0, 0, 0x41,
        ],
        Reason::FecDropped,
    ),
    Step::NotDue,
    Step::Gives(1, &[0x41, 0x42]),
    Step::Sends(0, &PART_2),
    Step::Ignores(
        10,
        &[
            0, 0, 0, 2, 0, 0x40, 0, 0x1c, 0, 1, 1, 0, 0, 0, 0, 2, 0, 0, 0, 2, 1, 0, 0, 0, 0x41,
        ],
        Reason::FecDropped,
    ),
    Step::Queued(0),
    Step::NotDue,
];

/// A part beyond the window is not told.
const A_PART_BEYOND_THE_WINDOW_IS_NOT_TOLD: [Step<'static>; 5] = [
    Step::Ignores(
        10,
        &[0, 0, 0, 1, 0, 0x40, 0, 8, 0, 0, 0, 2, 0, 0, 0, 0x42],
        Reason::Beyond { limit: 66 },
    ),
    Step::Ignores(
        10,
        &[0, 0, 0, 1, 0, 0x40, 0, 8, 0, 0, 0, 2, 0x80, 0, 0, 1],
        Reason::Beyond { limit: 66 },
    ),
    Step::NotDue,
    Step::Uses(10, &[0, 0, 0, 1, 0, 0x40, 0, 8, 0, 0, 0, 2, 0, 0, 0, 0x41]),
    Step::Due(210),
];

/// A number that is near to none is not read.
const A_NUMBER_THAT_IS_NEAR_TO_NONE_IS_NOT_READ: [Step<'static>; 5] = [
    Step::Ignores(
        10,
        &[0, 0, 0, 1, 0, 0x40, 0, 8, 0, 0, 0, 2, 0x80, 0, 0, 2],
        Reason::Unnumbered,
    ),
    Step::Ignores(
        10,
        &[
            0, 0, 0, 1, 0, 0x40, 0, 8, 0, 0, 0, 2, 0xff, 0xff, 0xff, 0xff,
        ],
        Reason::Unnumbered,
    ),
    Step::NotDue,
    // a part before the first one is a copy
    Step::Uses(10, &[0, 0, 0, 1, 0, 0x40, 0, 8, 0, 0, 0, 2, 0, 0, 0, 1]),
    Step::Due(210),
];

/// A full queue takes no byte more.
const A_FULL_QUEUE_TAKES_NO_BYTE_MORE: [Step<'static>; 11] = [
    Step::Gives(512, &[1; 4_096]),
    Step::Queued(2_097_152),
    Step::Refuses(&[1], GiveRefusal::Full { queued: 2_097_152 }),
    Step::Gives(1, &[]),
    // a part that is sent counts until it is settled
    Step::SendsOne(0),
    Step::Refuses(&[1], GiveRefusal::Full { queued: 2_097_152 }),
    Step::Uses(10, &TELLS_2),
    Step::Queued(2_096_152),
    Step::Due(10),
    Step::Gives(1, &[1; 1_000]),
    Step::Refuses(&[1], GiveRefusal::Full { queued: 2_097_152 }),
];

#[test]
fn what_is_refused_changes_nothing(rt: HostRuntime) -> Result<(), Fail> {
    let stories: [(&str, &[Step]); 7] = [
        (
            "a forged telling settles nothing",
            &A_FORGED_TELLING_SETTLES_NOTHING,
        ),
        (
            "a vector with a bad state settles nothing",
            &A_VECTOR_WITH_A_BAD_STATE_SETTLES_NOTHING,
        ),
        ("an opening is not ours", &AN_OPENING_IS_NOT_OURS),
        (
            "what corrects errors is dropped and its telling used",
            &WHAT_CORRECTS_ERRORS_IS_DROPPED_AND_ITS_TELLING_USED,
        ),
        (
            "a part beyond the window is not told",
            &A_PART_BEYOND_THE_WINDOW_IS_NOT_TOLD,
        ),
        (
            "a number that is near to none is not read",
            &A_NUMBER_THAT_IS_NEAR_TO_NONE_IS_NOT_READ,
        ),
        (
            "a full queue takes no byte more",
            &A_FULL_QUEUE_TAKES_NO_BYTE_MORE,
        ),
    ];
    for (name, steps) in stories {
        assert_eq!(rt; goes(rt.alloc(), 1, steps)?, Ok(()), "{name}");
    }
    Ok(())
}

#[test]
fn a_datagram_has_1232_bytes_at_most(rt: HostRuntime) -> Result<(), Fail> {
    let mut datagram = [0x41; 1233];
    datagram[..16].copy_from_slice(&PART_2[..16]);
    let steps = [
        Step::Ignores(10, &datagram, Reason::TooLong),
        Step::NotDue,
        Step::Uses(10, &datagram[..1232]),
        Step::PullsMany(1_216),
    ];
    assert_eq!(rt; goes(rt.alloc(), 1, &steps)?, Ok(()));
    Ok(())
}

#[test]
fn a_link_that_starts_again_is_a_new_one(rt: HostRuntime) -> Result<(), Fail> {
    let mut link = Udp1Core::new(rt.alloc(), 1, 1, 0x0001)?;
    let before = [
        Step::Gives(1, &[1; 2_000]),
        Step::SendsOne(7_000),
        Step::Uses(7_000, &PART_2),
    ];
    assert_eq!(rt; play(&mut link, &before), Ok(()));
    link.start(4, 7, 0x0002);
    let after = [
        Step::Queued(0),
        Step::NotDue,
        Step::Is(LinkState::Open),
        Step::Pulls(&[]),
        Step::Silent(0),
        // the peer's part 8 is told of after 50 milliseconds, and the part 5 sent again after 300
        Step::Uses(10, &[0, 0, 0, 1, 0, 0x40, 0, 8, 0, 0, 0, 2, 0, 0, 0, 8]),
        Step::Due(60),
        Step::Sends(60, &[0, 0, 0, 8, 0, 0x40, 0, 4, 0, 1, 1, 0]),
        Step::Gives(1, &[0x61]),
        Step::Sends(
            60,
            &[0, 0, 0, 8, 0, 0x40, 0, 8, 0, 0, 0, 5, 0, 0, 0, 5, 0x61],
        ),
        Step::Due(360),
    ];
    assert_eq!(rt; play(&mut link, &after), Ok(()));
    Ok(())
}
