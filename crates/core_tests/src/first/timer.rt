//! When a part is sent again, and when the link closes.

use super::{PART_2, TELLS_2, goes};
use carrier::{GiveRefusal, LinkState, Reason};
use link_net::Step;
use std::test::*;

/// Sixteen expiries of version 1: after 500, 1000, 2000, 4000 and then each time 8000 milliseconds.
const EXPIRIES_1: [u32; 16] = [
    500, 1_500, 3_500, 7_500, 15_500, 23_500, 31_500, 39_500, 47_500, 55_500, 63_500, 71_500,
    79_500, 87_500, 95_500, 103_500,
];

/// Sixteen expiries of version 2: after 300, 600, 1200, 2400 and then each time 4800 milliseconds.
const EXPIRIES_2: [u32; 16] = [
    300, 900, 2_100, 4_500, 9_300, 14_100, 18_900, 23_700, 28_500, 33_300, 38_100, 42_900, 47_700,
    52_500, 57_300, 62_100,
];

/// A part is sent again after half a second.
const A_PART_IS_SENT_AGAIN_AFTER_HALF_A_SECOND: [Step<'static>; 6] = [
    Step::Gives(1, &[0x41, 0x42]),
    Step::Sends(0, &PART_2),
    Step::Due(500),
    Step::Queued(2),
    Step::Silent(499),
    Step::Sends(
        500,
        &[
            0, 0, 0, 1, 0, 0x40, 1, 8, 0, 0, 0, 2, 0, 0, 0, 3, 0, 0, 0, 2, 0x41, 0x42,
        ],
    ),
];

/// A silent peer closes the link.
const A_SILENT_PEER_CLOSES_THE_LINK: [Step<'static>; 13] = [
    Step::NotDue,
    Step::Is(LinkState::Open),
    Step::Gives(1, &[0x41, 0x42]),
    Step::Due(0),
    Step::SendsOne(0),
    Step::Expires(&EXPIRIES_1),
    Step::Closes(111_500, 17),
    Step::NotDue,
    Step::Refuses(&[3], GiveRefusal::Closed { expiries: 17 }),
    Step::Ignores(111_501, &TELLS_2, Reason::LinkClosed),
    Step::Ignores(111_501, &[0; 1233], Reason::LinkClosed),
    Step::Silent(1_000_000),
    Step::Queued(2),
];

/// A settled part ends the row of expiries.
const A_SETTLED_PART_ENDS_THE_ROW_OF_EXPIRIES: [Step<'static>; 11] = [
    Step::Gives(1, &[7; 1_003]),
    Step::SendsMany(0, 1, 1_016),
    Step::SendsMany(0, 1, 19),
    Step::SendsMany(500, 1, 1_020),
    Step::Due(1_500),
    Step::Queued(1_003),
    Step::Uses(600, &TELLS_2),
    Step::Due(1_100),
    Step::Queued(3),
    Step::Silent(1_099),
    Step::Sends(
        1_100,
        &[
            0, 0, 0, 1, 0, 0x40, 1, 8, 0, 0, 0, 3, 0, 0, 0, 5, 0, 0, 0, 3, 7, 7, 7,
        ],
    ),
];

/// A part that was passed over is sent again at once.
const A_PART_THAT_WAS_PASSED_OVER_IS_SENT_AGAIN_AT_ONCE: [Step<'static>; 17] = [
    // the parts 2 to 5 of one byte each, the next number each
    Step::Gives(1, &[2]),
    Step::SendsOne(0),
    Step::Gives(1, &[3]),
    Step::SendsOne(0),
    Step::Gives(1, &[4]),
    Step::SendsOne(0),
    Step::Gives(1, &[5]),
    Step::SendsOne(0),
    // the part 2 not, the parts 3 and 4
    Step::Uses(20, &[0, 0, 0, 4, 0, 0x40, 0, 4, 0, 2, 0xc1, 2]),
    Step::Due(520),
    Step::Silent(20),
    // and the part 5
    Step::Uses(30, &[0, 0, 0, 5, 0, 0x40, 0, 4, 0, 2, 0xc1, 3]),
    Step::Due(30),
    Step::Queued(1),
    Step::Sends(
        30,
        &[
            0, 0, 0, 1, 0, 0x40, 1, 8, 0, 0, 0, 2, 0, 0, 0, 6, 0, 0, 0, 2, 2,
        ],
    ),
    Step::Silent(30),
    Step::Due(530),
];

/// One part goes where the peer says so.
const ONE_PART_GOES_WHERE_THE_PEER_SAYS_SO: [Step<'static>; 15] = [
    Step::Uses(0, &[0, 0, 0, 1, 0, 1, 0, 0]),
    Step::Gives(1, &[9; 2_500]),
    Step::SendsMany(0, 1, 1_016),
    Step::Silent(0),
    Step::Due(500),
    // the part 2, and a window of one part again
    Step::Uses(10, &[0, 0, 0, 2, 0, 1, 0, 4, 0, 1, 1, 0]),
    Step::Due(10),
    Step::SendsMany(10, 1, 1_016),
    Step::Silent(10),
    // the part 3, and a window of none
    Step::Uses(20, &[0, 0, 0, 3, 0, 0, 0, 4, 0, 1, 1, 0]),
    Step::Silent(5_000),
    Step::NotDue,
    Step::Queued(500),
    Step::Uses(5_000, &[0, 0, 0, 1, 0, 64, 0, 0]),
    Step::SendsMany(5_000, 1, 516),
];

/// The window has 64 parts and moves.
const THE_WINDOW_HAS_64_PARTS_AND_MOVES: [Step<'static>; 12] = [
    // a window of 200 parts counts as one of 64
    Step::Uses(0, &[0, 0, 0, 1, 0, 200, 0, 0]),
    Step::Gives(1, &[9; 4_096]),
    Step::Gives(1, &[9; 65_536]),
    Step::SendsMany(0, 64, 1_016),
    Step::Silent(0),
    // the part 3 alone does not move it
    Step::Uses(10, &[0, 0, 0, 3, 0, 64, 0, 4, 0, 2, 0xc1, 1]),
    Step::Silent(10),
    // the part 2 moves it by both
    Step::Uses(20, &TELLS_2),
    Step::SendsMany(20, 2, 1_016),
    Step::Silent(20),
    Step::Due(520),
    Step::Queued(67_632),
];

#[test]
fn what_is_not_told_is_sent_again(rt: HostRuntime) -> Result<(), Fail> {
    let stories: [(&str, &[Step]); 6] = [
        (
            "a part is sent again after half a second",
            &A_PART_IS_SENT_AGAIN_AFTER_HALF_A_SECOND,
        ),
        (
            "a silent peer closes the link",
            &A_SILENT_PEER_CLOSES_THE_LINK,
        ),
        (
            "a settled part ends the row of expiries",
            &A_SETTLED_PART_ENDS_THE_ROW_OF_EXPIRIES,
        ),
        (
            "a part that was passed over is sent again at once",
            &A_PART_THAT_WAS_PASSED_OVER_IS_SENT_AGAIN_AT_ONCE,
        ),
        (
            "one part goes where the peer says so",
            &ONE_PART_GOES_WHERE_THE_PEER_SAYS_SO,
        ),
        (
            "the window has 64 parts and moves",
            &THE_WINDOW_HAS_64_PARTS_AND_MOVES,
        ),
    ];
    for (name, steps) in stories {
        assert_eq!(rt; goes(rt.alloc(), 1, steps)?, Ok(()), "{name}");
    }
    Ok(())
}

#[test]
fn a_silent_peer_closes_the_link_of_version_2(rt: HostRuntime) -> Result<(), Fail> {
    let steps = [
        Step::Gives(1, &[0x41, 0x42]),
        Step::SendsOne(0),
        Step::Expires(&EXPIRIES_2),
        Step::Closes(66_900, 17),
    ];
    assert_eq!(rt; goes(rt.alloc(), 2, &steps)?, Ok(()));
    Ok(())
}
