//! When a part is sent again, and when the link closes.

use super::{PART_1, TELLS_1, goes};
use carrier::{GiveRefusal, LinkState, Reason};
use link_net::Step;
use std::test::*;

/// Sixteen expiries: after 300, 600, 1200, 2400 and then each time 4800 milliseconds.
const EXPIRIES: [u32; 16] = [
    300, 900, 2_100, 4_500, 9_300, 14_100, 18_900, 23_700, 28_500, 33_300, 38_100, 42_900, 47_700,
    52_500, 57_300, 62_100,
];

/// A part is sent again after 300 milliseconds.
const A_PART_IS_SENT_AGAIN_AFTER_300_MILLISECONDS: [Step<'static>; 6] = [
    Step::Gives(1, &[0x41, 0x42]),
    Step::Sends(0, &PART_1),
    Step::Due(300),
    Step::Queued(2),
    Step::Silent(299),
    // the transmission 2 of the part 1, above the floor 1
    Step::Sends(300, &[1, 0x14, 0x60, 1, 0, 2, 0, 0xe0, 0, 0x41, 0x42]),
];

/// A silent peer closes the link.
const A_SILENT_PEER_CLOSES_THE_LINK: [Step<'static>; 13] = [
    Step::NotDue,
    Step::Is(LinkState::Open),
    Step::Gives(1, &[0x41, 0x42]),
    Step::Due(0),
    Step::SendsOne(0),
    Step::Expires(&EXPIRIES),
    Step::Closes(66_900, 17),
    Step::NotDue,
    Step::Refuses(&[3], GiveRefusal::Closed { expiries: 17 }),
    Step::Ignores(66_901, &TELLS_1, Reason::LinkClosed),
    Step::Ignores(66_901, &[0; 1233], Reason::LinkClosed),
    Step::Silent(1_000_000),
    Step::Queued(2),
];

/// A settled part ends the row of expiries.
const A_SETTLED_PART_ENDS_THE_ROW_OF_EXPIRIES: [Step<'static>; 11] = [
    Step::Gives(1, &[7; 1_003]),
    Step::SendsMany(0, 1, 1_007),
    Step::SendsMany(0, 1, 10),
    Step::SendsMany(300, 1, 1_009),
    Step::Due(900),
    Step::Queued(1_003),
    // the part 1 is settled by its first transmission
    Step::Uses(400, &TELLS_1),
    Step::Due(700),
    Step::Queued(3),
    Step::Silent(699),
    // the transmission 4 of the part 2, above the floor 2
    Step::Sends(700, &[2, 0x14, 0x60, 2, 0, 4, 0, 0xe0, 0, 7, 7, 7]),
];

/// One part goes where the peer says so.
const ONE_PART_GOES_WHERE_THE_PEER_SAYS_SO: [Step<'static>; 11] = [
    // nothing but a window of one part
    Step::Uses(0, &[0, 0, 0, 0, 0, 0, 0, 0x40]),
    Step::Gives(1, &[9; 2_500]),
    Step::SendsMany(0, 1, 1_007),
    Step::Silent(0),
    Step::Due(300),
    // the transmission 1, and a window of one part again
    Step::Uses(10, &[0, 0x01, 0, 1, 0, 0, 0, 0xe0, 0, 0]),
    Step::Due(10),
    Step::SendsMany(10, 1, 1_007),
    Step::Silent(10),
    // a window of 64 parts
    Step::Uses(20, &[0, 0, 0x60, 0, 0, 0, 0, 0x40]),
    Step::SendsMany(20, 1, 507),
];

/// The window has 64 parts and moves.
const THE_WINDOW_HAS_64_PARTS_AND_MOVES: [Step<'static>; 12] = [
    // a window of 32,768 parts counts as one of 64
    Step::Uses(0, &[0, 0, 0xf0, 0, 0, 0, 0, 0x40]),
    Step::Gives(1, &[9; 4_096]),
    Step::Gives(1, &[9; 65_536]),
    Step::SendsMany(0, 64, 1_007),
    Step::Silent(0),
    // the transmission 2 alone does not move it
    Step::Uses(10, &[0, 0x01, 0xf0, 2, 0, 0, 0, 0xe0, 0, 0]),
    Step::Silent(10),
    // the transmission 1 moves it by both
    Step::Uses(20, &TELLS_1),
    Step::SendsMany(20, 2, 1_007),
    Step::Silent(20),
    Step::Due(320),
    Step::Queued(67_632),
];

/// A part is settled by any of its transmissions.
const A_PART_IS_SETTLED_BY_ANY_OF_ITS_TRANSMISSIONS: [Step<'static>; 6] = [
    Step::Gives(1, &[0x41, 0x42]),
    Step::SendsOne(0),
    Step::SendsOne(300),
    // the transmission 2 alone
    Step::Uses(310, &[0, 0x01, 0x60, 2, 0, 0, 0, 0xe0, 0, 0]),
    Step::Queued(0),
    Step::NotDue,
];

/// A part that was passed over is sent again at once.
const A_PART_THAT_WAS_PASSED_OVER_IS_SENT_AGAIN_AT_ONCE: [Step<'static>; 17] = [
    // the parts 1 to 4 of one byte each, the next number each
    Step::Gives(1, &[1]),
    Step::SendsOne(0),
    Step::Gives(1, &[2]),
    Step::SendsOne(0),
    Step::Gives(1, &[3]),
    Step::SendsOne(0),
    Step::Gives(1, &[4]),
    Step::SendsOne(0),
    // the transmissions 2 and 3, by a vector
    Step::Uses(20, &[0, 0x08, 0x60, 2, 0, 1, 0xc2, 0xc0]),
    Step::Due(320),
    Step::Silent(20),
    // and the transmission 4
    Step::Uses(30, &[0, 0x08, 0x60, 2, 0, 1, 0xc3, 0xc0]),
    Step::Due(30),
    Step::Queued(1),
    Step::Sends(30, &[1, 0x14, 0x60, 1, 0, 5, 0, 0xe0, 0, 1]),
    Step::Silent(30),
    Step::Due(330),
];

/// An acknowledgement tells as many as it has delays.
const AN_ACKNOWLEDGEMENT_TELLS_AS_MANY_AS_IT_HAS_DELAYS: [Step<'static>; 13] = [
    // the parts 1 to 4 of one byte each, the next number each
    Step::Gives(1, &[1]),
    Step::SendsOne(0),
    Step::Gives(1, &[2]),
    Step::SendsOne(0),
    Step::Gives(1, &[3]),
    Step::SendsOne(0),
    Step::Gives(1, &[4]),
    Step::SendsOne(0),
    // the transmission 4 and the two below it
    Step::Uses(10, &[0, 0x01, 0x60, 4, 0, 0, 0, 0xe0, 0, 2, 0, 0]),
    Step::Queued(1),
    // the transmission 3 and the two below it
    Step::Uses(20, &[0, 0x01, 0x60, 3, 0, 0, 0, 0xe0, 0, 2, 0, 0]),
    Step::Queued(0),
    Step::NotDue,
];

#[test]
fn what_is_not_told_is_sent_again(rt: HostRuntime) -> Result<(), Fail> {
    let stories: [(&str, &[Step]); 8] = [
        (
            "a part is sent again after 300 milliseconds",
            &A_PART_IS_SENT_AGAIN_AFTER_300_MILLISECONDS,
        ),
        (
            "a silent peer closes the link",
            &A_SILENT_PEER_CLOSES_THE_LINK,
        ),
        (
            "a settled part ends the row of expiries",
            &A_SETTLED_PART_ENDS_THE_ROW_OF_EXPIRIES,
        ),
        (
            "one part goes where the peer says so",
            &ONE_PART_GOES_WHERE_THE_PEER_SAYS_SO,
        ),
        (
            "the window has 64 parts and moves",
            &THE_WINDOW_HAS_64_PARTS_AND_MOVES,
        ),
        (
            "a part is settled by any of its transmissions",
            &A_PART_IS_SETTLED_BY_ANY_OF_ITS_TRANSMISSIONS,
        ),
        (
            "a part that was passed over is sent again at once",
            &A_PART_THAT_WAS_PASSED_OVER_IS_SENT_AGAIN_AT_ONCE,
        ),
        (
            "an acknowledgement tells as many as it has delays",
            &AN_ACKNOWLEDGEMENT_TELLS_AS_MANY_AS_IT_HAS_DELAYS,
        ),
    ];
    for (name, steps) in stories {
        assert_eq!(rt; goes(rt.alloc(), steps)?, Ok(()), "{name}");
    }
    Ok(())
}
