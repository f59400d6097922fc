//! What is told of what was received, and when.

use super::{PART_1, TELLS_1, goes};
use carrier::{Carrier, Took};
use link_net::{Step, play};
use std::test::*;
use udp2_core::Udp2Core;

/// The part 2 of two bytes, and the same of the part 3, each with the number of its transmission.
const PART_2: [u8; 9] = [0x43, 0x04, 0x60, 2, 0, 2, 0, 0xe0, 0x44];

const PART_3: [u8; 9] = [0x45, 0x04, 0x60, 3, 0, 3, 0, 0xe0, 0x46];

/// The transmissions up to 2 were received.
const TELLS_2: [u8; 11] = [0, 0x01, 0x60, 2, 0, 0, 0, 0xe0, 0, 1, 0];

/// Nothing was received: no transmission has the number 0.
const TELLS_NOTHING: [u8; 10] = [0, 0x01, 0x60, 0, 0, 0, 0, 0xe0, 0, 0];

/// Whether the link uses a transmission without a part that has this number.
fn uses_dummy<C: Carrier>(link: &mut C, number: u16) -> bool {
    let [low, high] = number.to_le_bytes();
    link.input(10, &[9, 4, 0x60, low, high, 9, 9, 0xf0]) == Took::Used
}

/// The same of all numbers from one on to below another.
fn uses_dummies<C: Carrier>(link: &mut C, from: u16, to: u16) -> bool {
    for number in from..to {
        if !uses_dummy(link, number) {
            return false;
        }
    }
    true
}

/// One part is told of after 50 milliseconds.
const ONE_PART_IS_TOLD_OF_AFTER_50_MILLISECONDS: [Step<'static>; 6] = [
    Step::Uses(10, &PART_1),
    Step::Due(60),
    Step::Silent(59),
    Step::Sends(60, &TELLS_1),
    Step::Silent(1_000),
    Step::NotDue,
];

/// Two parts are told of at once.
const TWO_PARTS_ARE_TOLD_OF_AT_ONCE: [Step<'static>; 5] = [
    Step::Uses(10, &PART_1),
    Step::Uses(11, &PART_2),
    Step::Due(11),
    Step::Sends(11, &TELLS_2),
    Step::Silent(1_000),
];

/// A copy is told of again.
const A_COPY_IS_TOLD_OF_AGAIN: [Step<'static>; 7] = [
    Step::Uses(10, &PART_1),
    Step::Sends(60, &TELLS_1),
    Step::Uses(300, &PART_1),
    Step::Due(350),
    Step::Silent(349),
    Step::Sends(350, &TELLS_1),
    Step::Pulls(&[0x41, 0x42]),
];

/// A missing transmission is told as missing.
const A_MISSING_TRANSMISSION_IS_TOLD_AS_MISSING: [Step<'static>; 7] = [
    Step::Uses(10, &PART_3),
    Step::Uses(10, &PART_1),
    Step::Due(10),
    // received, not received, received
    Step::Sends(10, &[0x81, 0x08, 0x60, 1, 0, 3, 0xc1, 0xe0, 0xc1]),
    Step::Pulls(&[0x41, 0x42]),
    Step::Uses(20, &PART_2),
    Step::Pulls(&[0x43, 0x44, 0x45, 0x46]),
];

/// A part sent again is told by its transmission.
const A_PART_SENT_AGAIN_IS_TOLD_BY_ITS_TRANSMISSION: [Step<'static>; 3] = [
    // the part 1 as the transmission 2, above the floor 1
    Step::Uses(10, &[1, 0x14, 0x60, 1, 0, 2, 0, 0xe0, 0, 0x41, 0x42]),
    Step::Silent(59),
    // of the transmissions 1 and 2 the second was received
    Step::Sends(60, &[0xc1, 0x08, 0x60, 1, 0, 2, 0x81, 0xe0]),
];

/// What lies below the floor is not told.
const WHAT_LIES_BELOW_THE_FLOOR_IS_NOT_TOLD: [Step<'static>; 2] = [
    // the part 1 as the transmission 5, above the floor 4
    Step::Uses(10, &[1, 0x14, 0x60, 4, 0, 5, 0, 0xe0, 0, 0x41, 0x42]),
    // of the transmissions 4 and 5 the second was received
    Step::Sends(60, &[0xc1, 0x08, 0x60, 4, 0, 2, 0x81, 0xe0]),
];

/// A part carries the telling that is owed.
const A_PART_CARRIES_THE_TELLING_THAT_IS_OWED: [Step<'static>; 5] = [
    Step::Uses(10, &PART_1),
    Step::Gives(1, &[0x61, 0x62]),
    Step::Sends(
        10,
        &[
            0, 0x05, 0x60, 1, 0, 0, 0, 0xe0, 0, 0, 1, 0, 1, 0, 0x61, 0x62,
        ],
    ),
    Step::Silent(309),
    Step::Due(310),
];

/// A dummy is told of by its number.
const A_DUMMY_IS_TOLD_OF_BY_ITS_NUMBER: [Step<'static>; 6] = [
    // a dummy without a number makes nothing owed
    Step::Uses(5, &[0, 0, 0x60, 0, 0, 0, 0, 0x50]),
    Step::NotDue,
    // the transmission 1
    Step::Uses(10, &[0, 0x04, 0x60, 1, 0, 0, 0, 0x90]),
    Step::Silent(59),
    Step::Sends(60, &TELLS_1),
    Step::Pulls(&[]),
];

#[test]
fn what_was_received_is_told(rt: HostRuntime) -> Result<(), Fail> {
    let stories: [(&str, &[Step]); 8] = [
        (
            "one part is told of after 50 milliseconds",
            &ONE_PART_IS_TOLD_OF_AFTER_50_MILLISECONDS,
        ),
        (
            "two parts are told of at once",
            &TWO_PARTS_ARE_TOLD_OF_AT_ONCE,
        ),
        ("a copy is told of again", &A_COPY_IS_TOLD_OF_AGAIN),
        (
            "a missing transmission is told as missing",
            &A_MISSING_TRANSMISSION_IS_TOLD_AS_MISSING,
        ),
        (
            "a part sent again is told by its transmission",
            &A_PART_SENT_AGAIN_IS_TOLD_BY_ITS_TRANSMISSION,
        ),
        (
            "what lies below the floor is not told",
            &WHAT_LIES_BELOW_THE_FLOOR_IS_NOT_TOLD,
        ),
        (
            "a part carries the telling that is owed",
            &A_PART_CARRIES_THE_TELLING_THAT_IS_OWED,
        ),
        (
            "a dummy is told of by its number",
            &A_DUMMY_IS_TOLD_OF_BY_ITS_NUMBER,
        ),
    ];
    for (name, steps) in stories {
        assert_eq!(rt; goes(rt.alloc(), steps)?, Ok(()), "{name}");
    }
    Ok(())
}

#[test]
fn the_last_16_are_told_where_none_is_missing(rt: HostRuntime) -> Result<(), Fail> {
    let mut link = Udp2Core::new(rt.alloc())?;
    assert!(rt; uses_dummies(&mut link, 1, 21));
    // 20, and the 15 below it
    let told = [
        0, 1, 0x60, 20, 0, 0, 0, 0xe0, 0, 15, 0, 0, 0, 0, 0, 0, 0, 0, 0, 0, 0, 0, 0, 0, 0,
    ];
    assert_eq!(rt; play(&mut link, &[Step::Sends(10, &told)]), Ok(()));
    Ok(())
}

#[test]
fn the_last_512_are_told_where_one_is_missing(rt: HostRuntime) -> Result<(), Fail> {
    let mut link = Udp2Core::new(rt.alloc())?;
    assert!(rt; uses_dummies(&mut link, 1, 519) && uses_dummy(&mut link, 520));
    // 9 to 512 in eight runs of 63, then 513 to 519, then 520
    let told = [
        0xff, 8, 0x60, 9, 0, 10, 0xff, 0xe0, 0xff, 0xff, 0xff, 0xff, 0xff, 0xff, 0x3f, 0xc1,
    ];
    assert_eq!(rt; play(&mut link, &[Step::Sends(10, &told)]), Ok(()));
    Ok(())
}

/// Whether the link uses every other transmission: 1, 3 and so on up to 1,023.
fn uses_every_other<C: Carrier>(link: &mut C) -> bool {
    for half in 0..512 {
        if !uses_dummy(link, 2 * half + 1) {
            return false;
        }
    }
    true
}

#[test]
fn a_part_fits_beside_a_window_of_gaps(rt: HostRuntime) -> Result<(), Fail> {
    let mut link = Udp2Core::new(rt.alloc())?;
    assert!(rt; uses_every_other(&mut link));
    let steps = [
        Step::Gives(1, &[7; 1_000]),
        Step::SendsWithin(10, 1_132),
        // sent again, it shows the floor too
        Step::Uses(100, &[9, 4, 0x60, 1, 4, 9, 9, 0xf0]),
        Step::SendsWithin(310, 1_132),
    ];
    assert_eq!(rt; play(&mut link, &steps), Ok(()));
    Ok(())
}

#[test]
fn two_tellings_that_are_owed_go_at_once(rt: HostRuntime) -> Result<(), Fail> {
    let mut link = Udp2Core::new(rt.alloc())?;
    link.owe(0);
    assert_eq!(rt; play(&mut link, &[Step::NotDue]), Ok(()));
    link.owe(2);
    let at_once = [
        Step::Due(0),
        Step::Sends(0, &TELLS_NOTHING),
        Step::Silent(1_000),
    ];
    assert_eq!(rt; play(&mut link, &at_once), Ok(()));
    link.owe(1);
    let after_a_while = [
        Step::Due(1_050),
        Step::Silent(1_049),
        Step::Sends(1_050, &TELLS_NOTHING),
    ];
    assert_eq!(rt; play(&mut link, &after_a_while), Ok(()));
    Ok(())
}
