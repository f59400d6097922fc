//! What is told of what was received, and when.

use super::{PART_2, TELLS_2, goes};
use carrier::{Carrier, Took};
use link_net::{Step, play};
use std::test::*;
use udp1_core::Udp1Core;

/// The part 3 of two bytes, and the same of the part 4.
const PART_3: [u8; 18] = [
    0, 0, 0, 1, 0, 0x40, 0, 8, 0, 0, 0, 3, 0, 0, 0, 3, 0x43, 0x44,
];

const PART_4: [u8; 18] = [
    0, 0, 0, 1, 0, 0x40, 0, 8, 0, 0, 0, 4, 0, 0, 0, 4, 0x45, 0x46,
];

/// The parts up to 3, and up to 4 but for the part 3 were received.
const TELLS_3: [u8; 12] = [0, 0, 0, 3, 0, 0x40, 0, 4, 0, 1, 2, 0];

const TELLS_2_AND_4: [u8; 16] = [0, 0, 0, 4, 0, 0x40, 0, 4, 0, 3, 1, 0xc1, 1, 0, 0, 0];

/// Nothing was received: the number named is the peer's initial one.
const TELLS_NOTHING: [u8; 12] = [0, 0, 0, 1, 0, 0x40, 0, 4, 0, 0, 0, 0];

/// A part comes at the moment 10, and is told of alone at this moment and not before.
fn told_at(moment: u32) -> [Step<'static>; 6] {
    [
        Step::Uses(10, &PART_2),
        Step::Due(u64::from(moment)),
        Step::Silent(moment.saturating_sub(1)),
        Step::Sends(moment, &TELLS_2),
        Step::Silent(1_000),
        Step::NotDue,
    ]
}

/// Two parts are told of at once.
const TWO_PARTS_ARE_TOLD_OF_AT_ONCE: [Step<'static>; 5] = [
    Step::Uses(10, &PART_2),
    Step::Uses(11, &PART_3),
    Step::Due(11),
    Step::Sends(11, &TELLS_3),
    Step::Silent(1_000),
];

/// A copy is told of again.
const A_COPY_IS_TOLD_OF_AGAIN: [Step<'static>; 7] = [
    Step::Uses(10, &PART_2),
    Step::Sends(210, &TELLS_2),
    Step::Uses(300, &PART_2),
    Step::Due(500),
    Step::Silent(499),
    Step::Sends(500, &TELLS_2),
    Step::Pulls(&[0x41, 0x42]),
];

/// A missing part is told as missing.
const A_MISSING_PART_IS_TOLD_AS_MISSING: [Step<'static>; 7] = [
    Step::Uses(10, &PART_4),
    Step::Uses(10, &PART_2),
    Step::Due(10),
    Step::Sends(10, &TELLS_2_AND_4),
    Step::Pulls(&[0x41, 0x42]),
    Step::Uses(20, &PART_3),
    Step::Pulls(&[0x43, 0x44, 0x45, 0x46]),
];

/// What lies below the floor is not told.
const WHAT_LIES_BELOW_THE_FLOOR_IS_NOT_TOLD: [Step<'static>; 7] = [
    Step::Uses(10, &PART_2),
    // the part 3 above the floor 3
    Step::Uses(
        10,
        &[
            0, 0, 0, 1, 0, 0x40, 1, 8, 0, 0, 0, 3, 0, 0, 0, 3, 0, 0, 0, 3, 0x43,
        ],
    ),
    Step::Sends(10, &[0, 0, 0, 3, 0, 0x40, 0, 4, 0, 1, 1, 0]),
    // the part 4 above the floor 5, which says nothing yet
    Step::Uses(
        20,
        &[
            0, 0, 0, 1, 0, 0x40, 1, 8, 0, 0, 0, 5, 0, 0, 0, 4, 0, 0, 0, 4, 0x44,
        ],
    ),
    Step::Due(220),
    Step::Silent(219),
    Step::Sends(220, &[0, 0, 0, 4, 0, 0x40, 0, 4, 0, 1, 2, 0]),
];

/// A part carries the telling that is owed.
const A_PART_CARRIES_THE_TELLING_THAT_IS_OWED: [Step<'static>; 5] = [
    Step::Uses(10, &PART_2),
    Step::Gives(1, &[0x61, 0x62]),
    Step::Sends(
        10,
        &[
            0, 0, 0, 2, 0, 0x40, 0, 0x0c, 0, 1, 1, 0, 0, 0, 0, 2, 0, 0, 0, 2, 0x61, 0x62,
        ],
    ),
    Step::Silent(509),
    Step::Due(510),
];

#[test]
fn what_was_received_is_told(rt: HostRuntime) -> Result<(), Fail> {
    let stories: [(&str, &[Step]); 5] = [
        (
            "two parts are told of at once",
            &TWO_PARTS_ARE_TOLD_OF_AT_ONCE,
        ),
        ("a copy is told of again", &A_COPY_IS_TOLD_OF_AGAIN),
        (
            "a missing part is told as missing",
            &A_MISSING_PART_IS_TOLD_AS_MISSING,
        ),
        (
            "what lies below the floor is not told",
            &WHAT_LIES_BELOW_THE_FLOOR_IS_NOT_TOLD,
        ),
        (
            "a part carries the telling that is owed",
            &A_PART_CARRIES_THE_TELLING_THAT_IS_OWED,
        ),
    ];
    for (name, steps) in stories {
        assert_eq!(rt; goes(rt.alloc(), 1, steps)?, Ok(()), "{name}");
    }
    Ok(())
}

#[test]
fn one_part_is_told_of_after_a_while(rt: HostRuntime) -> Result<(), Fail> {
    assert_eq!(rt; goes(rt.alloc(), 1, &told_at(210))?, Ok(()));
    assert_eq!(rt; goes(rt.alloc(), 2, &told_at(60))?, Ok(()));
    Ok(())
}

/// Whether the link uses the part of this low number, which is below 256.
fn uses_part<C: Carrier>(link: &mut C, number: u8) -> bool {
    let mut part = PART_2;
    part[15] = number;
    link.input(10, &part) == Took::Used
}

/// Whether the link uses the parts 2 to 71, of which each is pulled at once.
fn uses_seventy<C: Carrier>(link: &mut C) -> bool {
    for number in 2..72 {
        if !uses_part(link, number) || link.pull(&mut [0; 4]) != 2 {
            return false;
        }
    }
    true
}

#[test]
fn the_last_64_parts_are_told_of(rt: HostRuntime) -> Result<(), Fail> {
    let mut link = Udp1Core::new(rt.alloc(), 1, 1, 0x0001)?;
    assert!(rt; uses_seventy(&mut link));
    // 8 to 71: a run of 63 parts and one of one
    let told = [0, 0, 0, 71, 0, 0x40, 0, 4, 0, 2, 63, 1];
    assert_eq!(rt; play(&mut link, &[Step::Sends(10, &told)]), Ok(()));
    Ok(())
}

/// Whether the link uses every other part of its window: 3, 5 and so on up to 65.
fn uses_every_other<C: Carrier>(link: &mut C) -> bool {
    for half in 1..33 {
        if !uses_part(link, 2 * half + 1) {
            return false;
        }
    }
    true
}

#[test]
fn a_part_fits_beside_a_window_of_gaps(rt: HostRuntime) -> Result<(), Fail> {
    let mut link = Udp1Core::new(rt.alloc(), 1, 1, 0x0001)?;
    assert!(rt; uses_every_other(&mut link));
    let steps = [
        Step::Gives(1, &[7; 1_000]),
        Step::SendsWithin(10, 1_132),
        // sent again, it shows the floor too
        Step::Uses(100, &PART_2),
        Step::SendsWithin(510, 1_132),
    ];
    assert_eq!(rt; play(&mut link, &steps), Ok(()));
    Ok(())
}

#[test]
fn two_tellings_that_are_owed_go_at_once(rt: HostRuntime) -> Result<(), Fail> {
    let mut link = Udp1Core::new(rt.alloc(), 1, 1, 0x0001)?;
    link.owe(0);
    assert_eq!(rt; play(&mut link, &[Step::NotDue]), Ok(()));
    link.owe(2);
    let at_once = [
        Step::Due(0),
        Step::Sends(0, &TELLS_NOTHING),
        Step::Silent(1_000),
    ];
    assert_eq!(rt; play(&mut link, &at_once), Ok(()));
    link.owe(1);
    let after_a_while = [
        Step::Due(1_200),
        Step::Silent(1_199),
        Step::Sends(1_200, &TELLS_NOTHING),
    ];
    assert_eq!(rt; play(&mut link, &after_a_while), Ok(()));
    Ok(())
}
