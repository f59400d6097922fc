//! Links of each version, and two of one version.

ghost use Rattle.link_core.specs.CoreView.{IsVersion};

use carrier::LinkState;
use link_core::*;
use link_net::{Ending, Step, Story, THIRD_LOST, play};
use mt_base::NoMemory;
use std::alloc::Global;
use std::test::*;

/// The part 2 of two bytes, in the first layout.
const PART_2: [u8; 18] = [
    0, 0, 0, 1, 0, 0x40, 0, 8, 0, 0, 0, 2, 0, 0, 0, 2, 0x41, 0x42,
];

/// The part 1 of two bytes, in the second layout.
const PART_1: [u8; 9] = [0x41, 0x04, 0x60, 1, 0, 1, 0, 0xe0, 0x42];

/// Nothing was received, in the first layout and in the second.
const FIRST_TELLS_NOTHING: [u8; 12] = [0, 0, 0, 1, 0, 0x40, 0, 4, 0, 0, 0, 0];

const SECOND_TELLS_NOTHING: [u8; 10] = [0, 0x01, 0x60, 0, 0, 0, 0, 0xe0, 0, 0];

/// A link sends its bytes at once so, and again after this time.
fn sends(part: &[u8], wait: u64) -> [Step<'_>; 6] {
    [
        Step::Is(LinkState::Open),
        Step::Gives(1, &[0x41, 0x42]),
        Step::Queued(2),
        Step::Sends(0, part),
        Step::Due(wait),
        Step::Pulls(&[]),
    ]
}

/// How two links of this version come through the loss of each third datagram.
fn ends(alloc: Global, version: u16, story: &Story) -> Result<Ending, NoMemory>
    requires { IsVersion version }
{
    let near = LinkCore::new(alloc, 0xffff_ffff, 9, version)?;
    let far = LinkCore::new(alloc, 9, 0xffff_ffff, version)?;
    story.run(alloc, near, far)
}

#[test]
fn a_link_is_one_of_its_version(rt: HostRuntime) -> Result<(), Fail> {
    let mut first = LinkCore::new(rt.alloc(), 1, 1, 0x0001)?;
    assert_eq!(rt; play(&mut first, &sends(&PART_2, 500)), Ok(()));
    let mut second = LinkCore::new(rt.alloc(), 1, 1, 0x0101)?;
    assert_eq!(rt; play(&mut second, &sends(&PART_1, 300)), Ok(()));
    Ok(())
}

#[test]
fn a_link_starts_anew_in_any_version(rt: HostRuntime) -> Result<(), Fail> {
    let mut link = LinkCore::new(rt.alloc(), 7, 8, 0x0002)?;
    link.start(1, 1, 0x0101);
    assert_eq!(rt; play(&mut link, &sends(&PART_1, 300)), Ok(()));
    link.start(1, 1, 0x0001);
    assert_eq!(rt; play(&mut link, &sends(&PART_2, 500)), Ok(()));
    link.start(1, 1, 0x0101);
    assert_eq!(rt; play(&mut link, &sends(&PART_1, 300)), Ok(()));
    Ok(())
}

#[test]
fn what_waits_goes_over_to_another_version(rt: HostRuntime) -> Result<(), Fail> {
    let mut link = LinkCore::new(rt.alloc(), 7, 8, 0x0002)?;
    assert_eq!(rt; play(&mut link, &[Step::Gives(1, &[0x41, 0x42])]), Ok(()));
    link.start_with_queue(1, 1, 0x0101);
    let second = [Step::Queued(2), Step::Sends(0, &PART_1)];
    assert_eq!(rt; play(&mut link, &second), Ok(()));
    link.start_with_queue(1, 1, 0x0001);
    assert_eq!(rt; play(&mut link, &sends(&PART_2, 500)), Ok(()));
    Ok(())
}

#[test]
fn two_tellings_that_are_owed_go_at_once(rt: HostRuntime) -> Result<(), Fail> {
    let mut link = LinkCore::new(rt.alloc(), 1, 1, 0x0002)?;
    link.owe(2);
    let first = [Step::Due(0), Step::Sends(0, &FIRST_TELLS_NOTHING)];
    assert_eq!(rt; play(&mut link, &first), Ok(()));
    link.start(1, 1, 0x0101);
    link.owe(2);
    let second = [Step::Due(0), Step::Sends(0, &SECOND_TELLS_NOTHING)];
    assert_eq!(rt; play(&mut link, &second), Ok(()));
    Ok(())
}

#[test]
fn all_bytes_arrive_in_each_version(rt: HostRuntime) -> Result<(), Fail> {
    let story = Story {
        there: &THIRD_LOST,
        back: &THIRD_LOST,
        near: 130,
        far: 3,
    };
    assert!(rt; ends(rt.alloc(), 0x0001, &story)?.is_whole(&story));
    assert!(rt; ends(rt.alloc(), 0x0002, &story)?.is_whole(&story));
    assert!(rt; ends(rt.alloc(), 0x0101, &story)?.is_whole(&story));
    Ok(())
}

#[test]
fn laws_of_links_hold(rt: HostRuntime) -> Result<(), Fail> {
    links_keep();
    links_join();
    let server = LinkCore::new(rt.alloc(), 1, 2, 0x0101)?;
    let client = LinkCore::new(rt.alloc(), 2, 1, 0x0101)?;
    pulled_was_given(&server, &client);
    Ok(())
}
