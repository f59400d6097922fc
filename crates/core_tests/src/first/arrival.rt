//! Whatever the network does to the datagrams, the bytes arrive.

ghost use Rattle.std.specs.Prelude.{◌≡◌, ◌⊎◌};

use super::ends;
use carrier::LinkState;
use link_net::{ALL_LOST, ALL_TWICE, Story, THIRD_LOST, stories};
use mt_base::NoMemory;
use std::alloc::Global;
use std::test::*;

#[test]
fn each_part_is_sent_once_where_none_is_lost(rt: HostRuntime) -> Result<(), Fail> {
    let story = Story {
        there: &[],
        back: &[],
        near: 130,
        far: 0,
    };
    let ending = ends(rt.alloc(), (9, 19), 1, &story)?;
    assert!(rt; ending.is_whole(&story));
    // windows of 64, 64 and 2 parts, and one telling of each
    assert_eq!(rt;
        (ending.near.sent, ending.far.sent, ending.moment),
        (130, 3, 60)
    );
    Ok(())
}

/// The place of the first story in which not all bytes arrive.
fn first_loss(alloc: Global, initial: (u32, u32), version: u16) -> Result<Option<usize>, NoMemory>
    requires { (version ≡ 0x0001) ⊎ (version ≡ 0x0002) }
{
    for (place, story) in stories().iter().enumerate() {
        if !ends(alloc, initial, version, story)?.is_whole(story) {
            return Ok(Some(place));
        }
    }
    Ok(None)
}

#[test]
fn all_bytes_arrive(rt: HostRuntime) -> Result<(), Fail> {
    assert_eq!(rt; first_loss(rt.alloc(), (9, 19), 1)?, None);
    assert_eq!(rt; first_loss(rt.alloc(), (9, 19), 2)?, None);
    // the shown numbers begin again
    assert_eq!(rt;
        first_loss(rt.alloc(), (0xffff_fff0, 0xffff_ffff), 1)?,
        None
    );
    Ok(())
}

#[test]
fn what_is_lost_is_sent_again_and_a_copy_is_not(rt: HostRuntime) -> Result<(), Fail> {
    let lost = Story {
        there: &THIRD_LOST,
        back: &[],
        near: 130,
        far: 0,
    };
    // of 193 datagrams 129 arrive
    assert!(rt; ends(rt.alloc(), (9, 19), 1, &lost)?.near.sent >= 194);
    let twice = Story {
        there: &ALL_TWICE,
        back: &ALL_TWICE,
        near: 130,
        far: 0,
    };
    assert_eq!(rt; ends(rt.alloc(), (9, 19), 1, &twice)?.near.sent, 130);
    Ok(())
}

#[test]
fn a_link_closes_where_no_datagram_arrives(rt: HostRuntime) -> Result<(), Fail> {
    let story = Story {
        there: &ALL_LOST,
        back: &[],
        near: 100,
        far: 0,
    };
    let ending = ends(rt.alloc(), (9, 19), 1, &story)?;
    assert_eq!(rt; ending.near.state, LinkState::Closed { expiries: 17 });
    assert_eq!(rt; ending.far.state, LinkState::Open);
    // a window of parts, and the first one sixteen times more
    assert_eq!(rt;
        (ending.near.sent, ending.near.queued, ending.far.came),
        (80, 100_000, 0)
    );
    assert_eq!(rt; ending.moment, 111_500);
    Ok(())
}
