//! Whatever the network does to the datagrams, the bytes arrive.

use super::ends;
use carrier::{Carrier, LinkState};
use link_net::{ALL_LOST, Story, carries, stories};
use std::test::*;
use udp2_core::Udp2Core;

#[test]
fn sixteen_parts_are_told_by_one_acknowledgement(rt: HostRuntime) -> Result<(), Fail> {
    let story = Story {
        there: &[],
        back: &[],
        near: 16,
        far: 0,
    };
    let ending = ends(rt.alloc(), &story)?;
    assert!(rt; ending.is_whole(&story));
    assert_eq!(rt;
        (ending.near.sent, ending.far.sent, ending.moment),
        (16, 1, 20)
    );
    Ok(())
}

#[test]
fn a_burst_is_sent_again_in_part(rt: HostRuntime) -> Result<(), Fail> {
    let story = Story {
        there: &[],
        back: &[],
        near: 64,
        far: 0,
    };
    let ending = ends(rt.alloc(), &story)?;
    assert!(rt; ending.is_whole(&story));
    // each telling is of the last 16 transmissions, so 48 parts are sent again, then 32, then 16
    assert_eq!(rt;
        (ending.near.sent, ending.far.sent, ending.moment),
        (160, 4, 80)
    );
    Ok(())
}

#[test]
fn all_bytes_arrive(rt: HostRuntime) -> Result<(), Fail> {
    for (place, story) in stories().iter().enumerate() {
        let ending = ends(rt.alloc(), story)?;
        assert!(rt; ending.is_whole(story), "story {place}");
    }
    Ok(())
}

#[test]
fn a_link_closes_where_no_datagram_arrives(rt: HostRuntime) -> Result<(), Fail> {
    let story = Story {
        there: &ALL_LOST,
        back: &[],
        near: 100,
        far: 0,
    };
    let ending = ends(rt.alloc(), &story)?;
    assert_eq!(rt; ending.near.state, LinkState::Closed { expiries: 17 });
    assert_eq!(rt; ending.far.state, LinkState::Open);
    // a window of parts, and the first one sixteen times more
    assert_eq!(rt;
        (ending.near.sent, ending.near.queued, ending.far.came),
        (80, 100_000, 0)
    );
    assert_eq!(rt; ending.moment, 66_900);
    Ok(())
}

/// The bytes of sixteen parts.
const SIXTEEN: [u8; 16] = [1, 2, 3, 4, 5, 6, 7, 8, 9, 10, 11, 12, 13, 14, 15, 16];

/// Whether sixteen parts of one byte go over, and are told of by one datagram.
fn sixteen_go_over<C: Carrier>(near: &mut C, far: &mut C) -> bool {
    for byte in SIXTEEN {
        if near.give(&[byte]).is_err() || !carries(near, far, 0) {
            return false;
        }
    }
    let mut out = [0; 17];
    carries(far, near, 0) && far.pull(&mut out) == 16 && &out[..16] == SIXTEEN.as_slice()
}

/// Whether so many times sixteen parts go over, one after the other.
fn go_over<C: Carrier>(near: &mut C, far: &mut C, times: u32) -> bool {
    for _time in 0..times {
        if !sixteen_go_over(near, far) {
            return false;
        }
    }
    true
}

#[test]
fn the_shown_numbers_begin_again(rt: HostRuntime) -> Result<(), Fail> {
    let mut near = Udp2Core::new(rt.alloc())?;
    let mut far = Udp2Core::new(rt.alloc())?;
    // 65,552 parts, each sent once, of which the last 17 show the numbers 0 to 16
    assert!(rt; go_over(&mut near, &mut far, 4_097));
    assert_eq!(rt; near.queued(), 0);
    Ok(())
}
