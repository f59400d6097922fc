use hold_queue::Hold;
use std::test::*;

#[test]
fn a_channel_gets_its_own_in_order(rt: HostRuntime) -> Result<(), Fail> {
    let mut hold = Hold::new(rt.alloc())?;
    hold.keep(1, 10, &[1, 2, 3]);
    hold.keep(2, 20, &[4]);
    hold.keep(1, 30, &[]);
    hold.keep(3, 40, &[5, 6]);
    assert_eq!(rt; hold.room(), 1_048_576 - 4 * 16 - 6);
    let mut out = [0u8; 1600];
    assert_eq!(rt; hold.release(2, &mut out), Some((20, 1)));
    assert_eq!(rt; &out[..2], [4, 0].as_slice());
    assert_eq!(rt; hold.release(1, &mut out), Some((10, 3)));
    assert_eq!(rt; &out[..4], [1, 2, 3, 0].as_slice());
    hold.drop_all(3);
    assert_eq!(rt; hold.release(3, &mut out), None);
    assert_eq!(rt; hold.release(1, &mut out), Some((30, 0)));
    assert_eq!(rt; hold.room(), 1_048_576);
    Ok(())
}

/// What is held at the front stays, while so much passes behind it that the rings are closed up.
#[test]
fn what_is_held_stays_in_place(rt: HostRuntime) -> Result<(), Fail> {
    let mut hold = Hold::new(rt.alloc())?;
    let mut out = [0u8; 1600];
    hold.keep(1, 7, &[9]);
    for turn in 0..3_000u64 {
        assert!(rt; hold.room() >= 1_616);
        hold.keep(2, turn, &[3; 1600]);
        assert_eq!(rt; hold.release(2, &mut out), Some((turn, 1600)));
    }
    assert_eq!(rt; hold.room(), 1_048_576 - 17);
    assert_eq!(rt; hold.release(1, &mut out), Some((7, 1)));
    assert_eq!(rt; &out[..2], [9, 3].as_slice());
    Ok(())
}
