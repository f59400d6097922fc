//! Windows of parts.

use mt_base::{W16, W32};
use mt_windows::*;
use std::test::*;

#[test]
fn parts_in_any_order(rt: HostRuntime) -> Result<(), Fail> {
    let mut window = ReceiveWindow::<W32>::new(rt.alloc(), 65_535)?;
    let mut out = [0; 3];
    assert_eq!(rt; window.accept(65_536, &[3, 4]), Accept::New);
    assert_eq!(rt; window.pull(&mut out), 0);
    assert_eq!(rt; window.accept(65_535, &[1, 2]), Accept::New);
    assert_eq!(rt; window.accept(65_535, &[9, 9]), Accept::Again);
    assert_eq!(rt; window.pull(&mut out), 3);
    assert_eq!(rt; out, [1, 2, 3]);
    assert_eq!(rt; window.drained(), 65_536);
    Ok(())
}

#[test]
fn numbers_seen_of_late(rt: HostRuntime) -> Result<(), Fail> {
    let mut seen = Seen::<W16>::new(rt.alloc(), 1)?;
    seen.note(65_535);
    seen.note(65_537);
    assert!(rt; seen.has(65_535) && !seen.has(65_536));
    seen.note(66_047);
    assert!(rt; !seen.has(65_535) && seen.has(65_537));
    Ok(())
}

fn cut_next(window: &mut SendWindow<W32>, out: &mut [u8; 1000]) -> Option<Sent> {
    if window.may_cut(64) {
        Some(window.cut(64, out))
    } else {
        None
    }
}

#[test]
fn a_part_passed_over(rt: HostRuntime) -> Result<(), Fail> {
    let mut window = SendWindow::new(rt.alloc(), 1)?;
    let mut out = [0; 1000];
    assert_eq!(rt; window.give(&[7; 3_500]), Ok(()));
    for _ in 0..4 {
        assert!(rt; cut_next(&mut window, &mut out).is_some());
    }
    assert_eq!(rt; cut_next(&mut window, &mut out), None);
    assert!(rt; window.tell_transmission(2) && window.tell_part(4));
    assert_eq!(rt; window.passed_over(), None);
    assert!(rt; window.tell_transmission(3));
    assert_eq!(rt; window.passed_over(), Some(1));
    assert_eq!(rt; (window.queued(), window.floor_part()), (1_000, 1));
    Ok(())
}
