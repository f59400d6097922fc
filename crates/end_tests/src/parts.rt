//! The parts of an end: its queue, a stream, a tunnel.

use end_session::{MainQueue, Stream, Tunnel, TunnelState};
use mt_base::Role;
use std::test::*;

#[test]
fn bytes_wait_in_order(rt: HostRuntime) -> Result<(), Fail> {
    let mut queue = MainQueue::new(rt.alloc())?;
    queue.put(&[1, 2, 3]);
    let mut out = [0; 2];
    assert_eq!(rt; queue.take(&mut out), 2);
    assert_eq!(rt; (out, queue.len()), ([1, 2], 1));
    Ok(())
}

#[test]
fn a_value_is_passed(rt: HostRuntime) {
    let mut stream = Stream::new();
    assert_eq!(rt; stream.take(&[3, 1, 0, 0x30, 9], 4), 4);
    assert!(rt; stream.bytes() == [3, 1, 0, 0x30].as_slice());
    stream.pass();
    assert_eq!(rt; (stream.at(), stream.bytes().len()), (4, 0));
}

#[test]
fn the_first_refusal_counts(rt: HostRuntime) {
    let mut tunnel = Tunnel::new();
    tunnel.refuse(5);
    tunnel.refuse(6);
    assert_eq!(rt; tunnel.state(Role::Client), TunnelState::Refused { hr: 5 });
    tunnel.set_silent(17);
    assert_eq!(rt;
        tunnel.state(Role::Server),
        TunnelState::Silent { expiries: 17 }
    );
}
