//! A channel moves to the reliable tunnel.

ghost use Rattle.std.specs.Prelude.{◌≡◌, [], IfSome};
ghost use Rattle.mt_base.specs.Trace.{Start};
ghost use Rattle.carrier.specs.declared.state.LinkState.TheVariants.{Opening};
ghost use Rattle.udp_open.specs.LinkView.{StandsLink, condition_in, left_in, load_in};

use carrier::{Carrier, LinkState, Took};
use end_pair::Pair;
use lossy_mode::LossyCore;
use mt_base::{Kind, Role};
use std::test::*;
use udp_open::{OpenSettings, UdpLink, hash_cookie};

const COOKIE: [u8; 16] = [0, 1, 2, 3, 4, 5, 6, 7, 8, 9, 10, 11, 12, 13, 14, 15];

/// A reliable link of version 0x0101, of which nothing was called yet.
fn link(rt: &HostRuntime, role: Role) -> Option<UdpLink>
    ensures { IfSome result (λ link. StandsLink link Start × (left_in link ≡ []) × (load_in link ≡ 0) × (condition_in link ≡ Opening)) }
{
    let settings = OpenSettings {
        role,
        kind: Kind::Reliable,
        version: 0x0101,
        initial: 1,
        cookie_hash: hash_cookie(&COOKIE),
    };
    let Ok(link) = UdpLink::new(rt.alloc(), &settings) else {
        return None;
    };
    match link.state() {
        LinkState::Opening => Some(link),
        LinkState::Open => None,
        LinkState::Closed { .. } => None,
    }
}

/// The reliable tunnel of an end gets a link. Tells whether it did.
fn attach(rt: &HostRuntime, pair: &mut Pair<UdpLink, LossyCore>, side: Role) -> bool {
    match link(rt, side) {
        Some(link) => pair.attach_reliable(side, link),
        None => false,
    }
}

/// Whether an end that is polled gives one datagram, and then none.
fn gives_one(pair: &mut Pair<UdpLink, LossyCore>, side: Role) -> bool {
    match pair.poll(side, Kind::Reliable, 0) {
        Ok(true) => match pair.poll(side, Kind::Reliable, 0) {
            Ok(is_given) => !is_given,
            Err(_) => false,
        },
        Ok(false) => false,
        Err(_) => false,
    }
}

#[test]
fn a_message_goes_through_the_tunnel(rt: HostRuntime) -> Result<(), Fail> {
    let mut pair: Pair<UdpLink, LossyCore> = Pair::new(rt.alloc())?;
    assert_eq!(rt; pair.move_main(Role::Server, None)?, 15);
    assert_eq!(rt; pair.move_main(Role::Client, None)?, 7);
    assert_eq!(rt; pair.open_channel(b"files"), Ok(1));
    assert_eq!(rt; pair.move_main(Role::Server, None)?, 11);
    assert_eq!(rt; pair.move_main(Role::Client, None)?, 9);
    assert_eq!(rt; pair.ask_tunnel(Kind::Reliable, 7, &COOKIE), Ok(()));
    assert!(rt; attach(&rt, &mut pair, Role::Server));
    assert_eq!(rt; pair.move_main(Role::Server, None)?, 27);
    assert!(rt; attach(&rt, &mut pair, Role::Client));
    assert!(rt; gives_one(&mut pair, Role::Client));
    assert_eq!(rt;
        pair.deliver(Role::Client, Kind::Reliable, 0, 0),
        Ok(Took::Used)
    );
    assert!(rt; gives_one(&mut pair, Role::Server));
    assert_eq!(rt;
        pair.deliver(Role::Server, Kind::Reliable, 0, 0),
        Ok(Took::Used)
    );
    assert!(rt; gives_one(&mut pair, Role::Client));
    assert_eq!(rt;
        pair.deliver(Role::Client, Kind::Reliable, 1, 0),
        Ok(Took::Used)
    );
    assert!(rt; gives_one(&mut pair, Role::Server));
    assert_eq!(rt;
        pair.deliver(Role::Server, Kind::Reliable, 1, 0),
        Ok(Took::Used)
    );
    assert_eq!(rt; pair.move_main(Role::Client, None)?, 11);
    assert_eq!(rt; pair.soft_sync(&[1], &[]), Ok(()));
    assert_eq!(rt; pair.send(Role::Server, 1, b"abc"), Ok(()));
    assert!(rt; gives_one(&mut pair, Role::Server));
    assert_eq!(rt;
        pair.deliver(Role::Server, Kind::Reliable, 2, 0),
        Ok(Took::Used)
    );
    assert!(rt; pair.take(Role::Client, 1).is_none());
    assert_eq!(rt; pair.move_main(Role::Server, None)?, 23);
    match pair.take(Role::Client, 1) {
        Some(message) => assert_eq!(rt; message.bytes(), b"abc".as_slice()),
        None => assert!(rt; false),
    }
    Ok(())
}
