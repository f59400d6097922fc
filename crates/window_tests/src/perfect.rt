ghost use Rattle.std.specs.Prelude.{◌≡◌, ◌<◌, ◌≤◌, ◌^◌, [], length};
ghost use Rattle.mt_base.specs.Trace.{Start};

use carrier::{
    Carrier, GiveRefusal, LinkState, PerfectCarrier, PerfectPost, Post, PostRefusal, Reason,
    Refusal1, Refusal2, Took, a_small_world, a_small_world_of_transmissions, faithful_links,
    joined_links, links_close, perfect_bytes_arrive, perfect_bytes_in_order, perfect_parts_arrive,
    perfect_parts_in_order, sixteen_bits_are_enough,
};
use mt_base::Short;
use std::test::*;

#[test]
fn a_cut_field_keeps_its_place(rt: HostRuntime) {
    let short = Short { at: 8, need: 4 };
    assert_eq!(rt; Refusal1::from(short), Refusal1::Short(short));
    assert_eq!(rt; Refusal2::from(short), Refusal2::Short(short));
}

#[test]
fn the_laws_hold(_rt: HostRuntime) {
    joined_links();
    sixteen_bits_are_enough();
    a_small_world();
    a_small_world_of_transmissions();
    faithful_links();
    links_close();
}

/// Whether a link to which nothing happened is open.
fn starts_open<C: Carrier>(link: &C) -> bool
    requires stands { C.stands link.now Start }
    requires left { C.left link.now ≡ [] }
    requires load { C.load link.now ≡ 0 }
{
    link.state() == LinkState::Open
}

/// The same of a link of parts.
fn post_starts_open<P: Post>(link: &P) -> bool
    requires stands { P.stands link.now Start }
    requires left { P.left link.now ≡ [] }
    requires load { P.load link.now ≡ 0 }
{
    link.state() == LinkState::Open
}

/// Hands the datagram that is due at one end to the other one.
fn carry<C: Carrier>(from: &mut C, to: &mut C, now: u64) -> Option<Took>
    requires { now < 2 ^ 62 }
{
    let mut datagram = [0; 1232];
    let length = from.poll(now, &mut datagram)?;
    Some(to.input(now, &datagram[..length]))
}

/// Whether these are the bytes that can be pulled, and no more.
fn pulls<C: Carrier>(link: &mut C, want: &[u8]) -> bool {
    let mut out = [0; 16];
    let count = link.pull(&mut out);
    &out[..count] == want && link.pull(&mut out) == 0
}

/// Whether these are the bytes of the next part that is handed out.
fn hands_out<P: Post>(link: &mut P, want: &[u8]) -> bool {
    let mut out = [0; 1232];
    match link.next(&mut out) {
        Some(length) => &out[..length] == want,
        None => false,
    }
}

/// What is answered to a datagram of this number and of so many bytes, zeros behind the number.
fn offer<C: Carrier>(link: &mut C, number: u64, length: usize) -> Took
    requires { length ≤ 1232 }
{
    let mut bytes = [0; 1232];
    bytes[..8].copy_from_slice(&number.to_le_bytes());
    link.input(0, &bytes[..length])
}

/// The same on a link of parts.
fn offer_part<P: Post>(link: &mut P, number: u64) -> Took {
    let mut bytes = [0; 1232];
    bytes[..8].copy_from_slice(&number.to_le_bytes());
    link.input(0, &bytes)
}

#[test]
fn bytes_cross_a_perfect_link(rt: HostRuntime) -> Result<(), Fail> {
    let mut near = PerfectCarrier::new(rt.alloc())?;
    let mut far = PerfectCarrier::new(rt.alloc())?;
    let mut out = [7; 1232];
    assert!(rt; starts_open(&near));
    assert_eq!(rt; near.poll(5, &mut out), None);
    assert_eq!(rt; near.next_due(), None);
    assert_eq!(rt; near.give(&[0x41, 0x42]), Ok(()));
    assert_eq!(rt; (near.queued(), near.next_due()), (2, Some(5)));
    assert_eq!(rt; near.poll(0, &mut out), Some(10));
    assert_eq!(rt;
        &out[..11],
        [0, 0, 0, 0, 0, 0, 0, 0, 0x41, 0x42, 7].as_slice()
    );
    assert_eq!(rt; (near.queued(), near.next_due()), (0, None));
    assert_eq!(rt; far.input(9, &out[..10]), Took::Used);
    assert!(rt; pulls(&mut far, &[0x41, 0x42]));
    assert_eq!(rt; near.give(&[3, 4, 5]), Ok(()));
    assert_eq!(rt; carry(&mut near, &mut far, 6), Some(Took::Used));
    assert_eq!(rt; carry(&mut near, &mut far, 6), None);
    assert!(rt; pulls(&mut far, &[3, 4, 5]));
    perfect_bytes_in_order(&far);
    perfect_bytes_arrive();
    Ok(())
}

#[test]
fn what_a_perfect_carrier_refuses(rt: HostRuntime) -> Result<(), Fail> {
    let mut link = PerfectCarrier::new(rt.alloc())?;
    let short = Reason::First(Refusal1::Short(Short { at: 0, need: 8 }));
    assert_eq!(rt; link.input(0, &[0; 1233]), Took::Ignored(Reason::TooLong));
    assert_eq!(rt; link.input(0, &[0; 7]), Took::Ignored(short));
    assert_eq!(rt; link.input(0, &[0; 8]), Took::Used);
    assert_eq!(rt; link.input(0, &[0; 8]), Took::Ignored(Reason::Old));
    let ahead = Took::Ignored(Reason::Beyond { limit: 1 });
    assert_eq!(rt; offer(&mut link, 2, 9), ahead);
    assert_eq!(rt; offer(&mut link, 4_611_686_018_427_387_904, 9), ahead);
    Ok(())
}

#[test]
fn bytes_that_find_no_room(rt: HostRuntime) -> Result<(), Fail> {
    let mut link = PerfectCarrier::new(rt.alloc())?;
    for number in 0..1_713 {
        assert_eq!(rt; offer(&mut link, number, 1_232), Took::Used);
    }
    let full = Took::Ignored(Reason::Beyond { limit: 1_713 });
    assert_eq!(rt; offer(&mut link, 1_713, 449), full);
    assert_eq!(rt; offer(&mut link, 1_713, 448), Took::Used);
    Ok(())
}

#[test]
fn a_full_queue(rt: HostRuntime) -> Result<(), Fail> {
    let mut link = PerfectCarrier::new(rt.alloc())?;
    let mut out = [0; 1232];
    for _round in 0..512 {
        assert_eq!(rt; link.give(&[1; 4096]), Ok(()));
    }
    let full = GiveRefusal::Full { queued: 2_097_152 };
    assert_eq!(rt; link.give(&[1]), Err(full));
    assert_eq!(rt; link.give(&[]), Ok(()));
    assert_eq!(rt; link.poll(0, &mut out), Some(1_008));
    assert_eq!(rt; link.give(&[1; 1_000]), Ok(()));
    Ok(())
}

#[test]
fn parts_cross_a_perfect_link(rt: HostRuntime) -> Result<(), Fail> {
    let mut near = PerfectPost::new(rt.alloc())?;
    let mut far = PerfectPost::new(rt.alloc())?;
    let mut out = [7; 1232];
    assert!(rt; post_starts_open(&near));
    assert_eq!(rt; near.poll(5, &mut out), None);
    assert_eq!(rt; near.next_due(), None);
    assert_eq!(rt; near.post(&[0x41, 0x42]), Ok(()));
    assert_eq!(rt; near.post(&[0x43]), Ok(()));
    assert_eq!(rt; (near.queued(), near.next_due()), (2, Some(5)));
    assert_eq!(rt; near.poll(6, &mut out), Some(10));
    assert_eq!(rt;
        &out[..11],
        [0, 0, 0, 0, 0, 0, 0, 0, 0x41, 0x42, 7].as_slice()
    );
    assert_eq!(rt; far.input(6, &out[..10]), Took::Used);
    assert_eq!(rt; near.poll(6, &mut out), Some(9));
    assert_eq!(rt; &out[..9], [1, 0, 0, 0, 0, 0, 0, 0, 0x43].as_slice());
    assert_eq!(rt; near.poll(6, &mut out), None);
    assert_eq!(rt; far.input(6, &out[..9]), Took::Used);
    assert!(rt; hands_out(&mut far, &[0x41, 0x42]) && hands_out(&mut far, &[0x43]));
    assert_eq!(rt; far.next(&mut out), None);
    perfect_parts_in_order(&far);
    perfect_parts_arrive();
    Ok(())
}

#[test]
fn what_a_perfect_post_refuses(rt: HostRuntime) -> Result<(), Fail> {
    let mut link = PerfectPost::new(rt.alloc())?;
    let short = Reason::First(Refusal1::Short(Short { at: 0, need: 8 }));
    let full = Took::Ignored(Reason::Beyond { limit: 64 });
    assert_eq!(rt; link.input(0, &[0; 1233]), Took::Ignored(Reason::TooLong));
    assert_eq!(rt; link.input(0, &[0; 7]), Took::Ignored(short));
    assert_eq!(rt; offer_part(&mut link, 4_611_686_018_427_387_904), full);
    assert_eq!(rt; offer_part(&mut link, 9), Took::Used);
    assert_eq!(rt; offer_part(&mut link, 9), Took::Ignored(Reason::Old));
    for number in 10..73 {
        assert_eq!(rt; offer_part(&mut link, number), Took::Used);
    }
    assert_eq!(rt; offer_part(&mut link, 73), full);
    assert_eq!(rt; offer_part(&mut link, 72), Took::Ignored(Reason::Old));
    assert!(rt; hands_out(&mut link, &[0; 1_224]));
    assert_eq!(rt; offer_part(&mut link, 80), Took::Used);
    for _round in 0..64 {
        assert_eq!(rt; link.post(&[1; 1_000]), Ok(()));
    }
    assert_eq!(rt; link.post(&[1]), Err(PostRefusal::Full { queued: 64 }));
    Ok(())
}

#[test]
fn refusals_name_themselves(rt: HostRuntime) -> Result<(), Fail> {
    let first = Refusal1::Short(Short { at: 4, need: 2 });
    let second = Refusal2::Trailing { at: 19 };
    assert_eq!(rt; (first.place(), second.place()), (4, 19));
    assert_eq!(rt; GiveRefusal::Full { queued: 3 }.name(), "Full");
    assert_eq!(rt; PostRefusal::Closed { expiries: 3 }.name(), "Closed");
    assert_eq!(rt; Reason::First(first).name(), "Short");
    let text = format!(in rt.alloc(); "{first}, {}, {}", Reason::Second(second), Reason::Old)?;
    assert_eq!(rt; text.as_str(), "Short at 4, Trailing at 19, Old");
    Ok(())
}
