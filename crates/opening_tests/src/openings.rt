//! Stories of openings, and of links from their opening on.

mod link;
mod opening;
mod third;

use udp_open::*;

/// What the SYN of a client with version 0x0002 and the initial number 1 begins with.
const SYN: [u8; 20] = [
    0xff, 0xff, 0xff, 0xff, 0x00, 0x40, 0x10, 0x01, 0, 0, 0, 1, 0x04, 0xd0, 0x04, 0xd0, 0, 1, 0, 2,
];

/// What a server with version 0x0002 and the initial number 9 answers it with.
const SYN_ACK: [u8; 20] = [
    0, 0, 0, 1, 0x00, 0x40, 0x10, 0x05, 0, 0, 0, 9, 0x04, 0xd0, 0x04, 0xd0, 0, 1, 0, 2,
];

/// The same of another client, whose initial number is 2.
const OTHER_SYN: [u8; 20] = [
    0xff, 0xff, 0xff, 0xff, 0x00, 0x40, 0x10, 0x01, 0, 0, 0, 2, 0x04, 0xd0, 0x04, 0xd0, 0, 1, 0, 2,
];

#[test]
fn laws_hold() {
    both_agree();
    a_link_is_its_trace();
    openings_are_due();
    agreements_stay();
    closed_for_good();
    two_links();
    a_link_opens();
    a_third_link_opens();
}
