ghost use Rattle.std.specs.Prelude.{◌≤◌, length};
ghost use Rattle.udp2_packets.specs.Layout.{IsPacket};
ghost use Rattle.udp2_packets.specs.Views.{packet_of};

use mt_base::{NoRoom, Short};
use std::test::*;
use udp2_packets::{
    Ack2, Body2, DelayInfo, Packet2, Refusal2, Stamp2, Telling2, Vector2, finish2, one_meaning,
    read2, reading_by_layout, separation, write_fields2, write2, written_is_read,
};

/// The fault of the datagram that is this packet, with its prefix byte first, if any.
fn fault(packet: &[u8]) -> Option<Refusal2>
    requires { length packet.now ≤ 1232 }
{
    let mut bytes = [0; 1232];
    let datagram = &mut bytes[..packet.len()];
    datagram.copy_from_slice(packet);
    if datagram.len() > 7 {
        datagram.swap(0, 7);
    }
    read2(datagram, &mut [0; 1232]).err()
}

/// The packet of this datagram is written as this very datagram.
fn is_kept(datagram: &[u8]) -> bool
    requires { length datagram.now ≤ 1232 }
{
    let mut scratch = [0; 1232];
    let Ok(packet) = read2(datagram, &mut scratch) else {
        return false;
    };
    let mut out = [0xee; 1232];
    write2(&packet, &mut out) == Ok(datagram.len())
        && out.iter().take(datagram.len()).eq(datagram)
        && out.iter().skip(datagram.len()).all(|byte| *byte == 0xee)
}

#[test]
fn reads_an_acknowledgement_of_acknowledgements(rt: HostRuntime) {
    // With a reserved bit, and filling that is not zero.
    let datagram = [0xff, 0x10, 0x60, 0x34, 0x12, 1, 2, 0x81];
    assert!(rt;
        matches!(
            read2(&datagram, &mut [0; 1232]),
            Ok(Packet2 {
                log_window: 6,
                telling: Telling2::Nothing,
                overhead: None,
                delay: None,
                aoa: Some(0x1234),
                body: Body2::Nothing,
            })
        )
    );
}

#[test]
fn reads_data(rt: HostRuntime) {
    let datagram = [0x41, 0x04, 0x60, 1, 0, 1, 0, 0xe0, 0x42];
    assert!(rt;
        matches!(
            read2(&datagram, &mut [0; 1232]),
            Ok(Packet2 {
                log_window: 6,
                telling: Telling2::Nothing,
                aoa: None,
                body: Body2::Data {
                    number: 1,
                    part: 1,
                    bytes: [0x41, 0x42],
                },
                ..
            })
        )
    );
}

#[test]
fn reads_a_vector(rt: HostRuntime) {
    let stamped = [0x03, 0x08, 0xf0, 5, 1, 0x81, 0x01, 0xe0, 2, 9, 0x7f];
    assert!(rt;
        matches!(
            read2(&stamped, &mut [0; 1232]),
            Ok(Packet2 {
                log_window: 15,
                telling: Telling2::Vector(Vector2 {
                    base: 0x0105,
                    stamp: Some(Stamp2 {
                        time: 0x02_0301,
                        gap: 9,
                    }),
                    coded: [0x7f],
                }),
                ..
            })
        )
    );
}

/// All that a packet with an acknowledgement can have.
const FULL: [u8; 23] = [
    0xe0, 0x55, 0x21, 0x01, 0x02, 0x03, 0x04, 0x05, 0x06, 0x72, 0x08, 0x09, 0x0a, 0x0b, 0x0c, 0x0d,
    0x0e, 0x0f, 0x10, 0x11, 0x12, 0x13, 0x14,
];

#[test]
fn reads_all_fields(rt: HostRuntime) {
    let mut datagram = FULL;
    datagram.swap(0, 7);
    assert!(rt;
        matches!(
            read2(&datagram, &mut [0; 1232]),
            Ok(Packet2 {
                log_window: 2,
                telling: Telling2::Ack(Ack2 {
                    number: 0x0201,
                    received_ts: 0x05_0403,
                    gap: 6,
                    scale: 7,
                    delays: [8, 9],
                }),
                overhead: Some(0x0a),
                delay: Some(DelayInfo {
                    most: 0x0b,
                    timeout: 0x0d0c,
                }),
                aoa: Some(0x0f0e),
                body: Body2::Data {
                    number: 0x1110,
                    part: 0x1312,
                    bytes: [0x14],
                },
            })
        )
    );
}

#[test]
fn refuses_in_order(rt: HostRuntime) {
    let faults = [
        // A wrong short length comes before a wrong type, that before a flag.
        (
            [0x22, 0x02, 0, 0, 0, 0, 0, 0],
            Refusal2::ShortLength { at: 0 },
        ),
        ([0x42, 0x02, 0, 0, 0, 0, 0, 0], Refusal2::BadType { at: 0 }),
        (
            [0xe0, 0x0b, 0x60, 0, 0, 0, 0, 0],
            Refusal2::UnknownFlag { at: 1 },
        ),
        (
            [0xe0, 0x09, 0x60, 0, 0, 0, 0, 0],
            Refusal2::AckAndVector { at: 1 },
        ),
        // Inside the number of a part.
        (
            [0xa0, 0x04, 0x60, 0, 0, 0, 0, 0],
            Refusal2::Short(Short { at: 5, need: 2 }),
        ),
        (
            [0xe0, 0x10, 0x60, 1, 2, 3, 4, 5],
            Refusal2::Trailing { at: 5 },
        ),
    ];
    for (packet, refusal) in faults {
        assert_eq!(rt; fault(&packet), Some(refusal));
    }
    let cut = Refusal2::Short(Short { at: 0, need: 8 });
    assert_eq!(rt; fault(&[0x80, 0x10, 0x60, 0x34, 0x12, 0, 0]), Some(cut));
    // A short length below 7 in nine bytes.
    let wrong = Refusal2::ShortLength { at: 0 };
    assert_eq!(rt; fault(&[0xd0, 0, 0x60, 0, 0, 0, 0, 0, 0]), Some(wrong));
}

#[test]
fn writes_what_was_read(rt: HostRuntime) {
    let datagrams = [
        &[0x00u8, 0x10, 0x60, 0x34, 0x12, 0, 0, 0x80] as &[u8],
        &[0x41, 0x04, 0x60, 1, 0, 1, 0, 0xe0, 0x42],
        &[0x05, 0x08, 0x60, 5, 0, 2, 0xc3, 0xe0],
        &[0x03, 0x08, 0xf0, 5, 1, 0x81, 0x01, 0xe0, 2, 9, 0x7f],
        &[5, 0x01, 0x60, 1, 2, 3, 4, 0xe0, 6, 0x72, 1, 2],
        // A dummy.
        &[5, 0x04, 0x60, 7, 0, 9, 9, 0xf0, 6],
    ];
    for datagram in datagrams {
        assert!(rt; datagram.len() <= 1232 && is_kept(datagram));
    }
}

/// Data of these bytes.
fn data(bytes: &[u8]) -> Packet2<'_>
    ensures { IsPacket (packet_of result) }
{
    Packet2 {
        log_window: 6,
        telling: Telling2::Nothing,
        overhead: None,
        delay: None,
        aoa: None,
        body: Body2::Data {
            number: 1,
            part: 2,
            bytes,
        },
    }
}

#[test]
fn writes_a_whole_datagram(rt: HostRuntime) {
    let bytes = [0x5a; 1226];
    let mut out = [0; 1232];
    let refusal = NoRoom { at: 7, need: 1226 };
    assert_eq!(rt; write2(&data(&bytes), &mut out), Err(refusal));
    assert_eq!(rt; write2(&data(&bytes[..1225]), &mut out), Ok(1232));
    let front = [0x5a, 0x04, 0x60, 1, 0, 2, 0, 0xe0, 0x5a];
    assert_eq!(rt; &out[..9], front.as_slice());
}

#[test]
fn finishes_bytes_behind_the_fields(rt: HostRuntime) -> Result<(), Fail> {
    let packet = data(&[]);
    let mut out = [0xee; 1232];
    assert_eq!(rt; write_fields2(&packet, &mut out)?, 7);
    out[7] = 0x41;
    out[8] = 0x42;
    assert_eq!(rt; finish2(&packet.body, 9, &mut out), 9);
    let datagram = [0x41, 0x04, 0x60, 1, 0, 2, 0, 0xe0, 0x42, 0xee];
    assert_eq!(rt; &out[..10], datagram.as_slice());
    assert_eq!(rt; finish2(&Body2::Nothing, 3, &mut out), 8);
    assert_eq!(rt; &out[..8], [0, 0x04, 0x60, 0, 0, 0, 0, 0x40].as_slice());
    Ok(())
}

#[test]
fn the_laws_hold() {
    one_meaning();
    reading_by_layout();
    separation();
    written_is_read();
}
