use mt_base::{NoRoom, Short};
use std::test::*;
use udp1_packets::{
    Body1, Extension, Packet1, Refusal1, Syn1, one_meaning, opening_byte, read1, write1,
    written_is_read,
};

/// These bytes, and zeros behind them.
fn filled<const N: usize>(front: &[u8]) -> [u8; N] {
    let mut bytes = [0; N];
    for (to, from) in bytes.iter_mut().zip(front) {
        *to = *from;
    }
    bytes
}

/// The fault that these bytes have, if any.
fn fault(bytes: &[u8]) -> Option<Refusal1> {
    read1(bytes).err()
}

/// The packet is read, and written as these very bytes.
fn is_kept(bytes: &[u8]) -> bool {
    let Ok(packet) = read1(bytes) else {
        return false;
    };
    let mut out = [0xee; 1232];
    write1(&packet, &mut out) == Ok(bytes.len()) && out.iter().take(bytes.len()).eq(bytes)
}

/// An opening of version 3 with a correlation id, a hash of zeros, and five zeros of padding.
fn an_opening() -> [u8; 89] {
    let mut bytes = filled(&[
        0xff, 0xff, 0xff, 0xff, 0, 0x40, 0x18, 1, 0, 0, 0, 1, 0x04, 0x6c, 0x04, 0xd0, 9,
    ]);
    bytes[49] = 1;
    bytes[50] = 1;
    bytes[51] = 1;
    bytes
}

#[test]
fn reads_an_opening(rt: HostRuntime) {
    let bytes = an_opening();
    assert!(rt;
        matches!(
            read1(&bytes),
            Ok(Packet1 {
                ack: 0xffff_ffff,
                window: 64,
                marks: 0,
                body: Body1::Syn(Syn1 {
                    answer: false,
                    initial: 1,
                    up: 1132,
                    down: 1232,
                    correlation: Some([9, 0, ..]),
                    extension: Some(Extension {
                        flags: 1,
                        version: 0x0101,
                        hash: Some([0, ..]),
                    }),
                    padding: 5,
                }),
            })
        )
    );
    assert!(rt; is_kept(&bytes));
}

#[test]
fn refuses_openings(rt: HostRuntime) {
    let faults = [
        (7, 0x09, Refusal1::SynWithData { at: 6 }),
        (13, 0x6b, Refusal1::BadMtu { at: 12 }),
        (15, 0xd1, Refusal1::BadMtu { at: 14 }),
        (50, 0x02, Refusal1::BadVersion { at: 50 }),
        (86, 0x01, Refusal1::PaddingNotZero { at: 86 }),
    ];
    for (at, byte, refusal) in faults {
        let mut bytes = an_opening();
        if let Some(place) = bytes.get_mut(at) {
            *place = byte;
        }
        assert_eq!(rt; fault(&bytes), Some(refusal));
    }
}

#[test]
fn refuses_a_cut_hash(rt: HostRuntime) {
    let bytes: [u8; 80] = filled(&an_opening());
    let cut = Refusal1::Short(Short { at: 52, need: 32 });
    assert_eq!(rt; fault(&bytes), Some(cut));
}

#[test]
fn reads_acknowledgements(rt: HostRuntime) {
    let bytes = [
        0, 0, 0, 1, 0, 0x40, 1, 4, 0, 3, 1, 0xff, 3, 7, 8, 9, 0, 0, 0, 5, 6,
    ];
    assert!(rt;
        matches!(
            read1(&bytes),
            Ok(Packet1 {
                ack: 1,
                window: 64,
                marks: 0,
                body: Body1::Bare {
                    vector: Some([1, 0xff, 3]),
                    aoa: Some(5),
                    rest: [6]
                },
            })
        )
    );
    assert!(rt; is_kept(&[0, 0, 0, 2, 0, 0x40, 0, 4, 0, 1, 2, 0]));
}

#[test]
fn refuses_vectors(rt: HostRuntime) {
    let bad = [0, 0, 0, 1, 0, 0x40, 0, 4, 0, 2, 1, 0x80];
    assert_eq!(rt; fault(&bad), Some(Refusal1::BadState { at: 11 }));
    let cut = [0, 0, 0, 1, 0, 0x40, 0, 4, 0, 2, 0x43];
    assert_eq!(rt;
        fault(&cut),
        Some(Refusal1::Short(Short { at: 10, need: 2 }))
    );
    let long = [0, 0, 0, 1, 0, 0x40, 0, 4, 8, 1];
    assert_eq!(rt; fault(&long), Some(Refusal1::VectorTooLong { at: 8 }));
}

#[test]
fn reads_data(rt: HostRuntime) {
    let bytes = [
        0, 0, 0, 1, 0, 0x40, 2, 8, 0, 0, 0, 2, 0, 0, 0, 3, 0x41, 0x42,
    ];
    assert!(rt;
        matches!(
            read1(&bytes),
            Ok(Packet1 {
                marks: 0x0200,
                body: Body1::Data {
                    vector: None,
                    aoa: None,
                    coded: 2,
                    start: 3,
                    bytes: [0x41, 0x42],
                },
                ..
            })
        )
    );
    assert!(rt; is_kept(&bytes));
}

/// A packet of forward error correction with a vector and an acknowledgement of acknowledgements.
const CORRECTION: [u8; 29] = [
    0, 0, 0, 1, 0, 0x40, 1, 0x1c, 0, 2, 1, 0xc1, 0, 0, 0, 9, 0, 0, 0, 2, 0, 0, 0, 3, 4, 5, 0, 0,
    0x41,
];

#[test]
fn reads_forward_error_correction(rt: HostRuntime) {
    assert!(rt;
        matches!(
            read1(&CORRECTION),
            Ok(Packet1 {
                marks: 0,
                body: Body1::Fec {
                    vector: Some([1, 0xc1]),
                    aoa: Some(9),
                    coded: 2,
                    start: 3,
                    range: 4,
                    index: 5,
                    bytes: [0x41],
                },
                ..
            })
        )
    );
    assert!(rt; is_kept(&CORRECTION));
}

#[test]
fn stops_where_no_place_is_left(rt: HostRuntime) -> Result<(), Fail> {
    let packet = read1(&CORRECTION)?;
    let mut out = [0; 29];
    let whole = NoRoom { at: 10, need: 2 };
    assert_eq!(rt; write1(&packet, &mut out[..11]), Err(whole));
    let last = NoRoom { at: 28, need: 1 };
    assert_eq!(rt; write1(&packet, &mut out[..28]), Err(last));
    assert_eq!(rt; write1(&packet, &mut out), Ok(29));
    Ok(())
}

#[test]
fn keeps_marks(rt: HostRuntime) -> Result<(), Fail> {
    for (high, low, marks) in [(0xff, 0xfe, 0xfee2), (0xff, 0xf6, 0xfef2)] {
        let bytes: [u8; 32] = filled(&[0, 0, 0, 1, 0, 0x40, high, low]);
        let packet = read1(&bytes)?;
        assert_eq!(rt; packet.marks, marks);
    }
    Ok(())
}

#[test]
fn laws_hold() {
    one_meaning();
    opening_byte();
    written_is_read();
}
