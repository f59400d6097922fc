use dvc_pdus::{DvcPdu, DvcRefusal, one_meaning, read_dvc, write_dvc, written_is_read};
use mt_base::{NoRoom, Role, Short};
use std::test::*;

const FILES: DvcPdu<'static> = DvcPdu::CreateRequest {
    id: 1,
    priority: 0,
    name: b"files",
};

#[test]
fn reads_each_pdu(rt: HostRuntime) {
    let pdus = [
        (
            &[0x50u8, 0, 3, 0, 1, 0, 2, 0, 3, 0, 0, 4] as &[u8],
            DvcPdu::Caps {
                version: 3,
                charges: Some([1, 2, 3, 0x400]),
            },
        ),
        (&[0x10, 1, 0x66, 0x69, 0x6c, 0x65, 0x73, 0], FILES),
        (
            &[0x20, 1, 3, 0x61],
            DvcPdu::DataFirst {
                id: 1,
                length: 3,
                bytes: b"a",
            },
        ),
        (
            &[0x32, 1, 2, 3, 4, 0],
            DvcPdu::Data {
                id: 0x0403_0201,
                bytes: &[0],
            },
        ),
        (
            &[0x64, 1, 0, 0, 0x61],
            DvcPdu::CompressedFirst {
                id: 1,
                length: 0,
                bytes: b"a",
            },
        ),
        (
            &[0x75, 1, 2, 0x61],
            DvcPdu::Compressed {
                id: 0x0201,
                bytes: b"a",
            },
        ),
        (&[0x4d, 1, 2], DvcPdu::Close { id: 0x0201 }),
    ];
    for (bytes, pdu) in pdus {
        assert_eq!(rt; read_dvc(Role::Server, bytes), Ok(pdu));
    }
}

#[test]
fn reads_what_a_client_answers(rt: HostRuntime) {
    let created = DvcPdu::CreateResponse {
        id: 1,
        status: 0x8007_0005,
    };
    let bytes = [0x1d, 1, 0, 5, 0, 7, 0x80];
    assert_eq!(rt; read_dvc(Role::Client, &bytes), Ok(created));
}

#[test]
fn refuses_at_the_first_fault(rt: HostRuntime) {
    let faults = [
        (&[0x33u8, 1] as &[u8], DvcRefusal::BadCbId { at: 0 }),
        (&[0x2c, 1], DvcRefusal::BadLen { at: 0 }),
        (&[0xa0], DvcRefusal::UnknownCommand { at: 0 }),
        (&[0x30], DvcRefusal::Short(Short { at: 1, need: 1 })),
        (
            &[0x25, 1, 0, 0, 0, 0x61],
            DvcRefusal::LengthTooSmall { at: 3 },
        ),
        (&[0x10, 1, 0x61], DvcRefusal::NameNotEnded { at: 3 }),
        (&[0x11, 1, 0, 0x7e, 0x7f], DvcRefusal::BadName { at: 4 }),
        (&[0x40, 1, 0], DvcRefusal::Trailing { at: 2 }),
        (&[0x30; 1601], DvcRefusal::TooLong { at: 1600 }),
    ];
    for (bytes, refusal) in faults {
        assert_eq!(rt; read_dvc(Role::Server, bytes), Err(refusal));
    }
}

#[test]
fn writes_pdus(rt: HostRuntime) {
    let mut out = [0xff; 8];
    assert_eq!(rt; write_dvc(&FILES, &mut out), Ok(8));
    assert_eq!(rt; out, [0x10, 1, 0x66, 0x69, 0x6c, 0x65, 0x73, 0]);
    let first = DvcPdu::DataFirst {
        id: 1,
        length: 0x100,
        bytes: b"a",
    };
    assert_eq!(rt; write_dvc(&first, &mut out), Ok(5));
    assert_eq!(rt; out, [0x24, 1, 0, 1, 0x61, 0x65, 0x73, 0]);
    assert_eq!(rt;
        write_dvc(&first, &mut out[..4]),
        Err(NoRoom { at: 4, need: 1 })
    );
    one_meaning();
    written_is_read();
}

#[test]
fn says_a_refusal(rt: HostRuntime) -> Result<(), Fail> {
    let refusal = DvcRefusal::Short(Short { at: 1, need: 4 });
    assert_eq!(rt; refusal.place(), 1);
    assert_eq!(rt; format!(in rt.alloc(); "{refusal}")?.as_str(), "Short at 1");
    Ok(())
}
