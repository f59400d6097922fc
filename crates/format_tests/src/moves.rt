use dvc_pdus::{DvcPdu, DvcRefusal, SyncLists, read_dvc, write_sync, write_sync_response};
use mt_base::{Kind, NoRoom, Role, Short};
use std::test::*;

/// A request that moves channel 7 to a reliable tunnel.
const SEVEN: [u8; 20] = [
    0x80, 0, 0x12, 0, 0, 0, 3, 0, 1, 0, 1, 0, 0, 0, 1, 0, 7, 0, 0, 0,
];

/// Whether these are the lists.
fn same(mut lists: SyncLists<'_>, want: &[(Kind, &[u32])]) -> bool {
    for (kind, ids) in want.iter() {
        let Some(list) = lists.next() else {
            return false;
        };
        if list.kind != *kind || !list.ids.eq(ids.iter().copied()) {
            return false;
        }
    }
    lists.next().is_none()
}

/// Whether the bytes are a request with these flags, so many tunnels, and these lists.
fn asks(bytes: &[u8], flags: u16, tunnels: u16, want: &[(Kind, &[u32])]) -> bool {
    match read_dvc(Role::Server, bytes) {
        Ok(
            DvcPdu::SyncRequest {
                flags: read,
                tunnels: count,
                lists,
            },
        ) => read == flags && count == tunnels && same(lists, want),
        _ => false,
    }
}

/// Whether the bytes are a response with these types.
fn answers(bytes: &[u8], want: &[Kind]) -> bool {
    match read_dvc(Role::Client, bytes) {
        Ok(DvcPdu::SyncResponse { types }) => types.eq(want.iter().copied()),
        _ => false,
    }
}

#[test]
fn reads_lists(rt: HostRuntime) {
    assert!(rt; asks(&SEVEN, 3, 1, &[(Kind::Reliable, &[7])]));
    let none = [0x80, 0, 8, 0, 0, 0, 1, 0, 9, 0];
    assert!(rt; asks(&none, 1, 9, &[]));
}

#[test]
fn reads_types(rt: HostRuntime) {
    let two = [0x90, 0, 2, 0, 0, 0, 3, 0, 0, 0, 1, 0, 0, 0];
    assert!(rt; answers(&two, &[Kind::Lossy, Kind::Reliable]));
}

#[test]
fn refuses_lists_at_the_first_fault(rt: HostRuntime) {
    let faults = [
        (
            &[0x80u8, 0, 5, 0, 0, 0] as &[u8],
            DvcRefusal::SyncLength { at: 2 },
        ),
        (
            &[0x80, 0, 9, 0, 0, 0, 3, 0, 0, 0, 9],
            DvcRefusal::Trailing { at: 10 },
        ),
        (
            &[0x80, 0, 12, 0, 0, 0, 2, 0, 1, 0, 2, 0, 0, 0],
            DvcRefusal::BadTunnelType { at: 10 },
        ),
        (
            &[0x80, 0, 14, 0, 0, 0, 2, 0, 1, 0, 1, 0, 0, 0, 1, 0],
            DvcRefusal::Short(Short { at: 16, need: 4 }),
        ),
    ];
    for (bytes, refusal) in faults {
        assert_eq!(rt; read_dvc(Role::Server, bytes), Err(refusal));
    }
}

#[test]
fn writes_requests(rt: HostRuntime) {
    let mut out = [0xff; 20];
    assert_eq!(rt;
        write_sync(&[7], &[], &mut out[..19]),
        Err(NoRoom { at: 16, need: 4 })
    );
    assert_eq!(rt; out, [0xff; 20]);
    assert_eq!(rt; write_sync(&[7], &[], &mut out), Ok(20));
    assert_eq!(rt; out, SEVEN);
}

#[test]
fn writes_responses(rt: HostRuntime) {
    let mut out = [0xff; 10];
    assert_eq!(rt;
        write_sync_response(&[Kind::Reliable], &mut out[..9]),
        Err(NoRoom { at: 6, need: 4 })
    );
    assert_eq!(rt; write_sync_response(&[Kind::Reliable], &mut out), Ok(10));
    assert_eq!(rt; out, [0x90, 0, 1, 0, 0, 0, 1, 0, 0, 0]);
    assert_eq!(rt; write_sync_response(&[], &mut out), Ok(6));
}
