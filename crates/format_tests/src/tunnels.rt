ghost use Rattle.tunnel_pdus.specs.Value.{FitsPdu, FitsFrame};
ghost use Rattle.tunnel_pdus.specs.Views.{pdu_of, frame_of};

use mt_base::{Kind, NoRoom};
use std::test::*;
use tunnel_pdus::{
    MainFrame, Part, TunnelPdu, TunnelReason, TunnelRefusal, frame_stream, read_frame, read_tunnel,
    tunnel_meaning, write_frame, write_tunnel,
};

const COOKIE: [u8; 16] = [0, 1, 2, 3, 4, 5, 6, 7, 8, 9, 10, 11, 12, 13, 14, 15];

const REQUEST: [u8; 28] = [
    0x00, 0x18, 0x00, 0x04, 0x07, 0, 0, 0, 0, 0, 0, 0, 0, 1, 2, 3, 4, 5, 6, 7, 8, 9, 10, 11, 12,
    13, 14, 15,
];

const FRAME: [u8; 27] = [
    0x01, 0x18, 0x00, 0x07, 0, 0, 0, 0x02, 0, 0, 0, 0, 1, 2, 3, 4, 5, 6, 7, 8, 9, 10, 11, 12, 13,
    14, 15,
];

const CREATE: TunnelPdu<'static> = TunnelPdu::CreateRequest {
    id: 7,
    cookie: &COOKIE,
};

const ASKED: MainFrame<'static> = MainFrame::Request {
    id: 7,
    kind: Kind::Lossy,
    cookie: &COOKIE,
};

#[test]
fn reads_each_tunnel_pdu(rt: HostRuntime) {
    let pdus = [
        (&REQUEST as &[u8], CREATE, 28),
        (
            &[0x01, 4, 0, 4, 5, 0, 7, 0x80, 9],
            TunnelPdu::CreateResponse { hr: 0x8007_0005 },
            8,
        ),
        (
            &[0x02, 1, 0, 9, 3, 1, 0xff, 2, 0, 0x30, 9],
            TunnelPdu::Data { payload: &[0x30] },
            10,
        ),
    ];
    for (bytes, value, used) in pdus {
        assert_eq!(rt; read_tunnel(bytes), Ok(Part::Whole { value, used }));
    }
}

#[test]
fn wants_more_of_a_tunnel_pdu(rt: HostRuntime) {
    let cuts = [
        (&[] as &[u8], 1),
        (&[0x02], 3),
        (&[0x01, 0x04, 0x00], 4),
        (&[0x00, 0x18, 0x00, 0x04], 28),
        (&[0x02, 0x03, 0x00, 0x09, 0x03, 0x01, 0x00], 8),
    ];
    for (bytes, need) in cuts {
        assert_eq!(rt; read_tunnel(bytes), Ok(Part::More { need }));
    }
}

#[test]
fn refuses_at_the_first_fault(rt: HostRuntime) {
    let faults = [
        (&[0x13u8] as &[u8], 0, TunnelReason::BadAction),
        (&[0x12], 0, TunnelReason::BadFlags),
        (&[0x01, 0xff, 0xff], 1, TunnelReason::WrongLength),
        (&[0x02, 0x41, 0x06], 1, TunnelReason::TooLong),
        (&[0x02, 0x40, 0x06, 3], 3, TunnelReason::BadHeaderLength),
        (&[0x02, 0, 0, 8, 2, 1, 2, 3], 6, TunnelReason::BadSubHeader),
    ];
    for (bytes, at, reason) in faults {
        assert_eq!(rt; read_tunnel(bytes), Err(TunnelRefusal { at, reason }));
    }
}

#[test]
fn reads_each_frame(rt: HostRuntime) {
    let frames = [
        (&FRAME as &[u8], ASKED, 27),
        (
            &[0x02, 8, 0, 7, 0, 0, 0, 5, 0, 7, 0x80, 9],
            MainFrame::Response {
                id: 7,
                hr: 0x8007_0005,
            },
            11,
        ),
        (
            &[0x03, 1, 0, 0x30, 0x41],
            MainFrame::Channel { pdu: &[0x30] },
            4,
        ),
    ];
    for (bytes, value, used) in frames {
        assert_eq!(rt; read_frame(bytes), Ok(Part::Whole { value, used }));
    }
}

#[test]
fn wants_more_of_a_frame_or_refuses(rt: HostRuntime) {
    assert_eq!(rt; read_frame(&[1, 0x18, 0]), Ok(Part::More { need: 9 }));
    assert_eq!(rt; read_frame(&[3, 0x40, 6, 0]), Ok(Part::More { need: 1603 }));
    let faults = [
        (&[0x04u8] as &[u8], 0, TunnelReason::BadKind),
        (&[0x03, 0x00, 0x00], 1, TunnelReason::WrongLength),
        (
            &[0x01, 0x18, 0, 7, 0, 0, 0, 1, 1],
            7,
            TunnelReason::BadProtocol,
        ),
    ];
    for (bytes, at, reason) in faults {
        assert_eq!(rt; read_frame(bytes), Err(TunnelRefusal { at, reason }));
    }
}

#[test]
fn writes_tunnel_pdus(rt: HostRuntime) {
    let mut out = [0xff; 28];
    assert_eq!(rt; write_tunnel(&CREATE, &mut out), Ok(28));
    assert_eq!(rt; out, REQUEST);
    assert_eq!(rt;
        write_tunnel(&CREATE, &mut out[..20]),
        Err(NoRoom { at: 12, need: 16 })
    );
    tunnel_meaning();
}

#[test]
fn writes_frames(rt: HostRuntime) {
    let mut out = [0xff; 27];
    assert_eq!(rt; write_frame(&ASKED, &mut out), Ok(27));
    assert_eq!(rt; out, FRAME);
    assert_eq!(rt;
        write_frame(&ASKED, &mut out[..26]),
        Err(NoRoom { at: 11, need: 16 })
    );
    frame_stream();
}

#[test]
fn says_a_refusal(rt: HostRuntime) -> Result<(), Fail> {
    let refusal = TunnelRefusal {
        at: 7,
        reason: TunnelReason::BadProtocol,
    };
    assert_eq!(rt; refusal.place(), 7);
    assert_eq!(rt;
        format!(in rt.alloc(); "{refusal}")?.as_str(),
        "BadProtocol at 7"
    );
    Ok(())
}
