//! Tests of channels: each public call, and each refusal.

use dvc_channels::{Accepted, ChannelRefusal, ChannelState, Channels, CreateRefusal};
use dvc_pdus::DvcPdu;
use std::alloc::Global;
use std::process::Abort;
use std::test::*;

/// A table with channel 1 open.
fn open_table(rt: &impl Abort, alloc: Global) -> Result<Channels, Fail> {
    let mut channels = Channels::new(alloc)?;
    assert_eq!(rt; channels.create(1, b"files"), Ok(()));
    assert_eq!(rt; channels.answer(1, 0), Ok(()));
    Ok(channels)
}

/// The bytes of the oldest message of channel 1, compared.
fn gives(rt: &impl Abort, channels: &mut Channels, wanted: &[u8]) -> Result<(), Fail> {
    let Some(message) = channels.take(1) else {
        assert!(rt; false);
        return Ok(());
    };
    assert_eq!(rt; message.bytes(), wanted);
    Ok(())
}

#[test]
fn channels_are_created_and_answered(rt: HostRuntime) -> Result<(), Fail> {
    let mut channels = open_table(&rt, rt.alloc())?;
    let unknown = Err(ChannelRefusal::UnknownChannel { id: 2 });
    assert_eq!(rt; channels.answer(2, 0), unknown);
    assert_eq!(rt; channels.create(2, b"sound"), Ok(()));
    assert_eq!(rt; channels.made(), 2);
    assert_eq!(rt; channels.name(2), Some(b"sound" as &[u8]));
    assert_eq!(rt; channels.close(2), unknown);
    assert_eq!(rt; channels.answer(2, 0x8000_0000), Ok(()));
    assert_eq!(rt; channels.state(2), ChannelState::Refused);
    assert_eq!(rt; channels.close(1), Ok(()));
    assert_eq!(rt;
        channels.answer(1, 0),
        Err(ChannelRefusal::KnownChannel { id: 1 })
    );
    assert_eq!(rt; channels.create(1, b"files"), Err(CreateRefusal::Known));
    Ok(())
}

#[test]
fn a_session_has_256_channels(rt: HostRuntime) -> Result<(), Fail> {
    let mut channels = Channels::new(rt.alloc())?;
    for id in 0..256 {
        assert_eq!(rt; channels.create(id, b"a"), Ok(()));
    }
    assert_eq!(rt;
        channels.create(256, b"a"),
        Err(CreateRefusal::TooMany { limit: 256 })
    );
    Ok(())
}

#[test]
fn data_make_messages(rt: HostRuntime) -> Result<(), Fail> {
    let mut channels = open_table(&rt, rt.alloc())?;
    let id = 1;
    let first = DvcPdu::DataFirst {
        id,
        length: 5,
        bytes: b"de",
    };
    let came = [
        (DvcPdu::Data { id, bytes: b"abc" }, Accepted::Whole, 67),
        (first, Accepted::Inside, 67),
        (
            DvcPdu::Compressed { id, bytes: b"zz" },
            Accepted::Dropped,
            67,
        ),
        (DvcPdu::Data { id, bytes: b"fgh" }, Accepted::Whole, 136),
    ];
    for (pdu, accepted, waiting) in came {
        assert_eq!(rt; channels.accept(1, &pdu), Ok(accepted));
        assert_eq!(rt; channels.waiting(), waiting);
    }
    gives(&rt, &mut channels, b"abc")?;
    gives(&rt, &mut channels, b"defgh")?;
    assert!(rt; channels.take(1).is_none());
    Ok(())
}

#[test]
fn data_are_refused_by_their_cause(rt: HostRuntime) -> Result<(), Fail> {
    let mut channels = open_table(&rt, rt.alloc())?;
    let id = 1;
    let length = 1_048_577;
    let too_long = DvcPdu::DataFirst {
        id,
        length,
        bytes: b"a",
    };
    let begins = DvcPdu::DataFirst {
        id,
        length: 3,
        bytes: b"a",
    };
    let data = DvcPdu::Data { id, bytes: b"abc" };
    let refused = Err(ChannelRefusal::MessageTooLong { id, length });
    assert_eq!(rt;
        channels.accept(2, &data),
        Err(ChannelRefusal::UnknownChannel { id: 2 })
    );
    assert_eq!(rt; channels.accept(1, &too_long), refused);
    assert_eq!(rt; channels.accept(1, &begins), Ok(Accepted::Inside));
    assert_eq!(rt;
        channels.accept(1, &begins),
        Err(ChannelRefusal::FirstInside { id })
    );
    assert_eq!(rt;
        channels.accept(1, &data),
        Err(ChannelRefusal::MoreThanLength { id })
    );
    assert_eq!(rt; channels.close(1), Ok(()));
    assert_eq!(rt; channels.accept(1, &data), Ok(Accepted::Dropped));
    Ok(())
}

#[test]
fn five_mebibytes_wait(rt: HostRuntime) -> Result<(), Fail> {
    let mut channels = open_table(&rt, rt.alloc())?;
    let data = DvcPdu::Data {
        id: 1,
        bytes: &[7; 1598],
    };
    for _ in 0..3_300 {
        assert_eq!(rt; channels.accept(1, &data), Ok(Accepted::Whole));
    }
    assert_eq!(rt; channels.waiting(), 5_484_600);
    Ok(())
}
