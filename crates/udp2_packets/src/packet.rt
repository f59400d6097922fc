//! Packets of the second layout, with their parts borrowed from the bytes that they were read
//! from.

/// An acknowledgement (MS-RDPEUDP2 section 2.2). It tells `number` and as many numbers below
/// it as there are delays.
#[derive(Clone, Copy, Debug)]
pub struct Ack2<'a> {
    /// SeqNum.
    pub number: u16,
    /// receivedTS, below 2^24.
    pub received_ts: u32,
    /// sendAckTimeGap.
    pub gap: u8,
    /// delayAckTimeScale, below 16.
    pub scale: u8,
    /// delayAckTimeAdditions, at most 15.
    pub delays: &'a [u8],
}

/// An acknowledgement vector.
#[derive(Clone, Copy, Debug)]
pub struct Vector2<'a> {
    /// BaseSeqNum.
    pub base: u16,
    pub stamp: Option<Stamp2>,
    /// codedAckVec, at most 127 bytes.
    pub coded: &'a [u8],
}

/// The time in an acknowledgement vector.
#[derive(Clone, Copy, Debug, PartialEq, Eq)]
pub struct Stamp2 {
    /// TimeStamp, below 2^24.
    pub time: u32,
    /// SendAckTimeGap.
    pub gap: u8,
}

/// What a packet tells as received.
#[derive(Clone, Copy, Debug)]
pub enum Telling2<'a> {
    Nothing,
    Ack(Ack2<'a>),
    Vector(Vector2<'a>),
}

/// How long acknowledgements may be delayed.
#[derive(Clone, Copy, Debug, PartialEq, Eq)]
pub struct DelayInfo {
    /// MaxDelayedAcks.
    pub most: u8,
    /// DelayedAckTimeoutInMs.
    pub timeout: u16,
}

/// What a packet carries.
#[derive(Clone, Copy, Debug)]
pub enum Body2<'a> {
    Nothing,
    /// Data: DataSeqNum, ChannelSeqNum and the bytes.
    Data {
        number: u16,
        part: u16,
        bytes: &'a [u8],
    },
    /// A dummy: its DataSeqNum, where it has one, and bytes without effect.
    Dummy {
        number: Option<u16>,
        rest: &'a [u8],
    },
}

/// A packet.
#[derive(Clone, Copy, Debug)]
pub struct Packet2<'a> {
    /// LogWindowSize, below 16: the window has 2 to this power packets.
    pub log_window: u8,
    pub telling: Telling2<'a>,
    /// OverheadSize.
    pub overhead: Option<u8>,
    pub delay: Option<DelayInfo>,
    /// AckOfAcksSeqNum.
    pub aoa: Option<u16>,
    pub body: Body2<'a>,
}
