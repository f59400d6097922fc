//! Packets of the first layout, with their parts borrowed from the bytes that they were read from.

/// A packet, its header first (MS-RDPEUDP section 2.2).
#[derive(Clone, Copy, Debug)]
pub struct Packet1<'a> {
    /// snSourceAck.
    pub ack: u32,
    /// uReceiveWindowSize, in packets.
    pub window: u16,
    /// The flags that announce nothing in the packet.
    pub marks: u16,
    pub body: Body1<'a>,
}

/// What stands behind the header. `vector` is the elements of an acknowledgement vector, `aoa` an
/// acknowledgement of acknowledgements.
#[derive(Clone, Copy, Debug)]
pub enum Body1<'a> {
    /// A connection is opened, or its opening answered.
    Syn(Syn1<'a>),
    /// A source packet.
    Data {
        vector: Option<&'a [u8]>,
        aoa: Option<u32>,
        coded: u32,
        start: u32,
        bytes: &'a [u8],
    },
    /// A packet of forward error correction.
    Fec {
        vector: Option<&'a [u8]>,
        aoa: Option<u32>,
        coded: u32,
        start: u32,
        range: u8,
        index: u8,
        bytes: &'a [u8],
    },
    /// Acknowledgements alone; `rest` has no effect.
    Bare {
        vector: Option<&'a [u8]>,
        aoa: Option<u32>,
        rest: &'a [u8],
    },
}

/// The opening of a connection.
#[derive(Clone, Copy, Debug)]
pub struct Syn1<'a> {
    /// Whether it answers an opening.
    pub answer: bool,
    /// snInitialSequenceNumber.
    pub initial: u32,
    /// uUpStreamMtu, 1132 to 1232.
    pub up: u16,
    /// uDownStreamMtu, 1132 to 1232.
    pub down: u16,
    /// uCorrelationId and the reserved bytes behind it, 32 bytes.
    pub correlation: Option<&'a [u8]>,
    pub extension: Option<Extension<'a>>,
    /// How many zeros follow up to the end.
    pub padding: usize,
}

/// The extension of an opening.
#[derive(Clone, Copy, Debug)]
pub struct Extension<'a> {
    /// uSynExFlags; bit 0x0001 says that the version is valid.
    pub flags: u16,
    /// uUdpVer.
    pub version: u16,
    /// cookieHash, 32 bytes.
    pub hash: Option<&'a [u8]>,
}
