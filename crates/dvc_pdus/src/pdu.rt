//! The PDUs, and why bytes are none.

ghost use Rattle.std.specs.Prelude.{◌≡◌};
ghost use Rattle.dvc_pdus.specs.Names.{dvc_name, dvc_place};

use crate::lists::{SyncLists, SyncTypes};
use mt_base::Short;
use std::fmt;

/// A channel PDU. Its parts are borrowed from the bytes that it was read from.
#[derive(Clone, Copy, Debug, PartialEq, Eq)]
pub enum DvcPdu<'a> {
    /// Capabilities, of either end (section 2.2.1): the version, and from version 2 on the
    /// server's four priority charges.
    Caps {
        version: u16,
        charges: Option<[u16; 4]>,
    },
    /// The server creates a channel (section 2.2.2.1). The name has 1 to 255 bytes of 0x20 to
    /// 0x7E, without the zero byte that ends it.
    CreateRequest {
        id: u32,
        priority: u8,
        name: &'a [u8],
    },
    /// The client answers a create request (section 2.2.2.2). Bit 31 of the status is clear where
    /// the channel was created.
    CreateResponse {
        id: u32,
        status: u32,
    },
    /// The first bytes of a message, at most `length`, which counts those of the whole message
    /// (section 2.2.3.1).
    DataFirst {
        id: u32,
        length: u32,
        bytes: &'a [u8],
    },
    /// Bytes of a message (section 2.2.3.2).
    Data {
        id: u32,
        bytes: &'a [u8],
    },
    /// The first bytes of a compressed message, and its length before it was compressed (section
    /// 2.2.3.3).
    CompressedFirst {
        id: u32,
        length: u32,
        bytes: &'a [u8],
    },
    /// Compressed bytes of a message (section 2.2.3.4).
    Compressed {
        id: u32,
        bytes: &'a [u8],
    },
    /// Closes a channel, or answers that (section 2.2.4).
    Close {
        id: u32,
    },
    /// The server moves channels to tunnels (section 2.2.5.1). There is a list for each of the
    /// `tunnels` where the flag 0x02 is set, and else no list.
    SyncRequest {
        flags: u16,
        tunnels: u16,
        lists: SyncLists<'a>,
    },
    /// The client answers a Soft-Sync request with the tunnels that it takes (section 2.2.5.2).
    SyncResponse {
        types: SyncTypes<'a>,
    },
}

/// Why bytes are no channel PDU: the first fault in the order of the fields. Places are byte
/// offsets from the PDU's first byte.
#[derive(Clone, Copy, Debug, PartialEq, Eq)]
pub enum DvcRefusal {
    /// A field is cut short.
    Short(Short),
    /// The PDU is longer than 1,600 bytes.
    TooLong { at: usize },
    /// No PDU has this command.
    UnknownCommand { at: usize },
    /// The length of the channel id has no meaning.
    BadCbId { at: usize },
    /// The length of a message's length has no meaning.
    BadLen { at: usize },
    /// No zero byte ends the name.
    NameNotEnded { at: usize },
    /// A byte of the name is not of 0x20 to 0x7E, or the name is empty, or it has a 256th byte.
    BadName { at: usize },
    /// More bytes of a message stand behind its length than that tells.
    LengthTooSmall { at: usize },
    /// The Length of a Soft-Sync request does not count itself and all that follows.
    SyncLength { at: usize },
    /// The type of a tunnel is neither 1 nor 3.
    BadTunnelType { at: usize },
    /// A byte stands after the last field.
    Trailing { at: usize },
}

impl From<Short> for DvcRefusal {
    ghost use Rattle.std.specs.Prelude.{◌≡◌};
    ghost use Rattle.dvc_pdus.specs.declared.pdu.DvcRefusal.TheVariants as refusal;

    ghost from_gives = { λ short answer. answer ≡ refusal.Short short };

    fn from(short: Short) -> DvcRefusal {
        DvcRefusal::Short(short)
    }
}

impl DvcRefusal {
    /// The name of the refusal, spelled as its variant.
    pub fn name(&self) -> &'static str
        ensures { result.now ≡ dvc_name self.now }
    {
        match self {
            DvcRefusal::Short(_) => "Short",
            DvcRefusal::TooLong { .. } => "TooLong",
            DvcRefusal::UnknownCommand { .. } => "UnknownCommand",
            DvcRefusal::BadCbId { .. } => "BadCbId",
            DvcRefusal::BadLen { .. } => "BadLen",
            DvcRefusal::NameNotEnded { .. } => "NameNotEnded",
            DvcRefusal::BadName { .. } => "BadName",
            DvcRefusal::LengthTooSmall { .. } => "LengthTooSmall",
            DvcRefusal::SyncLength { .. } => "SyncLength",
            DvcRefusal::BadTunnelType { .. } => "BadTunnelType",
            DvcRefusal::Trailing { .. } => "Trailing",
        }
    }

    /// The byte offset of the fault; of a field that is cut short, where it begins.
    pub fn place(&self) -> usize
        ensures { result ≡ dvc_place self.now }
    {
        match *self {
            DvcRefusal::Short(Short { at, .. })
            | DvcRefusal::TooLong { at }
            | DvcRefusal::UnknownCommand { at }
            | DvcRefusal::BadCbId { at }
            | DvcRefusal::BadLen { at }
            | DvcRefusal::NameNotEnded { at }
            | DvcRefusal::BadName { at }
            | DvcRefusal::LengthTooSmall { at }
            | DvcRefusal::SyncLength { at }
            | DvcRefusal::BadTunnelType { at }
            | DvcRefusal::Trailing { at } => at,
        }
    }
}

/// `NAME at PLACE`.
impl fmt::Display for DvcRefusal {
    ghost use Rattle.std.specs.Prelude.{Some};
    ghost use Rattle.dvc_pdus.specs.Names.{dvc_text};

    ghost output = { λ r. Some (dvc_text r) };

    fn fmt<W: fmt::Write>(&self, f: &mut fmt::Formatter<W>) -> fmt::Result {
        let name = self.name();
        let place = self.place();
        write!(f, "{name} at {place}")
    }
}
