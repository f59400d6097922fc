//! What the table of channels answers.

use mt_base::NoMemory;

/// What a channel is to this end.
#[derive(Clone, Copy, Debug, PartialEq, Eq)]
pub enum ChannelState {
    /// No channel of this id was created.
    Unknown,
    /// It was created, and the client's answer isn't known yet.
    Asked,
    /// It carries messages.
    Open,
    /// The client refused it.
    Refused,
    /// It was closed. Its id isn't used again.
    Closed,
}

/// Why a channel is not created. The table stays as it was.
#[derive(Clone, Copy, Debug, PartialEq, Eq)]
pub enum CreateRefusal {
    /// So many channels were created, and there are no more.
    TooMany { limit: usize },
    /// A channel of this id was created before.
    Known,
    NoMemory,
}

/// Why a channel does not take a PDU. The table stays as it was.
#[derive(Clone, Copy, Debug, PartialEq, Eq)]
pub enum ChannelRefusal {
    /// There is no channel of this id, or the client has not taken it.
    UnknownChannel { id: u32 },
    /// The client answered for this channel before.
    KnownChannel { id: u32 },
    /// A message begins while another is under way.
    FirstInside { id: u32 },
    /// The bytes pass the length that the first PDU of the message told.
    MoreThanLength { id: u32 },
    /// The message is to have more than 1,048,576 bytes.
    MessageTooLong { id: u32, length: u32 },
    NoMemory,
}

/// What became of a data PDU.
#[derive(Clone, Copy, Debug, PartialEq, Eq)]
pub enum Accepted {
    /// It made a message whole.
    Whole,
    /// It is a part of a message that is under way.
    Inside,
    /// It is compressed, or its channel is closed: it has no effect.
    Dropped,
}

impl From<NoMemory> for CreateRefusal {
    ghost use Rattle.std.specs.Prelude.{◌≡◌};
    ghost use Rattle.dvc_channels.specs.declared.answers.CreateRefusal.TheVariants as refusal;

    ghost from_gives = { λ none answer. answer ≡ refusal.NoMemory };

    fn from(_none: NoMemory) -> CreateRefusal {
        CreateRefusal::NoMemory
    }
}

impl From<NoMemory> for ChannelRefusal {
    ghost use Rattle.std.specs.Prelude.{◌≡◌};
    ghost use Rattle.dvc_channels.specs.declared.answers.ChannelRefusal.TheVariants as refusal;

    ghost from_gives = { λ none answer. answer ≡ refusal.NoMemory };

    fn from(_none: NoMemory) -> ChannelRefusal {
        ChannelRefusal::NoMemory
    }
}
