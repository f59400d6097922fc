//! The commands of channel PDUs.

ghost use Rattle.std.specs.Prelude.{◌≡◌};

/// Creates a channel, or answers that.
pub(crate) const CREATE: u8 = 1;
/// The first bytes of a message, and its length.
pub(crate) const DATA_FIRST: u8 = 2;
/// Bytes of a message.
pub(crate) const DATA: u8 = 3;
/// Closes a channel.
pub(crate) const CLOSE: u8 = 4;
/// Versions and priority charges.
pub(crate) const CAPABILITIES: u8 = 5;
/// The first compressed bytes of a message, and its length.
pub(crate) const COMPRESSED_FIRST: u8 = 6;
/// Compressed bytes of a message.
pub(crate) const COMPRESSED: u8 = 7;
/// Moves channels to tunnels.
pub(crate) const SYNC_REQUEST: u8 = 8;
/// Answers that.
pub(crate) const SYNC_RESPONSE: u8 = 9;

/// What a PDU is for: the field Cmd of the header byte (section 2.2).
#[derive(Clone, Copy, Debug, PartialEq, Eq)]
pub(crate) enum Command {
    Create,
    DataFirst,
    Data,
    Close,
    Capabilities,
    CompressedFirst,
    Compressed,
    SyncRequest,
    SyncResponse,
}

impl Command {
    ghost use Rattle.std.specs.Prelude.{◌≡◌};
    ghost use Rattle.dvc_pdus.specs.Reading.{command_of};

    /// The command that a code names.
    pub(crate) fn of(code: u8) -> Option<Command>
        ensures { result ≡ command_of code }
    {
        match code {
            CREATE => Some(Command::Create),
            DATA_FIRST => Some(Command::DataFirst),
            DATA => Some(Command::Data),
            CLOSE => Some(Command::Close),
            CAPABILITIES => Some(Command::Capabilities),
            COMPRESSED_FIRST => Some(Command::CompressedFirst),
            COMPRESSED => Some(Command::Compressed),
            SYNC_REQUEST => Some(Command::SyncRequest),
            SYNC_RESPONSE => Some(Command::SyncResponse),
            _ => None,
        }
    }
}
