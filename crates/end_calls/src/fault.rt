//! Why an end is broken.

use dvc_channels::ChannelRefusal;
use dvc_pdus::DvcRefusal;
use tunnel_pdus::TunnelRefusal;

/// Where a fault stands: the offset of the frame's or tunnel PDU's first byte in its stream, or the
/// greatest `u64` where it is above that.
#[derive(Clone, Copy, Debug, PartialEq, Eq)]
pub enum Place {
    /// A frame of the main stream.
    Main { at: u64 },
    /// A tunnel PDU of the reliable link.
    Reliable { at: u64 },
}

/// Why an end is broken, for good. Of one frame or PDU, `Stream` is looked at first and then `Pdu`; then
/// whether it comes there (`Unexpected`, `BadSyncAnswer`, `SyncUnknown`), whether its channel is there
/// (`Channel`), whether it comes too late (`TooLateOnMain`), and whether its channel takes it
/// (`Channel`). Want of memory comes where nothing else does.
#[derive(Clone, Copy, Debug, PartialEq, Eq)]
pub enum Fault {
    /// There was no memory for what came.
    NoMemory,
    /// The bytes are no frame, or no tunnel PDU.
    Stream(Place, TunnelRefusal),
    /// What they carry is no channel PDU.
    Pdu(Place, DvcRefusal),
    /// The channel does not take the PDU.
    Channel(Place, ChannelRefusal),
    /// Data or a close of this channel came on the main stream behind the word that moved it.
    TooLateOnMain(Place, u32),
    /// The PDU doesn't come there.
    Unexpected(Place),
    /// A Soft-Sync response answers no request, or names what its request didn't, or twice.
    BadSyncAnswer(Place),
    /// A Soft-Sync request lists a channel that was never made.
    SyncUnknown(Place, u32),
}
