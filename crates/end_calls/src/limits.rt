//! The limits of an end.

/// Bytes that are written to the main stream and not yet taken, at most.
pub const MAIN_QUEUE: usize = 4_194_304;

/// Bytes of each queue that messages leave to control PDUs.
pub const RESERVE: usize = 8_192;

/// Bytes that must be free in a queue before one more frame or PDU is read.
pub const CONTROL: usize = 3_072;

/// Bytes of the main queue that the answer to one Soft-Sync request takes at most.
pub const ANSWER: usize = 17;

/// Messages that were not taken, each counted as its length and 64 more, at which nothing more is
/// read.
pub const INBOX: u64 = 4_194_304;

/// Bytes that are held of a tunnel, each PDU counted with 16 more, at most.
pub const HOLD: usize = 1_048_576;

/// Bytes that one PDU takes of what is held, at most.
pub const HELD_PDU: usize = 1_616;

/// Bytes of a message.
pub const MESSAGE: usize = 1_048_576;

/// Bytes of a message on a lossy tunnel.
pub const LOSSY_MESSAGE: usize = 990;
