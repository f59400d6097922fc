//! A PDU that was held, and that its end does not take.

use crate::cause::Cause;

/// A PDU that an end released and does not take.
#[derive(Clone, Copy, Debug, PartialEq, Eq)]
pub struct Untaken {
    /// Where it began in its tunnel's stream, in bytes; the greatest `u64` stands for all above it.
    pub at: u64,
    /// Why it isn't taken.
    pub cause: Cause,
}
