//! Why a measured run does not go to its end.

use thiserror::Error;

/// What ends a run before all bytes have arrived.
#[derive(Debug, Drop, Error)]
pub(crate) enum Fault {
    /// The words are not those of a run.
    #[error("the words are not those of a run")]
    Usage,
    /// Bytes arrived that are not those that were given.
    #[error("other bytes arrived")]
    Wrong,
    /// No datagram comes any more, or there were too many turns.
    #[error("gave up")]
    GaveUp,
    /// Memory ran out.
    #[error("memory ran out")]
    NoMemory,
}
