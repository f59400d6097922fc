//! What a turn answers.

/// What a turn came to; the first that holds of `Failed`, `Ended`, `Idle`.
#[derive(Clone, Copy, Debug, PartialEq, Eq)]
pub enum Turned {
    /// Something was read, taken or written on the main stream.
    Went,
    /// Nothing was.
    Idle,
    /// The main stream has ended.
    Ended,
    /// A device failed, and the turn stopped there.
    Failed,
}
