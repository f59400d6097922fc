//! What never changes of a link.

/// The numbers and waits of a link's sending half.
#[derive(Clone, Copy, Debug, PartialEq, Eq)]
pub struct SenderConfig {
    /// The first number of this end's parts and transmissions.
    pub own: u64,
    /// The shortest wait of the timer, in milliseconds.
    pub wait: u64,
}

/// The numbers and waits of a link's receiving half.
#[derive(Clone, Copy, Debug, PartialEq, Eq)]
pub struct ReceiverConfig {
    /// The first number of the other end's parts and transmissions.
    pub peer: u64,
    /// How long one telling may be owed, in milliseconds.
    pub delay: u64,
}
