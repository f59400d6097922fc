//! How far a channel is.

/// The state of a channel at one end.
#[derive(Clone, Copy, Debug, PartialEq, Eq)]
pub(crate) enum ChannelState {
    /// Never made.
    Unknown,
    /// The server asked for it and has read no answer.
    Asked,
    /// Both ends may send.
    Open,
    /// The client answered with a code that says no.
    Refused,
}
