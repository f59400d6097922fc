//! Why a step of a script is refused.

/// Why an end does not create a channel, in the order in which the causes are looked at.
#[derive(Clone, Copy, Debug, PartialEq, Eq)]
pub enum OpenRefusal {
    /// The client's capabilities were not read yet.
    NotReady,
    /// The name's byte at this place is not of 0x20 to 0x7E; 0 where the name is empty, 255 where
    /// it has a 256th byte.
    BadName { at: usize },
    /// As many channels as a session may have were made.
    TooMany { limit: usize },
}

/// Why an end does not send a message, in the order in which the causes are looked at.
#[derive(Clone, Copy, Debug, PartialEq, Eq)]
pub enum SendRefusal {
    /// The end knows no channel of this id.
    UnknownChannel,
    /// The channel was asked for and is not open, or it was refused.
    NotOpen,
    /// The message has more bytes than one may have.
    MessageTooLong { limit: usize },
}

/// What an end refused.
#[derive(Clone, Copy, Debug, PartialEq, Eq)]
pub enum Refused {
    /// To send a message.
    Send(SendRefusal),
    /// To create a channel.
    Open(OpenRefusal),
}

/// Why a world does not take a step.
#[derive(Clone, Copy, Debug, PartialEq, Eq)]
pub enum StepRefusal {
    /// No `open` line made a channel of this id.
    UnknownChannel,
    /// An end refused.
    Refused(Refused),
    /// Memory ran out; the world is not to be used again.
    NoMemory,
}
