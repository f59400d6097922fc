//! Why a call of an end is refused. A refused call changes nothing. Each enum lists its causes in the
//! order in which they are looked at.

use crate::fault::Fault;
use soft_sync::SyncRefusal;
use tunnel_cookies::IssueRefusal;

/// Why a message is not sent.
#[derive(Clone, Copy, Debug, PartialEq, Eq)]
pub enum SendRefusal {
    /// The end is broken.
    Broken(Fault),
    /// There is no channel of this id.
    UnknownChannel,
    /// The client has not answered for the channel yet, or refused it.
    NotOpen,
    /// The channel was closed.
    ChannelClosed,
    /// The channel's messages go through a tunnel that is silent.
    TunnelSilent { expiries: u32 },
    /// The message has more bytes than this.
    MessageTooLong { limit: usize },
    /// The message has more bytes than one part of a lossy link carries.
    TooLongForLossy { limit: usize },
    /// Its PDUs would pass this limit of the queue, which holds so much: bytes, or parts of a lossy
    /// link. Send it later.
    QueueFull { queued: usize, limit: usize },
}

/// Why a channel is not created.
#[derive(Clone, Copy, Debug, PartialEq, Eq)]
pub enum OpenRefusal {
    /// The end is broken.
    Broken(Fault),
    /// The client's capabilities were not read yet.
    NotReady,
    /// The name has a wrong byte at this place: its first one outside 0x20 to 0x7E, or 0 where it is
    /// empty, or 255 where more than 255 good bytes stand.
    BadName { at: usize },
    /// There are as many channels as a session may ever have.
    TooMany { limit: usize },
    /// The request would pass this limit of the main queue, which holds so many bytes.
    QueueFull { queued: usize, limit: usize },
    /// There was no memory for the channel.
    NoMemory,
}

/// Why a tunnel is not asked for.
#[derive(Clone, Copy, Debug, PartialEq, Eq)]
pub enum AskRefusal {
    /// The end is broken.
    Broken(Fault),
    /// A tunnel of this kind was asked for before.
    AlreadyAsked,
    /// The id has no place in the table of issued requests.
    Issue(IssueRefusal),
    /// The request would pass this limit of the main queue, which holds so many bytes.
    QueueFull { queued: usize, limit: usize },
}

/// Why channels are not moved.
#[derive(Clone, Copy, Debug, PartialEq, Eq)]
pub enum MoveRefusal {
    /// The end is broken.
    Broken(Fault),
    /// The request can't be made.
    Sync(SyncRefusal),
    /// The request would pass this limit of the main queue, which holds so many bytes.
    QueueFull { queued: usize, limit: usize },
}

/// Why a channel is not closed.
#[derive(Clone, Copy, Debug, PartialEq, Eq)]
pub enum CloseRefusal {
    /// The end is broken.
    Broken(Fault),
    /// There is no channel of this id.
    UnknownChannel,
    /// The client has not answered for the channel yet, or refused it.
    NotOpen,
    /// The channel was closed.
    ChannelClosed,
    /// Its close goes through a tunnel that is silent.
    TunnelSilent { expiries: u32 },
    /// The close would pass this limit of the queue that it goes into, which holds so many bytes.
    QueueFull { queued: usize, limit: usize },
}
