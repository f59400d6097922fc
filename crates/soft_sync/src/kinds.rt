//! Paths and refusals.

use mt_base::Kind;

/// Which kinds of tunnel are meant.
#[derive(Clone, Copy, Debug, PartialEq, Eq)]
pub struct Kinds {
    pub reliable: bool,
    pub lossy: bool,
}

impl Kinds {
    ghost use Rattle.std.specs.Prelude.{◌≡◌};
    ghost use Rattle.soft_sync.specs.Exchanges.{has, set_kind};

    /// None of them.
    pub const NONE: Kinds = Kinds {
        reliable: false,
        lossy: false,
    };

    /// Whether this kind is meant.
    pub fn has(&self, kind: Kind) -> bool
        ensures { result ≡ has kind self.now }
    {
        match kind {
            Kind::Reliable => self.reliable,
            Kind::Lossy => self.lossy,
        }
    }

    /// From now on this kind is meant, or isn't.
    pub fn set(&mut self, kind: Kind, is_meant: bool)
        ensures { self.new ≡ set_kind kind is_meant self.old }
    {
        match kind {
            Kind::Reliable => self.reliable = is_meant,
            Kind::Lossy => self.lossy = is_meant,
        }
    }
}

/// The path of a channel's data in one direction.
#[derive(Clone, Copy, Debug, PartialEq, Eq)]
pub enum Path {
    /// The main stream.
    Main,
    /// The tunnel of this kind.
    Tunnel(Kind),
}

/// What becomes of data by the path that they came from.
#[derive(Clone, Copy, Debug, PartialEq, Eq)]
pub enum Placed {
    /// They came from the channel's path, and are delivered.
    Deliver,
    /// The word that moves their channel to this tunnel was not read yet: they are held.
    HoldIt,
    /// The channel moved to a tunnel before: the other end has broken the order.
    TooLateOnMain,
}

/// Why a Soft-Sync request is not made. Nothing changes.
#[derive(Clone, Copy, Debug, PartialEq, Eq)]
pub enum SyncRefusal {
    /// The capabilities of the session have this version, which is below 3.
    OldVersion { version: u16 },
    /// No channel is listed.
    Empty,
    /// The id isn't that of an open channel.
    UnknownChannel { id: u32 },
    /// The id stands twice.
    Repeated { id: u32 },
    /// An earlier request of this end listed the channel, and a channel moves once.
    AlreadyListed { id: u32 },
    /// Channels are listed for this kind, which has no open tunnel.
    TunnelNotOpen { kind: Kind },
}
