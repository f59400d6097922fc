//! Why an end does not take what it reads.

ghost use Rattle.std.specs.Prelude.{◌≡◌, is_some, not};
ghost use Rattle.end_session.specs.Causes.{fault_by, why_of};

use dvc_channels::ChannelRefusal;
use end_calls::{Fault, Place};

/// Why an end does not take a frame or a tunnel PDU that it reads. The end stays as it was.
#[derive(Clone, Copy, Debug, PartialEq, Eq)]
pub enum Cause {
    /// The PDU doesn't come there.
    Unexpected,
    /// A Soft-Sync response answers no request, or names what its request didn't, or twice.
    BadSyncAnswer,
    /// A Soft-Sync request lists a channel that was never made.
    SyncUnknown { id: u32 },
    /// The channel does not take the PDU.
    Channel(ChannelRefusal),
    /// Data or a close of this channel came on the main stream behind the word that moved it.
    TooLateOnMain { id: u32 },
    /// There was no memory for what came, in which nothing else was wrong.
    NoMemory,
}

impl Cause {
    /// Whether memory was wanting, which says nothing of the PDU.
    pub(crate) fn is_lack(self) -> bool
        ensures { result ≡ not (is_some (why_of self)) }
    {
        match self {
            Cause::Unexpected => false,
            Cause::BadSyncAnswer => false,
            Cause::SyncUnknown { .. } => false,
            Cause::Channel(_) => false,
            Cause::TooLateOnMain { .. } => false,
            Cause::NoMemory => true,
        }
    }

    /// The fault of what was read at this place.
    pub fn at(self, place: Place) -> Fault
        ensures { result ≡ fault_by place (why_of self) }
    {
        match self {
            Cause::Unexpected => Fault::Unexpected(place),
            Cause::BadSyncAnswer => Fault::BadSyncAnswer(place),
            Cause::SyncUnknown { id } => Fault::SyncUnknown(place, id),
            Cause::Channel(why) => Fault::Channel(place, why),
            Cause::TooLateOnMain { id } => Fault::TooLateOnMain(place, id),
            Cause::NoMemory => Fault::NoMemory,
        }
    }
}

/// Want of memory of the table of channels is that of the end.
impl From<ChannelRefusal> for Cause {
    ghost use Rattle.end_session.specs.Causes.{cause_of};

    ghost from_gives = { λ refusal cause. cause ≡ cause_of refusal };

    fn from(refusal: ChannelRefusal) -> Cause {
        match refusal {
            ChannelRefusal::NoMemory => Cause::NoMemory,
            _ => Cause::Channel(refusal),
        }
    }
}
