//! A frame of the main stream that an end does not read.

ghost use Rattle.std.specs.Prelude.{◌≡◌};
ghost use Rattle.end_session.specs.Hearing.{unread_at};

use crate::cause::Cause;
use dvc_pdus::DvcRefusal;
use end_calls::{Fault, Place};

/// Why an end does not read a frame of the main stream. The end stays as it was.
#[derive(Clone, Copy, Debug, PartialEq, Eq)]
pub enum Unread {
    /// What it carries is no channel PDU.
    Pdu(DvcRefusal),
    /// There is this against what it says.
    Cause(Cause),
}

impl Unread {
    /// The fault of the frame that began at this place.
    pub fn at(self, place: Place) -> Fault
        ensures { result ≡ unread_at place self }
    {
        match self {
            Unread::Pdu(refusal) => Fault::Pdu(place, refusal),
            Unread::Cause(cause) => cause.at(place),
        }
    }
}

/// What there is against a frame is against its reading.
impl From<Cause> for Unread {
    ghost use Rattle.std.specs.Prelude.{◌≡◌};
    ghost use Rattle.end_session.specs.declared.unread.Unread.TheVariants as unread;

    ghost from_gives = { λ cause answer. answer ≡ unread.Cause cause };

    fn from(cause: Cause) -> Unread {
        Unread::Cause(cause)
    }
}

/// A frame isn't read where its channel PDU can't be.
impl From<DvcRefusal> for Unread {
    ghost use Rattle.std.specs.Prelude.{◌≡◌};
    ghost use Rattle.end_session.specs.declared.unread.Unread.TheVariants as unread;

    ghost from_gives = { λ refusal answer. answer ≡ unread.Pdu refusal };

    fn from(refusal: DvcRefusal) -> Unread {
        Unread::Pdu(refusal)
    }
}
