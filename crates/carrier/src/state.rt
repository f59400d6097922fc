//! What a link is, and what it answers.

ghost use Rattle.std.specs.Prelude.{◌≡◌};
ghost use Rattle.carrier.specs.Names.{reason_name};

use crate::first_layout::Refusal1;
use crate::second_layout::Refusal2;
use std::fmt;

/// What a link is at this moment.
#[derive(Clone, Copy, Debug, PartialEq, Eq)]
pub enum LinkState {
    /// The ends have not agreed yet. Bytes that are given wait.
    Opening,
    /// Datagrams go both ways.
    Open,
    /// So many expiries in a row came without an answer; the link is closed for good.
    Closed { expiries: u32 },
}

/// What a link did with a datagram.
#[derive(Clone, Copy, Debug, PartialEq, Eq)]
pub enum Took {
    /// It was used.
    Used,
    /// It was not, or what it carries was not; what else it tells was used where it could be read.
    Ignored(Reason),
}

/// Why a datagram, or what it carries, was not used. The reasons are looked at in this order:
/// `LinkClosed`, `TooLong`, the refusal of the layout, those of the opening, those of the data.
#[derive(Clone, Copy, Debug, PartialEq, Eq)]
pub enum Reason {
    /// It has more than 1,232 bytes.
    TooLong,
    /// It is no packet of the first layout.
    First(Refusal1),
    /// It is no packet of the second layout.
    Second(Refusal2),
    /// The link is not open yet, or there is none.
    NotOpen,
    /// It opens a connection, and is not the opening that this link took.
    NotOurs,
    /// It opens a link of the other kind.
    WrongKind,
    /// It answers another opening, or with a version that was not offered.
    BadAnswer,
    /// The hash of its cookie is not that of this link's cookie.
    UnknownCookie,
    /// Its part lies at or above this number, where the window ends.
    Beyond { limit: u64 },
    /// No number near the expected one has the low part that it shows.
    Unnumbered,
    /// A part that was accepted on a lossy link has this number or a greater one.
    Old,
    /// Its data are of forward error correction, which is not undone.
    FecDropped,
    /// The link is closed.
    LinkClosed,
}

impl Reason {
    /// The name of the reason, spelled as its variant; for a refusal of a layout that refusal's.
    pub fn name(&self) -> &'static str
        ensures { result.now ≡ reason_name self.now }
    {
        match self {
            Reason::TooLong => "TooLong",
            Reason::First(refusal) => refusal.name(),
            Reason::Second(refusal) => refusal.name(),
            Reason::NotOpen => "NotOpen",
            Reason::NotOurs => "NotOurs",
            Reason::WrongKind => "WrongKind",
            Reason::BadAnswer => "BadAnswer",
            Reason::UnknownCookie => "UnknownCookie",
            Reason::Beyond { .. } => "Beyond",
            Reason::Unnumbered => "Unnumbered",
            Reason::Old => "Old",
            Reason::FecDropped => "FecDropped",
            Reason::LinkClosed => "LinkClosed",
        }
    }
}

/// A refusal of a layout as that refusal says itself, any other reason by its name.
impl fmt::Display for Reason {
    ghost use Rattle.std.specs.Prelude.{Some};
    ghost use Rattle.carrier.specs.Names.{reason_text};

    ghost output = { λ r. Some (reason_text r) };

    fn fmt<W: fmt::Write>(&self, f: &mut fmt::Formatter<W>) -> fmt::Result {
        match self {
            Reason::First(refusal) => refusal.fmt(f),
            Reason::Second(refusal) => refusal.fmt(f),
            _ => f.write_str(self.name()),
        }
    }
}
