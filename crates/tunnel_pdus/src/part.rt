//! What the front of a stream is: a whole value, the beginning of one, or neither.

ghost use Rattle.std.specs.Prelude.{◌≡◌};
ghost use Rattle.tunnel_pdus.specs.Names.{tunnel_name, tunnel_place, tunnel_reason_name};

use std::fmt;

/// The front of a stream.
#[derive(Clone, Copy, Debug, PartialEq, Eq)]
pub enum Part<T> {
    /// A value, and the number of bytes that spell it.
    Whole { value: T, used: usize },
    /// The beginning of a value. At fewer than `need` bytes it stays one; at `need` bytes there
    /// can be a whole value or a refusal.
    More { need: usize },
}

/// Why bytes are not the beginning of a value.
#[derive(Clone, Copy, Debug, PartialEq, Eq)]
pub enum TunnelReason {
    /// No tunnel PDU has this action.
    BadAction,
    /// The flags of a tunnel PDU are not zero.
    BadFlags,
    /// The header of a tunnel PDU is shorter than its fixed fields.
    BadHeaderLength,
    /// A sub-header is shorter than two bytes, passes the header's end, or has an unknown type.
    BadSubHeader,
    /// The length is not the one that the action or kind has.
    WrongLength,
    /// The length is above 1,600.
    TooLong,
    /// No main frame has this kind.
    BadKind,
    /// The protocol that is asked for is neither reliable nor lossy.
    BadProtocol,
}

/// The first fault of a stream's front, in the order of the fields.
#[derive(Clone, Copy, Debug, PartialEq, Eq)]
pub struct TunnelRefusal {
    /// The byte offset of the field from the value's first byte.
    pub at: usize,
    pub reason: TunnelReason,
}

impl TunnelReason {
    /// The name of the reason, spelled as its variant.
    pub fn name(&self) -> &'static str
        ensures { result.now ≡ tunnel_reason_name self.now }
    {
        match self {
            TunnelReason::BadAction => "BadAction",
            TunnelReason::BadFlags => "BadFlags",
            TunnelReason::BadHeaderLength => "BadHeaderLength",
            TunnelReason::BadSubHeader => "BadSubHeader",
            TunnelReason::WrongLength => "WrongLength",
            TunnelReason::TooLong => "TooLong",
            TunnelReason::BadKind => "BadKind",
            TunnelReason::BadProtocol => "BadProtocol",
        }
    }
}

/// The name.
impl fmt::Display for TunnelReason {
    ghost use Rattle.std.specs.Prelude.{Some};

    ghost output = { λ r. Some (tunnel_reason_name r) };

    fn fmt<W: fmt::Write>(&self, f: &mut fmt::Formatter<W>) -> fmt::Result {
        f.write_str(self.name())
    }
}

impl TunnelRefusal {
    /// The name of its reason.
    pub fn name(&self) -> &'static str
        ensures { result.now ≡ tunnel_name self.now }
    {
        self.reason.name()
    }

    /// The byte offset of the field from the value's first byte.
    pub fn place(&self) -> usize
        ensures { result ≡ tunnel_place self.now }
    {
        self.at
    }
}

/// `NAME at PLACE`.
impl fmt::Display for TunnelRefusal {
    ghost use Rattle.std.specs.Prelude.{Some};
    ghost use Rattle.tunnel_pdus.specs.Names.{tunnel_text};

    ghost output = { λ r. Some (tunnel_text r) };

    fn fmt<W: fmt::Write>(&self, f: &mut fmt::Formatter<W>) -> fmt::Result {
        let name = self.name();
        let place = self.place();
        write!(f, "{name} at {place}")
    }
}
