//! The kinds of main frames, and the protocols that a request asks for.

ghost use Rattle.std.specs.Prelude.{◌≡◌};
ghost use Rattle.tunnel_pdus.specs.Value.{protocol_code};
ghost use Rattle.tunnel_pdus.specs.Reading.{protocol_of};

use mt_base::Kind;

/// Asks for a tunnel.
pub(crate) const REQUEST: u8 = 1;
/// Tells what became of it.
pub(crate) const RESPONSE: u8 = 2;
/// A channel PDU.
pub(crate) const CHANNEL: u8 = 3;

/// What a main frame holds: its first byte.
#[derive(Clone, Copy, Debug, PartialEq, Eq)]
pub(crate) enum FrameKind {
    Request,
    Response,
    Channel,
}

impl FrameKind {
    ghost use Rattle.std.specs.Prelude.{◌≡◌};
    ghost use Rattle.tunnel_pdus.specs.Reading.{kind_of};

    /// The kind that a code names.
    pub(crate) fn of(code: u8) -> Option<FrameKind>
        ensures { result ≡ kind_of code }
    {
        match code {
            REQUEST => Some(FrameKind::Request),
            RESPONSE => Some(FrameKind::Response),
            CHANNEL => Some(FrameKind::Channel),
            _ => None,
        }
    }
}

/// The kind of link that a requestedProtocol names (MS-RDPBCGR section 2.2.15.1).
pub(crate) fn protocol_of(code: u16) -> Option<Kind>
    ensures { result ≡ protocol_of code }
{
    match code {
        1 => Some(Kind::Reliable),
        2 => Some(Kind::Lossy),
        _ => None,
    }
}

/// The requestedProtocol of a kind of link.
pub(crate) fn protocol_code(kind: Kind) -> u16
    ensures { result ≡ protocol_code kind }
{
    match kind {
        Kind::Reliable => 1,
        Kind::Lossy => 2,
    }
}
