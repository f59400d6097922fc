//! The entries of a capture, and why bytes are no capture.

use mt_base::{Kind, Role};
use mt_script::{LineFault, Text};

/// One thing that happened in a session.
#[derive(Drop)]
pub enum Entry {
    /// `issue ID KIND COOKIE`: the server issued a request for a tunnel of this kind.
    Issue {
        id: u32,
        kind: Kind,
        cookie: [u8; 16],
    },
    /// `open ID NAME`: the server created a channel.
    Open {
        id: u32,
        name: Text,
    },
    /// `sent SIDE ID HEX`: an end sent a message on a channel.
    Sent {
        side: Role,
        id: u32,
        message: Text,
    },
    /// `got SIDE ID HEX`: a message of a channel was delivered at an end.
    Got {
        side: Role,
        id: u32,
        message: Text,
    },
    /// `main SIDE HEX`: main stream bytes that this end wrote reached the other end.
    Main {
        side: Role,
        bytes: Text,
    },
    /// `word SIDE KIND ID`: an end queued its Soft-Sync word, which moves the channel to the tunnel
    /// of this kind.
    Word {
        side: Role,
        kind: Kind,
        id: u32,
    },
    /// `out SIDE KIND N HEX`: an end gave its datagram of this number on the link of this kind.
    Out {
        side: Role,
        kind: Kind,
        number: u64,
        datagram: Text,
    },
    /// `in SIDE KIND N`: this end's datagram of this number reached the other end.
    In {
        side: Role,
        kind: Kind,
        number: u64,
    },
}

/// Why bytes are no capture. Lines are counted from 1.
#[derive(Clone, Copy, Debug, PartialEq, Eq)]
pub enum CaptureRefusal {
    /// The line is no entry.
    BadLine { line: u64 },
    /// There are more lines than a capture may have.
    TooManyLines { limit: u64 },
    /// Memory ran out.
    NoMemory,
}

impl CaptureRefusal {
    ghost use Rattle.std.specs.Prelude.{◌≡◌};
    ghost use Rattle.capture_check.specs.Reading.{refusal_at};

    /// The refusal of a capture whose line of this number has the fault.
    pub(crate) fn of(fault: LineFault, line: u64) -> CaptureRefusal
        ensures { result ≡ refusal_at fault line }
    {
        match fault {
            LineFault::BadCommand | LineFault::BadWords => CaptureRefusal::BadLine { line },
            LineFault::NoMemory => CaptureRefusal::NoMemory,
        }
    }
}
