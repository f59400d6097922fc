//! The events of a script, its lines, and why bytes are no script.

use crate::text::Text;
use mt_base::Role;

/// What one line of a script does.
#[derive(Drop)]
pub enum Event {
    /// `open NAME`: the server creates a channel.
    Open { name: Text },
    /// `send SIDE ID HEX`: an end sends a message on a channel.
    Send { side: Role, id: u32, message: Text },
    /// `main SIDE all`: all main stream bytes that this end wrote reach the other end.
    Main { side: Role },
}

/// An event, and the number of its line in the script, counted from 1.
#[derive(Drop)]
pub struct Line {
    pub event: Event,
    pub number: u64,
}

/// Why bytes are no script. Lines are counted from 1.
#[derive(Clone, Copy, Debug, PartialEq, Eq)]
pub enum ScriptRefusal {
    /// The line's first word is no command.
    BadCommand { line: u64 },
    /// The line begins with a command, and its other words are not that command's.
    BadWords { line: u64 },
    /// There are more lines than a script may have.
    TooManyLines { limit: u64 },
    /// Memory ran out.
    NoMemory,
}
