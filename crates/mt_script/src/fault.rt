//! Why a line is refused, before its number is known.

ghost use Rattle.std.specs.Prelude.{◌≡◌};
ghost use Rattle.mt_script.specs.Reading.{refusal_at};

use crate::event::ScriptRefusal;

/// Why a line is no line of a script, or of another file of lines.
#[derive(Clone, Copy, Debug, PartialEq, Eq)]
pub enum LineFault {
    /// The first word is no command.
    BadCommand,
    /// A word is missing, is not what stands at its place, or is one too many.
    BadWords,
    /// Memory ran out.
    NoMemory,
}

impl LineFault {
    /// The refusal of a script whose line of this number has the fault.
    pub(crate) fn at(self, line: u64) -> ScriptRefusal
        ensures { result ≡ refusal_at self line }
    {
        match self {
            LineFault::BadCommand => ScriptRefusal::BadCommand { line },
            LineFault::BadWords => ScriptRefusal::BadWords { line },
            LineFault::NoMemory => ScriptRefusal::NoMemory,
        }
    }
}
