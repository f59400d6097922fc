//! What a capture is judged to be.

use crate::entry::Entry;

/// Whether a capture keeps its rules.
#[derive(Clone, Copy, Debug, PartialEq, Eq)]
pub enum Judgement {
    /// Each line keeps them.
    Holds,
    /// The first line that breaks one, counted from 1, and the least rule that it breaks.
    Breaks { line: u64, rule: u8 },
}

impl Judgement {
    ghost use Rattle.std.specs.Prelude.{◌≡◌, length};
    ghost use Rattle.capture_check.specs.Passes.{IsWithin, unbroken, with_found};

    /// The entries before the line that breaks a rule; all where none does.
    pub(crate) fn unbroken(self, entries: &[Entry]) -> &[Entry]
        requires { IsWithin (length entries.now) self }
        ensures { result.now ≡ unbroken entries.now self }
    {
        match self {
            Judgement::Holds => entries,
            Judgement::Breaks { line, .. } => &entries[..(line - 1) as usize],
        }
    }

    /// The judgement after a pass, over the entries before the line that breaks a rule, found the
    /// first line that breaks a further one.
    pub(crate) fn with_found(self, rule: u8, found: Option<u64>) -> Judgement
        ensures { result ≡ with_found self rule found }
    {
        match found {
            Some(line) => Judgement::Breaks { line, rule },
            None => self,
        }
    }
}
