//! Bytes of a name or a message, kept whole.

ghost use Rattle.std.specs.Prelude.{◌≡◌, ℕ, List, IfOk};

use mt_base::NoMemory;
use std::alloc::Global;
use std::marker::Model;

/// A list of bytes that never changes: a channel's name, a message, a report.
#[derive(Drop)]
pub struct Text {
    kept: Vec<u8>,
}

impl Model for Text {
    ghost Value = { List ℕ };

    ghost view = { λ t. t.kept.items };
}

impl Text {
    /// A text of its own with these bytes.
    pub fn new(alloc: Global, bytes: &[u8]) -> Result<Text, NoMemory>
        ensures { IfOk result (λ t. t ≡ bytes.now) }
    {
        match Vec::from_slice(alloc, bytes) {
            Ok(kept) => Ok(Text { kept }),
            Err(_) => Err(NoMemory),
        }
    }

    /// A text of these bytes, which are taken and not copied.
    pub fn from_vec(kept: Vec<u8>) -> Text
        ensures { result ≡ kept.items }
    {
        Text { kept }
    }

    /// The bytes.
    pub fn bytes(&self) -> &[u8]
        ensures { result.now ≡ self.now }
    {
        &self.kept
    }
}
