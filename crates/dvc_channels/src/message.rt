//! Messages.

ghost use Rattle.std.specs.Prelude.{◌≡◌};

use std::marker::Model;

/// A whole message of a channel. Clauses see it as the list of its bytes.
#[derive(Drop)]
pub struct Message {
    bytes: Vec<u8>,
}

impl Model for Message {
    ghost use Rattle.std.specs.Prelude.{ℕ, List};

    ghost Value = { List ℕ };

    ghost view = { λ m. m.bytes.items };
}

impl Message {
    /// A message of these bytes.
    pub(crate) fn new(bytes: Vec<u8>) -> Message
        ensures { result ≡ bytes.items }
    {
        Message { bytes }
    }

    /// Its bytes, 0 to 1,048,576.
    pub fn bytes(&self) -> &[u8]
        ensures { result.now ≡ self.now }
    {
        self.bytes.as_slice()
    }
}
