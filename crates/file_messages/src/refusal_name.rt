//! The name of what the reader refuses.

ghost use Rattle.std.specs.Prelude.{◌≡◌, codes};

use crate::reader::BadFileMessage;
use std::fmt;

impl BadFileMessage {
    /// The name of the refusal.
    pub fn name(&self) -> &'static str
        ensures { result.now ≡ codes "BadFileMessage" }
    {
        "BadFileMessage"
    }
}

/// The name.
impl fmt::Display for BadFileMessage {
    ghost use Rattle.std.specs.Prelude.{Some, codes};

    ghost output = { λ r. Some (codes "BadFileMessage") };

    fn fmt<W: fmt::Write>(&self, f: &mut fmt::Formatter<W>) -> fmt::Result {
        f.write_str(self.name())
    }
}
