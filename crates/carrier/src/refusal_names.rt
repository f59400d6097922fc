//! The names of what giving and posting refuse.

ghost use Rattle.std.specs.Prelude.{◌≡◌};
ghost use Rattle.carrier.specs.Names.{give_name, post_name};

use crate::lossy::PostRefusal;
use crate::reliable::GiveRefusal;
use std::fmt;

impl GiveRefusal {
    /// The name of the refusal, spelled as its variant.
    pub fn name(&self) -> &'static str
        ensures { result.now ≡ give_name self.now }
    {
        match self {
            GiveRefusal::Full { .. } => "Full",
            GiveRefusal::Closed { .. } => "Closed",
        }
    }
}

/// The name.
impl fmt::Display for GiveRefusal {
    ghost use Rattle.std.specs.Prelude.{Some};

    ghost output = { λ r. Some (give_name r) };

    fn fmt<W: fmt::Write>(&self, f: &mut fmt::Formatter<W>) -> fmt::Result {
        f.write_str(self.name())
    }
}

impl PostRefusal {
    /// The name of the refusal, spelled as its variant.
    pub fn name(&self) -> &'static str
        ensures { result.now ≡ post_name self.now }
    {
        match self {
            PostRefusal::Full { .. } => "Full",
            PostRefusal::Closed { .. } => "Closed",
        }
    }
}

/// The name.
impl fmt::Display for PostRefusal {
    ghost use Rattle.std.specs.Prelude.{Some};

    ghost output = { λ r. Some (post_name r) };

    fn fmt<W: fmt::Write>(&self, f: &mut fmt::Formatter<W>) -> fmt::Result {
        f.write_str(self.name())
    }
}
