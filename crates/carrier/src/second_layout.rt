//! Why bytes are no packet of the second layout.

ghost use Rattle.std.specs.Prelude.{◌≡◌};
ghost use Rattle.carrier.specs.Names.{second_name, second_place};

use mt_base::Short;
use std::fmt;

/// Why bytes are no packet of the second layout (MS-RDPEUDP2 section 2.2): the first fault in the
/// order of the checks. Places are byte offsets from the first byte of the packet as it stands
/// before the exchange of two bytes, with the prefix byte at 0.
#[derive(Clone, Copy, Debug, PartialEq, Eq)]
pub enum Refusal2 {
    /// A field is cut short, or the whole datagram is.
    Short(Short),
    /// The short packet length in the prefix byte is below 2, or names a packet that is shorter
    /// than the datagram.
    ShortLength { at: usize },
    /// The packet type in the prefix byte is neither data nor dummy.
    BadType { at: usize },
    /// A flag of the header is none that is known.
    UnknownFlag { at: usize },
    /// The header announces an acknowledgement and an acknowledgement vector at once.
    AckAndVector { at: usize },
    /// A byte stands after the last field.
    Trailing { at: usize },
}

impl From<Short> for Refusal2 {
    ghost use Rattle.std.specs.Prelude.{◌≡◌};
    ghost use Rattle.carrier.specs.declared.second_layout.Refusal2.TheVariants as refusal;

    ghost from_gives = { λ short answer. answer ≡ refusal.Short short };

    fn from(short: Short) -> Refusal2 {
        Refusal2::Short(short)
    }
}

impl Refusal2 {
    /// The name of the fault, spelled as its variant.
    pub fn name(&self) -> &'static str
        ensures { result.now ≡ second_name self.now }
    {
        match self {
            Refusal2::Short(_) => "Short",
            Refusal2::ShortLength { .. } => "ShortLength",
            Refusal2::BadType { .. } => "BadType",
            Refusal2::UnknownFlag { .. } => "UnknownFlag",
            Refusal2::AckAndVector { .. } => "AckAndVector",
            Refusal2::Trailing { .. } => "Trailing",
        }
    }

    /// The byte offset of the fault; of a field that is cut short, where it begins.
    pub fn place(&self) -> usize
        ensures { result ≡ second_place self.now }
    {
        match *self {
            Refusal2::Short(Short { at, .. })
            | Refusal2::ShortLength { at }
            | Refusal2::BadType { at }
            | Refusal2::UnknownFlag { at }
            | Refusal2::AckAndVector { at }
            | Refusal2::Trailing { at } => at,
        }
    }
}

/// `NAME at PLACE`.
impl fmt::Display for Refusal2 {
    ghost use Rattle.std.specs.Prelude.{Some};
    ghost use Rattle.carrier.specs.Names.{second_text};

    ghost output = { λ r. Some (second_text r) };

    fn fmt<W: fmt::Write>(&self, f: &mut fmt::Formatter<W>) -> fmt::Result {
        let name = self.name();
        let place = self.place();
        write!(f, "{name} at {place}")
    }
}
