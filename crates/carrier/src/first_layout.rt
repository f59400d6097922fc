//! Why bytes are no packet of the first layout.

ghost use Rattle.std.specs.Prelude.{◌≡◌};
ghost use Rattle.carrier.specs.Names.{first_name, first_place};

use mt_base::Short;
use std::fmt;

/// Why bytes are no packet of the first layout (MS-RDPEUDP section 2.2): the first fault in the
/// order of the fields. Places are byte offsets from the datagram's first byte.
#[derive(Clone, Copy, Debug, PartialEq, Eq)]
pub enum Refusal1 {
    /// A field is cut short.
    Short(Short),
    /// The MTU at this place is not one of 1132 to 1232.
    BadMtu { at: usize },
    /// The version at this place is said to be valid, and is none that is known.
    BadVersion { at: usize },
    /// The state of the vector element at this place is neither received nor not received.
    BadState { at: usize },
    /// The vector whose size stands at this place would have more than 2,048 elements.
    VectorTooLong { at: usize },
    /// The flags at this place open a connection and announce what no opening carries.
    SynWithData { at: usize },
    /// The byte at this place pads an opening packet, and is not zero.
    PaddingNotZero { at: usize },
}

impl From<Short> for Refusal1 {
    ghost use Rattle.std.specs.Prelude.{◌≡◌};
    ghost use Rattle.carrier.specs.declared.first_layout.Refusal1.TheVariants as refusal;

    ghost from_gives = { λ short answer. answer ≡ refusal.Short short };

    fn from(short: Short) -> Refusal1 {
        Refusal1::Short(short)
    }
}

impl Refusal1 {
    /// The name of the fault, spelled as its variant.
    pub fn name(&self) -> &'static str
        ensures { result.now ≡ first_name self.now }
    {
        match self {
            Refusal1::Short(_) => "Short",
            Refusal1::BadMtu { .. } => "BadMtu",
            Refusal1::BadVersion { .. } => "BadVersion",
            Refusal1::BadState { .. } => "BadState",
            Refusal1::VectorTooLong { .. } => "VectorTooLong",
            Refusal1::SynWithData { .. } => "SynWithData",
            Refusal1::PaddingNotZero { .. } => "PaddingNotZero",
        }
    }

    /// The byte offset of the fault; of a field that is cut short, where it begins.
    pub fn place(&self) -> usize
        ensures { result ≡ first_place self.now }
    {
        match *self {
            Refusal1::Short(Short { at, .. })
            | Refusal1::BadMtu { at }
            | Refusal1::BadVersion { at }
            | Refusal1::BadState { at }
            | Refusal1::VectorTooLong { at }
            | Refusal1::SynWithData { at }
            | Refusal1::PaddingNotZero { at } => at,
        }
    }
}

/// `NAME at PLACE`.
impl fmt::Display for Refusal1 {
    ghost use Rattle.std.specs.Prelude.{Some};
    ghost use Rattle.carrier.specs.Names.{first_text};

    ghost output = { λ r. Some (first_text r) };

    fn fmt<W: fmt::Write>(&self, f: &mut fmt::Formatter<W>) -> fmt::Result {
        let name = self.name();
        let place = self.place();
        write!(f, "{name} at {place}")
    }
}
