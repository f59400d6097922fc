//! The coded acknowledgement vector of the second datagram layout (MS-RDPEUDP2 section
//! 2.2.1.2.6): which numbers from a base number on were received, as a list of bytes, each a run
//! of equal flags or seven flags.
//!
//! Below it stands `mt_base` alone. What the crates above use is that coded bytes spell flags, the
//! join of what each byte spells: reading gives them, the flag of a number is told from them, and
//! what is written for flags spells just these.
#![tactic(auto)]

mod bytes;
mod flags;
mod laws;
mod lookup;
mod reader;
mod writer;

pub use flags::Coded;
pub use laws::{chosen_pieces, few_flags, numbers_told, written_spells};
pub use lookup::told_coded;
pub use reader::read_coded;
pub use writer::{CodedWriter, write_coded};
