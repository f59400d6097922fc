//! The acknowledgement vector of the first datagram layout (MS-RDPEUDP section 2.2.2.7): which of
//! the last datagrams were received, as a list of one-byte elements, each a run of equal flags.
//!
//! Below it stands `mt_base` alone. What the crates above use is that elements spell flags, the
//! join of their runs: reading gives them, the flag of a number is told from them, and what is
//! written for flags spells just these.
#![tactic(auto)]

mod laws;
mod lookup;
mod reader;
mod writer;

pub use laws::{flags_of_runs, longest_stretches, numbers_told, written_spells};
pub use lookup::told;
pub use reader::{Run, Runs, read_runs};
pub use writer::{RunWriter, write_runs};
