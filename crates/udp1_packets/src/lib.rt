//! Packets of the first datagram layout (MS-RDPEUDP section 2.2), versions 1 and 2 and the opening
//! of version 3, read from and written into borrowed bytes: openings, data, packets of forward
//! error correction, and acknowledgements alone.
//!
//! Below it stand `mt_base` with its cursor and its place for writing, `ack_vector` for the
//! elements of a vector, and `carrier` for the refusal. What the crates above use is that
//! [`read1`] gives the packet that bytes spell or their first fault, that [`write1`] writes bytes
//! that spell a packet, and that these are read back.
#![tactic(auto)]

mod flags;
mod laws;
mod opening;
mod packet;
mod read;
mod write;

pub use carrier::Refusal1;
pub use laws::{one_meaning, opening_byte, written_is_read};
pub use packet::{Body1, Extension, Packet1, Syn1};
pub use read::read1;
pub use write::write1;
