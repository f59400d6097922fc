//! Packets of the second datagram layout (MS-RDPEUDP2 section 2.2), read from and written into
//! borrowed bytes: acknowledgements and acknowledgement vectors, data, and dummies. A datagram is
//! a packet behind a prefix byte, with two of its bytes in each other's place.
//!
//! Below it stand `mt_base` with its cursor and its place for writing, and `carrier` for the
//! refusal. What the crates above use is that [`read2`] gives the packet that a datagram spells or
//! its first fault, that [`write2`] writes a datagram that spells a packet, and that this is read
//! back. [`write_fields2`] and [`finish2`] are its two halves, between which bytes may be put
//! behind the fields.
#![tactic(auto)]

mod exchange;
mod finish;
mod flags;
mod laws;
mod packet;
mod read;
mod write;

pub use carrier::Refusal2;
pub use finish::finish2;
pub use laws::{one_meaning, reading_by_layout, separation, written_is_read};
pub use packet::{Ack2, Body2, DelayInfo, Packet2, Stamp2, Telling2, Vector2};
pub use read::read2;
pub use write::{write_fields2, write2};
