//! The PDUs of dynamic virtual channels (MS-RDPEDYC section 2.2), read from and written into
//! borrowed bytes: capabilities, creating and closing a channel, data, and Soft-Sync.
//!
//! Below it stands `mt_base` alone, with its cursor and its place for writing. What the crates
//! above use is that [`read_dvc`] gives the PDU that bytes spell or their first fault, that
//! [`write_dvc`] writes the shortest bytes that spell a PDU, and that these are read back.
#![tactic(auto)]

mod command;
mod fields;
mod laws;
mod lists;
mod moves;
mod pdu;
mod read;
mod sync;
mod sync_write;
mod write;

pub use laws::{one_meaning, reading_by_layout, written_is_read};
pub use lists::{Ids, SyncList, SyncLists, SyncTypes};
pub use moves::{write_sync, write_sync_response};
pub use pdu::{DvcPdu, DvcRefusal};
pub use read::read_dvc;
pub use write::write_dvc;
