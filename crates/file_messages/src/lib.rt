//! The messages by which one end carries files to the other on a channel: for each file its name
//! and its content in pieces, and an empty message behind the last file.
//!
//! Below it stands `mt_base`. What the crates above use is the relation between a list of messages
//! and the files that they carry, `AreFiles`, that a list of messages carries at most one list of
//! files, and that [`FileReader`] takes a message exactly where such a list may go on with it.
#![tactic(auto)]

mod laws;
mod names;
mod reader;
mod refusal_name;
mod writer;

pub use laws::{
    each_name_once, each_writing, one_meaning, one_writing, whole_or_under_way, written_is_read,
};
pub use names::{is_file_name, sent_name};
pub use reader::{BadFileMessage, FileReader, FileStep, PIECE};
pub use writer::{name_message, piece_message};

#[cfg(test)]
mod tests;
