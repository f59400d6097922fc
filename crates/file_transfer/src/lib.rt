//! The files of one end of a session: those that it sends, as messages that are made of a store's files one by one,
//! and those that it gets, as messages that come and are kept in the store.
//!
//! Below it stand `mt_outside` with the devices, and `file_messages` with the messages. What the crates above use:
//!
//! - An [`Outgoing`] stands for the messages that were sent so far and the files that they carry (`HasSent` in
//!   `specs/Sending.antt`). For a store that tells the own files, these have the contents that it tells (`Follow`), what
//!   was sent is the front of what is written for them ([`what_was_sent_is_a_front`]), and at the end it is all of that.
//! - An [`Incoming`] stands for the messages that came and the files that they carry (`HasKept` in
//!   `specs/Keeping.antt`), takes a message exactly where a list of files may go on with it, and keeps the files in the
//!   store under a prefix, each name as it came last, and no other file changes ([`what_is_kept`]).
//!
//! Neither holds more of a file than one piece.
#![tactic(auto)]

mod arrivals;
mod coming;
mod draft;
mod incoming;
mod laws;
mod lines;
mod outgoing;
mod own_file;
mod reading;

pub use coming::KeptFile;
pub use incoming::{Incoming, KeepFault, PrintFault};
pub use laws::{what_is_kept, what_was_sent_is_a_front};
pub use outgoing::{MakeFault, Outgoing};
pub use own_file::{OwnFile, PathRefusal};

#[cfg(test)]
mod tests;
