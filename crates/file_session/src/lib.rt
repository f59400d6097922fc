//! What an end of a session of files does of its own between two turns, on channel 1.
//!
//! A server creates the channel `files`, asks for a reliable tunnel, and moves the channel there once both are open;
//! an end whose tunnel is asked for gives it a link, which a [`Linker`] makes. Either end takes every whole message
//! that came and keeps the files that these carry, and sends the messages of its own files, as many as have room.
//!
//! Each call says which calls of the end it made (`specs/`), by the list of calls for which an `Endpoint` stands. What
//! was sent on channel 1 are the messages of the own files so far, and what was handed out of it are those of the
//! files that are kept (`specs/Sending.antt`, `specs/Taking.antt`).
#![tactic(auto)]

mod attaching;
mod laws;
mod linker;
mod opening;
mod sending;
mod taking;

pub use attaching::attach_link;
pub use laws::{an_end_sends_a_front, calls_are_apart};
pub use linker::{Linker, UdpLinker};
pub use opening::{move_files, open_files};
pub use sending::send_files;
pub use taking::take_files;
