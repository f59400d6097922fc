//! One end of a session as it reads: two byte streams, the main one and that of its reliable link, cut
//! anywhere, and the parts of its lossy link.
//!
//! Below it stands `end_session`, whose [`Session`](end_session::Session) takes whole values. A [`Reader`] stands for
//! a past (`specs/Standing.antt`): the acts so far, and both streams as far as they were read. Each call says which
//! past it comes to; that nothing rests behind its word and no answer is due between calls, which drawing asks for,
//! is kept by all of them. [`what_is_taken_counts`] says that a caller that looks for a stop before each frame takes
//! the bytes that count.
#![tactic(auto)]

mod laws;
mod main_stream;
mod reader;
mod tunnel_stream;

pub use laws::what_is_taken_counts;
pub use reader::Reader;
