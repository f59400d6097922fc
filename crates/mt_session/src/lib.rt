//! A session: an end of a connection over its devices, turn by turn. A turn reads the main stream once, gives the
//! end what came, takes and sends datagrams, and writes once to the main stream.
//!
//! A [`Session`] with its devices stands for a list of steps (`Live` in `specs/Live.antt`), each a call of a device,
//! of the end, or of both. The calls of the end, the bytes that wait, the counts and what the devices tell are
//! functions of these steps (`specs/Steps.antt`), which come in the order of turns (`specs/Turns.antt`). A turn
//! adds its steps, also where it fails in its midst. [`carried`] says what follows for the lists that the devices
//! tell.
//!
//! Below it stand `mt_outside` with the devices, and `end_calls` with the calls of an end. What an end is stands
//! above: a turn takes any [`End`].
#![tactic(auto)]

mod buffer;
mod datagrams;
mod end;
mod laws;
mod main_stream;
mod session;
mod tally;
mod turned;

pub use end::End;
pub use laws::{called, carried};
pub use session::Session;
pub use tally::Tally;
pub use turned::Turned;
