//! One end of a session with its links. An [`Endpoint`] is generic over both links; it has an end without
//! links, and how far its streams were read, below it (`end_reader`), and what that writes into a tunnel goes
//! into the tunnel's link before the call ends.
//!
//! An [`Endpoint`] stands for a list of calls that keeps the law of an end's calls (`EndTrace` of `end_calls`),
//! and each of its links for the calls that this list makes of it (`specs/Standing.antt`, `specs/Attached.antt`).
//! That it stands for some list is an invariant of its type. Each call here adds its entry to every list that
//! the end stood for, or is refused and changes nothing. No call but an attachment changes by which law a link
//! keeps (`specs/Laws.antt`).
//!
//! All calls stand. [`Endpoint::main_in`] reads the main stream; [`Endpoint::wire_in`] pulls and reads what the
//! reliable link has (`src/pulling.rt`), and takes the parts of the lossy one (`src/parts.rt`), up to a stop
//! (`src/link_stop.rt`). The counts are still to come (docs/ENDPOINT.md).
#![tactic(auto)]

mod attaching;
mod closing;
mod endpoint;
mod giving;
mod handing;
mod laws;
mod link_stop;
mod main_reading;
mod parts;
mod polling;
mod postings;
mod pulling;
mod reading;
mod refusing;
mod repeating;
mod sending;
mod serving;
mod silence;
mod state;
mod taking;
mod wiring;

pub use endpoint::Endpoint;
pub use laws::nothing_goes_where_no_link_is;
pub use postings::Postings;
pub use state::EndState;
