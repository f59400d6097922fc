//! One end of a session without its links, as far as it is built: the steps of its own, and what it makes of
//! what it reads: a whole frame of the main stream ([`Session::hear`]), a whole tunnel PDU of the reliable link
//! ([`Session::draw`]) and a part of the lossy one ([`Session::draw_part`]). What reads the streams, and gives an
//! end its links, is still to come (docs/ENDPOINT.md).
//!
//! Below it stand `end_calls` and `mt_endpoint`, whose definitions it follows. A [`Session`] stands for the
//! acts so far (`specs/Standing.antt`): its channels, words, issued requests, tunnels and held PDUs are what
//! these acts made, and what waits in [`Outgoing`] is what they wrote and was not handed out. Each call says
//! which act it adds, or the one [`Cause`] or refusal for which it adds none. Of its parts, a [`MainQueue`] and
//! an [`Outlet`] are lists of bytes, a [`Stream`] is the value under way, and a [`Tunnel`] is what acts have
//! told of it ([`a_tunnel_is_what_acts_made`]).
#![tactic(auto)]

mod answering;
mod asking;
mod attaching;
mod breaking;
mod by_kind;
mod cause;
mod closes;
mod closing;
mod drawing;
mod drawing_whole;
mod freeing;
mod giving;
mod handing;
mod hearing;
mod hearing_channels;
mod hearing_data;
mod hearing_moves;
mod hearing_sync;
mod hearing_tunnels;
mod hearing_whole;
mod held_room;
mod judging;
mod keeping;
mod laws;
mod letting_go;
mod listed;
mod moving;
mod opening;
mod outgoing;
mod outlet;
mod passing;
mod pulling;
mod queue;
mod reading;
mod refusing;
mod releasing;
mod room;
mod sending;
mod session;
mod silencing;
mod spelled;
mod stopping;
mod stream;
mod taking;
mod tunnel;
mod unread;
mod untaken;
mod writing;

pub use cause::Cause;
pub use laws::a_tunnel_is_what_acts_made;
pub use outgoing::Outgoing;
pub use outlet::Outlet;
pub use queue::MainQueue;
pub use session::Session;
pub use stream::Stream;
pub use tunnel::{Asked, Tunnel, TunnelState};
pub use unread::Unread;
pub use untaken::Untaken;
