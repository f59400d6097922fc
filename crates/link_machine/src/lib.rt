//! The machine of a reliable link, whatever layout its datagrams have: a sending half, a receiving
//! half, and [`Machine`], which is a `Carrier` whose traces are faithful to its layout.
//!
//! A layout says by [`WireLayout`] what is its own: how a datagram is read, what a telling settles,
//! and how a datagram is spelled. Its ghost members give the layout that a link has
//! (`specs/Wire.antt`), and what is asked of it stands in `specs/WireLaw.antt`. A part's bytes are
//! written once, behind the head of its datagram; what is told is written flag by flag
//! ([`write_flags`]).
//!
//! Below it stand `mt_windows` with the windows of parts, and `carrier` with what a link is.
#![tactic(auto)]

mod choice;
mod config;
mod contents;
mod flags;
mod laws;
mod load;
mod machine;
mod numbers;
mod receiver;
mod sender;
mod told;
mod wire;

pub use choice::Choice;
pub use config::{ReceiverConfig, SenderConfig};
pub use contents::Contents;
pub use flags::{FlagWriter, write_flags};
pub use laws::a_machine_is_its_trace;
pub use load::Load;
pub use machine::Machine;
pub use numbers::Numbers;
pub use receiver::Receiver;
pub use sender::Sender;
pub use told::Told;
pub use wire::{Got, WireLayout};
