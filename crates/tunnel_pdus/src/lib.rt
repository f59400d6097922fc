//! Tunnel PDUs (MS-RDPEMT section 2.2) and the frames of the main stream, read from a byte stream
//! and written into borrowed bytes.
//!
//! Below it stands `mt_base`, with its place for writing. What the crates above use is that
//! [`read_tunnel`] and [`read_frame`] give the value that a stream begins with and exactly its
//! bytes, or the first fault, or the least length at which there is one of both; so it does not
//! matter how a stream is cut. [`write_tunnel`] and [`write_frame`] write bytes that spell their
//! value, and these are read back.
#![tactic(auto)]

mod action;
mod frame;
mod kind;
mod laws;
mod part;
mod stop;
mod tunnel;
mod value;
mod write;

pub use frame::read_frame;
pub use laws::{
    frame_meaning, frame_stream, frame_written, tunnel_meaning, tunnel_stream, tunnel_written,
};
pub use part::{Part, TunnelReason, TunnelRefusal};
pub use tunnel::read_tunnel;
pub use value::{MainFrame, TunnelPdu};
pub use write::{write_frame, write_tunnel};
