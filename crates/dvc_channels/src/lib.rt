//! The dynamic channels of a session (MS-RDPEDYC section 3): which there are, the messages that
//! their data PDUs make, and the PDUs that a message is cut into.
//!
//! Below it stands `dvc_pdus`, with the PDUs. What the crates above use is that [`Channels`] stands
//! for what was done to it: a channel's state, and its messages, are those of the PDUs that came
//! ([`Channels::accept`], [`Channels::take`]); that [`fragment_of`] spells the PDUs of a message,
//! one by one; and that these PDUs make that message again ([`fragments_make_messages`]) and are the
//! fewest that do ([`fragments_are_fewest`]).
#![tactic(auto)]

mod answers;
mod channel;
mod channels;
mod laws;
mod message;
mod splitting;

pub use answers::{Accepted, ChannelRefusal, ChannelState, CreateRefusal};
pub use channels::Channels;
pub use laws::{
    fragments_are_fewest, fragments_fit, fragments_make_messages, more_pieces_add, one_cutting,
};
pub use message::Message;
pub use splitting::{fragment_of, fragments, fragments_size};
