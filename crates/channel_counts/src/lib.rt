//! The channels of a session, and what is counted of them: how many messages each side sent, how many were handed out at
//! it, and the SHA-256 of their bytes. No message is kept.
//!
//! What the calls of both ends tell of channels is a function of their list (`specs/Told.antt`, `channels`); a
//! [`ChannelCounts`] keeps the counts of such a list of channels (`AreKept`, `specs/Counting.antt`), and writes their
//! lines of a report (`specs/Lines.antt`).
#![tactic(auto)]

mod channel;
mod counts;

pub use counts::ChannelCounts;
