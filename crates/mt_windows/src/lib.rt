//! The windows of a reliable link: what its sender keeps until it is told that it came, what its
//! receiver keeps until it can be handed out in order, and which numbers were seen of late.
//!
//! Below it stand `mt_base` and the kit's `circular_buffer`. What the machines of a link use is
//! that each window stands for a plain history: a [`ReceiveWindow`] for a list of accepted parts and
//! a count of pulled bytes, a [`Seen`] for the list of noted numbers, a [`SendWindow`] for the list
//! of what was given, cut, sent again and told. Each call's contract says what it gives of that
//! history, and which history the window stands for afterwards. What a window keeps of it, rings and
//! words of bits, is seen only where it is lent: [`SendWindow::waiting`], [`ReceiveWindow::ordered`],
//! [`ReceiveWindow::words`] and [`Seen::words`].
#![tactic(auto)]

mod bits;
mod flight;
mod flights;
mod laws;
mod limits;
mod queue;
mod receive;
mod seen;
mod send;
mod slot;
mod slots;

pub use laws::{
    parts_are_pieces, parts_arrive_once, queued_or_settled, seen_was_noted, settled_was_told,
};
pub use limits::{DATAGRAM, NUMBERS, PART, QUEUE, SPAN, TELL, WINDOW};
pub use receive::{Accept, ReceiveWindow};
pub use seen::Seen;
pub use send::{Full, SendWindow, Sent};
