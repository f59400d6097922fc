//! The channel PDUs that a tunnel brought before the word that moves their channel was read
//! (MS-RDPEDYC section 3.1.5.1): they are held, in order, until they are released or dropped.
//!
//! Below it stand `mt_base` and the kit's `circular_buffer`. What the crates above use is that
//! [`Hold`] is the list of what it holds: [`Hold::keep`] appends a PDU, [`Hold::release`] gives and
//! removes the oldest of a channel, [`Hold::drop_all`] removes all of one, and [`Hold::room`] is
//! what is left of 1,048,576 bytes.
#![tactic(auto)]

mod hold;
mod record;
mod rings;

pub use hold::Hold;
