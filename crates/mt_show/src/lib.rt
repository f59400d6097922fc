//! Show files: each line asks for bytes to be shown, as one datagram, as the front of a stream, or
//! as a channel PDU, and is answered by one line with the value that they spell, or with their first
//! fault.
//!
//! Below it stand `mt_script`, for lines and words of bytes, `udp1_packets`, which reads the packets
//! of the first layout, `udp2_packets` and `coded_vector`, which read those of the second and their
//! vectors, `tunnel_pdus`, which reads the streams, and `dvc_pdus`, which reads channel PDUs. What
//! the crates above use is the relation between a text and what is printed of it, `ShownAs`, that
//! [`show`] gives exactly that, and that each text has exactly one such answer.
#![tactic(auto)]

mod asked;
mod channels;
mod laws;
mod output;
mod packets;
mod refusal;
mod second;
mod streams;
mod whole;

pub use laws::one_output;
pub use refusal::ShowRefusal;
pub use whole::show;
