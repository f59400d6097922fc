//! Two ends of a session with both their links, over a network: the law that what is delivered was sent.
//!
//! The ends keep the law of an end's calls (`end_calls`), their links that of a link that opens and carries bytes
//! (`udp_open`) or parts (`lossy_mode`). [`two_ends`] puts these three together: over a network that loses, copies
//! and reorders datagrams and makes none, each end reads the front of what the other wrote, by the main stream, and
//! by the tunnels, and so all that was proved of two ends holds of them. It speaks of lists of calls alone, and of no
//! code.
#![tactic(auto)]

mod laws;

pub use laws::{a_network_by_hand, one_request_opens_one_tunnel, two_ends};
