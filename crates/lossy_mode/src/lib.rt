//! A lossy link over UDP, from its opening on (MS-RDPEUDP section 3.1.5.1): it carries parts, each
//! sent once, and hands out those that came in the order in which they were posted. It has no socket
//! and no clock.
//!
//! Below it stand `udp_open`, which opens it, `udp1_packets` and `udp1_core`, which read and write
//! its datagrams, `carrier` with what a link is, `mt_windows` with the numbers that were seen, and the
//! kit's `circular_buffer`, in which its parts wait. What the crates above use is that [`LossyCore`]
//! is a `Post`, which stands for a trace of its calls in which each datagram is answered and each poll
//! sends as `specs/Thin.antt` says; and that of two that are joined the parts that one handed out are
//! some of those posted at the other, in order ([`lossy_links_join`]).
#![tactic(auto)]

mod arrivals;
mod contents;
mod head;
mod joined;
mod link;
mod open_link;
mod part_ring;
mod tellings;

pub use joined::{a_lossy_link_carries_a_part, lossy_links_join};
pub use link::LossyCore;
