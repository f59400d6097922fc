//! What a link of datagrams is to the crates above it, whatever layout its datagrams have: the
//! traits [`Carrier`] and [`Post`] of a reliable and of a lossy link, what they answer, and the
//! refusals of the two datagram layouts. In `specs/` stand the entries and traces of a link, what
//! was received and sent by them, what is due, the law that they keep, and what is asked of a
//! layout. From that law alone follows what one end keeps to, [`faithful_links`], and the law of two
//! joined ends, [`joined_links`].
//! [`PerfectCarrier`] and [`PerfectPost`] are links with numbered datagrams and no more, for tests
//! and for ends that need no real link.
//!
//! Below it stand `mt_base` and `mt_windows`, whose definitions of parts and tellings the traces
//! use. What the crates above use is that a link stands for a trace of its calls that keeps the
//! link's law, what each call adds to that trace, and that bytes arrive between two such links in
//! the order in which they were given.
#![tactic(auto)]

mod byte_queue;
mod clock;
mod faithful;
mod first_layout;
mod laws;
mod limits;
mod lossy;
mod perfect_carrier;
mod perfect_datagram;
mod perfect_post;
mod piece;
mod refusal_names;
mod reliable;
mod second_layout;
mod state;
mod two_links;

pub use clock::Clock;
pub use faithful::{faithful_links, links_close};
pub use first_layout::Refusal1;
pub use laws::{
    perfect_bytes_arrive, perfect_bytes_in_order, perfect_parts_arrive, perfect_parts_in_order,
};
pub use limits::{EXPIRIES, WITH_TELLING};
pub use lossy::{Post, PostRefusal};
pub use perfect_carrier::PerfectCarrier;
pub use perfect_post::PerfectPost;
pub use reliable::{Carrier, GiveRefusal};
pub use second_layout::Refusal2;
pub use state::{LinkState, Reason, Took};
pub use two_links::{
    a_small_world, a_small_world_of_transmissions, joined_links, sixteen_bits_are_enough,
};
