//! A link over UDP from its opening on (MS-RDPEUDP section 3.1.5.1): how its two ends agree on a
//! version and tell each other their initial numbers, and how they then go on. It has no socket and
//! no clock.
//!
//! Below it stand `link_core` with the machine of any version, `udp1_packets`, which reads and writes
//! the datagrams of an opening, `carrier` with the calls of a link and what they answer,
//! `mt_windows` with the limits of a link, and the kit's `sha2`. What the crates above use is that
//! [`UdpLink`] is a `Carrier`, which opens and then goes on as the machine of the version agreed on,
//! and that on two joined links of whatever version, from their opening on, what arrives at one end is
//! what the other was given ([`two_links`], [`pulled_was_given`]). Of an [`Opening`] alone they use
//! that it stands for a trace of its calls, in which each datagram is answered and each poll sends as
//! the handshake says, that [`Opening::end`] is what was agreed on in it, and that two ends which
//! meet agree ([`both_agree`]).
#![tactic(auto)]

mod agreement;
mod flags;
mod hearing;
mod joined;
mod laws;
mod link;
mod opening;
mod sending;
mod settings;
mod timer;

pub use joined::{a_link_opens, a_third_link_opens, pulled_was_given, two_links};
pub use laws::{
    a_link_is_its_trace, agreements_stay, both_agree, closed_for_good, openings_are_due,
};
pub use link::UdpLink;
pub use opening::{OpenEnd, Opening};
pub use settings::{OpenSettings, hash_cookie};
