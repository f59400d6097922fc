//! The machine of a reliable link of whatever version, from the moment on at which its ends have
//! agreed: of the first layout in versions 0x0001 and 0x0002 (MS-RDPEUDP section 2.2), of the second
//! in version 0x0101 (MS-RDPEUDP2 section 2.2).
//!
//! Below it stand `udp1_core` and `udp2_core` with the machines of the two layouts, and `carrier` with
//! what a link is. What the crates above use is that [`LinkCore`] is a `Carrier` whose traces are
//! faithful to the layout of its version, and becomes a new link of any version without taking memory.
//! What such a link sends, tells and holds back stands in [`links_keep`]; of two that are joined what
//! one end pulled is the beginning of what the other was given ([`links_join`]).
#![tactic(auto)]

mod any;
mod joined;
mod keeps;
mod layout;
mod link;

pub use joined::{links_join, pulled_was_given};
pub use keeps::links_keep;
pub use layout::LinkLayout;
pub use link::LinkCore;
