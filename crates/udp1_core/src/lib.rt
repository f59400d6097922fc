//! The machine of a reliable link whose datagrams have the first layout (MS-RDPEUDP section 2.2),
//! versions 1 and 2, from the moment on at which its ends have agreed.
//!
//! Below it stand `link_machine` with the machine of any layout, `udp1_packets` and `ack_vector`,
//! which read and write these datagrams, and `carrier` with what a link is. What the crates above
//! use is that [`Udp1Core`] is a `Carrier` whose traces are faithful to the first layout, and that
//! this is a layout that reads back what it spells ([`first_layout_is_read`]). What such a link
//! sends, tells and holds back stands in [`first_links_keep`]; of two that are joined what one end
//! pulled is the beginning of what the other was given ([`first_links_join`]). A lossy link writes
//! its tellings by [`write_elements`] too.
#![tactic(auto)]

mod contents;
mod elements;
mod first;
mod head;
mod joined;
mod keeps;
mod laws;
mod link;
mod settle;

pub use elements::{ELEMENTS, write_elements};
pub use first::First;
pub use joined::{first_links_join, pulled_was_given};
pub use keeps::first_links_keep;
pub use laws::{first_layout_is_read, one_part_goes_over};
pub use link::Udp1Core;
