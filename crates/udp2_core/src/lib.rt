//! The machine of a reliable link whose datagrams have the second layout (MS-RDPEUDP2 section 2.2),
//! version 0x0101, from the moment on at which its ends have agreed.
//!
//! Below it stand `link_machine` with the machine of any layout, `udp2_packets` and `coded_vector`,
//! which read and write these datagrams, and `carrier` with what a link is. What the crates above
//! use is that [`Udp2Core`] is a `Carrier` whose traces are faithful to the second layout, and that
//! this is a layout that reads back what it spells ([`second_layout_is_read`]). What such a link
//! sends, tells and holds back stands in [`second_links_keep`]; of two that are joined what one end
//! pulled is the beginning of what the other was given ([`second_links_join`]).
#![tactic(auto)]

mod coded;
mod contents;
mod head;
mod joined;
mod keeps;
mod laws;
mod link;
mod second;
mod settle;

pub use joined::{numbers_wrap, pulled_was_given, second_links_join};
pub use keeps::second_links_keep;
pub use laws::{one_part_goes_over, second_layout_is_read};
pub use link::Udp2Core;
pub use second::Second;
