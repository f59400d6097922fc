//! Two ends in memory whose links are those over UDP: what each of them delivers the other sent.
//!
//! A pair of ends (`end_pair`) stands for one list of the calls of both. Here that list is shown to be one of two ends
//! over a network (`end_net`), so that all that holds of such a network holds of the code.
//!
//! The premise is that each link keeps the law of the settings of its side and kind (`UsesLinks`). It holds of two ends
//! that were made, and behind each call of a pair: four laws take it from call to call.
#![tactic(auto)]

mod laws;

pub use laws::{
    a_link_that_is_attached_keeps_its_settings, a_new_link_keeps_its_settings,
    links_stay_as_they_were_made, no_links_keep_any_settings, what_comes_in_time,
    what_is_delivered_was_sent,
};
