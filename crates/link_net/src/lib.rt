//! Two ends of a link in memory, and the network between them: what the tests of links, and programs
//! that need no socket, run their links over. It is no part of the product.
//!
//! A [`Way`] is one direction of the network: it loses, copies and holds back datagrams by a plan of
//! [`Fate`]s. A [`Pair`] is two links with a way each and a clock of their own; it runs until nothing
//! is under way and nothing is due. A [`Story`] is what happens to such a pair, and an [`Ending`] how
//! it ended. A [`Step`] is one call of a link with the answer that is expected, a [`Turn`] is one of two
//! links, and [`play`] and [`play_both`] go through a table of them.
//!
//! Below it stand `carrier` with what a link is, and `mt_base`. All of it is generic over the link,
//! and is proved once from what [`Carrier`](carrier::Carrier) promises. What the crates above use is
//! that each call is safe whatever the links do, and that a pair's clock stays below 2^62.
#![tactic(auto)]

mod end;
mod pair;
mod step;
mod story;
mod way;

pub use end::{End, Outcome};
pub use pair::Pair;
pub use step::{Step, Turn, carries, filled, is_silent, play, play_both, sends, sent_length};
pub use story::{ALL_LOST, ALL_TWICE, Ending, MIXED_UP, Story, THIRD_LOST, UNRULY, stories};
pub use way::{Fate, Way, earlier};
