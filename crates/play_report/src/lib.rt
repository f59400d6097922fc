//! The text of a report on what two ends of a session sent and what came of it, and the tallies
//! that it prints.
//!
//! A [`Tally`] is kept as messages come: how many there were, and the SHA-256 of their bytes,
//! joined; of the messages it keeps nothing. A [`Report`] is written line by line: a channel's
//! lines from the tallies of what was sent and what was delivered, a tunnel's line, the main
//! stream's. Below it stand `mt_script`, whose `Text` a report becomes, `mt_base`, and the kit's
//! `sha2` and `hex`. What the crates above use is that a tally stands for a list of messages,
//! `Counts`, and that each call on a report adds the line which that list defines, `channel_line`,
//! `tunnel_line`, `main_line`.
#![tactic(auto)]

mod report;
mod tally;

pub use report::Report;
pub use tally::Tally;
