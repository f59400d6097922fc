//! The datagrams that both ends of a link gave, in their order.
//!
//! A network in memory keeps them to bring them later, again or never: those who play two ends ask by side and number,
//! and how many datagrams were given on the link after one. Each answer comes without a search from the start.
#![tactic(auto)]

mod traffic;

pub use traffic::Traffic;
