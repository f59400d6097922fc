//! Tests of links from their opening on, reliable and lossy. They stand apart from the crates of these
//! links, which are then proved once for their code and not a second time for their tests.
//!
//! Below it stand these crates, `link_net` with the network in memory, and `mt_base`. No crate stands
//! on it.
#![tactic(auto)]

#[cfg(test)]
mod lossy;
#[cfg(test)]
mod openings;
