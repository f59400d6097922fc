//! Tests of the machines of reliable links, open from the start: of that of each layout, alone, and of
//! both as a link of any version. They stand apart from those crates, which are then proved once for
//! their code and not a second time for their tests.
//!
//! Below it stand these crates, `link_net` with the network in memory, and `mt_base`. No crate stands
//! on it.
#![tactic(auto)]

#[cfg(test)]
mod first;
#[cfg(test)]
mod second;
#[cfg(test)]
mod versions;
