//! Tests of what links are made of: of the windows of parts; of what a link promises, by the two that
//! lose nothing; and of the network in memory that the stories of links run over. They stand apart
//! from those crates, which are then proved once for their code and not a second time for their tests.
//!
//! Below it stand these crates and `mt_base`. No crate stands on it.
#![tactic(auto)]

#[cfg(test)]
mod network;
#[cfg(test)]
mod perfect;
#[cfg(test)]
mod windows;
