//! The worked examples of every format: what the readers of the packet and PDU crates give for bytes
//! from the standards, or worked out by hand, and what their writers write. They stand apart from
//! those crates, which are then proved once for their code and not a second time for their tests.
//!
//! Below it stand these crates and `mt_base`. No crate stands on it.
#![tactic(auto)]

#[cfg(test)]
mod channels;
#[cfg(test)]
mod coded_flags;
#[cfg(test)]
mod fields;
#[cfg(test)]
mod first_layout;
#[cfg(test)]
mod moves;
#[cfg(test)]
mod runs;
#[cfg(test)]
mod second_layout;
#[cfg(test)]
mod tunnels;
