//! Tests of the tables behind channels and tunnels: the table of channels with its messages, the
//! cookies of tunnels, the paths of Soft-Sync and the PDUs that it holds. They stand apart from those
//! crates, which are then proved once for their code and not a second time for their tests.
//!
//! Below it stand these crates, `mt_base` and `dvc_pdus`. No crate stands on it.
#![tactic(auto)]

#[cfg(test)]
mod cookies;
#[cfg(test)]
mod held;
#[cfg(test)]
mod paths;
#[cfg(test)]
mod splitting;
#[cfg(test)]
mod table;
