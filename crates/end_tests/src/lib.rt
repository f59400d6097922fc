//! Tests of an end without its links. They stand apart from its crate, which is then proved once for its
//! code and not a second time for its tests.
//!
//! Below it stand `end_session` and what its calls name. No crate stands on it.
#![tactic(auto)]

#[cfg(test)]
mod making;
#[cfg(test)]
mod parts;
