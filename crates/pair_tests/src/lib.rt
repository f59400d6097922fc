//! Stories of two ends of a session over real links, in memory.
#![tactic(auto)]

#[cfg(test)]
mod moving;
