//! Whether an end goes on.

use end_calls::Fault;

/// Whether an end goes on, or why it is broken for good.
#[derive(Clone, Copy, Debug, PartialEq, Eq)]
pub enum EndState {
    Fine,
    Broken(Fault),
}
