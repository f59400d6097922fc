//! What is kept of a request, and of a channel that it lists.

use crate::kinds::Kinds;
use mt_base::Kind;

/// A request and its answer: the kinds that the request names, whether the answer was given, and
/// the kinds that it names.
#[derive(Clone, Copy, Debug, PartialEq, Eq)]
pub struct Row {
    pub named: Kinds,
    pub is_given: bool,
    pub answer: Kinds,
}

/// Which request lists a channel, by its number from 0, and under which kind.
#[derive(Clone, Copy, Debug, PartialEq, Eq)]
pub struct Listing {
    pub number: u32,
    pub kind: Kind,
}
