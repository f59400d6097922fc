//! The paths of a session's channels, and the Soft-Sync requests and answers that move them (MS-
//! RDPEDYC section 3.1.5.3).
//!
//! Below it stand `mt_base` and the kit's `indexmap`. What the crates above use is that [`Paths`]
//! stands for the requests that an end made and read, each with its answer so far, and that the
//! paths of a channel are those of these lists: what goes out moves at the request of this end, or
//! at its answer; what comes in at that of the other ([`Paths::outward`], [`Paths::inward`]).
#![tactic(auto)]

mod exchanges;
mod kinds;
mod laws;
mod paths;
mod row;

pub use kinds::{Kinds, Path, Placed, SyncRefusal};
pub use laws::{a_session, answers_come_in_order, ends_agree};
pub use paths::Paths;
