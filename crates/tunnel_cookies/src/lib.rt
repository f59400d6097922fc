//! The cookies that a server hands out for its tunnels, and which link opened by which.
//!
//! Below it stand `mt_base`, the kit's `indexmap` and its `sha2`. What the crates above use is
//! that [`Issued`] is the list of its entries in order of issue, each with the link that spent it;
//! that [`Issued::open`] gives the verdict of that list alone; and that an entry opens one link.
#![tactic(auto)]

mod entry;
mod issued;
mod laws;

pub use entry::{Entry, IssueRefusal, Verdict};
pub use issued::Issued;
pub use laws::{one_link, one_verdict};
