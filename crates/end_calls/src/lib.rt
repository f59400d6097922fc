//! The calls of one end of a session, with their bytes: what is read of the main stream and of the
//! links, where reading stops, what an end calls of its links, and the law that all its calls keep.
//! It is definitions and laws; the acts that they come to stand in `mt_endpoint`, below.
//!
//! Below it stand `mt_endpoint` with the acts, and `carrier` with what a link is.
#![tactic(auto)]

mod counters;
mod fault;
mod laws;
mod limits;
mod refusal;

pub use counters::Counters;
pub use fault::{Fault, Place};
pub use laws::{
    a_client_in_bytes, cuts_do_not_matter, two_ends_by_hand, two_ends_in_bytes,
    verdicts_are_of_the_table,
};
pub use limits::{
    ANSWER, CONTROL, HELD_PDU, HOLD, INBOX, LOSSY_MESSAGE, MAIN_QUEUE, MESSAGE, RESERVE,
};
pub use refusal::{AskRefusal, CloseRefusal, MoveRefusal, OpenRefusal, SendRefusal};
