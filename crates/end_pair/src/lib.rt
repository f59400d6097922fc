//! Two ends of a session in memory, and what is between them: the main streams, which lose nothing, and the datagrams
//! of both links, which the caller lets come in any order, any number of times, or never.
//!
//! A [`Pair`] is generic over both links. It stands for one list of the calls of both ends, in the order in which they
//! were made (`specs/Joined.antt`), and each of its calls adds to that list. A datagram comes only where the other end
//! gave it, and fewer than [`LATE`] were given on its link after it: so the law of two ends over a network
//! (`end_net`) speaks of every list that a pair stands for.
//!
//! No call but an attachment changes by which law a link of either end keeps (`specs/Laws.antt`).
#![tactic(auto)]

mod attaching;
mod moving;
mod own;
mod pair;
mod server;
mod wires;

pub use pair::{LATE, Pair};
pub use wires::DeliverRefusal;
