//! What lies between two ends of a session, as definitions over the one list of their calls: the bytes of the main
//! streams that are under way (`specs/MainStreams.antt`), and the datagrams that were given on each link, of which one
//! may come as long as not too many were given after it (`specs/Wires.antt`).
#![tactic(auto)]

mod laws;

pub use laws::what_is_under_way;
