//! An end with its links as the end of a session: a [`SessionEnd`] has an `Endpoint` (`endpoint`) and makes the five
//! calls of a turn by it (`End` of `mt_session`). So what `mt_session` says of a session over any end is said of a
//! session over this one.
//!
//! A [`SessionEnd`] stands for the lists of calls for which its endpoint does (`EndStands` of `endpoint`, over both of
//! its links), and such a list keeps the law of an end's calls. Each of the five calls is the endpoint's own of the
//! same name, and adds the same entry.
//!
//! The endpoint is a public field. Between two turns a caller reaches it through the end that a session lends
//! (`Session::end`), and makes the other calls of it: opens a channel, sends, lets a tunnel have its link. Each of
//! these adds an entry of the end's own, and so a step to the session (`called` of `mt_session`).
#![tactic(auto)]

mod session_end;

pub use session_end::SessionEnd;
