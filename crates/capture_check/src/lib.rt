//! Captures: what happened in a session, one line for each thing; the reading of a whole capture,
//! and its judgement by rules.
//!
//! A capture is a text of lines. Each line is one entry, and an entry has exactly one spelling. Each
//! rule asks something of an entry, from it and the entries before it. Below this crate stand
//! `mt_base`, `mt_script`, which cuts the lines and takes their words, and the readers of datagrams,
//! tunnels, main frames and channel PDUs. What the crates above use is the relation between a text
//! and the entries that its lines spell, `ReadsAs`, that [`read_capture`] gives exactly those, and
//! what a capture is judged to be by the rules up to a number, `Judged`, which [`check_numbers`],
//! [`check_datagrams`], [`check_messages`], [`check_tellings`], [`check_frames`] and, by all eight rules,
//! [`check`] answer: the first line that breaks one of these rules, and the least rule that it breaks.
//! Each but the first makes a pass of its own over the lines that the passes before it found unbroken.
//! The flags of vectors in datagrams are those of `ack_vector` and `coded_vector`; the tunnel PDUs and
//! main frames are those of `tunnel_pdus`, and the channel PDUs in them those of `dvc_pdus`.
#![tactic(auto)]

mod agreed;
mod all_rules;
mod arrivals;
mod arrived;
mod came;
mod capture;
mod carried;
mod channel_set;
mod datagrams;
mod deliveries;
mod entry;
mod first;
mod flow;
mod flows;
mod frames;
mod given;
mod issued;
mod judgement;
mod laws;
mod layout;
mod line;
mod main_streams;
mod messages;
mod moves;
mod numbers;
mod requests;
mod shown;
mod tellings;
mod told;
mod words;

pub use all_rules::check;
pub use capture::{Capture, read_capture};
pub use datagrams::check_datagrams;
pub use entry::{CaptureRefusal, Entry};
pub use frames::check_frames;
pub use judgement::Judgement;
pub use laws::{one_answer, one_judgement, one_spelling};
pub use messages::check_messages;
pub use numbers::check_numbers;
pub use tellings::check_tellings;
