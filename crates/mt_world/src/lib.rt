//! Two ends of a session, the main stream between them, and the playing of a script.
//!
//! A [`World`] plays events one by one, and its report says what each end sent and what arrived;
//! [`read_script`] gives the events of a script. Below it stand `mt_script`, whose names it hands
//! on, `play_report`, which has the report's lines, `dvc_pdus` and `mt_base`. What the program above
//! uses is that the calls which a world has made are those that Play gives for the script's lines,
//! and that in such a list each channel's delivered messages are a prefix of those sent.
#![tactic(auto)]

mod channel;
mod end;
mod frame;
mod laws;
mod refusal;
mod side;
mod world;

pub use laws::{all_arrives, net_is_safe, plays_safely, stream_is_read};
pub use mt_script::{Event, Line, Script, ScriptRefusal, Text, read_script};
pub use refusal::{OpenRefusal, Refused, SendRefusal, StepRefusal};
pub use world::World;
