//! Scripts: what a line of a script does, and the reading of a whole script.
//!
//! A script is a text of lines. Each line is empty, a comment, or one event; an event has exactly
//! one spelling. Below it stand `mt_base`, `hex` and `memchr`. What the crates above use is the
//! relation between a text and the events that its lines spell, `ReadsAs`, that [`read_script`]
//! gives exactly those, and that each text has exactly one such answer. Other files of lines are cut by
//! [`cut_line`], their words taken one by one by [`Words`], and words of bytes read by [`hex_bytes`].
#![tactic(auto)]

mod cut;
mod event;
mod fault;
mod laws;
mod line;
mod script;
mod text;
mod values;
mod words;

pub use cut::cut_line;
pub use event::{Event, Line, ScriptRefusal};
pub use fault::LineFault;
pub use laws::{cut_into_lines, events_read, one_answer, one_meaning, one_spelling};
pub use script::{LINE_LIMIT, Script, count_lines, read_script};
pub use text::Text;
pub use values::hex_bytes;
pub use words::Words;
