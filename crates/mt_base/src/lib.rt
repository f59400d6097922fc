//! The ground that every other crate stands on: the two ends of a session and the two kinds of
//! link, a cursor that reads fields from a slice, a place that writes fields into one, the room that
//! is left for fields, the errors of these, and the stretch of equal flags that comes next. A value's
//! fields are gone through by one walk that is generic over its [`Place`]: over room it tells whether
//! all of them fit, and over an output it writes them. In `specs/` stand the words that all crates
//! share: a trace that grows at its end, a field that is read, parts that are read one after the
//! other, a number that is shown in part, and a list of fields that is written.
//!
//! Below it stand `std` and `byteorder` alone. What the crates above use is that a read gives the
//! number that its bytes spell and a write appends the bytes that spell its number, or that both
//! refuse with the place and the length that was wanted, and then change nothing; that passing over
//! room answers what writing would answer; that [`write`] puts all fields of a value into an output or
//! none of them; and that `near` gives the one number near to a
//! reference that has a given low part.
#![tactic(auto)]

mod errors;
mod flags;
mod input;
mod kinds;
mod laws;
mod output;
mod place;
mod room;
mod spell;
mod width;

pub use errors::{NoMemory, NoRoom, Short};
pub use flags::stretch;
pub use input::Cursor;
pub use kinds::{Kind, Role};
pub use laws::{filling, nearness};
pub use output::Out;
pub use place::Place;
pub use room::Room;
pub use spell::{Spell, write};
pub use width::{W16, W32, Width, near};
