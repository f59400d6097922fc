//! The devices of the program, as traits: a store of files, a sink of bytes, a stream, a wire for
//! datagrams, a clock, and a source of words that nobody can foresee. Each has a form in memory,
//! which tells what it holds and fails where it is asked to, and a form over the real machine, which
//! tells no content.
//!
//! Below it stand `std`, `mt_base` and `libc`. What the crates above use are the clauses of the
//! traits: a count of faults that rises where a call fails and nowhere else, and what a device tells
//! of its calls, where it tells it. `read_file` and `write_all` carry them over whole files and
//! texts.
#![tactic(auto)]

mod bell;
mod byte_strings;
mod chance;
mod clock;
mod failed;
mod faults;
mod files;
mod got;
mod line;
mod memory_chance;
mod memory_clock;
mod memory_files;
mod memory_sink;
mod memory_stream;
mod memory_wire;
mod plan;
mod reading;
mod real_chance;
mod real_clock;
mod real_files;
mod real_sink;
mod shelf;
mod sink;
mod story;
mod stream;
mod tcp_stream;
mod udp_wire;
mod waiting;
mod whole;
mod wire;

pub use bell::Bell;
pub use chance::Chance;
pub use clock::Clock;
pub use failed::{Failed, ReadFault};
pub use files::FileStore;
pub use got::Got;
pub use memory_chance::MemoryChance;
pub use memory_clock::MemoryClock;
pub use memory_files::MemoryFiles;
pub use memory_sink::MemorySink;
pub use memory_stream::MemoryStream;
pub use memory_wire::MemoryWire;
pub use real_chance::RealChance;
pub use real_clock::RealClock;
pub use real_files::RealFiles;
pub use real_sink::RealSink;
pub use sink::Sink;
pub use stream::Stream;
pub use tcp_stream::TcpStreamOf;
pub use udp_wire::UdpWire;
pub use whole::{read_file, write_all};
pub use wire::Wire;

#[cfg(test)]
mod tests;
