//! The limits of a link beside those of its windows.

/// Expiries in a row that a link survives.
pub const EXPIRIES: u32 = 16;

/// Bytes of a datagram that carries both a part and what was received.
pub const WITH_TELLING: usize = 1_132;
