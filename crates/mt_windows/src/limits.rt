//! The limits of a link.

/// Parts past the lowest unsettled one, or past those drained, that a window holds.
pub const WINDOW: u64 = 64;

/// Transmissions past the greatest one known as told.
pub const SPAN: u64 = 4_096;

/// Numbers that one telling can cover.
pub const TELL: u64 = 512;

/// Bytes of a part that is sent.
pub const PART: usize = 1_000;

/// Bytes of a datagram, and so of a part that is taken.
pub const DATAGRAM: usize = 1_232;

/// Bytes given to a link and not yet settled.
pub const QUEUE: usize = 2_097_152;

/// No part or transmission has this number, or a greater one.
pub const NUMBERS: u64 = 4_611_686_018_427_387_904;
