//! What the ends of a link agree on.

/// What the ends agree on: the version, the initial number of the other end, and whether its SYN or
/// SYN+ACK has an extension.
#[derive(Clone, Copy, Debug, PartialEq, Eq)]
pub struct Agreement {
    pub version: u16,
    pub peer_initial: u32,
    pub extended: bool,
}
