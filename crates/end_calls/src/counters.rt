//! What an end counts.

/// How often something was left aside. Each count stops at the greatest `u64`.
#[derive(Clone, Copy, Debug, PartialEq, Eq)]
pub struct Counters {
    /// Datagrams that a link did not use, or none was there for.
    pub ignored: u64,
    /// Those of them that carried data of forward error correction.
    pub fec: u64,
    /// Compressed channel PDUs, on any path.
    pub compressed: u64,
    /// Parts of the lossy link that were dropped for another reason than the other counts name.
    pub lossy: u64,
    /// Other data PDUs that came for a closed channel, or were held of one as it closed.
    pub closed: u64,
}
