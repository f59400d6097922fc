//! The machine at work.

use udp1_core::Udp1Core;
use udp2_core::Udp2Core;

/// The machine of a link, of one layout or of the other.
#[derive(Drop)]
pub enum AnyCore {
    /// In versions 0x0001 and 0x0002.
    First(Udp1Core),
    /// In version 0x0101.
    Second(Udp2Core),
}
