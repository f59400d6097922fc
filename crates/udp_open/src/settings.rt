//! With what an end opens a link.

ghost use Rattle.std.specs.Prelude.{◌≡◌};
ghost use Rattle.sha2.specs.Sha256.{sha256};

use mt_base::{Kind, Role};
use sha2::{Digest, Sha256};

/// With what an end opens a link (MS-RDPEUDP section 3.1.5.1).
#[derive(Clone, Copy, Debug, PartialEq, Eq)]
pub struct OpenSettings {
    pub role: Role,
    pub kind: Kind,
    /// The version that it offers: 0x0001, 0x0002 or 0x0101; on a lossy link not the last.
    pub version: u16,
    /// snInitialSequenceNumber, its initial number.
    pub initial: u32,
    /// The SHA-256 of the link's cookie.
    pub cookie_hash: [u8; 32],
}

/// The SHA-256 of a cookie, as an opening shows it (MS-RDPEUDP section 2.2.2.9).
pub fn hash_cookie(cookie: &[u8; 16]) -> [u8; 32]
    ensures { result ≡ sha256 cookie.now }
{
    let mut hasher = Sha256::new();
    hasher.update(cookie.as_slice());
    hasher.finalize()
}
