//! The flags of an opening, and the versions by which openings differ.

/// The flag SYNLOSSY (MS-RDPEUDP section 2.2.2.1).
pub const SYNLOSSY: u16 = 0x0200;

/// The flag of an extension that says that it names a version (section 2.2.2.9).
pub const NAMES_VERSION: u16 = 0x0001;

/// The version whose SYN shows the hash of its cookie, and whose datagrams have the second layout.
pub const VERSION_3: u16 = 0x0101;

/// The first version, which an opening need not name.
pub const VERSION_1: u16 = 0x0001;

/// The least prefix byte of the second layout: a short length of two bytes (MS-RDPEUDP2 section 2.2).
pub const LOWEST_PREFIX: u8 = 0x40;
