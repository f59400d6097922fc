//! Which layout the datagrams of a version have.

ghost use Rattle.std.specs.Prelude.{◌≡◌};
ghost use Rattle.link_core.specs.CoreView.{kind_of};

/// The version whose datagrams have the second layout.
const VERSION_3: u16 = 0x0101;

/// Which layout the datagrams of a link have.
#[derive(Clone, Copy, Debug, PartialEq, Eq)]
pub enum LinkLayout {
    /// That of versions 0x0001 and 0x0002 (MS-RDPEUDP section 2.2).
    First,
    /// That of version 0x0101 (MS-RDPEUDP2 section 2.2).
    Second,
}

impl LinkLayout {
    /// The layout of this version.
    pub fn of_version(version: u16) -> LinkLayout
        ensures { result ≡ kind_of version }
    {
        if version == VERSION_3 {
            LinkLayout::Second
        } else {
            LinkLayout::First
        }
    }
}
