//! The layouts of a link's datagrams, and how an opening chooses one.

ghost use Rattle.std.specs.Prelude.{◌↔◌, ◌≡◌, ℕ, List, IsTrue, true, IfSome, IfNone, IsSomeAnd, option_map};
ghost use Rattle.udp1_packets.specs.Value.{Syn};
ghost use Rattle.udp1_packets.specs.Views.{extended_of, syn_of};
ghost use Rattle.capture_check.specs.Layouts.{Answers, IsOpening, IsReadBy, chosen_by};

use udp1_packets::{Body1, Extension, Syn1, read1};
use udp2_packets::read2;

/// The greatest datagram of the second layout.
pub(crate) const GREATEST: usize = 1232;

/// The flag of an extension that says that its version is valid.
const VALID: u16 = 0x0001;

/// The version that has the second layout.
const VERSION_3: u16 = 0x0101;

/// The layout of the datagrams behind a link's opening.
#[derive(Clone, Copy)]
pub(crate) enum Layout {
    /// That of versions 0x0001 and 0x0002 (MS-RDPEUDP section 2.2).
    First,
    /// That of version 0x0101 (MS-RDPEUDP2 section 2.2).
    Second,
}

impl Layout {
    /// Whether the layout reads a datagram.
    pub(crate) fn reads(self, datagram: &[u8]) -> bool
        ensures { IsTrue result ↔ IsReadBy self datagram.now }
    {
        match self {
            Layout::First => is_first(datagram),
            Layout::Second => is_second(datagram),
        }
    }
}

/// Whether a datagram spells a packet of the first layout.
fn is_first(datagram: &[u8]) -> bool
    ensures { IsTrue result ↔ IsReadBy Layout.First datagram.now }
{
    read1(datagram).is_ok()
}

/// Whether a datagram spells a packet of the second layout.
fn is_second(datagram: &[u8]) -> bool
    ensures { IsTrue result ↔ IsReadBy Layout.Second datagram.now }
{
    if datagram.len() > GREATEST {
        return false;
    }
    read2(datagram, &mut [0; GREATEST]).is_ok()
}

/// The opening that a datagram spells.
pub(crate) fn opening(datagram: &[u8]) -> Option<Syn1<'_>>
    ensures found { IfSome result (λ syn. IsOpening datagram.now (syn_of syn)) }
    ensures only { (syn : Syn) → IsOpening datagram.now syn
        → IsSomeAnd result (λ found. syn_of found ≡ syn) }
{
    match read1(datagram) {
        Ok(packet) => match packet.body {
            Body1::Syn(syn) => Some(syn),
            _ => None,
        },
        Err(_) => None,
    }
}

/// The layout that a SYN+ACK chooses; none where the datagram is no SYN+ACK.
pub(crate) fn answered(datagram: &[u8]) -> Option<Layout>
    ensures found { IfSome result (Answers datagram.now) }
    ensures none { IfNone result ((layout : Layout) → ¬ Answers datagram.now layout) }
{
    match opening(datagram) {
        Some(syn) => {
            if syn.answer {
                Some(chosen_by(syn.extension))
            } else {
                None
            }
        }
        None => None,
    }
}

/// The layout that the extension of a SYN+ACK chooses.
fn chosen_by(extension: Option<Extension<'_>>) -> Layout
    ensures { result ≡ chosen_by (option_map extended_of extension.entry) }
{
    match extension {
        Some(named) => {
            if named.flags & VALID != 0 && named.version == VERSION_3 {
                Layout::Second
            } else {
                Layout::First
            }
        }
        None => Layout::First,
    }
}
