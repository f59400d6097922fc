//! The datagrams of an opening that an end sends.

ghost use Rattle.std.specs.Prelude.{◌≡◌, IfSome, option_map};
ghost use Rattle.udp1_packets.specs.Layout.{IsExtended, spelled};
ghost use Rattle.udp1_packets.specs.Views.{extended_of, syn_of};
ghost use Rattle.udp_open.specs.Handshake.{marks_of, names, filling, opening_syn, opening, syn, syn_ack};
ghost use Rattle.udp_open.specs.OpeningView.{IsOffered};

use crate::agreement::Agreement;
use crate::flags::{NAMES_VERSION, SYNLOSSY, VERSION_1, VERSION_3};
use crate::settings::OpenSettings;
use mt_base::Kind;
use mt_windows::{DATAGRAM, WINDOW};
use udp1_packets::{Body1, Extension, Packet1, Syn1, write1};

/// What the SYN of a client has in place of an acknowledgement.
const NO_ACK: u32 = 0xffff_ffff;

/// The zeros that fill an opening up to 1,232 bytes: behind a hash, behind an extension without one,
/// and where there is none.
const BEHIND_HASH: usize = 1180;

const BEHIND_EXTENSION: usize = 1212;

const BEHIND_MTUS: usize = 1216;

fn marks_of(kind: Kind) -> u16
    ensures { result ≡ marks_of kind }
{
    match kind {
        Kind::Reliable => 0,
        Kind::Lossy => SYNLOSSY,
    }
}

/// The extension that names a version. A SYN that names 0x0101 shows the hash of its cookie.
fn names(answer: bool, hash: &[u8; 32], version: u16) -> Extension<'_>
    requires { IsOffered version }
    ensures value { extended_of result ≡ names answer hash.now version }
    ensures good { IsExtended answer (extended_of result) }
{
    Extension {
        flags: NAMES_VERSION,
        version,
        hash: if !answer && version == VERSION_3 {
            Some(hash.as_slice())
        } else {
            None
        },
    }
}

/// How many zeros stand behind this extension.
fn filling(extension: Option<Extension<'_>>) -> usize
    ensures { result ≡ filling (option_map extended_of extension.entry) }
{
    match extension {
        Some(extension) => match extension.hash {
            Some(_) => BEHIND_HASH,
            None => BEHIND_EXTENSION,
        },
        None => BEHIND_MTUS,
    }
}

/// An opening of this end that names a version, or none.
fn opening_of(settings: &OpenSettings, answer: bool, version: Option<u16>) -> Syn1<'_>
    requires { IfSome version IsOffered }
    ensures value { syn_of result ≡ opening_syn settings.now answer version }
    ensures good { IfSome (syn_of result).extension (IsExtended (syn_of result).answer) }
{
    let extension = match version {
        Some(version) => Some(names(answer, &settings.cookie_hash, version)),
        None => None,
    };
    Syn1 {
        answer,
        initial: settings.initial,
        up: DATAGRAM as u16,
        down: DATAGRAM as u16,
        correlation: None,
        extension,
        padding: filling(extension),
    }
}

/// Writes a SYN or a SYN+ACK of this end that names a version, or none. It fills the datagram.
fn send(settings: &OpenSettings, answer: bool, ack: u32, version: Option<u16>, out: &mut [u8; 1232])
    requires { IfSome version IsOffered }
    ensures { out.new ≡ spelled (opening settings.now answer ack version) }
{
    let packet = Packet1 {
        ack,
        window: WINDOW as u16,
        marks: marks_of(settings.kind),
        body: Body1::Syn(opening_of(settings, answer, version)),
    };
    if write1(&packet, out).is_err() {
        unreachable!();
    }
}

/// Writes the SYN of a client.
pub fn send_syn(settings: &OpenSettings, out: &mut [u8; 1232])
    requires { IsOffered settings.now.version }
    ensures { out.new ≡ spelled (syn settings.now) }
{
    let version = match settings.version {
        VERSION_1 => None,
        version => Some(version),
    };
    send(settings, false, NO_ACK, version, out);
}

/// Writes the SYN+ACK of a server.
pub fn send_syn_ack(settings: &OpenSettings, agreement: Agreement, out: &mut [u8; 1232])
    requires { IsOffered agreement.version }
    ensures { out.new ≡ spelled (syn_ack settings.now agreement) }
{
    let version = if agreement.extended {
        Some(agreement.version)
    } else {
        None
    };
    send(settings, true, agreement.peer_initial, version, out);
}
