//! What an end hears in a datagram.

ghost use Rattle.std.specs.Prelude.{◌≡◌, ◌≤◌, true, IfOk, IfSome, option_map};
ghost use Rattle.mt_base.specs.declared.kinds.Role.TheVariants.{Server, Client};
ghost use Rattle.udp1_packets.specs.Layout.{IsPacket, IsSyn, IsVersion, is_valid};
ghost use Rattle.udp1_packets.specs.Views.{packet_of, body_of, syn_of, extended_of};
ghost use Rattle.udp_open.specs.Handshake.{shown, version_in, knows, is_of, is_for, agreement, judged, takes, is_copy, heard, hears};
ghost use Rattle.udp_open.specs.OpeningView.{IsOffered};

use crate::agreement::Agreement;
use crate::flags::{NAMES_VERSION, SYNLOSSY, VERSION_1};
use crate::settings::OpenSettings;
use carrier::Reason;
use mt_base::{Kind, Role};
use mt_windows::DATAGRAM;
use udp1_packets::{Body1, Extension, Packet1, Syn1, read1};

/// The version that an opening names: 0x0001 where no extension says that it names one.
fn version_in(extension: Option<Extension<'_>>) -> u16
    requires { IfSome (option_map extended_of extension) (λ e. is_valid e.flags ≡ true → IsVersion e.version) }
    ensures value { result ≡ version_in (option_map extended_of extension.entry) }
    ensures known { IsVersion result }
{
    match extension {
        Some(extension) if extension.flags & NAMES_VERSION != 0 => extension.version,
        _ => VERSION_1,
    }
}

/// Whether an opening shows no hash of a cookie but this one.
fn knows(hash: &[u8; 32], extension: Option<Extension<'_>>) -> bool
    ensures { result ≡ knows hash.now (option_map extended_of extension.entry) }
{
    match extension {
        Some(extension) => match extension.hash {
            Some(shown) => shown == hash.as_slice(),
            None => true,
        },
        None => true,
    }
}

/// Whether an opening with this flag SYNLOSSY, set or not, is one of a link of this kind.
fn is_of(kind: Kind, lossy: bool) -> bool
    ensures { result ≡ is_of kind lossy }
{
    match kind {
        Kind::Reliable => !lossy,
        Kind::Lossy => lossy,
    }
}

/// Whether an end hears an opening that answers one, or that does not.
fn is_for(role: Role, answer: bool) -> bool
    ensures { result ≡ is_for role answer }
{
    match role {
        Role::Server => !answer,
        Role::Client => answer,
    }
}

/// What an opening agrees on at an end that offers this version: the lower of both.
fn agreement(offered: u16, syn: &Syn1<'_>) -> Agreement
    requires good { IsSyn (syn_of syn.now) }
    requires offered { IsOffered offered }
    ensures value { result ≡ agreement offered (syn_of syn.now) }
    ensures offered { IsOffered result.version }
    ensures lower { result.version ≤ offered }
{
    Agreement {
        version: version_in(syn.extension).min(offered),
        peer_initial: syn.initial,
        extended: syn.extension.is_some(),
    }
}

/// What a server agrees on by a SYN.
fn taken_by_server(
    settings: &OpenSettings,
    packet: &Packet1<'_>,
    syn: &Syn1<'_>,
) -> Result<Agreement, Reason>
    requires good { IsSyn (syn_of syn.now) }
    requires offered { IsOffered settings.now.version }
    ensures value { result ≡ judged settings.now Server (packet_of packet.now) (syn_of syn.now) }
    ensures offered { IfOk result (λ a. IsOffered a.version) }
    ensures lower { IfOk result (λ a. a.version ≤ settings.now.version) }
{
    if !is_of(settings.kind, packet.marks & SYNLOSSY != 0) {
        return Err(Reason::WrongKind);
    }
    if !knows(&settings.cookie_hash, syn.extension) {
        return Err(Reason::UnknownCookie);
    }
    Ok(agreement(settings.version, syn))
}

/// What a client agrees on by a SYN+ACK.
fn taken_by_client(
    settings: &OpenSettings,
    packet: &Packet1<'_>,
    syn: &Syn1<'_>,
) -> Result<Agreement, Reason>
    requires good { IsSyn (syn_of syn.now) }
    requires offered { IsOffered settings.now.version }
    ensures value { result ≡ judged settings.now Client (packet_of packet.now) (syn_of syn.now) }
    ensures offered { IfOk result (λ a. IsOffered a.version) }
    ensures lower { IfOk result (λ a. a.version ≤ settings.now.version) }
{
    if packet.ack != settings.initial || settings.version < version_in(syn.extension) {
        return Err(Reason::BadAnswer);
    }
    Ok(agreement(settings.version, syn))
}

/// What an end agrees on by a packet, or why by none.
fn takes(settings: &OpenSettings, packet: &Packet1<'_>) -> Result<Agreement, Reason>
    requires good { IsPacket (packet_of packet.now) }
    requires offered { IsOffered settings.now.version }
    ensures value { let packet = packet_of packet.now in
        result ≡ takes settings.now packet packet.body }
    ensures offered { IfOk result (λ a. IsOffered a.version) }
    ensures lower { IfOk result (λ a. a.version ≤ settings.now.version) }
{
    let Body1::Syn(syn) = packet.body else {
        return Err(Reason::NotOpen);
    };
    if !is_for(settings.role, syn.answer) {
        return Err(Reason::NotOpen);
    }
    match settings.role {
        Role::Server => taken_by_server(settings, packet, &syn),
        Role::Client => taken_by_client(settings, packet, &syn),
    }
}

/// Whether a packet is a copy of the SYN or SYN+ACK that was taken.
fn is_copy(settings: &OpenSettings, agreement: Agreement, packet: &Packet1<'_>) -> bool
    ensures { result ≡ is_copy settings.now agreement (body_of packet.now.body) }
{
    match packet.body {
        Body1::Syn(syn) => {
            is_for(settings.role, syn.answer) && syn.initial == agreement.peer_initial
        }
        _ => false,
    }
}

/// What an end that agreed on something, or on nothing yet, hears in a packet.
fn heard(
    settings: &OpenSettings,
    agreement: Option<Agreement>,
    packet: &Packet1<'_>,
) -> Result<Agreement, Reason>
    requires good { IsPacket (packet_of packet.now) }
    requires offered { IsOffered settings.now.version }
    requires agreed { IfSome agreement (λ a. IsOffered a.version) }
    requires lower { IfSome agreement (λ a. a.version ≤ settings.now.version) }
    ensures value { result ≡ heard settings.now agreement (packet_of packet.now) }
    ensures offered { IfOk result (λ a. IsOffered a.version) }
    ensures lower { IfOk result (λ a. a.version ≤ settings.now.version) }
{
    match agreement {
        None => takes(settings, packet),
        Some(agreement) => {
            if is_copy(settings, agreement, packet) {
                Ok(agreement)
            } else {
                Err(Reason::NotOurs)
            }
        }
    }
}

/// What an end that agreed on something, or on nothing yet, hears in a datagram.
pub fn hear(
    settings: &OpenSettings,
    agreement: Option<Agreement>,
    datagram: &[u8],
) -> Result<Agreement, Reason>
    requires offered { IsOffered settings.now.version }
    requires agreed { IfSome agreement (λ a. IsOffered a.version) }
    requires lower { IfSome agreement (λ a. a.version ≤ settings.now.version) }
    ensures value { result ≡ hears settings.now agreement (shown datagram.now) }
    ensures offered { IfOk result (λ a. IsOffered a.version) }
    ensures lower { IfOk result (λ a. a.version ≤ settings.now.version) }
{
    if datagram.len() > DATAGRAM {
        return Err(Reason::TooLong);
    }
    match read1(datagram) {
        Ok(packet) => heard(settings, agreement, &packet),
        Err(refusal) => Err(Reason::First(refusal)),
    }
}
