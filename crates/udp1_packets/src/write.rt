//! Writing packets.

ghost use Rattle.std.specs.Prelude.{◌≡◌, ◌+◌, ◌≤◌, ◌++◌, [], ◌∷◌, length, drop, IfOk, IfErr, IsOk, OnErr, Err, is_some};
ghost use Rattle.std.specs.Option.{option_copied, option_map};
ghost use Rattle.byteorder.specs.Endian.{big_bytes};
ghost use Rattle.mt_base.specs.Filling.{Fills, fills};
ghost use Rattle.mt_base.specs.Writing.{puts};
ghost use Rattle.udp1_packets.specs.Layout.{block_fields, extension_fields, vector_fields, aoa_fields, body_fields, flag_if, announced, zeros_after, zeros, IsVector, IsTold, IsBody, IsPacket, written_fields, spelled};
ghost use Rattle.udp1_packets.specs.Value.{SynBody};
ghost use Rattle.udp1_packets.specs.Views.{extended_of, syn_of, body_of, packet_of};

use crate::flags;
use crate::packet::{Body1, Extension, Packet1, Syn1};
use mt_base::{NoRoom, Place, Spell, write};

fn put_block<P: Place>(place: &mut P, block: Option<&[u8]>) -> Result<(), NoRoom>
    ensures same { P.lent place.new ≡ P.lent place.old }
    ensures filled { let fields = block_fields (option_copied block.entry) in
        Fills (P.filling place.new) result (fills fields (P.filling place.old)) }
{
    match block {
        None => Ok(()),
        Some(bytes) => place.put(bytes),
    }
}

fn put_extension<P: Place>(place: &mut P, extension: Option<Extension<'_>>) -> Result<(), NoRoom>
    ensures same { P.lent place.new ≡ P.lent place.old }
    ensures filled { let fields = extension_fields (option_map extended_of extension.entry) in
        Fills (P.filling place.new) result (fills fields (P.filling place.old)) }
{
    match extension {
        None => Ok(()),
        Some(extension) => {
            place.put_u16_be(extension.flags)?;
            place.put_u16_be(extension.version)?;
            put_block(place, extension.hash)
        }
    }
}

#[tactic(auto, using(mt_base::proofs::Steps::by_parts))]
fn put_syn<P: Place>(place: &mut P, syn: &Syn1<'_>) -> Result<(), NoRoom>
    ensures same { P.lent place.new ≡ P.lent place.old }
    ensures filled { let body = SynBody (syn_of syn.now) in
        let fields = body_fields body (zeros body) in
        Fills (P.filling place.new) result (fills fields (P.filling place.old)) }
{
    place.put_u32_be(syn.initial)?;
    place.put_u16_be(syn.up)?;
    place.put_u16_be(syn.down)?;
    put_block(place, syn.correlation)?;
    put_extension(place, syn.extension)?;
    place.put_zeros(syn.padding)
}

/// Writes a vector of these elements, and zeros that fill its last unit.
fn put_vector<P: Place>(place: &mut P, vector: Option<&[u8]>) -> Result<(), NoRoom>
    requires { IsVector (option_copied vector) }
    ensures same { P.lent place.new ≡ P.lent place.old }
    ensures filled { let elements = option_copied vector.entry in
        let fields = vector_fields elements (zeros_after elements) in
        Fills (P.filling place.new) result (fills fields (P.filling place.old)) }
{
    match vector {
        None => Ok(()),
        Some(elements) => {
            place.put_u16_be(elements.len() as u16)?;
            place.put(elements)?;
            place.put_zeros((4 - (2 + elements.len()) % 4) % 4)
        }
    }
}

fn put_number<P: Place>(place: &mut P, number: Option<u32>) -> Result<(), NoRoom>
    ensures same { P.lent place.new ≡ P.lent place.old }
    ensures filled { Fills (P.filling place.new) result
        (fills (aoa_fields number) (P.filling place.old)) }
{
    match number {
        None => Ok(()),
        Some(number) => place.put_u32_be(number),
    }
}

/// Writes the vector and the acknowledgement of acknowledgements.
#[tactic(auto, using(mt_base::proofs::Steps::by_parts))]
fn put_told<P: Place>(place: &mut P, vector: Option<&[u8]>, aoa: Option<u32>) -> Result<(), NoRoom>
    requires { IsTold (option_copied vector) aoa }
    ensures same { P.lent place.new ≡ P.lent place.old }
    ensures filled { let elements = option_copied vector.entry in
        let fields = vector_fields elements (zeros_after elements) ++ aoa_fields aoa in
        Fills (P.filling place.new) result (fills fields (P.filling place.old)) }
{
    put_vector(place, vector)?;
    put_number(place, aoa)
}

/// A flag, where something is so.
fn flag_if(set: bool, flag: u16) -> u16
    ensures { result ≡ flag_if set flag }
{
    if set { flag } else { 0 }
}

/// The flags that announce a vector and an acknowledgement of acknowledgements.
#[tactic(auto, using(crate::proofs::Words::told_code))]
fn announced_told(vector: Option<&[u8]>, aoa: Option<u32>) -> u16
    ensures { let there = is_some (option_copied vector.entry) in
        result ≡ flag_if there 0x0004 + flag_if (is_some aoa) 0x0100 }
{
    flag_if(vector.is_some(), flags::ACK) | flag_if(aoa.is_some(), flags::ACK_OF_ACKS)
}

/// The flags that announce what the body holds.
#[tactic(auto, using(crate::proofs::Words::codes))]
fn announced(body: &Body1<'_>) -> u16
    ensures { result ≡ announced (body_of body.now) }
{
    match *body {
        Body1::Syn(syn) => {
            flags::SYN
                | flag_if(syn.answer, flags::ACK)
                | flag_if(syn.correlation.is_some(), flags::CORRELATION_ID)
                | flag_if(syn.extension.is_some(), flags::SYNEX)
        }
        Body1::Data { vector, aoa, .. } => flags::DATA | announced_told(vector, aoa),
        Body1::Fec { vector, aoa, .. } => flags::DATA | flags::FEC | announced_told(vector, aoa),
        Body1::Bare { vector, aoa, .. } => announced_told(vector, aoa),
    }
}

/// Writes a source packet's numbers and bytes.
fn put_data<P: Place>(place: &mut P, coded: u32, start: u32, bytes: &[u8]) -> Result<(), NoRoom>
    ensures same { P.lent place.new ≡ P.lent place.old }
    ensures filled { let fields = big_bytes 4 coded ∷ big_bytes 4 start ∷ bytes.now ∷ [] in
        Fills (P.filling place.new) result (fills fields (P.filling place.old)) }
{
    place.put_u32_be(coded)?;
    place.put_u32_be(start)?;
    place.put(bytes)
}

/// Writes the numbers and the bytes of a packet of forward error correction.
fn put_fec<P: Place>(
    place: &mut P,
    coded: u32,
    start: u32,
    range: u8,
    index: u8,
    bytes: &[u8],
) -> Result<(), NoRoom>
    ensures same { P.lent place.new ≡ P.lent place.old }
    ensures filled { let fields = big_bytes 4 coded ∷ big_bytes 4 start ∷ big_bytes 1 range
        ∷ big_bytes 1 index ∷ (0 ∷ 0 ∷ []) ∷ bytes.now ∷ [] in
        Fills (P.filling place.new) result (fills fields (P.filling place.old)) }
{
    place.put_u32_be(coded)?;
    place.put_u32_be(start)?;
    place.put_u8(range)?;
    place.put_u8(index)?;
    place.put(&[0, 0])?;
    place.put(bytes)
}

#[tactic(auto, using(mt_base::proofs::Steps::by_parts))]
fn put_body<P: Place>(place: &mut P, body: &Body1<'_>) -> Result<(), NoRoom>
    requires { IsBody (body_of body.now) }
    ensures same { P.lent place.new ≡ P.lent place.old }
    ensures filled { let body = body_of body.now in
        let fields = body_fields body (zeros body) in
        Fills (P.filling place.new) result (fills fields (P.filling place.old)) }
{
    match *body {
        Body1::Syn(syn) => put_syn(place, &syn),
        Body1::Data {
            vector,
            aoa,
            coded,
            start,
            bytes,
        } => {
            put_told(place, vector, aoa)?;
            put_data(place, coded, start, bytes)
        }
        Body1::Fec {
            vector,
            aoa,
            coded,
            start,
            range,
            index,
            bytes,
        } => {
            put_told(place, vector, aoa)?;
            put_fec(place, coded, start, range, index, bytes)
        }
        Body1::Bare { vector, aoa, rest } => {
            put_told(place, vector, aoa)?;
            place.put(rest)
        }
    }
}

/// The fields of a packet in order.
impl Spell for Packet1<'_> {
    ghost use Rattle.udp1_packets.specs.Layout.{IsPacket, written_fields};
    ghost use Rattle.udp1_packets.specs.Views.{packet_of};

    ghost fields = { λ p. written_fields (packet_of p) };

    ghost fits = { λ p. IsPacket (packet_of p) };

    #[tactic(auto, using(crate::proofs::Words::word_is))]
    fn spell<P: Place>(&self, place: &mut P) -> Result<(), NoRoom> {
        place.put_u32_be(self.ack)?;
        place.put_u16_be(self.window)?;
        place.put_u16_be(self.marks | announced(&self.body))?;
        put_body(place, &self.body)
    }
}

/// Writes the packet at the front of `out`, and gives the number of its bytes (MS-RDPEUDP section
/// 2.2). The packet is one that the layout has. What no reader looks at is written as zeros.
///
/// Where a field does not fit it is [`NoRoom`], with that field's place and length, and `out` stays
/// as it was.
pub fn write1(packet: &Packet1<'_>, out: &mut [u8]) -> Result<usize, NoRoom>
    requires { IsPacket (packet_of packet.now) }
    ensures ok { let text = spelled (packet_of packet.now) in
        IfOk result (λ n. (n ≡ length text) × (out.new ≡ text ++ drop n out.old)) }
    ensures fits { length (spelled (packet_of packet.now)) ≤ length out.old → IsOk result }
    // The first field that does not fit.
    ensures no_room { let fields = written_fields (packet_of packet.now) in
        IfErr result (λ e. puts fields (record { before = []; after = out.old }) ≡ Err e) }
    ensures unchanged { OnErr result (out.new ≡ out.old) }
{
    write(packet, out)
}
