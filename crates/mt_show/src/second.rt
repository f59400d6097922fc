//! Packets of the second layout, shown.

ghost use Rattle.std.specs.Prelude.{◌≡◌, OnOk, [], ◌∷◌, ◌++◌, IfSome, ◌<◌, ◌^◌, length, codes};
ghost use Rattle.std.specs.Option.{option_map};
ghost use Rattle.coded_vector.specs.CodedBytes.{flags_of};
ghost use Rattle.udp2_packets.specs.Layout.{IsPacket, IsVector, ack_in, vector_in, number_in, kind};
ghost use Rattle.udp2_packets.specs.Views.{telling_of, delay_of, body_of, packet_of};
ghost use Rattle.mt_show.specs.Words.{number_field, where_there};
ghost use Rattle.mt_show.specs.SecondWords.{words_there, ack_words, delay_word, flag_letter, flags_word, vector_words, last_words, second_words, second_refusal_words};
ghost use Rattle.mt_show.specs.Steps.{Adds, AddsWords};

use crate::output::Output;
use carrier::Refusal2;
use coded_vector::read_coded;
use mt_base::NoMemory;
use udp2_packets::{Body2, DelayInfo, Packet2, Telling2};

/// The words of a packet.
pub(crate) fn second_packet(out: &mut Output, packet: Packet2<'_>) -> Result<(), NoMemory>
    requires { IsPacket (packet_of packet) }
    ensures { OnOk result (AddsWords (second_words (packet_of packet.entry)) out.old.bytes.items out.new.bytes.items) }
{
    out.number(b"type=", kind(packet.body))?;
    out.number(b"log=", u64::from(packet.log_window))?;
    ack(out, packet.telling)?;
    overhead(out, packet.overhead)?;
    delay(out, packet.delay)?;
    number(out, b"aoa=", packet.aoa)?;
    number(out, b"number=", transmission(packet.body))?;
    vector(out, packet.telling)?;
    last(out, packet.body)?;
    Ok(())
}

/// The packet type.
fn kind(body: Body2<'_>) -> u64
    ensures { result ≡ kind (body_of body.entry) }
{
    match body {
        Body2::Nothing | Body2::Data { .. } => 0,
        Body2::Dummy { .. } => 8,
    }
}

/// The number of the transmission.
fn transmission(body: Body2<'_>) -> Option<u16>
    ensures { result ≡ number_in (body_of body.entry) }
{
    match body {
        Body2::Nothing => None,
        Body2::Data { number, .. } => Some(number),
        Body2::Dummy { number, .. } => number,
    }
}

fn ack(out: &mut Output, telling: Telling2<'_>) -> Result<(), NoMemory>
    ensures { OnOk result (AddsWords (words_there ack_words (ack_in (telling_of telling.entry))) out.old.bytes.items out.new.bytes.items) }
{
    if let Telling2::Ack(ack) = telling {
        out.number(b"ack=", u64::from(ack.number))?;
        out.number(b"delayed=", ack.delays.len() as u64)?;
    }
    Ok(())
}

fn overhead(out: &mut Output, size: Option<u8>) -> Result<(), NoMemory>
    ensures { OnOk result (AddsWords (where_there (number_field (codes "overhead=")) size) out.old.bytes.items out.new.bytes.items) }
{
    match size {
        Some(size) => out.number(b"overhead=", u64::from(size)),
        None => Ok(()),
    }
}

fn delay(out: &mut Output, delay: Option<DelayInfo>) -> Result<(), NoMemory>
    ensures { OnOk result (AddsWords (where_there delay_word (option_map delay_of delay)) out.old.bytes.items out.new.bytes.items) }
{
    if let Some(delay) = delay {
        out.number(b"delay=", u64::from(delay.most))?;
        out.put(b",")?;
        out.put_decimal(u64::from(delay.timeout))?;
    }
    Ok(())
}

/// A field with a number that may be absent.
fn number(out: &mut Output, name: &[u8], number: Option<u16>) -> Result<(), NoMemory>
    ensures { OnOk result (AddsWords (where_there (number_field name.now) number) out.old.bytes.items out.new.bytes.items) }
{
    match number {
        Some(number) => out.number(name, u64::from(number)),
        None => Ok(()),
    }
}

fn vector(out: &mut Output, telling: Telling2<'_>) -> Result<(), NoMemory>
    requires { IfSome (vector_in (telling_of telling)) IsVector }
    ensures { OnOk result (AddsWords (words_there vector_words (vector_in (telling_of telling.entry))) out.old.bytes.items out.new.bytes.items) }
{
    if let Telling2::Vector(vector) = telling {
        out.number(b"base=", u64::from(vector.base))?;
        out.word(b"flags=")?;
        flags(out, vector.coded)?;
    }
    Ok(())
}

/// The flags of coded bytes.
fn flags(out: &mut Output, coded: &[u8]) -> Result<(), NoMemory>
    requires { length coded.now < 2 ^ 58 }
    ensures { OnOk result (Adds (flags_word (flags_of coded.now)) out.old.bytes.items out.new.bytes.items) }
{
    let mut flags = read_coded(coded);
    let Some((_, first)) = flags.next() else {
        return out.put(b"-");
    };
    flag(out, first)?;
    for (_, next) in flags {
        flag(out, next)?;
    }
    Ok(())
}

fn flag(out: &mut Output, received: bool) -> Result<(), NoMemory>
    ensures { OnOk result (Adds (flag_letter received) out.old.bytes.items out.new.bytes.items) }
{
    out.put(if received { b"r" } else { b"m" })
}

/// What ends the packet.
fn last(out: &mut Output, body: Body2<'_>) -> Result<(), NoMemory>
    ensures { OnOk result (AddsWords (last_words (body_of body.entry)) out.old.bytes.items out.new.bytes.items) }
{
    match body {
        Body2::Nothing => {}
        Body2::Data { part, bytes, .. } => {
            out.number(b"part=", u64::from(part))?;
            out.hex(b"bytes=", bytes)?;
        }
        Body2::Dummy { rest, .. } => out.number(b"rest=", rest.len() as u64)?,
    }
    Ok(())
}

/// The words of a fault.
pub(crate) fn second_refusal(out: &mut Output, refusal: Refusal2) -> Result<(), NoMemory>
    ensures { OnOk result (AddsWords (second_refusal_words refusal) out.old.bytes.items out.new.bytes.items) }
{
    out.fault(refusal.name(), refusal.place())
}
