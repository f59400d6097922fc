//! Packets of the first layout, shown.

ghost use Rattle.std.specs.Prelude.{◌≡◌, OnOk, [], ◌∷◌, All, IfSome, map, codes};
ghost use Rattle.std.specs.Option.{option_copied, option_map};
ghost use Rattle.ack_vector.specs.Elements.{IsGood, run_of};
ghost use Rattle.udp1_packets.specs.Layout.{IsTold, IsBody, IsPacket};
ghost use Rattle.udp1_packets.specs.Views.{extended_of, syn_of, body_of, packet_of};
ghost use Rattle.mt_show.specs.Words.{where_there, number_field, hex_field, run_word, runs_word, vector_word, told_words, extended_words, extension_words, opening_word, syn_words, data_words, fec_words, bare_words, body_words, packet_words, refusal_words};
ghost use Rattle.mt_show.specs.Steps.{Adds, AddsWords};

use crate::output::Output;
use ack_vector::{Run, read_runs};
use carrier::Refusal1;
use mt_base::NoMemory;
use udp1_packets::{Body1, Extension, Packet1, Syn1};

/// The words of a packet.
pub(crate) fn packet(out: &mut Output, packet: Packet1<'_>) -> Result<(), NoMemory>
    requires { IsPacket (packet_of packet) }
    ensures { OnOk result (AddsWords (packet_words (packet_of packet.entry)) out.old.bytes.items out.new.bytes.items) }
{
    out.number(b"ack=", u64::from(packet.ack))?;
    out.number(b"window=", u64::from(packet.window))?;
    out.digits(b"marks=", packet.marks)?;
    body(out, packet.body)?;
    Ok(())
}

fn body(out: &mut Output, body: Body1<'_>) -> Result<(), NoMemory>
    requires { IsBody (body_of body) }
    ensures { OnOk result (AddsWords (body_words (body_of body.entry)) out.old.bytes.items out.new.bytes.items) }
{
    match body {
        Body1::Syn(opening) => syn(out, opening)?,
        Body1::Data {
            vector,
            aoa,
            coded,
            start,
            bytes,
        } => {
            told(out, vector, aoa)?;
            data(out, coded, start, bytes)?;
        }
        Body1::Fec {
            vector,
            aoa,
            coded,
            start,
            range,
            index,
            bytes,
        } => {
            told(out, vector, aoa)?;
            fec(out, coded, start, range, index, bytes)?;
        }
        Body1::Bare { vector, aoa, rest } => {
            told(out, vector, aoa)?;
            bare(out, rest)?;
        }
    }
    Ok(())
}

/// What acknowledges.
fn told(out: &mut Output, elements: Option<&[u8]>, aoa: Option<u32>) -> Result<(), NoMemory>
    requires { IsTold (option_copied elements) aoa }
    ensures { OnOk result (AddsWords (told_words (option_copied elements.entry) aoa) out.old.bytes.items out.new.bytes.items) }
{
    vector(out, elements)?;
    acknowledged(out, aoa)?;
    Ok(())
}

fn vector(out: &mut Output, elements: Option<&[u8]>) -> Result<(), NoMemory>
    requires { IfSome (option_copied elements) (All IsGood) }
    ensures { OnOk result (AddsWords (where_there vector_word (option_copied elements.entry)) out.old.bytes.items out.new.bytes.items) }
{
    if let Some(elements) = elements {
        out.word(b"vector=")?;
        runs(out, elements)?;
    }
    Ok(())
}

/// The runs of a vector's elements, joined by commas.
fn runs(out: &mut Output, elements: &[u8]) -> Result<(), NoMemory>
    requires { All IsGood elements.now }
    ensures { OnOk result (Adds (runs_word (map run_of elements.now)) out.old.bytes.items out.new.bytes.items) }
{
    let mut runs = read_runs(elements).unwrap();
    let Some(first) = runs.next() else {
        return out.put(b"-");
    };
    run(out, first)?;
    for next in runs {
        out.put(b",")?;
        run(out, next)?;
    }
    Ok(())
}

fn run(out: &mut Output, run: Run) -> Result<(), NoMemory>
    ensures { OnOk result (Adds (run_word run) out.old.bytes.items out.new.bytes.items) }
{
    out.put(if run.received { b"r" } else { b"m" })?;
    out.put_decimal(u64::from(run.length))?;
    Ok(())
}

fn acknowledged(out: &mut Output, aoa: Option<u32>) -> Result<(), NoMemory>
    ensures { OnOk result (AddsWords (where_there (number_field (codes "aoa=")) aoa) out.old.bytes.items out.new.bytes.items) }
{
    match aoa {
        Some(number) => out.number(b"aoa=", u64::from(number)),
        None => Ok(()),
    }
}

fn syn(out: &mut Output, syn: Syn1<'_>) -> Result<(), NoMemory>
    ensures { OnOk result (AddsWords (syn_words (syn_of syn.entry)) out.old.bytes.items out.new.bytes.items) }
{
    opening(out, syn.answer)?;
    out.number(b"initial=", u64::from(syn.initial))?;
    out.number(b"up=", u64::from(syn.up))?;
    out.number(b"down=", u64::from(syn.down))?;
    block(out, b"correlation=", syn.correlation)?;
    extension(out, syn.extension)?;
    out.number(b"padding=", syn.padding as u64)?;
    Ok(())
}

fn opening(out: &mut Output, answer: bool) -> Result<(), NoMemory>
    ensures { OnOk result (AddsWords (opening_word answer ∷ []) out.old.bytes.items out.new.bytes.items) }
{
    if answer {
        out.word(b"synack")
    } else {
        out.word(b"syn")
    }
}

/// A field with bytes that may be absent.
fn block(out: &mut Output, name: &[u8], bytes: Option<&[u8]>) -> Result<(), NoMemory>
    ensures { OnOk result (AddsWords (where_there (hex_field name.now) (option_copied bytes.entry)) out.old.bytes.items out.new.bytes.items) }
{
    match bytes {
        Some(bytes) => out.hex(name, bytes),
        None => Ok(()),
    }
}

fn extension(out: &mut Output, extension: Option<Extension<'_>>) -> Result<(), NoMemory>
    ensures { OnOk result (AddsWords (extension_words (option_map extended_of extension.entry)) out.old.bytes.items out.new.bytes.items) }
{
    match extension {
        Some(extension) => extended(out, extension),
        None => Ok(()),
    }
}

fn extended(out: &mut Output, extension: Extension<'_>) -> Result<(), NoMemory>
    ensures { OnOk result (AddsWords (extended_words (extended_of extension.entry)) out.old.bytes.items out.new.bytes.items) }
{
    out.digits(b"flags=", extension.flags)?;
    out.digits(b"version=", extension.version)?;
    block(out, b"hash=", extension.hash)?;
    Ok(())
}

fn data(out: &mut Output, coded: u32, start: u32, bytes: &[u8]) -> Result<(), NoMemory>
    ensures { OnOk result (AddsWords (data_words coded start bytes.now) out.old.bytes.items out.new.bytes.items) }
{
    out.word(b"data")?;
    out.number(b"coded=", u64::from(coded))?;
    out.number(b"start=", u64::from(start))?;
    out.hex(b"bytes=", bytes)?;
    Ok(())
}

fn fec(
    out: &mut Output,
    coded: u32,
    start: u32,
    range: u8,
    index: u8,
    bytes: &[u8],
) -> Result<(), NoMemory>
    ensures { OnOk result (AddsWords (fec_words coded start range index bytes.now) out.old.bytes.items out.new.bytes.items) }
{
    out.word(b"fec")?;
    out.number(b"coded=", u64::from(coded))?;
    out.number(b"start=", u64::from(start))?;
    out.number(b"range=", u64::from(range))?;
    out.number(b"index=", u64::from(index))?;
    out.hex(b"bytes=", bytes)?;
    Ok(())
}

fn bare(out: &mut Output, rest: &[u8]) -> Result<(), NoMemory>
    ensures { OnOk result (AddsWords (bare_words rest.now) out.old.bytes.items out.new.bytes.items) }
{
    out.word(b"bare")?;
    out.number(b"rest=", rest.len() as u64)?;
    Ok(())
}

/// The words of a fault.
pub(crate) fn refusal(out: &mut Output, refusal: Refusal1) -> Result<(), NoMemory>
    ensures { OnOk result (AddsWords (refusal_words refusal) out.old.bytes.items out.new.bytes.items) }
{
    out.fault(refusal.name(), refusal.place())
}
