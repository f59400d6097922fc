//! A whole text, shown line by line.

ghost use Rattle.std.specs.Prelude.{◌≤◌, length, OnOk};
ghost use Rattle.mt_script.specs.Meaning.{IsShort};
ghost use Rattle.mt_show.specs.declared.asked.Asked.TheVariants.{FirstLayout, SecondLayout, Tunnel, MainStream, Channel};
ghost use Rattle.mt_show.specs.Grammar.{IsAsked};
ghost use Rattle.mt_show.specs.Answer.{Shows};
ghost use Rattle.mt_show.specs.Steps.{AddsShown, AddsAnswer, AddsLine};

use crate::asked::{Asked, read_line};
use crate::channels::{channel_pdu, channel_refusal};
use crate::output::Output;
use crate::packets::{packet, refusal};
use crate::refusal::ShowRefusal;
use crate::second::{second_packet, second_refusal};
use crate::streams::{frame_front, tunnel_front};
use dvc_pdus::read_dvc;
use mt_base::{NoMemory, Role};
use mt_script::{LINE_LIMIT, Text, count_lines, cut_line};
use std::alloc::Global;
use tunnel_pdus::{read_frame, read_tunnel};
use udp1_packets::read1;
use udp2_packets::read2;

/// What is printed of a show file: for each line its answer.
///
/// A text of more than 4,000,000 lines is refused before a line is read; else the first line that
/// is none of a show file is. Bytes that are no value are no reason to refuse: their line is
/// answered by their first fault.
pub fn show(alloc: Global, bytes: &[u8]) -> Result<Text, ShowRefusal>
    ensures { Shows bytes.now result }
{
    if count_lines(bytes) > LINE_LIMIT {
        return Err(ShowRefusal::TooManyLines { limit: LINE_LIMIT });
    }
    show_lines(alloc, bytes)
}

/// What is printed of a text that has not too many lines.
fn show_lines(alloc: Global, text: &[u8]) -> Result<Text, ShowRefusal>
    requires { IsShort text.now }
    ensures { Shows text.now result }
{
    let mut out = Output::new(alloc);
    let mut number = 0;
    let mut rest = text;
    while !rest.is_empty() {
        let (line, after) = cut_line(rest);
        number += 1;
        match show_line(&mut out, alloc, line, number) {
            Ok(()) => {}
            Err(refusal) => return Err(refusal),
        }
        rest = after;
    }
    Ok(out.into_text())
}

/// Adds the answer to the line of this number, and its end.
fn show_line(out: &mut Output, alloc: Global, line: &[u8], number: u64) -> Result<(), ShowRefusal>
    ensures { AddsLine line.now number out.old.bytes.items out.new.bytes.items result }
{
    match read_line(alloc, line) {
        Ok(Some(asked)) => match answer(out, &asked) {
            Ok(()) => Ok(()),
            Err(NoMemory) => Err(ShowRefusal::NoMemory),
        },
        Ok(None) => Err(ShowRefusal::BadLine { line: number }),
        Err(NoMemory) => Err(ShowRefusal::NoMemory),
    }
}

/// Adds what is shown of what was asked for, and the end of the line.
fn answer(out: &mut Output, asked: &Asked) -> Result<(), NoMemory>
    requires { IsAsked asked.now }
    ensures { OnOk result (AddsAnswer asked.now out.old.bytes.items out.new.bytes.items) }
{
    shown(out, asked)?;
    out.put(b"\n")?;
    Ok(())
}

/// Adds what is shown of what was asked for.
fn shown(out: &mut Output, asked: &Asked) -> Result<(), NoMemory>
    requires { IsAsked asked.now }
    ensures { OnOk result (AddsShown asked.now out.old.bytes.items out.new.bytes.items) }
{
    match asked {
        Asked::FirstLayout { bytes } => show_first(out, bytes.bytes()),
        Asked::SecondLayout { bytes } => show_second(out, bytes.bytes()),
        Asked::Tunnel { bytes } => show_tunnel(out, bytes.bytes()),
        Asked::MainStream { bytes } => show_frame(out, bytes.bytes()),
        Asked::Channel { from, bytes } => show_channel(out, *from, bytes.bytes()),
    }
}

/// Adds bytes as a datagram of the first layout.
fn show_first(out: &mut Output, bytes: &[u8]) -> Result<(), NoMemory>
    ensures { OnOk result (AddsShown (FirstLayout bytes.now) out.old.bytes.items out.new.bytes.items) }
{
    out.put(b"v1")?;
    match read1(bytes) {
        Ok(spelled) => packet(out, spelled)?,
        Err(fault) => refusal(out, fault)?,
    }
    Ok(())
}

/// Adds bytes as a datagram of the second layout.
fn show_second(out: &mut Output, bytes: &[u8]) -> Result<(), NoMemory>
    requires { length bytes.now ≤ 1232 }
    ensures { OnOk result (AddsShown (SecondLayout bytes.now) out.old.bytes.items out.new.bytes.items) }
{
    let mut scratch = [0; 1232];
    out.put(b"v2")?;
    match read2(bytes, &mut scratch) {
        Ok(spelled) => second_packet(out, spelled)?,
        Err(fault) => second_refusal(out, fault)?,
    }
    Ok(())
}

/// Adds bytes as what a tunnel's stream begins with.
fn show_tunnel(out: &mut Output, bytes: &[u8]) -> Result<(), NoMemory>
    ensures { OnOk result (AddsShown (Tunnel bytes.now) out.old.bytes.items out.new.bytes.items) }
{
    out.put(b"tunnel")?;
    tunnel_front(out, bytes.len(), read_tunnel(bytes))?;
    Ok(())
}

/// Adds bytes as what the main stream begins with.
fn show_frame(out: &mut Output, bytes: &[u8]) -> Result<(), NoMemory>
    ensures { OnOk result (AddsShown (MainStream bytes.now) out.old.bytes.items out.new.bytes.items) }
{
    out.put(b"frame")?;
    frame_front(out, bytes.len(), read_frame(bytes))?;
    Ok(())
}

/// Adds bytes as a channel PDU of this end.
fn show_channel(out: &mut Output, from: Role, bytes: &[u8]) -> Result<(), NoMemory>
    ensures { OnOk result (AddsShown (Channel from bytes.now) out.old.bytes.items out.new.bytes.items) }
{
    out.put(b"dvc")?;
    match read_dvc(from, bytes) {
        Ok(spelled) => channel_pdu(out, spelled)?,
        Err(fault) => channel_refusal(out, fault)?,
    }
    Ok(())
}
