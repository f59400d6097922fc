//! Channel PDUs, shown.

ghost use Rattle.std.specs.Prelude.{◌≡◌, ◌++◌, ◌∷◌, [], map, codes, OnOk};
ghost use Rattle.std.specs.Fmt.{decimal};
ghost use Rattle.dvc_pdus.specs.Value.{Caps, SyncRequest};
ghost use Rattle.dvc_pdus.specs.Views.{pdu_of};
ghost use Rattle.dvc_pdus.specs.ListViews.{ids_left, list_of, lists_left, types_left};
ghost use Rattle.mt_show.specs.Words.{number_field, digits_field, wide_field, where_there};
ghost use Rattle.mt_script.specs.Spelling.{kind_name};
ghost use Rattle.mt_show.specs.ChannelWords.{numbers_word, charges_word, list_word, data_words, first_words, channel_words, channel_refusal_words};
ghost use Rattle.mt_show.specs.Steps.{behind, Adds, AddsWords};

use crate::output::Output;
use dvc_pdus::{DvcPdu, DvcRefusal, Ids, SyncList, SyncLists, SyncTypes};
use mt_base::{Kind, NoMemory};

/// The words of a channel PDU.
pub(crate) fn channel_pdu(out: &mut Output, pdu: DvcPdu<'_>) -> Result<(), NoMemory>
    ensures { OnOk result (AddsWords (channel_words (pdu_of pdu.entry)) out.old.bytes.items out.new.bytes.items) }
{
    match pdu {
        DvcPdu::Caps { version, charges } => capabilities(out, version, charges),
        DvcPdu::CreateRequest { id, name, .. } => create(out, id, name),
        DvcPdu::CreateResponse { id, status } => answer(out, id, status),
        DvcPdu::DataFirst { id, length, bytes } => first(out, b"first", id, length, bytes),
        DvcPdu::Data { id, bytes } => data(out, b"data", id, bytes),
        DvcPdu::CompressedFirst { id, length, bytes } => first(out, b"zfirst", id, length, bytes),
        DvcPdu::Compressed { id, bytes } => data(out, b"zdata", id, bytes),
        DvcPdu::Close { id } => headed(out, b"close", id),
        DvcPdu::SyncRequest {
            flags,
            tunnels,
            lists,
        } => request(out, flags, tunnels, lists),
        DvcPdu::SyncResponse { types } => response(out, types),
    }
}

fn capabilities(out: &mut Output, version: u16, charges: Option<[u16; 4]>) -> Result<(), NoMemory>
    ensures { OnOk result (AddsWords (channel_words (Caps version charges)) out.old.bytes.items out.new.bytes.items) }
{
    out.word(b"caps")?;
    out.number(b"version=", u64::from(version))?;
    priority_charges(out, charges)?;
    Ok(())
}

fn priority_charges(out: &mut Output, charges: Option<[u16; 4]>) -> Result<(), NoMemory>
    ensures { OnOk result (AddsWords (where_there charges_word charges) out.old.bytes.items out.new.bytes.items) }
{
    let Some(charges) = charges else {
        return Ok(());
    };
    let [first, second, third, fourth] = charges;
    out.number(b"charges=", u64::from(first))?;
    next_charge(out, second)?;
    next_charge(out, third)?;
    next_charge(out, fourth)
}

/// A charge behind a comma.
fn next_charge(out: &mut Output, charge: u16) -> Result<(), NoMemory>
    ensures { OnOk result (Adds (44 ∷ decimal charge) out.old.bytes.items out.new.bytes.items) }
{
    out.put(b",")?;
    out.put_decimal(u64::from(charge))
}

fn create(out: &mut Output, id: u32, name: &[u8]) -> Result<(), NoMemory>
    ensures { OnOk result (AddsWords (codes "create" ∷ number_field (codes "id=") id ∷ (codes "name=" ++ name.now) ∷ []) out.old.bytes.items out.new.bytes.items) }
{
    headed(out, b"create", id)?;
    named(out, name)?;
    Ok(())
}

/// The name of a channel.
fn named(out: &mut Output, name: &[u8]) -> Result<(), NoMemory>
    ensures { OnOk result (AddsWords ((codes "name=" ++ name.now) ∷ []) out.old.bytes.items out.new.bytes.items) }
{
    out.word(b"name=")?;
    out.put(name)
}

fn answer(out: &mut Output, id: u32, status: u32) -> Result<(), NoMemory>
    ensures { OnOk result (AddsWords (codes "answer" ∷ number_field (codes "id=") id ∷ wide_field (codes "status=") status ∷ []) out.old.bytes.items out.new.bytes.items) }
{
    headed(out, b"answer", id)?;
    out.wide_digits(b"status=", status)?;
    Ok(())
}

/// The first bytes of a message, by this word.
fn first(out: &mut Output, word: &[u8], id: u32, length: u32, bytes: &[u8]) -> Result<(), NoMemory>
    ensures { OnOk result (AddsWords (first_words word.now id length bytes.now) out.old.bytes.items out.new.bytes.items) }
{
    out.word(word)?;
    out.number(b"id=", u64::from(id))?;
    out.number(b"length=", u64::from(length))?;
    out.hex(b"bytes=", bytes)
}

/// Bytes of a message, by this word.
fn data(out: &mut Output, word: &[u8], id: u32, bytes: &[u8]) -> Result<(), NoMemory>
    ensures { OnOk result (AddsWords (data_words word.now id bytes.now) out.old.bytes.items out.new.bytes.items) }
{
    out.word(word)?;
    out.number(b"id=", u64::from(id))?;
    out.hex(b"bytes=", bytes)
}

/// This word, and the id of a channel.
fn headed(out: &mut Output, word: &[u8], id: u32) -> Result<(), NoMemory>
    ensures { OnOk result (AddsWords (word.now ∷ number_field (codes "id=") id ∷ []) out.old.bytes.items out.new.bytes.items) }
{
    out.word(word)?;
    out.number(b"id=", u64::from(id))
}

fn request(out: &mut Output, flags: u16, tunnels: u16, lists: SyncLists<'_>) -> Result<(), NoMemory>
    ensures { OnOk result (AddsWords (channel_words (SyncRequest flags tunnels (lists_left lists.entry))) out.old.bytes.items out.new.bytes.items) }
{
    out.word(b"sync")?;
    out.digits(b"flags=", flags)?;
    out.number(b"tunnels=", u64::from(tunnels))?;
    channel_lists(out, lists)?;
    Ok(())
}

/// The lists of a request, one word each.
fn channel_lists(out: &mut Output, lists: SyncLists<'_>) -> Result<(), NoMemory>
    ensures { OnOk result (AddsWords (map list_word (lists_left lists.entry)) out.old.bytes.items out.new.bytes.items) }
{
    for list in lists {
        channel_list(out, list)?;
    }
    Ok(())
}

/// The channels that move to a tunnel.
fn channel_list(out: &mut Output, list: SyncList<'_>) -> Result<(), NoMemory>
    ensures { OnOk result (AddsWords (list_word (list_of list.entry) ∷ []) out.old.bytes.items out.new.bytes.items) }
{
    out.word(kind_name(list.kind))?;
    out.put(b"=")?;
    numbers(out, list.ids)
}

/// Channel ids, joined by commas.
fn numbers(out: &mut Output, ids: Ids<'_>) -> Result<(), NoMemory>
    ensures { OnOk result (Adds (numbers_word (ids_left ids.entry)) out.old.bytes.items out.new.bytes.items) }
{
    let mut ids = ids;
    let Some(first) = ids.next() else {
        return out.put(b"-");
    };
    out.put_decimal(u64::from(first))?;
    more_numbers(out, ids)?;
    Ok(())
}

/// Channel ids, each behind a comma.
fn more_numbers(out: &mut Output, ids: Ids<'_>) -> Result<(), NoMemory>
    ensures { OnOk result (Adds (behind 44 (map decimal (ids_left ids.entry))) out.old.bytes.items out.new.bytes.items) }
{
    for id in ids {
        next_number(out, id)?;
    }
    Ok(())
}

/// A channel id behind a comma.
fn next_number(out: &mut Output, id: u32) -> Result<(), NoMemory>
    ensures { OnOk result (Adds (44 ∷ decimal id) out.old.bytes.items out.new.bytes.items) }
{
    out.put(b",")?;
    out.put_decimal(u64::from(id))
}

fn response(out: &mut Output, types: SyncTypes<'_>) -> Result<(), NoMemory>
    ensures { OnOk result (AddsWords (codes "syncanswer" ∷ map kind_name (types_left types.entry)) out.old.bytes.items out.new.bytes.items) }
{
    out.word(b"syncanswer")?;
    kinds(out, types)?;
    Ok(())
}

/// The kinds of the tunnels that a response takes, one word each.
fn kinds(out: &mut Output, types: SyncTypes<'_>) -> Result<(), NoMemory>
    ensures { OnOk result (AddsWords (map kind_name (types_left types.entry)) out.old.bytes.items out.new.bytes.items) }
{
    for kind in types {
        out.word(kind_name(kind))?;
    }
    Ok(())
}

fn kind_name(kind: Kind) -> &'static [u8]
    ensures { result.now ≡ kind_name kind }
{
    match kind {
        Kind::Reliable => b"reliable",
        Kind::Lossy => b"lossy",
    }
}

/// The words of a fault.
pub(crate) fn channel_refusal(out: &mut Output, refusal: DvcRefusal) -> Result<(), NoMemory>
    ensures { OnOk result (AddsWords (channel_refusal_words refusal) out.old.bytes.items out.new.bytes.items) }
{
    out.fault(refusal.name(), refusal.place())
}
