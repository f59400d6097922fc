//! What one word of a line spells: a command, a name, a side, a kind of link, a number, bytes or a
//! cookie.

ghost use Rattle.std.specs.Prelude.{◌≡◌, ◌≢◌, ℕ, ◌<◌, ◌^◌, IfSome, IfNone, IfOk};
ghost use Rattle.std.specs.Fmt.{decimal};
ghost use Rattle.std.specs.List.{list_all};
ghost use Rattle.mt_base.specs.declared.kinds.Role.{Role};
ghost use Rattle.mt_script.specs.Lines.{Lacks};
ghost use Rattle.mt_script.specs.Spelling.{side_name, kind_name, hex_text, IsBytes, IsCookie, IsWord, SpellsBytes};
ghost use Rattle.mt_script.specs.declared.values.Command.{Command};
ghost use Rattle.mt_script.specs.Reading.{IsNameOf, IsNumberOf, Spells, command_name, is_lower_digit, is_lower_hex, decoding_fault, begins_as_number};

use crate::fault::LineFault;
use crate::text::Text;
use hex::FromHexError;
use mt_base::{Kind, NoMemory, Role};
use std::alloc::Global;

/// The first word of an event's line.
#[derive(Clone, Copy)]
pub(crate) enum Command {
    Open,
    Send,
    Main,
}

/// The command that a word is.
pub(crate) fn command_of(word: &[u8]) -> Option<Command>
    ensures { IsNameOf command_name word.now result }
{
    match word {
        b"open" => Some(Command::Open),
        b"send" => Some(Command::Send),
        b"main" => Some(Command::Main),
        _ => None,
    }
}

/// A word as a name; an empty one is none.
pub(crate) fn name_of(alloc: Global, word: &[u8]) -> Result<Text, LineFault>
    requires { Lacks 32 word.now }
    ensures { Spells IsWord (λ name. name) word.now result }
{
    if word.is_empty() {
        return Err(LineFault::BadWords);
    }
    match Text::new(alloc, word) {
        Ok(name) => Ok(name),
        Err(_) => Err(LineFault::NoMemory),
    }
}

/// The side that a word spells.
pub(crate) fn side_of(word: &[u8]) -> Option<Role>
    ensures { IsNameOf side_name word.now result }
{
    match word {
        b"server" => Some(Role::Server),
        b"client" => Some(Role::Client),
        _ => None,
    }
}

/// The kind of link that a word spells.
pub(crate) fn kind_of(word: &[u8]) -> Option<Kind>
    ensures { IsNameOf kind_name word.now result }
{
    match word {
        b"reliable" => Some(Kind::Reliable),
        b"lossy" => Some(Kind::Lossy),
        _ => None,
    }
}

/// Whether a word is `0`, or begins with another digit.
fn begins_as_number(word: &[u8]) -> bool
    ensures { result ≡ begins_as_number word.now }
{
    match word {
        [] => false,
        [b'0'] => true,
        [first, ..] => matches!(first, b'1'..=b'9'),
    }
}

/// The number below 2^32 that a word spells, written with no zero in front.
pub(crate) fn number_of(word: &[u8]) -> Option<u32>
    ensures { IsNumberOf 32 word.now result }
{
    if !begins_as_number(word) {
        return None;
    }
    match str::from_utf8(word) {
        Ok(text) => text.parse().ok(),
        Err(_) => None,
    }
}

/// The number below 2^64 that a word spells, written with no zero in front.
pub(crate) fn count_of(word: &[u8]) -> Option<u64>
    ensures { IsNumberOf 64 word.now result }
{
    if !begins_as_number(word) {
        return None;
    }
    match str::from_utf8(word) {
        Ok(text) => text.parse().ok(),
        Err(_) => None,
    }
}

/// Whether each byte is one of `0` to `9` and `a` to `f`.
fn are_lower_digits(word: &[u8]) -> bool
    ensures { result ≡ list_all is_lower_digit word.now }
{
    word.iter()
        .all(|byte| matches!(byte, b'0'..=b'9' | b'a'..=b'f'))
}

/// Whether a word is one or more such digits.
fn is_lower_hex(word: &[u8]) -> bool
    ensures { result ≡ is_lower_hex word.now }
{
    !word.is_empty() && are_lower_digits(word)
}

/// What a word's refusal by the decoder says of its line.
fn decoding_fault(error: FromHexError) -> LineFault
    ensures { result ≡ decoding_fault error }
{
    match error {
        FromHexError::OutOfMemory => LineFault::NoMemory,
        _ => LineFault::BadWords,
    }
}

/// The bytes that a word spells: pairs of lower case digits, or `-` for none.
pub(crate) fn bytes_of(alloc: Global, word: &[u8]) -> Result<Text, LineFault>
    ensures { Spells IsBytes hex_text word.now result }
{
    if word == b"-".as_slice() {
        return Ok(Text::from_vec(Vec::new(alloc)));
    }
    if !is_lower_hex(word) {
        return Err(LineFault::BadWords);
    }
    match hex::decode(alloc, word) {
        Ok(kept) => Ok(Text::from_vec(kept)),
        Err(error) => Err(decoding_fault(error)),
    }
}

/// The sixteen bytes that a word spells.
pub(crate) fn cookie_of(alloc: Global, word: &[u8]) -> Result<[u8; 16], LineFault>
    ensures { Spells IsCookie hex_text word.now result }
{
    let spelled = bytes_of(alloc, word)?;
    let bytes = spelled.bytes();
    if bytes.len() != 16 {
        return Err(LineFault::BadWords);
    }
    let mut cookie = [0; 16];
    cookie.copy_from_slice(bytes);
    Ok(cookie)
}

/// The bytes that a word spells, pairs of lower case digits or `-` for none; `None` where it spells
/// no bytes.
pub fn hex_bytes(alloc: Global, word: &[u8]) -> Result<Option<Text>, NoMemory>
    ensures { IfOk result (SpellsBytes word.now) }
{
    match bytes_of(alloc, word) {
        Ok(bytes) => Ok(Some(bytes)),
        Err(LineFault::NoMemory) => Err(NoMemory),
        Err(_) => Ok(None),
    }
}
