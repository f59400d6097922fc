//! One line of a capture: its entry.

ghost use Rattle.std.specs.Prelude.{codes};
ghost use Rattle.mt_script.specs.Lines.{Lacks};
ghost use Rattle.mt_script.specs.Reading.{TakesName, words_left};
ghost use Rattle.capture_check.specs.Reading.{Completes, TellsAs, first_name};

use crate::entry::Entry;
use crate::first::{First, first_of};
use mt_script::{LineFault, Words};
use std::alloc::Global;

/// The entry of a line. A line that is none has a fault other than want of memory.
pub(crate) fn read_line(alloc: Global, line: &[u8]) -> Result<Entry, LineFault>
    requires { Lacks 10 line.now }
    ensures { TellsAs line.now result }
{
    let mut words = Words::new(line);
    match take_first(&mut words) {
        Some(first) => entry_of(alloc, first, words),
        None => Err(LineFault::BadCommand),
    }
}

/// Takes the first word of a line.
fn take_first(words: &mut Words<'_>) -> Option<First>
    ensures { TakesName first_name (words_left words.old) (words_left words.new) result }
{
    match words.word() {
        Some(word) => first_of(word),
        None => None,
    }
}

/// The entry of the words behind a first word.
fn entry_of(alloc: Global, first: First, words: Words<'_>) -> Result<Entry, LineFault>
    ensures { Completes (first_name first) (words_left words.entry) result }
{
    match first {
        First::Issue => issue_line(alloc, words),
        First::Open => open_line(alloc, words),
        First::Sent => sent_line(alloc, words),
        First::Got => got_line(alloc, words),
        First::Main => main_line(alloc, words),
        First::Word => word_line(words),
        First::Out => out_line(alloc, words),
        First::In => in_line(words),
    }
}

/// The words behind `issue`: an id, a kind and a cookie.
fn issue_line(alloc: Global, mut words: Words<'_>) -> Result<Entry, LineFault>
    ensures { Completes (codes "issue") (words_left words.entry) result }
{
    let id = words.id()?;
    let kind = words.kind()?;
    let cookie = words.cookie(alloc)?;
    words.end()?;
    Ok(Entry::Issue { id, kind, cookie })
}

/// The words behind `open`: an id and a name.
fn open_line(alloc: Global, mut words: Words<'_>) -> Result<Entry, LineFault>
    ensures { Completes (codes "open") (words_left words.entry) result }
{
    let id = words.id()?;
    let name = words.name(alloc)?;
    words.end()?;
    Ok(Entry::Open { id, name })
}

/// The words behind `sent`: a side, an id and a message.
fn sent_line(alloc: Global, mut words: Words<'_>) -> Result<Entry, LineFault>
    ensures { Completes (codes "sent") (words_left words.entry) result }
{
    let side = words.side()?;
    let id = words.id()?;
    let message = words.message(alloc)?;
    words.end()?;
    Ok(Entry::Sent { side, id, message })
}

/// The words behind `got`: a side, an id and a message.
fn got_line(alloc: Global, mut words: Words<'_>) -> Result<Entry, LineFault>
    ensures { Completes (codes "got") (words_left words.entry) result }
{
    let side = words.side()?;
    let id = words.id()?;
    let message = words.message(alloc)?;
    words.end()?;
    Ok(Entry::Got { side, id, message })
}

/// The words behind `main`: a side and bytes.
fn main_line(alloc: Global, mut words: Words<'_>) -> Result<Entry, LineFault>
    ensures { Completes (codes "main") (words_left words.entry) result }
{
    let side = words.side()?;
    let bytes = words.message(alloc)?;
    words.end()?;
    Ok(Entry::Main { side, bytes })
}

/// The words behind `word`: a side, a kind and an id.
fn word_line(mut words: Words<'_>) -> Result<Entry, LineFault>
    ensures { Completes (codes "word") (words_left words.entry) result }
{
    let side = words.side()?;
    let kind = words.kind()?;
    let id = words.id()?;
    words.end()?;
    Ok(Entry::Word { side, kind, id })
}

/// The words behind `out`: a side, a kind, a number and a datagram.
fn out_line(alloc: Global, mut words: Words<'_>) -> Result<Entry, LineFault>
    ensures { Completes (codes "out") (words_left words.entry) result }
{
    let side = words.side()?;
    let kind = words.kind()?;
    let number = words.count()?;
    let datagram = words.message(alloc)?;
    words.end()?;
    Ok(Entry::Out {
        side,
        kind,
        number,
        datagram,
    })
}

/// The words behind `in`: a side, a kind and a number.
fn in_line(mut words: Words<'_>) -> Result<Entry, LineFault>
    ensures { Completes (codes "in") (words_left words.entry) result }
{
    let side = words.side()?;
    let kind = words.kind()?;
    let number = words.count()?;
    words.end()?;
    Ok(Entry::In { side, kind, number })
}
