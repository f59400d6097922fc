//! One line of a script: what it means.

ghost use Rattle.std.specs.Prelude.{codes, IsTrue, ◌↔◌};
ghost use Rattle.mt_script.specs.Meaning.{IsSkipped};
ghost use Rattle.mt_script.specs.Lines.{Lacks};
ghost use Rattle.mt_script.specs.Reading.{Completes, MeansAs, command_name, words_left};

use crate::event::Event;
use crate::fault::LineFault;
use crate::values::Command;
use crate::words::Words;
use std::alloc::Global;

/// Whether a line is empty or a comment.
fn is_skipped(line: &[u8]) -> bool
    ensures { IsTrue result ↔ IsSkipped line.now }
{
    match line {
        [] => true,
        [first, ..] => *first == b'#',
    }
}

/// The event of a line, or nothing where it is empty or a comment.
pub(crate) fn read_line(alloc: Global, line: &[u8]) -> Result<Option<Event>, LineFault>
    requires { Lacks 10 line.now }
    ensures { MeansAs line.now result }
{
    if is_skipped(line) {
        return Ok(None);
    }
    let mut words = Words::new(line);
    match words.command() {
        Some(command) => match event_of(alloc, command, words) {
            Ok(event) => Ok(Some(event)),
            Err(fault) => Err(fault),
        },
        None => Err(LineFault::BadCommand),
    }
}

/// The event of the words behind a command.
fn event_of(alloc: Global, command: Command, words: Words<'_>) -> Result<Event, LineFault>
    ensures { Completes (command_name command) (words_left words.entry) result }
{
    match command {
        Command::Open => open_line(alloc, words),
        Command::Send => send_line(alloc, words),
        Command::Main => main_line(words),
    }
}

/// The words behind `open`: a name.
fn open_line(alloc: Global, mut words: Words<'_>) -> Result<Event, LineFault>
    ensures { Completes (codes "open") (words_left words.entry) result }
{
    let name = words.name(alloc)?;
    words.end()?;
    Ok(Event::Open { name })
}

/// The words behind `send`: a side, an id and a message.
fn send_line(alloc: Global, mut words: Words<'_>) -> Result<Event, LineFault>
    ensures { Completes (codes "send") (words_left words.entry) result }
{
    let side = words.side()?;
    let id = words.id()?;
    let message = words.message(alloc)?;
    words.end()?;
    Ok(Event::Send { side, id, message })
}

/// The words behind `main`: a side, and `all`.
fn main_line(mut words: Words<'_>) -> Result<Event, LineFault>
    ensures { Completes (codes "main") (words_left words.entry) result }
{
    let side = words.side()?;
    match words.word() {
        Some(b"all") => {}
        _ => return Err(LineFault::BadWords),
    }
    words.end()?;
    Ok(Event::Main { side })
}
