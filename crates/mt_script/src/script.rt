//! A whole script: the lines that do something, in order.

ghost use Rattle.std.specs.Prelude.{◌≡◌, ◌≤◌, length};
ghost use Rattle.mt_script.specs.Lines.{lines_of};
ghost use Rattle.mt_script.specs.Meaning.{IsShort, Reads, line_limit};

use crate::cut::cut_line;
use crate::event::{Event, Line, ScriptRefusal};
use crate::line::read_line;
use std::alloc::Global;
use std::marker::Model;

/// The most lines that a script has.
pub const LINE_LIMIT: u64 = 4_000_000;

/// The lines of a script that have an event, in order.
#[derive(Drop)]
pub struct Script {
    kept: Vec<Line>,
}

impl Model for Script {
    ghost use Rattle.std.specs.Prelude.{List};
    ghost use Rattle.mt_script.specs.declared.event.Line.{Line};

    ghost Value = { List Line };

    ghost view = { λ s. s.kept.items };
}

impl Script {
    ghost use Rattle.std.specs.Prelude.{◌≡◌, ◌==◌, [], length, slice_get};
    ghost use Rattle.std.specs.Option.{option_map};
    ghost use Rattle.mt_script.specs.declared.event.Line.{Line};
    ghost use Rattle.mt_script.specs.Lines.{Lacks};
    ghost use Rattle.mt_script.specs.Reading.{AddsLine};

    /// How many lines have an event.
    pub fn len(&self) -> usize
        ensures { result ≡ length self.now }
    {
        self.kept.len()
    }

    /// Whether no line has an event.
    pub fn is_empty(&self) -> bool
        ensures { result ≡ (length self.now == 0) }
    {
        self.kept.is_empty()
    }

    /// The `i`th line that has an event, and its number in the text; lines are counted from 0 here.
    pub fn event(&self, i: usize) -> Option<(&Event, u64)>
        ensures { option_map (λ line. record { event = line.0.now; number = line.1 }) result
            ≡ slice_get self.now i }
    {
        let line = self.kept.get(i)?;
        Some((&line.event, line.number))
    }

    /// The lines that have an event.
    pub fn lines(&self) -> &[Line]
        ensures { result.now ≡ self.now }
    {
        &self.kept
    }

    /// No lines.
    fn new(alloc: Global) -> Script
        ensures { result ≡ [] }
    {
        Script {
            kept: Vec::new(alloc),
        }
    }

    /// Adds the event of a line, if it has one.
    fn add_line(&mut self, alloc: Global, line: &[u8], number: u64) -> Result<(), ScriptRefusal>
        requires { Lacks 10 line.now }
        ensures { AddsLine self.old self.new line.now number result }
    {
        match read_line(alloc, line) {
            Ok(None) => Ok(()),
            Ok(Some(event)) => match self.kept.push(Line { event, number }) {
                Ok(()) => Ok(()),
                Err(_) => Err(ScriptRefusal::NoMemory),
            },
            Err(fault) => Err(fault.at(number)),
        }
    }
}

/// The script that a text spells: its events in order, each with the number of its line.
///
/// A text of more than 4,000,000 lines is refused before a line is read; else the first line that
/// is no line of a script is.
pub fn read_script(alloc: Global, bytes: &[u8]) -> Result<Script, ScriptRefusal>
    ensures { Reads bytes.now result }
{
    if count_lines(bytes) > LINE_LIMIT {
        return Err(ScriptRefusal::TooManyLines { limit: LINE_LIMIT });
    }
    read_lines(alloc, bytes)
}

/// How many lines a text has. A line ends at each byte 10, and bytes that no byte 10 follows are one
/// more line.
pub fn count_lines(text: &[u8]) -> u64
    ensures { result ≡ length (lines_of text.now) }
{
    let mut count = 0;
    let mut rest = text;
    while !rest.is_empty() {
        let (_, after) = cut_line(rest);
        count += 1;
        rest = after;
    }
    count
}

/// The script of a text that has not too many lines.
fn read_lines(alloc: Global, text: &[u8]) -> Result<Script, ScriptRefusal>
    requires { IsShort text.now }
    ensures { Reads text.now result }
{
    let mut script = Script::new(alloc);
    let mut number = 0;
    let mut rest = text;
    while !rest.is_empty() {
        let (line, after) = cut_line(rest);
        number += 1;
        match script.add_line(alloc, line, number) {
            Ok(()) => {}
            Err(refusal) => return Err(refusal),
        }
        rest = after;
    }
    Ok(script)
}
