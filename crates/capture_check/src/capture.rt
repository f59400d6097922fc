//! A whole capture: its entries, in order.

ghost use Rattle.mt_script.specs.Meaning.{IsShort};
ghost use Rattle.capture_check.specs.Meaning.{Reads};

use crate::entry::{CaptureRefusal, Entry};
use crate::line::read_line;
use mt_script::{LINE_LIMIT, count_lines, cut_line};
use std::alloc::Global;
use std::marker::Model;

/// The entries of a capture, one for each line, in order.
#[derive(Drop)]
pub struct Capture {
    kept: Vec<Entry>,
}

impl Model for Capture {
    ghost use Rattle.std.specs.Prelude.{List};
    ghost use Rattle.capture_check.specs.declared.entry.Entry.{Entry};

    ghost Value = { List Entry };

    ghost view = { λ c. c.kept.items };
}

impl Capture {
    ghost use Rattle.std.specs.Prelude.{◌≡◌, []};
    ghost use Rattle.mt_script.specs.Lines.{Lacks};
    ghost use Rattle.capture_check.specs.Reading.{AddsLine};

    /// The entries. That of the first line stands first.
    pub fn entries(&self) -> &[Entry]
        ensures { result.now ≡ self.now }
    {
        &self.kept
    }

    /// No entries.
    fn new(alloc: Global) -> Capture
        ensures { result ≡ [] }
    {
        Capture {
            kept: Vec::new(alloc),
        }
    }

    /// Adds the entry of the line of this number.
    fn add_line(&mut self, alloc: Global, line: &[u8], number: u64) -> Result<(), CaptureRefusal>
        requires { Lacks 10 line.now }
        ensures { AddsLine self.old self.new line.now number result }
    {
        match read_line(alloc, line) {
            Ok(entry) => match self.kept.push(entry) {
                Ok(()) => Ok(()),
                Err(_) => Err(CaptureRefusal::NoMemory),
            },
            Err(fault) => Err(CaptureRefusal::of(fault, number)),
        }
    }
}

/// The capture that a text spells: one entry for each line, in order.
///
/// A text of more than 4,000,000 lines is refused before a line is read; else the first line that
/// is no entry is. An empty text is a capture of no entries.
pub fn read_capture(alloc: Global, bytes: &[u8]) -> Result<Capture, CaptureRefusal>
    ensures { Reads bytes.now result }
{
    if count_lines(bytes) > LINE_LIMIT {
        return Err(CaptureRefusal::TooManyLines { limit: LINE_LIMIT });
    }
    read_lines(alloc, bytes)
}

/// The capture of a text that has not too many lines.
fn read_lines(alloc: Global, text: &[u8]) -> Result<Capture, CaptureRefusal>
    requires { IsShort text.now }
    ensures { Reads text.now result }
{
    let mut capture = Capture::new(alloc);
    let mut number = 0;
    let mut rest = text;
    while !rest.is_empty() {
        let (line, after) = cut_line(rest);
        number += 1;
        match capture.add_line(alloc, line, number) {
            Ok(()) => {}
            Err(refusal) => return Err(refusal),
        }
        rest = after;
    }
    Ok(capture)
}
