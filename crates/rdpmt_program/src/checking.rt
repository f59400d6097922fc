//! The command `check`: a capture is judged by its rules.

ghost use Rattle.std.specs.Prelude.{◌≡◌, ℕ, List, replicate, IsErrOf};
ghost use Rattle.mt_outside.specs.Told.{added};
ghost use Rattle.rdpmt_program.specs.Captures.{broken_line};
ghost use Rattle.rdpmt_program.specs.Command.{IsCheck};
ghost use Rattle.rdpmt_program.specs.Fate.{GivesChecked, Judges, Runs, Says, TellsBroken};

use crate::fault::Fault;
use crate::reading::{read_text, refused};
use capture_check::{Capture, CaptureRefusal, Judgement, check, read_capture};
use mt_outside::FileStore;
use mt_world::Text;
use std::alloc::Global;

/// Checks the capture of this name, and gives that it holds.
pub(crate) fn check_file<F: FileStore>(
    alloc: Global,
    files: &mut F,
    name: &str,
) -> Result<Text, Fault>
    ensures cause { (words : List (List ℕ)) → IsCheck words name.now → Runs words (F.told files.old) (F.faults files.old) (F.faults files.new) result }
    ensures counts { ¬ IsErrOf result Fault.File → F.faults files.new ≡ F.faults files.old }
    ensures names { (k : ℕ) × (F.named files.new ≡ added (F.named files.old) (replicate k name.now)) }
    ensures same { F.told files.new ≡ F.told files.old }
{
    match read_text(alloc, files, name) {
        Ok(text) => check_text(alloc, text.bytes()),
        Err(fault) => Err(fault),
    }
}

/// Checks the capture that a text is.
fn check_text(alloc: Global, text: &[u8]) -> Result<Text, Fault>
    ensures { GivesChecked text.now result }
{
    match read_capture(alloc, text) {
        Ok(capture) => check_capture(alloc, &capture),
        Err(CaptureRefusal::BadLine { line }) => Err(refused(alloc, line, "BadLine")),
        Err(CaptureRefusal::TooManyLines { .. }) => Err(Fault::Limit),
        Err(CaptureRefusal::NoMemory) => Err(Fault::NoMemory),
    }
}

/// Checks a capture.
fn check_capture(alloc: Global, capture: &Capture) -> Result<Text, Fault>
    ensures { Judges capture.now result }
{
    match check(alloc, capture) {
        Ok(judgement) => said(alloc, judgement),
        Err(_) => Err(Fault::NoMemory),
    }
}

/// What is printed of a judgement.
fn said(alloc: Global, judgement: Judgement) -> Result<Text, Fault>
    ensures { Says judgement result }
{
    match judgement {
        Judgement::Holds => match Text::new(alloc, b"holds\n") {
            Ok(text) => Ok(text),
            Err(_) => Err(Fault::NoMemory),
        },
        Judgement::Breaks { line, rule } => Err(broken(alloc, line, rule)),
    }
}

/// The fault that a line breaks this rule.
fn broken(alloc: Global, line: u64, rule: u8) -> Fault
    ensures { TellsBroken result (broken_line line rule) }
{
    match format!(in alloc; "broken line {line} rule {rule}\n") {
        Ok(text) => Fault::Broken(text),
        Err(_) => Fault::NoMemory,
    }
}
