//! What the commands that read a file share: its text, and what is printed of a line of it that is
//! refused.

ghost use Rattle.std.specs.Prelude.{◌≡◌, ℕ, replicate, IsErrOf};
ghost use Rattle.mt_outside.specs.Told.{added};
ghost use Rattle.rdpmt_program.specs.Script.{refused_line};
ghost use Rattle.rdpmt_program.specs.Fate.{ReadsText, Refuses};

use crate::fault::Fault;
use mt_outside::{FileStore, ReadFault, read_file};
use mt_world::Text;
use std::alloc::Global;

/// The most bytes that a script or a show file has.
const TEXT_BYTES: u64 = 268_435_456;

/// The whole text of the file of this name.
pub(crate) fn read_text<F: FileStore>(
    alloc: Global,
    files: &mut F,
    name: &str,
) -> Result<Text, Fault>
    ensures cause { ReadsText (F.told files.old) name.now (F.faults files.old) (F.faults files.new) result }
    ensures counts { ¬ IsErrOf result Fault.File → F.faults files.new ≡ F.faults files.old }
    ensures names { (k : ℕ) × (F.named files.new ≡ added (F.named files.old) (replicate k name.now)) }
    ensures same { F.told files.new ≡ F.told files.old }
{
    match read_file(alloc, files, name, TEXT_BYTES) {
        Ok(bytes) => Ok(Text::from_vec(bytes)),
        Err(ReadFault::Failed) => Err(Fault::File),
        Err(ReadFault::TooLong) => Err(Fault::Limit),
        Err(ReadFault::NoMemory) => Err(Fault::NoMemory),
    }
}

/// The fault that a line is refused for this reason.
pub(crate) fn refused(alloc: Global, line: u64, reason: &str) -> Fault
    ensures { Refuses result (refused_line line reason.now) }
{
    match format!(in alloc; "refused line {line} {reason}\n") {
        Ok(text) => Fault::Refused(text),
        Err(_) => Fault::NoMemory,
    }
}
