//! The command `show`: the datagrams of a show file are shown.

ghost use Rattle.std.specs.Prelude.{◌≡◌, ℕ, List, replicate, IsErrOf};
ghost use Rattle.mt_outside.specs.Told.{added};
ghost use Rattle.rdpmt_program.specs.Command.{IsShow};
ghost use Rattle.rdpmt_program.specs.Fate.{GivesShown, Runs};

use crate::fault::Fault;
use crate::reading::{read_text, refused};
use mt_outside::FileStore;
use mt_show::{ShowRefusal, show};
use mt_world::Text;
use std::alloc::Global;

/// Shows the show file of this name, and gives the answers to its lines.
pub(crate) fn show_file<F: FileStore>(
    alloc: Global,
    files: &mut F,
    name: &str,
) -> Result<Text, Fault>
    ensures cause { (words : List (List ℕ)) → IsShow words name.now → Runs words (F.told files.old) (F.faults files.old) (F.faults files.new) result }
    ensures counts { ¬ IsErrOf result Fault.File → F.faults files.new ≡ F.faults files.old }
    ensures names { (k : ℕ) × (F.named files.new ≡ added (F.named files.old) (replicate k name.now)) }
    ensures same { F.told files.new ≡ F.told files.old }
{
    match read_text(alloc, files, name) {
        Ok(text) => show_text(alloc, text.bytes()),
        Err(fault) => Err(fault),
    }
}

/// Shows the lines of a text, and gives the answers to them.
fn show_text(alloc: Global, text: &[u8]) -> Result<Text, Fault>
    ensures { GivesShown text.now result }
{
    match show(alloc, text) {
        Ok(answers) => Ok(answers),
        Err(ShowRefusal::BadLine { line }) => Err(refused(alloc, line, "BadLine")),
        Err(ShowRefusal::TooManyLines { .. }) => Err(Fault::Limit),
        Err(ShowRefusal::NoMemory) => Err(Fault::NoMemory),
    }
}
