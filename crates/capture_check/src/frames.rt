//! The rule of a capture that speaks of main frames.

ghost use Rattle.std.specs.Prelude.{IfOk};
ghost use Rattle.capture_check.specs.Passes.{Finds};
ghost use Rattle.capture_check.specs.Rules.{Framing, Judged};

use crate::capture::Capture;
use crate::entry::Entry;
use crate::judgement::Judgement;
use crate::main_streams::MainStreams;
use crate::tellings::check_tellings;
use mt_base::NoMemory;
use std::alloc::Global;

/// Judges a capture by its first seven rules: those of [`check_tellings`], and
///
/// 7. the `main` bytes of a side, joined, are frames and the beginning of one, and behind the side's
///    word for a channel they hold no data of it. The server's word is the Soft-Sync request that
///    lists the channel (MS-RDPEDYC section 2.2.5.1). The client's is the Soft-Sync response (section
///    2.2.5.2) with the number of a request that came before it, where that lists the channel under
///    a kind that the response names.
///
/// The first line that breaks one is told, and the least rule that it breaks.
pub fn check_frames(alloc: Global, capture: &Capture) -> Result<Judgement, NoMemory>
    ensures { IfOk result (Judged 7 capture.now) }
{
    let tellings = check_tellings(alloc, capture)?;
    let found = first_unframed(alloc, tellings.unbroken(capture.entries()))?;
    Ok(tellings.with_found(7, found))
}

/// The first line with whose bytes a main stream is no frames, or holds data behind a word.
fn first_unframed(alloc: Global, entries: &[Entry]) -> Result<Option<u64>, NoMemory>
    ensures { IfOk result (Finds Framing entries.now) }
{
    let mut streams = MainStreams::new(alloc)?;
    let mut line = 0;
    for entry in entries {
        line += 1;
        if !streams.note(entry)? {
            return Ok(Some(line));
        }
    }
    Ok(None)
}
