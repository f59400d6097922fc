//! The rule of a capture that speaks of messages.

ghost use Rattle.std.specs.Prelude.{IfOk};
ghost use Rattle.capture_check.specs.Passes.{Finds};
ghost use Rattle.capture_check.specs.Rules.{Judged, Messages};

use crate::capture::Capture;
use crate::datagrams::check_datagrams;
use crate::deliveries::Deliveries;
use crate::entry::Entry;
use crate::judgement::Judgement;
use mt_base::NoMemory;
use std::alloc::Global;

/// Judges a capture by its first five rules: those of [`check_datagrams`], and
///
/// 5. the messages that a side got on a channel are, in order, those that the other side sent
///    before; from that side's `word` for the lossy tunnel on each is a later one than the one
///    before it, the first that equals it.
///
/// The first line that breaks one is told, and the least rule that it breaks.
pub fn check_messages(alloc: Global, capture: &Capture) -> Result<Judgement, NoMemory>
    ensures { IfOk result (Judged 5 capture.now) }
{
    let datagrams = check_datagrams(alloc, capture)?;
    let found = first_unsent(alloc, datagrams.unbroken(capture.entries()))?;
    Ok(datagrams.with_found(5, found))
}

/// The first line whose message is not the one that was sent.
fn first_unsent(alloc: Global, entries: &[Entry]) -> Result<Option<u64>, NoMemory>
    ensures { IfOk result (Finds Messages entries.now) }
{
    let mut deliveries = Deliveries::new(alloc)?;
    let mut line = 0;
    for entry in entries {
        line += 1;
        if !deliveries.note(entry)? {
            return Ok(Some(line));
        }
    }
    Ok(None)
}
