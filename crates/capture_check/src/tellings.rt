//! The rule of a capture that speaks of acknowledgements.

ghost use Rattle.std.specs.Prelude.{IfOk};
ghost use Rattle.capture_check.specs.Passes.{Finds, Obey};
ghost use Rattle.capture_check.specs.Rules.{Judged, Numbering, Tellings};

use crate::agreed::AgreedLayouts;
use crate::arrivals::Arrivals;
use crate::capture::Capture;
use crate::entry::Entry;
use crate::judgement::Judgement;
use crate::messages::check_messages;
use mt_base::NoMemory;
use std::alloc::Global;

/// Judges a capture by its first six rules: those of [`check_messages`], and
///
/// 6. each number that an `out` tells as received was shown by a datagram of the other side that
///    came before on a link of its kind; SeqNum 0 of an acknowledgement is excepted while no number
///    came. In the layout of MS-RDPEUDP section 2.2 a datagram shows SnSourceStart and tells by its
///    vector, in that of MS-RDPEUDP2 section 2.2 it shows DataSeqNum and tells by an
///    acknowledgement or a vector. An opening shows and tells nothing.
///
/// The first line that breaks one is told, and the least rule that it breaks.
pub fn check_tellings(alloc: Global, capture: &Capture) -> Result<Judgement, NoMemory>
    ensures { IfOk result (Judged 6 capture.now) }
{
    let messages = check_messages(alloc, capture)?;
    let found = first_untold(alloc, messages.unbroken(capture.entries()))?;
    Ok(messages.with_found(6, found))
}

/// The first line whose datagram tells a number that did not come.
fn first_untold(alloc: Global, entries: &[Entry]) -> Result<Option<u64>, NoMemory>
    requires { Obey Numbering entries.now }
    ensures { IfOk result (Finds Tellings entries.now) }
{
    let mut agreed = AgreedLayouts::new();
    let mut arrivals = Arrivals::new(alloc)?;
    let mut line = 0;
    for entry in entries {
        line += 1;
        if !arrivals.tells_what_came(agreed, entry) {
            return Ok(Some(line));
        }
        arrivals.note(agreed, entry)?;
        agreed.note(entry);
    }
    Ok(None)
}
