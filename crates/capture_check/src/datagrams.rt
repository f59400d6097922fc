//! The rule of a capture that speaks of the layouts of datagrams.

ghost use Rattle.std.specs.Prelude.{IfOk};
ghost use Rattle.capture_check.specs.Passes.{Finds};
ghost use Rattle.capture_check.specs.Rules.{Judged, Layouts};

use crate::agreed::AgreedLayouts;
use crate::capture::Capture;
use crate::entry::Entry;
use crate::judgement::Judgement;
use crate::numbers::check_numbers;
use mt_base::NoMemory;
use std::alloc::Global;

/// Judges a capture by its first four rules: those of [`check_numbers`], and
///
/// 4. an `out` is a SYN or a SYN+ACK (MS-RDPEUDP section 2.2), or is read by the layout of the
///    version that the last SYN+ACK of its kind chose: that of MS-RDPEUDP2 section 2.2 where it
///    names version 0x0101 as valid, else that of MS-RDPEUDP section 2.2.
///
/// The first line that breaks one is told, and the least rule that it breaks.
pub fn check_datagrams(alloc: Global, capture: &Capture) -> Result<Judgement, NoMemory>
    ensures { IfOk result (Judged 4 capture.now) }
{
    let numbers = check_numbers(alloc, capture)?;
    let found = first_unreadable(numbers.unbroken(capture.entries()));
    Ok(numbers.with_found(4, found))
}

/// The first line whose datagram is no opening and is not read by its link's layout.
fn first_unreadable(entries: &[Entry]) -> Option<u64>
    ensures { Finds Layouts entries.now result }
{
    let mut agreed = AgreedLayouts::new();
    let mut line = 0;
    for entry in entries {
        line += 1;
        if !agreed.can_read(entry) {
            return Some(line);
        }
        agreed.note(entry);
    }
    None
}
