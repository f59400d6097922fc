//! All rules of a capture, and the one that speaks of tunnels.

ghost use Rattle.std.specs.Prelude.{IfOk};
ghost use Rattle.capture_check.specs.Passes.{Finds};
ghost use Rattle.capture_check.specs.Rules.{Asking, Judged};

use crate::agreed::AgreedLayouts;
use crate::capture::Capture;
use crate::entry::Entry;
use crate::frames::check_frames;
use crate::judgement::Judgement;
use crate::requests::Requests;
use mt_base::NoMemory;
use std::alloc::Global;

/// Judges a capture by all of its eight rules: those of [`check_frames`], and
///
/// 8. no two `issue` lines have one id, and the first data of the client on the reliable link are one
///    tunnel create request (MS-RDPEMT section 2.2.2.1) and nothing more, which names the id and the
///    cookie of a request that was issued before it for a reliable tunnel.
///
/// The first line that breaks one is told, and the least rule that it breaks.
pub fn check(alloc: Global, capture: &Capture) -> Result<Judgement, NoMemory>
    ensures { IfOk result (Judged 8 capture.now) }
{
    let frames = check_frames(alloc, capture)?;
    let found = first_unasked(alloc, frames.unbroken(capture.entries()))?;
    Ok(frames.with_found(8, found))
}

/// The first line that issues a request with an id that was issued before, or whose datagram carries
/// the first data of the client on the reliable link and these ask for no tunnel that was issued.
fn first_unasked(alloc: Global, entries: &[Entry]) -> Result<Option<u64>, NoMemory>
    ensures { IfOk result (Finds Asking entries.now) }
{
    let mut agreed = AgreedLayouts::new();
    let mut requests = Requests::new(alloc)?;
    let mut line = 0;
    for entry in entries {
        line += 1;
        if !requests.note(agreed, entry)? {
            return Ok(Some(line));
        }
        agreed.note(entry);
    }
    Ok(None)
}
