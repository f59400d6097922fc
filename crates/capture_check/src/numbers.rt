//! The rules of a capture that speak of the numbers of datagrams.

ghost use Rattle.std.specs.Prelude.{IfOk};
ghost use Rattle.capture_check.specs.Rules.{Judged};

use crate::capture::Capture;
use crate::given::GivenOuts;
use crate::judgement::Judgement;
use mt_base::NoMemory;
use std::alloc::Global;

/// Judges a capture by its first three rules, which speak of the numbers of datagrams:
///
/// 1. the numbers of a side's `out` lines of a kind are 0, 1, 2 and so on;
/// 2. an `in` names an earlier `out`;
/// 3. fewer than 1,024 `out` lines of that kind, of both sides, stand between them.
///
/// The first line that breaks one is told, and the least rule that it breaks.
pub fn check_numbers(alloc: Global, capture: &Capture) -> Result<Judgement, NoMemory>
    ensures { IfOk result (Judged 3 capture.now) }
{
    let mut given = GivenOuts::new(alloc);
    let mut line = 0;
    for entry in capture.entries() {
        line += 1;
        if let Some(rule) = given.broken_rule(entry) {
            return Ok(Judgement::Breaks { line, rule });
        }
        given.note(entry)?;
    }
    Ok(Judgement::Holds)
}
