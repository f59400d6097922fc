//! Standard output as a sink.

ghost use Rattle.std.specs.Prelude.{◌≡◌, ◌<◌, ◌≤◌, None, length, IfOk};
ghost use Rattle.std.specs.Io.KnownBytes.{WriteAppends};

use crate::failed::Failed;
use crate::faults::Faults;
use crate::sink::Sink;
use std::io;
use std::io::Write;

/// The runtime's standard output. It tells nothing of what it wrote.
#[derive(Drop)]
pub struct RealSink<'a, R> {
    rt: &'a R,
    faults: Faults,
}

impl<'a, R: Print> RealSink<'a, R> {
    pub fn new(rt: &'a R) -> RealSink<'a, R>
        ensures { ⟦<RealSink<'a, R> as Sink>⟧.faults result ≡ 0 }
    {
        RealSink {
            rt,
            faults: Faults::new(),
        }
    }
}

impl<R: Print> Sink for RealSink<'_, R> {
    ghost faults = { λ s. s.faults.count };

    ghost written = { λ _. None };

    fn write(&mut self, bytes: &[u8]) -> Result<usize, Failed> {
        match write_front(&mut io::writer(self.rt), bytes) {
            Ok(count) => Ok(count),
            Err(_) => Err(self.faults.raise()),
        }
    }
}

/// Writes the front of a piece, and answers how many bytes of it were taken. Where none of a piece
/// that isn't empty is taken, it is `Failed`.
fn write_front<W: Write>(to: &mut W, bytes: &[u8]) -> Result<usize, Failed>
    ensures bound { IfOk result (λ n. n ≤ length bytes.now) }
    ensures some { IfOk result (λ n. 0 < length bytes.now → 0 < n) }
    ensures took { WriteAppends (W.contents to.old) (W.contents to.new) result bytes.now }
{
    match to.write(bytes) {
        Ok(count) if count > 0 || bytes.is_empty() => Ok(count),
        _ => Err(Failed),
    }
}
