//! A stream of bytes in both directions.

ghost use Rattle.std.specs.Prelude.{◌≡◌, ℕ, ◌≤◌, length, IfOk, OnOk, OnErr};
ghost use Rattle.mt_outside.specs.Faults.{Rose};
ghost use Rattle.mt_outside.specs.Streams.{StreamTold, IsWithin, heard_of, opening, heard, wrote};

use crate::failed::Failed;
use crate::got::Got;
use mt_base::Role;

/// A stream of bytes to a peer and from it.
///
/// The clauses speak of three meanings: `faults` counts the faults so far, `told` is what the stream
/// tells of its calls, and `stays` is a relation of a stream before its calls and after them: what
/// no call of it changes, beside what is told. It holds of a stream and itself, and over calls that
/// follow one another where it holds over each.
pub trait Stream {
    ghost faults: { Self → ℕ };

    ghost told: { Self → StreamTold };

    ghost stays: { Self → Self → Type 0 };

    /// Opens the stream at this port: the server's end takes one client, the client's end connects.
    /// The role and the port are told also where it fails.
    fn open(&mut self, role: Role, port: u16) -> Result<(), Failed>
        ensures stays { stays self.old self.new }
        ensures never_falls { faults self.old ≤ faults self.new }
        ensures cause { OnErr result (Rose (faults self.old) (faults self.new)) }
        ensures counts { OnOk result (faults self.new ≡ faults self.old) }
        ensures tells { told self.new ≡ opening role port (told self.old) };

    /// Reads bytes into the front of `out`: at least one where some are there and `out` isn't empty.
    /// What stands in `out` behind them is free.
    fn read(&mut self, out: &mut [u8]) -> Result<Got, Failed>
        ensures stays { stays self.old self.new }
        ensures never_falls { faults self.old ≤ faults self.new }
        ensures cause { OnErr result (Rose (faults self.old) (faults self.new)) }
        ensures counts { OnOk result (faults self.new ≡ faults self.old) }
        ensures bound { IfOk result (λ got. IsWithin got out.new) }
        ensures tells { IfOk result (λ got. told self.new ≡ heard (heard_of got out.new) (told self.old)) }
        ensures same { OnErr result (told self.new ≡ told self.old) };

    /// Writes the front of `bytes`, and answers how many it took: 0 where it takes none now.
    fn write(&mut self, bytes: &[u8]) -> Result<usize, Failed>
        ensures stays { stays self.old self.new }
        ensures never_falls { faults self.old ≤ faults self.new }
        ensures cause { OnErr result (Rose (faults self.old) (faults self.new)) }
        ensures counts { OnOk result (faults self.new ≡ faults self.old) }
        ensures bound { IfOk result (λ n. n ≤ length bytes.now) }
        ensures tells { IfOk result (λ n. told self.new ≡ wrote bytes.now n (told self.old)) }
        ensures same { OnErr result (told self.new ≡ told self.old) };

    ghost stays_same: { (a : Self) → stays a a };

    ghost stays_on: { (a b c : Self) → stays a b → stays b c → stays a c };
}
