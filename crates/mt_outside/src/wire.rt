//! A wire for datagrams in both directions.

ghost use Rattle.std.specs.Prelude.{◌≡◌, ℕ, ◌≤◌, IfSome, IfOk, OnOk, OnErr};
ghost use Rattle.mt_outside.specs.Faults.{Rose};
ghost use Rattle.mt_outside.specs.Wires.{WireTold, opening, datagram_of, came, left};

use crate::failed::Failed;
use mt_base::Role;

/// A wire for datagrams to a peer and from it.
///
/// The clauses speak of three meanings: `faults` counts the faults so far, `told` is what the wire
/// tells of its calls, and `stays` is what no call changes beside that, as at [`crate::Stream`].
pub trait Wire {
    ghost faults: { Self → ℕ };

    ghost told: { Self → WireTold };

    ghost stays: { Self → Self → Type 0 };

    /// Opens the wire at this port. The role and the port are told also where it fails.
    fn open(&mut self, role: Role, port: u16) -> Result<(), Failed>
        ensures stays { stays self.old self.new }
        ensures never_falls { faults self.old ≤ faults self.new }
        ensures cause { OnErr result (Rose (faults self.old) (faults self.new)) }
        ensures counts { OnOk result (faults self.new ≡ faults self.old) }
        ensures tells { told self.new ≡ opening role port (told self.old) };

    /// Sends a datagram.
    fn send(&mut self, datagram: &[u8]) -> Result<(), Failed>
        ensures stays { stays self.old self.new }
        ensures never_falls { faults self.old ≤ faults self.new }
        ensures cause { OnErr result (Rose (faults self.old) (faults self.new)) }
        ensures counts { OnOk result (faults self.new ≡ faults self.old) }
        ensures tells { OnOk result (told self.new ≡ left datagram.now (told self.old)) }
        ensures same { OnErr result (told self.new ≡ told self.old) };

    /// Takes a datagram into the front of `out` and answers its length, or `None` where none is
    /// there now. What stands in `out` behind it is free.
    fn take(&mut self, out: &mut [u8; 1232]) -> Result<Option<usize>, Failed>
        ensures stays { stays self.old self.new }
        ensures never_falls { faults self.old ≤ faults self.new }
        ensures cause { OnErr result (Rose (faults self.old) (faults self.new)) }
        ensures counts { OnOk result (faults self.new ≡ faults self.old) }
        ensures bound { IfOk result (λ got. IfSome got (λ n. n ≤ 1232)) }
        ensures tells { IfOk result (λ got. told self.new ≡ came (datagram_of got out.new) (told self.old)) }
        ensures same { OnErr result (told self.new ≡ told self.old) };

    ghost stays_same: { (a : Self) → stays a a };

    ghost stays_on: { (a b c : Self) → stays a b → stays b c → stays a c };
}
