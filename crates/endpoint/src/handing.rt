//! Bytes of the main stream are handed out.

use crate::endpoint::Endpoint;
use carrier::{Carrier, Post};

impl<C: Carrier + Drop, P: Post + Drop> Endpoint<C, P> {
    ghost use Rattle.std.specs.Prelude.{◌≡◌, ◌≤◌, ◌++◌, length, take, drop, min};
    ghost use Rattle.mt_base.specs.declared.kinds.Role.{Role};
    ghost use Rattle.mt_base.specs.Trace.{Trace, ◌▷◌};
    ghost use Rattle.end_calls.specs.Calls.{Entry, MainOut};
    ghost use Rattle.end_calls.specs.Law.{unsent};
    ghost use Rattle.endpoint.specs.Laws.{KeepsLaws};
    ghost use Rattle.endpoint.specs.Standing.{EndStands};

    /// Moves the first bytes of the main stream that wait to the front of `out`, as many as fit, and gives
    /// their number, also where the end is broken. Takes no memory.
    pub fn main_out(&mut self, out: &mut [u8]) -> usize
        ensures bound { result ≤ length out.old }
        ensures count { (role : Role) (t : Trace Entry) → EndStands C.stands C.left C.condition P.stands P.left P.condition self.old role t → result ≡ min (length out.old) (length (unsent role t)) }
        ensures bytes { (role : Role) (t : Trace Entry) → EndStands C.stands C.left C.condition P.stands P.left P.condition self.old role t → out.new ≡ take result (unsent role t) ++ drop result out.old }
        ensures stands { (role : Role) (t : Trace Entry) → EndStands C.stands C.left C.condition P.stands P.left P.condition self.old role t → EndStands C.stands C.left C.condition P.stands P.left P.condition self.new role (t ▷ MainOut (length out.old) (take result out.new)) }
        ensures laws { KeepsLaws C.law P.law self.old self.new }
    {
        self.reader.session.main_out(out)
    }
}
