//! Bytes of the main stream are handed out.

use crate::session::Session;

impl Session {
    ghost use Rattle.std.specs.Prelude.{◌≡◌, ◌++◌, length, take, drop, min};
    ghost use Rattle.mt_base.specs.Trace.{Trace};
    ghost use Rattle.mt_endpoint.specs.Acts.{Act};
    ghost use Rattle.end_session.specs.Standing.{Gone, Stands};

    /// How many bytes of the main stream wait.
    pub fn main_queued(&self) -> usize
        ensures { result ≡ length ((self.now).outgoing).main }
    {
        self.outgoing.main_len()
    }

    /// Moves the first bytes of the main stream that wait to the front of `out`, as many as fit, and gives
    /// their number. Takes no memory.
    pub fn main_out(&mut self, out: &mut [u8]) -> usize
        ensures count { result ≡ min (length out.old) (length ((self.old).outgoing).main) }
        ensures bytes { out.new ≡ take result ((self.old).outgoing).main ++ drop result out.old }
        ensures stands { (t : Trace Act) (gone : Gone) → Stands self.old t gone → Stands self.new t (record gone { main = gone.main ++ take result ((self.old).outgoing).main }) }
        ensures same { ((self.new).role ≡ (self.old).role) × ((self.new).broken ≡ (self.old).broken) }
    {
        self.outgoing.take_main(out)
    }
}
