//! A fault breaks an end.

use crate::session::Session;
use end_calls::Fault;

impl Session {
    ghost use Rattle.std.specs.Prelude.{◌≡◌, Some};
    ghost use Rattle.mt_base.specs.Trace.{Trace};
    ghost use Rattle.mt_endpoint.specs.Acts.{Act};
    ghost use Rattle.end_session.specs.Standing.{Gone, Stands};

    /// This fault breaks the end, for good. It stands for the same acts.
    pub fn break_by(&mut self, fault: Fault)
        ensures stands { (t : Trace Act) (gone : Gone) → Stands self.old t gone → Stands self.new t gone }
        ensures broken { self.new ≡ record self.old { broken = Some fault } }
    {
        self.broken = Some(fault);
    }
}
