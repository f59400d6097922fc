//! Whether a tunnel's hold has room for one PDU more.

use crate::session::Session;
use end_calls::HELD_PDU;

impl Session {
    ghost use Rattle.std.specs.Prelude.{◌≡◌, ◌+◌, ◌≤◌, nat_lt, false};
    ghost use Rattle.mt_base.specs.declared.kinds.Kind.{Kind as OfTunnel};
    ghost use Rattle.mt_base.specs.declared.kinds.Kind.TheVariants.{Reliable};
    ghost use Rattle.mt_base.specs.Trace.{Trace};
    ghost use Rattle.mt_endpoint.specs.Acts.{Act};
    ghost use Rattle.mt_endpoint.specs.Holding.{held, weight};
    ghost use Rattle.end_calls.specs.declared.limits.TheConstants.{HELD_PDU, HOLD};
    ghost use Rattle.end_session.specs.Drawing.{IsHeldBeside};
    ghost use Rattle.end_session.specs.Standing.{Gone, Stands};

    /// Whether reading of the links stops until channels of the reliable tunnel are released: its hold has
    /// fewer than [`HELD_PDU`] bytes of room. What is held of either tunnel never passes its limit.
    pub fn is_hold_full(&self) -> bool
        ensures acts { (t : Trace Act) (gone : Gone) → Stands self.now t gone → result ≡ nat_lt HOLD (weight (held (self.now).role Reliable t) + HELD_PDU) }
        ensures room { result ≡ false → IsHeldBeside 1600 (self.now).held_reliable }
        ensures within { (t : Trace Act) (gone : Gone) (kind : OfTunnel) → Stands self.now t gone → weight (held (self.now).role kind t) ≤ HOLD }
    {
        let _lossy = self.held_lossy.room();
        self.held_reliable.room() < HELD_PDU
    }
}
