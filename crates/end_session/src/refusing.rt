//! A client refuses a tunnel.

use crate::by_kind;
use crate::session::Session;
use mt_base::Kind;
use tunnel_pdus::MainFrame;

impl Session {
    ghost use Rattle.std.specs.Prelude.{◌≡◌, ◌+◌, ◌≤◌, true, false, length, None, is_some};
    ghost use Rattle.mt_base.specs.declared.kinds.Role.TheVariants.{Client};
    ghost use Rattle.mt_base.specs.Trace.{Trace, ◌▷◌};
    ghost use Rattle.mt_endpoint.specs.Acts.{Act, Refuses};
    ghost use Rattle.end_calls.specs.declared.limits.TheConstants.{MAIN_QUEUE};
    ghost use Rattle.end_session.specs.Known.{refusal_in};
    ghost use Rattle.end_session.specs.OfKind.{tunnel_of};
    ghost use Rattle.end_session.specs.Standing.{Gone, Stands};

    /// A client refuses the tunnel of this kind, which the server asked for and which has no link, with a
    /// code that isn't 0, and tells the server (MS-RDPBCGR section 2.2.15.2). The call adds the act
    /// `Refuses`.
    pub fn refuse(&mut self, kind: Kind, hr: u32)
        requires role { (self.old).role ≡ Client }
        requires whole { (self.old).broken ≡ None }
        requires asked { is_some (tunnel_of kind self.old).asked ≡ true }
        requires unattached { (tunnel_of kind self.old).is_attached ≡ false }
        requires unrefused { refusal_in (self.old).role (tunnel_of kind self.old) ≡ None }
        requires code { 1 ≤ hr }
        requires room { length ((self.old).outgoing).main + 11 ≤ MAIN_QUEUE }
        ensures stands { (t : Trace Act) (gone : Gone) → Stands self.old t gone → Stands self.new (t ▷ Refuses kind hr) gone }
        ensures same { ((self.new).role ≡ (self.old).role) × ((self.new).broken ≡ (self.old).broken) }
    {
        let Some(asked) = self.asked(kind) else {
            unreachable!()
        };
        by_kind::refuse(kind, &mut self.reliable, &mut self.lossy, hr);
        self.outgoing
            .put_frame(&MainFrame::Response { id: asked.id, hr });
    }
}
