//! A client refuses a tunnel.

use crate::endpoint::Endpoint;
use carrier::{Carrier, Post};
use mt_base::Kind;

impl<C: Carrier + Drop, P: Post + Drop> Endpoint<C, P> {
    ghost use Rattle.std.specs.Prelude.{◌≡◌, ◌≤◌, true, false, None, Some, is_some};
    ghost use Rattle.mt_base.specs.declared.kinds.Role.{Role};
    ghost use Rattle.mt_base.specs.declared.kinds.Role.TheVariants.{Client};
    ghost use Rattle.mt_base.specs.Trace.{Trace, ◌▷◌};
    ghost use Rattle.mt_endpoint.specs.Acts.{Refuses};
    ghost use Rattle.end_calls.specs.declared.fault.Fault.{Fault as Broken};
    ghost use Rattle.end_calls.specs.Calls.{Entry, Own, past};
    ghost use Rattle.end_session.specs.Known.{refusal_in};
    ghost use Rattle.end_session.specs.OfKind.{tunnel_of};
    ghost use Rattle.endpoint.specs.Laws.{KeepsLaws};
    ghost use Rattle.endpoint.specs.Standing.{EndStands};

    /// A client refuses the tunnel of this kind, which the server asked for and which has no link, with a code
    /// that isn't 0, and tells the server (MS-RDPBCGR section 2.2.15.2). It then answers the Soft-Sync requests
    /// that waited for the tunnel (MS-RDPEDYC section 3.1.5.3). At a broken end nothing changes. Takes no memory.
    pub fn refuse_tunnel(&mut self, kind: Kind, hr: u32)
        requires role { (self.old.reader.session).role ≡ Client }
        requires asked { is_some (tunnel_of kind self.old.reader.session).asked ≡ true }
        requires unattached { (tunnel_of kind self.old.reader.session).is_attached ≡ false }
        requires unrefused { refusal_in (self.old.reader.session).role (tunnel_of kind self.old.reader.session) ≡ None }
        requires code { 1 ≤ hr }
        ensures refused { (role : Role) (t : Trace Entry) → EndStands C.stands C.left C.condition P.stands P.left P.condition self.old role t → (past role t).broken ≡ None → EndStands C.stands C.left C.condition P.stands P.left P.condition self.new role (t ▷ Own (Refuses kind hr)) }
        ensures broken { (fault : Broken) → (self.old.reader.session).broken ≡ Some fault → self.new ≡ self.old }
        ensures laws { KeepsLaws C.law P.law self.old self.new }
    {
        if self.reader.session.broken().is_some() {
            return;
        }
        self.reader.session.refuse(kind, hr);
        self.reader.session.answer_all();
    }
}
