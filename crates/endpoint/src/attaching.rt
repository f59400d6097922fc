//! A tunnel gets its link.

ghost use Rattle.std.specs.Prelude.{◌≡◌, ◌≤◌, true, false, [], length, None, is_some};
ghost use Rattle.mt_base.specs.Trace.{Trace, ◌▷◌};
ghost use Rattle.mt_endpoint.specs.Acts.{Act, Attaches};
ghost use Rattle.end_session.specs.Known.{refusal_in};
ghost use Rattle.end_session.specs.OfKind.{tunnel_of};
ghost use Rattle.end_session.specs.Outgoing.{waiting_for};
ghost use Rattle.end_session.specs.Standing.{Gone, Stands};

use crate::endpoint::Endpoint;
use crate::giving::{give_waiting, post_waiting};
use carrier::{Carrier, Post};
use end_session::Session;
use mt_base::Kind;

/// The tunnel of this kind gets its link. At a client a create request of 28 bytes waits for the link then
/// (MS-RDPEMT section 2.2.2.1), unless the tunnel is silent.
fn attach(session: &mut Session, kind: Kind)
    requires whole { (session.old).broken ≡ None }
    requires asked { is_some (tunnel_of kind session.old).asked ≡ true }
    requires unattached { (tunnel_of kind session.old).is_attached ≡ false }
    requires unrefused { refusal_in (session.old).role (tunnel_of kind session.old) ≡ None }
    requires waits { waiting_for kind (session.old).outgoing ≡ [] }
    ensures stands { (t : Trace Act) (gone : Gone) → Stands session.old t gone → Stands session.new (t ▷ Attaches kind) gone }
    ensures written { (t : Trace Act) (gone : Gone) → Stands session.old t gone → length (waiting_for kind (session.new).outgoing) ≤ 28 }
    ensures same { ((session.new).role ≡ (session.old).role) × ((session.new).broken ≡ (session.old).broken) }
{
    let Some(_asked) = session.asked(kind) else {
        unreachable!()
    };
    session.attach(kind);
}

impl<C: Carrier + Drop, P: Post + Drop> Endpoint<C, P> {
    ghost use Rattle.std.specs.Prelude.{◌≡◌, true, false, [], None, Some, is_some};
    ghost use Rattle.mt_base.specs.declared.kinds.Kind.TheVariants as kinds;
    ghost use Rattle.mt_base.specs.declared.kinds.Role.{Role};
    ghost use Rattle.mt_base.specs.Trace.{Trace, Start, ◌▷◌};
    ghost use Rattle.mt_endpoint.specs.Acts.{Attaches};
    ghost use Rattle.end_calls.specs.declared.fault.Fault.{Fault as Broken};
    ghost use Rattle.end_calls.specs.Calls.{Entry, Own, past};
    ghost use Rattle.end_session.specs.Known.{refusal_in};
    ghost use Rattle.end_session.specs.OfKind.{tunnel_of};
    ghost use Rattle.endpoint.specs.Attached.{is_closed};
    ghost use Rattle.endpoint.specs.Laws.{HasLawOf, KeepsLaw};
    ghost use Rattle.endpoint.specs.Standing.{EndStands};

    /// The reliable tunnel, which was asked for and not refused, gets its link: one of which nothing was called
    /// yet, and which isn't closed. A client asks through it for what the server asked it (MS-RDPEMT section
    /// 3.2.5.1). At a broken end nothing changes, and the link is let go.
    pub fn attach_reliable(&mut self, link: C)
        requires asked { is_some (tunnel_of kinds.Reliable self.old.reader.session).asked ≡ true }
        requires unattached { (tunnel_of kinds.Reliable self.old.reader.session).is_attached ≡ false }
        requires unrefused { refusal_in (self.old.reader.session).role (tunnel_of kinds.Reliable self.old.reader.session) ≡ None }
        requires fresh { C.stands link Start }
        requires empty { (C.left link ≡ []) × (C.load link ≡ 0) }
        requires unclosed { is_closed (C.condition link) ≡ false }
        ensures attached { (role : Role) (t : Trace Entry) → EndStands C.stands C.left C.condition P.stands P.left P.condition self.old role t → (past role t).broken ≡ None → EndStands C.stands C.left C.condition P.stands P.left P.condition self.new role (t ▷ Own (Attaches kinds.Reliable)) }
        ensures law { (self.old.reader.session).broken ≡ None → HasLawOf C.law link self.new.reliable }
        ensures other_law { KeepsLaw P.law self.old.lossy self.new.lossy }
        ensures broken { (fault : Broken) → (self.old.reader.session).broken ≡ Some fault → self.new ≡ self.old }
    {
        if self.reader.session.broken().is_some() {
            return;
        }
        let mut link = link;
        attach(&mut self.reader.session, Kind::Reliable);
        give_waiting(&mut link, self.reader.session.waiting(Kind::Reliable));
        self.reader.session.given(Kind::Reliable);
        self.reliable = Some(link);
    }

    /// The lossy tunnel gets its link in the same way. A client posts its create request on it, and does so
    /// again as long as it isn't answered, since a lossy link may lose it.
    pub fn attach_lossy(&mut self, link: P)
        requires asked { is_some (tunnel_of kinds.Lossy self.old.reader.session).asked ≡ true }
        requires unattached { (tunnel_of kinds.Lossy self.old.reader.session).is_attached ≡ false }
        requires unrefused { refusal_in (self.old.reader.session).role (tunnel_of kinds.Lossy self.old.reader.session) ≡ None }
        requires fresh { P.stands link Start }
        requires empty { (P.left link ≡ []) × (P.load link ≡ 0) }
        requires unclosed { is_closed (P.condition link) ≡ false }
        ensures attached { (role : Role) (t : Trace Entry) → EndStands C.stands C.left C.condition P.stands P.left P.condition self.old role t → (past role t).broken ≡ None → EndStands C.stands C.left C.condition P.stands P.left P.condition self.new role (t ▷ Own (Attaches kinds.Lossy)) }
        ensures law { (self.old.reader.session).broken ≡ None → HasLawOf P.law link self.new.lossy }
        ensures other_law { KeepsLaw C.law self.old.reliable self.new.reliable }
        ensures broken { (fault : Broken) → (self.old.reader.session).broken ≡ Some fault → self.new ≡ self.old }
    {
        if self.reader.session.broken().is_some() {
            return;
        }
        let mut link = link;
        attach(&mut self.reader.session, Kind::Lossy);
        post_waiting(&mut link, self.reader.session.waiting(Kind::Lossy));
        self.reader.session.given(Kind::Lossy);
        self.lossy = Some(link);
        self.postings.attached(self.reader.session.role());
    }
}
