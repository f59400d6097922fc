//! A tunnel gets its link, and a client asks through it.

ghost use Rattle.std.specs.Prelude.{◌≡◌, [], option_map};
ghost use Rattle.end_session.specs.AskedView.{request_of};
ghost use Rattle.end_session.specs.OfKind.{with_request};
ghost use Rattle.end_session.specs.Outgoing.{carries, waiting_for};
ghost use Rattle.mt_endpoint.specs.Acts.{CreateAsked};

use crate::by_kind;
use crate::outgoing::Outgoing;
use crate::session::Session;
use crate::tunnel::Asked;
use mt_base::{Kind, Role};
use tunnel_pdus::TunnelPdu;

/// Writes a create request for the link of this kind (MS-RDPEMT section 2.2.2.1).
fn put_create(outgoing: &mut Outgoing, kind: Kind, id: u32, cookie: &[u8; 16])
    requires { waiting_for kind outgoing.old ≡ [] }
    ensures { outgoing.new ≡ carries kind (CreateAsked id cookie.now) outgoing.old }
{
    outgoing.put_tunnel(kind, &TunnelPdu::CreateRequest { id, cookie });
}

/// Writes this one, where there is one.
fn put_request(outgoing: &mut Outgoing, kind: Kind, asked: Option<Asked>)
    requires { waiting_for kind outgoing.old ≡ [] }
    ensures { outgoing.new ≡ with_request kind (option_map request_of asked) outgoing.old }
{
    if let Some(asked) = asked {
        put_create(outgoing, kind, asked.id, &asked.cookie);
    }
}

impl Session {
    ghost use Rattle.std.specs.Prelude.{◌≡◌, true, false, [], None, is_some, option_map, if◌then◌else◌};
    ghost use Rattle.mt_base.specs.declared.kinds.Kind.TheVariants as kinds;
    ghost use Rattle.mt_base.specs.declared.kinds.Role.TheVariants as roles;
    ghost use Rattle.mt_base.specs.Trace.{Trace, ◌▷◌};
    ghost use Rattle.mt_endpoint.specs.Acts.{Act, Attaches, Repeats};
    ghost use Rattle.end_session.specs.AskedView.{request_of};
    ghost use Rattle.end_session.specs.Known.{refusal_in};
    ghost use Rattle.end_session.specs.OfKind.{due_request, tunnel_of};
    ghost use Rattle.end_session.specs.Outgoing.{waiting_for};
    ghost use Rattle.end_session.specs.Standing.{Gone, Stands};

    /// The tunnel of this kind, which was asked for and not refused, gets its link. A client asks through
    /// it for what the server asked it (MS-RDPEMT section 3.2.5.1), unless it is silent already. The call
    /// adds the act `Attaches`.
    pub fn attach(&mut self, kind: Kind)
        requires whole { (self.old).broken ≡ None }
        requires asked { is_some (tunnel_of kind self.old).asked ≡ true }
        requires unattached { (tunnel_of kind self.old).is_attached ≡ false }
        requires unrefused { refusal_in (self.old).role (tunnel_of kind self.old) ≡ None }
        requires waits { waiting_for kind (self.old).outgoing ≡ [] }
        ensures stands { (t : Trace Act) (gone : Gone) → Stands self.old t gone → Stands self.new (t ▷ Attaches kind) gone }
        ensures same { ((self.new).role ≡ (self.old).role) × ((self.new).broken ≡ (self.old).broken) }
    {
        let request = self.create_request(kind);
        put_request(&mut self.outgoing, kind, request);
        by_kind::attach(kind, &mut self.reliable, &mut self.lossy);
    }

    /// A client asks through its lossy link once more, which was not answered yet: a lossy link may lose
    /// the create request. A full link takes no part. The call adds the act `Repeats`.
    pub fn repeat(&mut self, is_full: bool)
        requires role { (self.old).role ≡ roles.Client }
        requires whole { (self.old).broken ≡ None }
        requires attached { ((self.old).lossy).is_attached ≡ true }
        requires unanswered { ((self.old).lossy).answer ≡ None }
        requires waits { waiting_for kinds.Lossy (self.old).outgoing ≡ [] }
        ensures stands { (t : Trace Act) (gone : Gone) → Stands self.old t gone → Stands self.new (t ▷ Repeats is_full) gone }
        ensures same { ((self.new).role ≡ (self.old).role) × ((self.new).broken ≡ (self.old).broken) }
    {
        let request = self.request_unless(is_full);
        put_request(&mut self.outgoing, Kind::Lossy, request);
    }

    /// The create request that a client writes for the link of this kind; none where the tunnel is silent.
    fn create_request(&self, kind: Kind) -> Option<Asked>
        ensures { option_map request_of result ≡ due_request (self.now).role (tunnel_of kind self.now) }
    {
        match self.role {
            Role::Server => None,
            Role::Client => {
                if self.tunnel_of(kind).is_silent() {
                    None
                } else {
                    self.asked(kind)
                }
            }
        }
    }

    /// That of the lossy link, unless it is full.
    fn request_unless(&self, is_full: bool) -> Option<Asked>
        ensures { option_map request_of result ≡ (if is_full then None else due_request (self.now).role (self.now).lossy) }
    {
        if is_full {
            None
        } else {
            self.create_request(Kind::Lossy)
        }
    }
}
