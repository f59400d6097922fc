//! What is pulled from the links, apart from channel PDUs and from what a server judges.

ghost use Rattle.std.specs.Prelude.{◌≡◌, ◌+◌, ◌≤◌, length, option_map, Some};
ghost use Rattle.std.specs.Option.{option_or};
ghost use Rattle.soft_sync.specs.Exchanges.{set_kind};
ghost use Rattle.end_calls.specs.declared.limits.TheConstants.{MAIN_QUEUE};
ghost use Rattle.end_session.specs.AskedView.{request_of};
ghost use Rattle.end_session.specs.Drawing.{with_told, with_first};
ghost use Rattle.end_session.specs.Known.{is_live_in};

use crate::cause::Cause;
use crate::outgoing::Outgoing;
use crate::session::Session;
use crate::tunnel::{Asked, Tunnel};
use mt_base::{Kind, Role};
use soft_sync::Paths;
use tunnel_pdus::MainFrame;

/// Tells the server what became of the tunnel that it asked for.
fn tell(outgoing: &mut Outgoing, asked: Option<Asked>, hr: u32)
    requires { length (outgoing.old).main + 2304 ≤ MAIN_QUEUE }
    ensures { outgoing.new ≡ with_told (option_map request_of asked) hr outgoing.old }
{
    if let Some(asked) = asked {
        outgoing.put_frame(&MainFrame::Response { id: asked.id, hr });
    }
}

/// A client tells the server the first answer that it pulls from a tunnel.
fn tell_first(role: Role, outgoing: &mut Outgoing, tunnel: &Tunnel, hr: u32)
    requires { length (outgoing.old).main + 2304 ≤ MAIN_QUEUE }
    ensures { outgoing.new ≡ with_first role (tunnel.now).answer (tunnel.now).asked hr outgoing.old }
{
    match role {
        Role::Server => {}
        Role::Client => {
            if tunnel.answer().is_none() {
                tell(outgoing, tunnel.asked(), hr);
            }
        }
    }
}

/// The answer to a create request: the first one opens the tunnel of a client or refuses it.
fn take_answer(role: Role, kind: Kind, hr: u32, tunnel: &mut Tunnel, paths: &mut Paths)
    ensures tunnel { tunnel.new ≡ record tunnel.old { answer = option_or (tunnel.old).answer (Some hr) } }
    ensures paths { paths.new ≡ record paths.old { opened = set_kind kind (is_live_in role tunnel.new) (paths.old).opened } }
{
    tunnel.set_answer(hr);
    paths.set_open(kind, tunnel.is_live(role));
}

impl Session {
    ghost use Rattle.std.specs.Prelude.{◌≡◌, ℕ, ◌+◌, ◌≤◌, true, List, length, None, is_some, OnOk, IfErr, OnErr};
    ghost use Rattle.mt_base.specs.declared.kinds.Kind.{Kind};
    ghost use Rattle.mt_base.specs.declared.kinds.Role.TheVariants.{Client};
    ghost use Rattle.mt_base.specs.Trace.{Trace, ◌▷◌};
    ghost use Rattle.mt_endpoint.specs.Acts.{Act, Draws, Misses, CreateAsked, CreateAnswered, Nothing};
    ghost use Rattle.mt_endpoint.specs.Faults.{Unexpected, when};
    ghost use Rattle.end_session.specs.Causes.{IsCause, why_of};
    ghost use Rattle.end_session.specs.Drawing.{drawn_fault};
    ghost use Rattle.end_session.specs.Outgoing.{waiting_for};
    ghost use Rattle.end_session.specs.Standing.{Gone, Stands};

    /// Data without a byte were pulled from a link, of either kind and at any place: the end stays as it
    /// was, and stands for the act `Draws` more (MS-RDPEMT section 2.2.2.3).
    pub fn draw_nothing(&self)
        ensures { (t : Trace Act) (gone : Gone) (kind : Kind) (at : ℕ) → Stands self.now t gone → Stands self.now (t ▷ Draws kind at Nothing) gone }
    {}

    /// A part of the lossy link is no whole tunnel PDU, or its data are no channel PDU: the end stays as
    /// it was, and stands for the act `Misses` more.
    pub fn miss(&self)
        ensures { (t : Trace Act) (gone : Gone) → Stands self.now t gone → Stands self.now (t ▷ Misses) gone }
    {}

    /// A client pulled a create request, which only a server is sent (MS-RDPEMT section 2.2.2.1): a fault
    /// on the reliable link; on the lossy one the end stays as it was, and stands for the act `Draws` more.
    pub(crate) fn draw_create_request(&self, kind: Kind) -> Result<(), Cause>
        requires { (self.now).role ≡ Client }
        ensures heard { (t : Trace Act) (gone : Gone) (at id : ℕ) (cookie : List ℕ) → Stands self.now t gone → OnOk result ((drawn_fault (self.now).role kind t (CreateAsked id cookie) ≡ None) × Stands self.now (t ▷ Draws kind at (CreateAsked id cookie)) gone) }
        ensures refused { (t : Trace Act) (gone : Gone) (id : ℕ) (cookie : List ℕ) → Stands self.now t gone → IfErr result (λ cause. IsCause (drawn_fault (self.now).role kind t (CreateAsked id cookie)) cause) }
        ensures told { IfErr result (λ cause. is_some (why_of cause) ≡ true) }
    {
        match kind {
            Kind::Reliable => Err(Cause::Unexpected),
            Kind::Lossy => Ok(()),
        }
    }

    /// An answer to a create request was pulled (MS-RDPEMT section 2.2.2.2): the act `Draws`. At a client
    /// the first one opens the tunnel or refuses it, and is told to the server. At a server, and where it
    /// is a second one, it is a fault on the reliable link, and has no effect on the lossy one.
    pub(crate) fn draw_create_answer(&mut self, kind: Kind, hr: u32) -> Result<(), Cause>
        requires room { length ((self.old).outgoing).main + 2304 ≤ MAIN_QUEUE }
        ensures heard { (t : Trace Act) (gone : Gone) (at : ℕ) → Stands self.old t gone → OnOk result ((drawn_fault (self.old).role kind t (CreateAnswered hr) ≡ None) × Stands self.new (t ▷ Draws kind at (CreateAnswered hr)) gone) }
        ensures refused { (t : Trace Act) (gone : Gone) → Stands self.old t gone → IfErr result (λ cause. IsCause (drawn_fault (self.old).role kind t (CreateAnswered hr)) cause) }
        ensures told { IfErr result (λ cause. is_some (why_of cause) ≡ true) }
        ensures written { length ((self.new).outgoing).main ≤ length ((self.old).outgoing).main + 11 }
        ensures links { (made : Kind) → waiting_for made (self.new).outgoing ≡ waiting_for made (self.old).outgoing }
        ensures unchanged { OnErr result (self.new ≡ self.old) }
        ensures owed { (self.new).owed ≡ (self.old).owed }
        ensures same { ((self.new).role ≡ (self.old).role) × ((self.new).broken ≡ (self.old).broken) }
    {
        if self.is_answer_unexpected(kind) {
            return Err(Cause::Unexpected);
        }
        match kind {
            Kind::Reliable => {
                tell_first(self.role, &mut self.outgoing, &self.reliable, hr);
                take_answer(self.role, kind, hr, &mut self.reliable, &mut self.paths);
            }
            Kind::Lossy => {
                tell_first(self.role, &mut self.outgoing, &self.lossy, hr);
                take_answer(self.role, kind, hr, &mut self.lossy, &mut self.paths);
            }
        }
        Ok(())
    }

    /// Whether an answer to a create request doesn't come on a link of this kind.
    fn is_answer_unexpected(&self, kind: Kind) -> bool
        ensures { (t : Trace Act) (gone : Gone) (hr : ℕ) → Stands self.now t gone → drawn_fault (self.now).role kind t (CreateAnswered hr) ≡ when result Unexpected }
    {
        match kind {
            Kind::Reliable => match self.role {
                Role::Server => true,
                Role::Client => self.reliable.answer().is_some(),
            },
            Kind::Lossy => false,
        }
    }
}
