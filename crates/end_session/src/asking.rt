//! A server asks for a tunnel.

use crate::by_kind;
use crate::session::Session;
use crate::tunnel::Asked;
use end_calls::AskRefusal;
use mt_base::Kind;
use tunnel_pdus::MainFrame;

/// The bytes of the frame that asks for a tunnel (MS-RDPBCGR section 2.2.15.1), with its header.
const FRAME: usize = 27;

impl Session {
    ghost use Rattle.std.specs.Prelude.{◌≡◌, length, None, Some, OnOk, IfErr, OnErr};
    ghost use Rattle.mt_base.specs.declared.kinds.Role.TheVariants.{Server};
    ghost use Rattle.mt_base.specs.Trace.{Trace, ◌▷◌};
    ghost use Rattle.mt_endpoint.specs.Acts.{Act, Asks};
    ghost use Rattle.end_calls.specs.Refusing.{why_not_asked};
    ghost use Rattle.end_session.specs.Refusals.{before_asking};
    ghost use Rattle.end_session.specs.Standing.{Gone, Stands};

    /// A server asks the client for a tunnel of this kind with an id and a cookie (MS-RDPBCGR section
    /// 2.2.15.1). The refusals are looked at in the order in which [`AskRefusal`] lists them. Takes no
    /// memory.
    pub fn ask_tunnel(&mut self, kind: Kind, id: u32, cookie: &[u8; 16]) -> Result<(), AskRefusal>
        requires { (self.old).role ≡ Server }
        ensures asked { (t : Trace Act) (gone : Gone) → Stands self.old t gone → OnOk result (Stands self.new (t ▷ Asks kind id cookie.now) gone) }
        ensures allowed { (t : Trace Act) (gone : Gone) → Stands self.old t gone → OnOk result (why_not_asked (self.old).broken t (length ((self.old).outgoing).main) kind id cookie.now ≡ None) }
        ensures refused { (t : Trace Act) (gone : Gone) → Stands self.old t gone → IfErr result (λ why. why_not_asked (self.old).broken t (length ((self.old).outgoing).main) kind id cookie.now ≡ Some why) }
        ensures unchanged { OnErr result (self.new ≡ self.old) }
        ensures same { ((self.new).role ≡ (self.old).role) × ((self.new).broken ≡ (self.old).broken) }
    {
        if let Some(why) = self.ask_refusal(kind, id) {
            return Err(why);
        }
        if let Some(limit) = self.full_main(FRAME) {
            let queued = self.outgoing.main_len();
            return Err(AskRefusal::QueueFull { queued, limit });
        }
        // The id is new, and there are fewer than 16.
        if self.issued.issue(id, kind, cookie).is_err() {
            unreachable!();
        }
        let asked = Asked {
            id,
            cookie: *cookie,
        };
        by_kind::ask(kind, &mut self.reliable, &mut self.lossy, asked);
        self.outgoing
            .put_frame(&MainFrame::Request { id, kind, cookie });
        Ok(())
    }

    /// Why a tunnel is not asked for, apart from the room of the queue.
    fn ask_refusal(&self, kind: Kind, id: u32) -> Option<AskRefusal>
        ensures { (t : Trace Act) (gone : Gone) → Stands self.now t gone → result ≡ before_asking (self.now).broken t kind id }
    {
        if let Some(fault) = self.broken {
            return Some(AskRefusal::Broken(fault));
        }
        if self.asked(kind).is_some() {
            return Some(AskRefusal::AlreadyAsked);
        }
        if let Some(why) = self.issued.refusal(id) {
            return Some(AskRefusal::Issue(why));
        }
        None
    }
}
