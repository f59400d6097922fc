//! What is heard of tunnels: the server asks for one, and the client tells what became of it.

use crate::cause::Cause;
use crate::session::Session;
use crate::tunnel::Asked;
use mt_base::{Kind, Role};

impl Session {
    ghost use Rattle.std.specs.Prelude.{◌≡◌, ℕ, List, OnOk, IfErr, OnErr, None, IfSome, IsSome};
    ghost use Rattle.mt_base.specs.Trace.{Trace, ◌▷◌};
    ghost use Rattle.mt_endpoint.specs.Acts.{Act, Hears, TunnelAsked, TunnelAnswered};
    ghost use Rattle.mt_endpoint.specs.Faults.{main_fault};
    ghost use Rattle.end_session.specs.Causes.{IsCause, why_in, why_of};
    ghost use Rattle.end_session.specs.Standing.{Gone, Stands};

    /// A client hears that the server asks for a tunnel (MS-RDPBCGR section 2.2.15.1). At a server, and
    /// where this kind was asked for before, it is [`Cause::Unexpected`].
    pub fn hear_request(&mut self, id: u32, kind: Kind, cookie: [u8; 16]) -> Result<(), Cause>
        ensures heard { (t : Trace Act) (gone : Gone) → Stands self.old t gone → OnOk result ((main_fault (self.old).role t (TunnelAsked id kind cookie) ≡ None) × Stands self.new (t ▷ Hears (TunnelAsked id kind cookie)) gone) }
        ensures refused { (t : Trace Act) (gone : Gone) → Stands self.old t gone → IfErr result (λ cause. IsCause (main_fault (self.old).role t (TunnelAsked id kind cookie)) cause) }
        ensures named { IfErr result (λ cause. IsSome (why_of cause)) }
        ensures unchanged { OnErr result (self.new ≡ self.old) }
        ensures same { ((self.new).role ≡ (self.old).role) × ((self.new).broken ≡ (self.old).broken) }
    {
        if let Some(cause) = self.request_cause(kind) {
            return Err(cause);
        }
        let asked = Asked { id, cookie };
        match kind {
            Kind::Reliable => {
                self.reliable.ask(asked);
                Ok(())
            }
            Kind::Lossy => {
                self.lossy.ask(asked);
                Ok(())
            }
        }
    }

    /// A server hears what became of a tunnel at the client (MS-RDPBCGR section 2.2.15.2). A code that
    /// isn't 0 refuses the tunnel that was asked for under this id. At a client it is
    /// [`Cause::Unexpected`].
    pub fn hear_response(&mut self, id: u32, hr: u32) -> Result<(), Cause>
        ensures heard { (t : Trace Act) (gone : Gone) → Stands self.old t gone → OnOk result ((main_fault (self.old).role t (TunnelAnswered id hr) ≡ None) × Stands self.new (t ▷ Hears (TunnelAnswered id hr)) gone) }
        ensures refused { (t : Trace Act) (gone : Gone) → Stands self.old t gone → IfErr result (λ cause. IsCause (main_fault (self.old).role t (TunnelAnswered id hr)) cause) }
        ensures named { IfErr result (λ cause. IsSome (why_of cause)) }
        ensures unchanged { OnErr result (self.new ≡ self.old) }
        ensures same { ((self.new).role ≡ (self.old).role) × ((self.new).broken ≡ (self.old).broken) }
    {
        match self.role {
            Role::Client => Err(Cause::Unexpected),
            Role::Server => {
                self.reliable.got_response(id, hr);
                self.lossy.got_response(id, hr);
                Ok(())
            }
        }
    }

    /// What there is against a request for a tunnel of this kind. It is no want of memory.
    fn request_cause(&self, kind: Kind) -> Option<Cause>
        ensures found { (t : Trace Act) (gone : Gone) (id : ℕ) (cookie : List ℕ) → Stands self.now t gone → main_fault (self.now).role t (TunnelAsked id kind cookie) ≡ why_in result }
        ensures named { IfSome result (λ cause. IsSome (why_of cause)) }
    {
        match self.role {
            Role::Server => Some(Cause::Unexpected),
            Role::Client => {
                if self.asked(kind).is_some() {
                    Some(Cause::Unexpected)
                } else {
                    None
                }
            }
        }
    }
}
