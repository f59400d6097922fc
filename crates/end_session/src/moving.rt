//! A server moves channels to tunnels.

use crate::opening::HEADER;
use crate::session::Session;
use crate::spelled::Spelled;
use end_calls::MoveRefusal;

impl Session {
    ghost use Rattle.std.specs.Prelude.{◌≡◌, length, None, Some, OnOk, IfErr, OnErr};
    ghost use Rattle.mt_base.specs.declared.kinds.Role.TheVariants.{Server};
    ghost use Rattle.mt_base.specs.Trace.{Trace, ◌▷◌};
    ghost use Rattle.mt_endpoint.specs.Acts.{Act, Syncs};
    ghost use Rattle.end_calls.specs.Refusing.{why_not_moved};
    ghost use Rattle.end_session.specs.Standing.{Gone, Stands};
    ghost use Rattle.end_session.specs.BeforeRoom.{before_moved};

    /// A server moves open channels to its open tunnels by a Soft-Sync request (MS-RDPEDYC sections 2.2.5.1
    /// and 3.1.5.3): what it sends on them goes through the tunnels from now on. The refusals are looked at
    /// in the order in which [`MoveRefusal`] lists them. Takes no memory.
    pub fn soft_sync(&mut self, reliable: &[u32], lossy: &[u32]) -> Result<(), MoveRefusal>
        requires { (self.old).role ≡ Server }
        ensures moved { (t : Trace Act) (gone : Gone) → Stands self.old t gone → OnOk result (Stands self.new (t ▷ Syncs reliable.now lossy.now) gone) }
        ensures allowed { (t : Trace Act) (gone : Gone) → Stands self.old t gone → OnOk result (why_not_moved (self.old).broken t (length ((self.old).outgoing).main) reliable.now lossy.now ≡ None) }
        ensures refused { (t : Trace Act) (gone : Gone) → Stands self.old t gone → IfErr result (λ why. why_not_moved (self.old).broken t (length ((self.old).outgoing).main) reliable.now lossy.now ≡ Some why) }
        ensures unchanged { OnErr result (self.new ≡ self.old) }
        ensures same { ((self.new).role ≡ (self.old).role) × ((self.new).broken ≡ (self.old).broken) }
    {
        if let Some(why) = self.move_refusal(reliable, lossy) {
            return Err(why);
        }
        let pdu = Spelled::of_sync(reliable, lossy);
        if let Some(limit) = self.full_main(pdu.len() + HEADER) {
            let queued = self.outgoing.main_len();
            return Err(MoveRefusal::QueueFull { queued, limit });
        }
        // Nothing refuses the request.
        let _ = self.paths.request(reliable, lossy);
        self.outgoing.say(pdu.bytes());
        Ok(())
    }

    /// Why these channels are not moved, apart from the room of the queue.
    fn move_refusal(&self, reliable: &[u32], lossy: &[u32]) -> Option<MoveRefusal>
        requires { (self.now).role ≡ Server }
        ensures { (t : Trace Act) (gone : Gone) → Stands self.now t gone → result ≡ before_moved (self.now).broken t reliable.now lossy.now }
    {
        if let Some(fault) = self.broken {
            return Some(MoveRefusal::Broken(fault));
        }
        if let Some(why) = self.paths.refusal(reliable, lossy) {
            return Some(MoveRefusal::Sync(why));
        }
        None
    }
}
