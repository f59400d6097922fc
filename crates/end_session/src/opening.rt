//! A server creates a channel.

ghost use Rattle.std.specs.Prelude.{◌≡◌, take};
ghost use Rattle.std.specs.List.{position_from};
ghost use Rattle.end_calls.specs.Refusing.{is_wrong, name_fault};

use crate::session::Session;
use crate::spelled::Spelled;
use dvc_pdus::DvcPdu;
use end_calls::OpenRefusal;

/// The channels that a session ever has at most.
pub(crate) const CHANNELS: usize = 256;

/// The bytes of a frame before its body.
pub(crate) const HEADER: usize = 3;

/// The bytes of a name at most.
const NAME: usize = 255;

/// The place of a name's first byte outside 0x20 to 0x7E among the first 255.
fn wrong_byte(name: &[u8]) -> Option<usize>
    ensures { result ≡ position_from is_wrong 0 (take 255 name.now) }
{
    name.iter()
        .take(NAME)
        .position(|byte| *byte < 0x20 || *byte > 0x7e)
}

/// The place of a name's fault: 0 where it is empty, else its first byte outside 0x20 to 0x7E among the
/// first 255, or 255 where more follow.
fn name_fault(name: &[u8]) -> Option<usize>
    ensures { result ≡ name_fault name.now }
{
    if name.is_empty() {
        return Some(0);
    }
    if let Some(at) = wrong_byte(name) {
        return Some(at);
    }
    if name.len() > NAME {
        return Some(NAME);
    }
    None
}

impl Session {
    ghost use Rattle.std.specs.Prelude.{◌≡◌, length, None, IfOk, OnOk, IfErr, OnErr};
    ghost use Rattle.mt_base.specs.declared.kinds.Role.TheVariants.{Server};
    ghost use Rattle.mt_base.specs.Trace.{Trace, ◌▷◌};
    ghost use Rattle.mt_endpoint.specs.Acts.{Act, Opens};
    ghost use Rattle.end_calls.specs.Refusing.{next_id, why_not_opened};
    ghost use Rattle.end_session.specs.Standing.{Gone, Stands};
    ghost use Rattle.end_session.specs.Causes.{IsOpenCause, before_room};

    /// A server creates a channel, and gives its id: 1, 2, 3 and so on. The refusals are looked at in the
    /// order in which [`OpenRefusal`] lists them.
    pub fn open_channel(&mut self, name: &[u8]) -> Result<u32, OpenRefusal>
        requires { (self.old).role ≡ Server }
        ensures opened { (t : Trace Act) (gone : Gone) → Stands self.old t gone → IfOk result (λ id. (id ≡ next_id t) × Stands self.new (t ▷ Opens id name.now) gone) }
        ensures allowed { (t : Trace Act) (gone : Gone) → Stands self.old t gone → OnOk result (why_not_opened (self.old).broken t (length ((self.old).outgoing).main) name.now ≡ None) }
        ensures refused { (t : Trace Act) (gone : Gone) → Stands self.old t gone → IfErr result (λ why. IsOpenCause (why_not_opened (self.old).broken t (length ((self.old).outgoing).main) name.now) why) }
        ensures unchanged { OnErr result (self.new ≡ self.old) }
        ensures same { ((self.new).role ≡ (self.old).role) × ((self.new).broken ≡ (self.old).broken) }
    {
        if let Some(why) = self.open_refusal(name) {
            return Err(why);
        }
        let id = self.next_id();
        let pdu = Spelled::of(&DvcPdu::CreateRequest {
            id,
            priority: 0,
            name,
        });
        if let Some(limit) = self.full_main(pdu.len() + HEADER) {
            let queued = self.outgoing.main_len();
            return Err(OpenRefusal::QueueFull { queued, limit });
        }
        // The id is new, and there are fewer than 256: only memory can be wanting.
        if self.channels.create(id, name).is_err() {
            return Err(OpenRefusal::NoMemory);
        }
        self.paths.set_channel(id, false);
        self.outgoing.say(pdu.bytes());
        Ok(id)
    }
    /// The id of the next channel.
    fn next_id(&self) -> u32
        requires { (self.now).role ≡ Server }
        ensures next { (t : Trace Act) (gone : Gone) → Stands self.now t gone → result ≡ next_id t }
    {
        self.channels.made() as u32 + 1
    }

    /// Why a channel of this name is not created, apart from the room of the queue.
    fn open_refusal(&self, name: &[u8]) -> Option<OpenRefusal>
        requires { (self.now).role ≡ Server }
        ensures { (t : Trace Act) (gone : Gone) → Stands self.now t gone → result ≡ before_room (self.now).broken t name.now }
    {
        if let Some(fault) = self.broken {
            return Some(OpenRefusal::Broken(fault));
        }
        if !self.is_ready {
            return Some(OpenRefusal::NotReady);
        }
        if let Some(at) = name_fault(name) {
            return Some(OpenRefusal::BadName { at });
        }
        if self.channels.made() >= CHANNELS {
            return Some(OpenRefusal::TooMany { limit: CHANNELS });
        }
        None
    }
}
