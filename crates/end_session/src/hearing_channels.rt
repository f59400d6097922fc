//! What is heard before channels carry data: capabilities, the creation of a channel, and the answer to
//! it.

ghost use Rattle.std.specs.Prelude.{◌≡◌, Some};
ghost use Rattle.dvc_channels.specs.declared.answers.ChannelRefusal.TheVariants.{KnownChannel};
ghost use Rattle.mt_endpoint.specs.Faults.{Channel};
ghost use Rattle.end_session.specs.Causes.{why_in};

use crate::cause::Cause;
use crate::opening::CHANNELS;
use crate::session::{Session, VERSION};
use crate::spelled::Spelled;
use dvc_channels::{ChannelRefusal, ChannelState};
use dvc_pdus::DvcPdu;
use mt_base::Role;

/// E_ACCESSDENIED (MS-ERREF section 2.1.1), by which a tunnel is refused, and a channel that is one too many.
pub(crate) const DENIED: u32 = 0x8007_0005;

/// Bit 31 of a status: the client refused.
const REFUSED: u32 = 0x8000_0000;

impl Session {
    ghost use Rattle.std.specs.Prelude.{◌≡◌, ℕ, ◌+◌, ◌≤◌, List, length, Option, OnOk, IfErr, OnErr, None, IfSome, IsSome};
    ghost use Rattle.mt_base.specs.Trace.{Trace, ◌▷◌};
    ghost use Rattle.dvc_pdus.specs.Value.{Caps, CreateRequest, CreateResponse};
    ghost use Rattle.mt_endpoint.specs.Acts.{Act, Hears, Spoken};
    ghost use Rattle.mt_endpoint.specs.Faults.{main_fault};
    ghost use Rattle.end_calls.specs.declared.limits.TheConstants.{MAIN_QUEUE};
    ghost use Rattle.end_session.specs.Causes.{IsCause, why_in, why_of};
    ghost use Rattle.end_session.specs.Standing.{Gone, Stands};

    /// Either end hears the other's capabilities (MS-RDPEDYC section 2.2.1), with any charges. A client
    /// answers with version 3. A second time they are [`Cause::Unexpected`].
    pub fn hear_capabilities(&mut self, version: u16) -> Result<(), Cause>
        requires room { length ((self.old).outgoing).main + 2304 ≤ MAIN_QUEUE }
        ensures heard { (t : Trace Act) (gone : Gone) (charges : Option (List ℕ)) → Stands self.old t gone → OnOk result ((main_fault (self.old).role t (Spoken (Caps version charges)) ≡ None) × Stands self.new (t ▷ Hears (Spoken (Caps version charges))) gone) }
        ensures refused { (t : Trace Act) (gone : Gone) (charges : Option (List ℕ)) → Stands self.old t gone → IfErr result (λ cause. IsCause (main_fault (self.old).role t (Spoken (Caps version charges))) cause) }
        ensures named { IfErr result (λ cause. IsSome (why_of cause)) }
        ensures unchanged { OnErr result (self.new ≡ self.old) }
        ensures same { ((self.new).role ≡ (self.old).role) × ((self.new).broken ≡ (self.old).broken) }
    {
        if self.is_ready {
            return Err(Cause::Unexpected);
        }
        match self.role {
            Role::Server => {
                self.is_ready = true;
                self.paths.set_version(version);
                Ok(())
            }
            Role::Client => {
                let answer = Spelled::of(&DvcPdu::Caps {
                    version: VERSION,
                    charges: None,
                });
                self.is_ready = true;
                self.paths.set_version(version);
                self.outgoing.say(answer.bytes());
                Ok(())
            }
        }
    }

    /// A client hears that the server creates a channel (MS-RDPEDYC section 2.2.2.1), with any priority,
    /// and answers 0; or E_ACCESSDENIED where it has 256, and then has no channel more. What is refused
    /// is a channel that is known, and any at a server or ahead of the capabilities.
    pub fn hear_create(&mut self, id: u32, name: &[u8]) -> Result<(), Cause>
        requires room { length ((self.old).outgoing).main + 2304 ≤ MAIN_QUEUE }
        ensures heard { (t : Trace Act) (gone : Gone) (priority : ℕ) → Stands self.old t gone → OnOk result ((main_fault (self.old).role t (Spoken (CreateRequest id priority name.now)) ≡ None) × Stands self.new (t ▷ Hears (Spoken (CreateRequest id priority name.now))) gone) }
        ensures refused { (t : Trace Act) (gone : Gone) (priority : ℕ) → Stands self.old t gone → IfErr result (λ cause. IsCause (main_fault (self.old).role t (Spoken (CreateRequest id priority name.now))) cause) }
        ensures unchanged { OnErr result (self.new ≡ self.old) }
        ensures same { ((self.new).role ≡ (self.old).role) × ((self.new).broken ≡ (self.old).broken) }
    {
        if let Some(cause) = self.create_cause(id) {
            return Err(cause);
        }
        if self.channels.made() >= CHANNELS {
            let denial = Spelled::of(&DvcPdu::CreateResponse { id, status: DENIED });
            self.outgoing.say(denial.bytes());
            return Ok(());
        }
        // The id is new, and there are fewer than 256: only memory can be wanting.
        if self.channels.create(id, name).is_err() {
            return Err(Cause::NoMemory);
        }
        let Ok(()) = self.channels.answer(id, 0) else {
            unreachable!()
        };
        self.paths.set_channel(id, true);
        let answer = Spelled::of(&DvcPdu::CreateResponse { id, status: 0 });
        self.outgoing.say(answer.bytes());
        Ok(())
    }

    /// A server hears the client's answer for a channel (MS-RDPEDYC section 2.2.2.2): it is open where
    /// bit 31 of the status is clear. What is refused is an answer for a channel that waits for none, and
    /// any at a client or ahead of the capabilities.
    pub fn hear_created(&mut self, id: u32, status: u32) -> Result<(), Cause>
        ensures heard { (t : Trace Act) (gone : Gone) → Stands self.old t gone → OnOk result ((main_fault (self.old).role t (Spoken (CreateResponse id status)) ≡ None) × Stands self.new (t ▷ Hears (Spoken (CreateResponse id status))) gone) }
        ensures refused { (t : Trace Act) (gone : Gone) → Stands self.old t gone → IfErr result (λ cause. IsCause (main_fault (self.old).role t (Spoken (CreateResponse id status))) cause) }
        ensures named { IfErr result (λ cause. IsSome (why_of cause)) }
        ensures unchanged { OnErr result (self.new ≡ self.old) }
        ensures same { ((self.new).role ≡ (self.old).role) × ((self.new).broken ≡ (self.old).broken) }
    {
        if let Some(cause) = self.created_cause(id) {
            return Err(cause);
        }
        let Ok(()) = self.channels.answer(id, status) else {
            unreachable!()
        };
        self.paths.set_channel(id, status < REFUSED);
        Ok(())
    }

    /// What there is against the creation of a channel.
    fn create_cause(&self, id: u32) -> Option<Cause>
        ensures { (t : Trace Act) (gone : Gone) (priority : ℕ) (name : List ℕ) → Stands self.now t gone → main_fault (self.now).role t (Spoken (CreateRequest id priority name)) ≡ why_in result }
    {
        if !self.is_ready {
            return Some(Cause::Unexpected);
        }
        match self.role {
            Role::Server => Some(Cause::Unexpected),
            Role::Client => match self.channels.state(id) {
                ChannelState::Unknown => None,
                ChannelState::Asked => known(id),
                ChannelState::Open => known(id),
                ChannelState::Refused => known(id),
                ChannelState::Closed => known(id),
            },
        }
    }

    /// What there is against the answer for a channel. It is no want of memory.
    fn created_cause(&self, id: u32) -> Option<Cause>
        ensures found { (t : Trace Act) (gone : Gone) (status : ℕ) → Stands self.now t gone → main_fault (self.now).role t (Spoken (CreateResponse id status)) ≡ why_in result }
        ensures named { IfSome result (λ cause. IsSome (why_of cause)) }
    {
        if !self.is_ready {
            return Some(Cause::Unexpected);
        }
        match self.role {
            Role::Client => Some(Cause::Unexpected),
            Role::Server => match self.channels.state(id) {
                ChannelState::Unknown => {
                    Some(Cause::Channel(ChannelRefusal::UnknownChannel { id }))
                }
                ChannelState::Asked => None,
                ChannelState::Open => known(id),
                ChannelState::Refused => known(id),
                ChannelState::Closed => known(id),
            },
        }
    }
}

/// The cause that a channel is known.
fn known(id: u32) -> Option<Cause>
    ensures { why_in result ≡ Some (Channel (KnownChannel id)) }
{
    Some(Cause::Channel(ChannelRefusal::KnownChannel { id }))
}
