//! What is heard of a channel's data and of its close on the main stream.

ghost use Rattle.std.specs.Prelude.{◌≡◌, Some};
ghost use Rattle.dvc_channels.specs.declared.answers.ChannelRefusal.TheVariants.{UnknownChannel};
ghost use Rattle.mt_endpoint.specs.Channels.{is_closed_in};
ghost use Rattle.mt_endpoint.specs.Faults.{Channel, is_moved, is_moved_whole};
ghost use Rattle.end_session.specs.Causes.{why_of};

use crate::cause::Cause;
use crate::closes::end_channel;
use crate::session::Session;
use dvc_channels::{ChannelRefusal, ChannelState};
use dvc_pdus::DvcPdu;
use mt_base::Kind;
use soft_sync::Path;

impl Session {
    ghost use Rattle.std.specs.Prelude.{◌≡◌, ℕ, ◌+◌, ◌≤◌, List, [], length, OnOk, IfErr, OnErr, None, IfSome, IsSome};
    ghost use Rattle.std.specs.Option.{option_or};
    ghost use Rattle.mt_base.specs.Trace.{Trace, ◌▷◌};
    ghost use Rattle.mt_base.specs.declared.kinds.Kind.TheVariants.{Reliable};
    ghost use Rattle.dvc_channels.specs.Acts.{IsData};
    ghost use Rattle.dvc_pdus.specs.Value.{Pdu, Close};
    ghost use Rattle.dvc_pdus.specs.Views.{pdu_of};
    ghost use Rattle.mt_endpoint.specs.Acts.{Act, Hears, Spoken};
    ghost use Rattle.mt_endpoint.specs.Faults.{main_fault, data_fault, unknown_fault, late_fault};
    ghost use Rattle.mt_endpoint.specs.Said.{Brings, said};
    ghost use Rattle.end_calls.specs.declared.limits.TheConstants.{MAIN_QUEUE};
    ghost use Rattle.end_session.specs.Causes.{IsCause, why_in, why_of};
    ghost use Rattle.end_session.specs.Outgoing.{waiting_for};
    ghost use Rattle.end_session.specs.Standing.{Gone, Stands};

    /// Either end hears data for a channel (MS-RDPEDYC section 2.2.3). What is refused is data ahead of
    /// the capabilities, of a channel that isn't open and was not closed either, of one that moved to a
    /// tunnel, and what the channel does not take; compressed data and those of a closed channel are
    /// dropped.
    pub fn hear_data(&mut self, id: u32, pdu: &DvcPdu<'_>) -> Result<(), Cause>
        requires brings { said (pdu_of pdu.now) ≡ Brings id }
        requires data { IsData (pdu_of pdu.now) }
        ensures heard { (t : Trace Act) (gone : Gone) → Stands self.old t gone → OnOk result ((main_fault (self.old).role t (Spoken (pdu_of pdu.now)) ≡ None) × Stands self.new (t ▷ Hears (Spoken (pdu_of pdu.now))) gone) }
        ensures refused { (t : Trace Act) (gone : Gone) → Stands self.old t gone → IfErr result (λ cause. IsCause (main_fault (self.old).role t (Spoken (pdu_of pdu.now))) cause) }
        ensures unchanged { OnErr result (self.new ≡ self.old) }
        ensures same { ((self.new).role ≡ (self.old).role) × ((self.new).broken ≡ (self.old).broken) }
    {
        if let Some(cause) = self.data_cause(id) {
            return Err(cause);
        }
        match self.channels.accept(id, pdu) {
            Ok(_) => Ok(()),
            Err(refusal) => Err(Cause::from(refusal)),
        }
    }

    /// Either end hears the close of a channel (MS-RDPEDYC section 2.2.4). What is held of it is dropped,
    /// and where it was not closed here, it is answered by a close: on the main stream, or through the
    /// reliable tunnel where this end's data go that way. What is refused is a close ahead of the
    /// capabilities, of a channel that isn't open and was not closed either, and of one whose data come
    /// through the reliable tunnel.
    pub fn hear_close(&mut self, id: u32) -> Result<(), Cause>
        requires room { length ((self.old).outgoing).main + 2304 ≤ MAIN_QUEUE }
        requires waits { waiting_for Reliable (self.old).outgoing ≡ [] }
        ensures heard { (t : Trace Act) (gone : Gone) → Stands self.old t gone → OnOk result ((main_fault (self.old).role t (Spoken (Close id)) ≡ None) × Stands self.new (t ▷ Hears (Spoken (Close id))) gone) }
        ensures refused { (t : Trace Act) (gone : Gone) → Stands self.old t gone → IfErr result (λ cause. IsCause (main_fault (self.old).role t (Spoken (Close id))) cause) }
        ensures named { IfErr result (λ cause. IsSome (why_of cause)) }
        ensures unchanged { OnErr result (self.new ≡ self.old) }
        ensures same { ((self.new).role ≡ (self.old).role) × ((self.new).broken ≡ (self.old).broken) }
    {
        if let Some(cause) = self.close_cause(id) {
            return Err(cause);
        }
        let is_closed = is_closed(self.channels.state(id));
        let path = self.paths.outward(id);
        end_channel(
            id,
            &mut self.channels,
            &mut self.paths,
            &mut self.held_reliable,
            &mut self.held_lossy,
        );
        if is_closed {
            return Ok(());
        }
        self.outgoing.close(path, id, self.reliable.is_silent());
        Ok(())
    }

    /// What there is against data for a channel, apart from what the channel itself refuses. It is no
    /// want of memory.
    fn data_cause(&self, id: u32) -> Option<Cause>
        ensures found { (t : Trace Act) (gone : Gone) (pdu : Pdu) → Stands self.now t gone → said pdu ≡ Brings id → main_fault (self.now).role t (Spoken pdu) ≡ option_or (why_in result) (data_fault (self.now).role t id pdu) }
        ensures named { IfSome result (λ cause. IsSome (why_of cause)) }
    {
        if !self.is_ready {
            return Some(Cause::Unexpected);
        }
        self.channel_cause(id, is_moved(self.paths.inward(id)))
    }

    /// What there is against the close of a channel. It is no want of memory.
    fn close_cause(&self, id: u32) -> Option<Cause>
        ensures found { (t : Trace Act) (gone : Gone) → Stands self.now t gone → main_fault (self.now).role t (Spoken (Close id)) ≡ why_in result }
        ensures named { IfSome result (λ cause. IsSome (why_of cause)) }
    {
        if !self.is_ready {
            return Some(Cause::Unexpected);
        }
        self.channel_cause(id, is_moved_whole(self.paths.inward(id)))
    }

    /// What there is against a PDU of a channel whose word was read, or wasn't: no such channel takes
    /// data, or the PDU comes too late. It is no want of memory.
    fn channel_cause(&self, id: u32, is_late: bool) -> Option<Cause>
        ensures found { (t : Trace Act) (gone : Gone) → Stands self.now t gone → option_or (unknown_fault (self.now).role t id) (late_fault (self.now).role t id is_late) ≡ why_in result }
        ensures named { IfSome result (λ cause. IsSome (why_of cause)) }
    {
        match self.channels.state(id) {
            ChannelState::Unknown => Some(unknown(id)),
            ChannelState::Asked => Some(unknown(id)),
            ChannelState::Refused => Some(unknown(id)),
            ChannelState::Closed => None,
            ChannelState::Open => {
                if is_late {
                    Some(Cause::TooLateOnMain { id })
                } else {
                    None
                }
            }
        }
    }
}

/// The cause that there is no such channel.
fn unknown(id: u32) -> Cause
    ensures { why_of result ≡ Some (Channel (UnknownChannel id)) }
{
    Cause::Channel(ChannelRefusal::UnknownChannel { id })
}

/// Whether a channel in this state was closed.
pub(crate) fn is_closed(state: ChannelState) -> bool
    ensures { result ≡ is_closed_in state }
{
    match state {
        ChannelState::Unknown => false,
        ChannelState::Asked => false,
        ChannelState::Open => false,
        ChannelState::Refused => false,
        ChannelState::Closed => true,
    }
}

/// Whether data that come by this path no longer come on the main stream.
fn is_moved(path: Path) -> bool
    ensures { result ≡ is_moved path }
{
    match path {
        Path::Main => false,
        Path::Tunnel(_) => true,
    }
}

/// Whether a close no longer comes on the main stream either: it never comes through a lossy tunnel.
fn is_moved_whole(path: Path) -> bool
    ensures { result ≡ is_moved_whole path }
{
    match path {
        Path::Main => false,
        Path::Tunnel(kind) => match kind {
            Kind::Reliable => true,
            Kind::Lossy => false,
        },
    }
}
