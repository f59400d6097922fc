//! What was held of a channel is released.

ghost use Rattle.std.specs.Prelude.{◌≡◌};
ghost use Rattle.mt_base.specs.declared.kinds.Kind.TheVariants as kinds;
ghost use Rattle.end_session.specs.Causes.{why_of};
ghost use Rattle.end_session.specs.Releasing.{drops, released_from};

use crate::cause::Cause;
use crate::session::Session;
use dvc_pdus::DvcPdu;
use hold_queue::Hold;
use mt_base::Kind;

/// The bytes of a channel PDU at most.
pub(crate) const PDU: usize = 1_600;

/// The oldest PDU of a channel is no longer held for the tunnel of this kind.
fn forget(kind: Kind, id: u32, reliable: &mut Hold, lossy: &mut Hold)
    ensures reliable { reliable.new ≡ released_from kinds.Reliable kind id reliable.old }
    ensures lossy { lossy.new ≡ released_from kinds.Lossy kind id lossy.old }
{
    let mut bytes = [0; PDU];
    match kind {
        Kind::Reliable => {
            let _ = reliable.release(id, &mut bytes);
        }
        Kind::Lossy => {
            let _ = lossy.release(id, &mut bytes);
        }
    }
}

/// Whether data that a channel doesn't take are dropped: the lossy tunnel brought them, and there was
/// memory for them.
fn is_dropped(kind: Kind, cause: Cause) -> bool
    ensures { result ≡ drops kind (why_of cause) }
{
    match kind {
        Kind::Reliable => false,
        Kind::Lossy => match cause {
            Cause::Unexpected => true,
            Cause::BadSyncAnswer => true,
            Cause::SyncUnknown { .. } => true,
            Cause::Channel(_) => true,
            Cause::TooLateOnMain { .. } => true,
            Cause::NoMemory => false,
        },
    }
}

impl Session {
    ghost use Rattle.std.specs.Prelude.{◌≡◌, false, true, option_map, length, IfOk, IfErr, OnErr};
    ghost use Rattle.mt_base.specs.Trace.{Trace};
    ghost use Rattle.dvc_channels.specs.Acts.{IsData};
    ghost use Rattle.dvc_pdus.specs.Views.{pdu_of};
    ghost use Rattle.hold_queue.specs.Held as hold;
    ghost use Rattle.soft_sync.specs.Words.{inward};
    ghost use Rattle.mt_endpoint.specs.Acts.{Act};
    ghost use Rattle.mt_endpoint.specs.Channels.{is_closed};
    ghost use Rattle.mt_endpoint.specs.Faults.{release_fault};
    ghost use Rattle.mt_endpoint.specs.Holding.{is_through};
    ghost use Rattle.mt_endpoint.specs.Said.{Brings, said};
    ghost use Rattle.end_session.specs.Causes.{IsCause, why_of};
    ghost use Rattle.end_session.specs.Drawing.{held_of};
    ghost use Rattle.end_session.specs.Releasing.{IsOldest, Released, drops};
    ghost use Rattle.end_session.specs.Standing.{Gone, Stands};

    /// Gives the oldest PDU that is held for a channel of the tunnel of this kind, with its place and its
    /// length. It stays held, and behind its length `out` stays as it was.
    pub fn oldest(&self, kind: Kind, id: u32, out: &mut [u8; 1600]) -> Option<(u64, usize)>
        ensures found { result ≡ option_map (λ (pdu : hold.Pdu). (pdu.at, length pdu.bytes)) (hold.oldest id (held_of kind self.now)) }
        ensures bytes { out.new ≡ hold.with_bytes (hold.oldest id (held_of kind self.now)) out.old }
    {
        match kind {
            Kind::Reliable => self.held_reliable.oldest(id, out),
            Kind::Lossy => self.held_lossy.oldest(id, out),
        }
    }

    /// Releases data, the oldest PDU that is held for a channel whose word to this tunnel is read and which
    /// isn't closed (MS-RDPEDYC section 3.1.5.3): the act `Releases`. True where the channel takes them.
    /// Where it doesn't, they are dropped, and false is given, if the lossy tunnel brought them: the act
    /// `Discards`. The reliable tunnel brought a fault then, and nothing changes.
    pub(crate) fn release_data(
        &mut self,
        kind: Kind,
        id: u32,
        pdu: &DvcPdu<'_>,
    ) -> Result<bool, Cause>
        requires word { is_through kind (inward id (self.old).paths) ≡ true }
        requires fresh { (t : Trace Act) (gone : Gone) → Stands self.old t gone → is_closed (self.old).role id t ≡ false }
        requires oldest { IsOldest kind id (pdu_of pdu.now) self.old }
        requires brings { said (pdu_of pdu.now) ≡ Brings id }
        requires data { IsData (pdu_of pdu.now) }
        ensures released { (t : Trace Act) (gone : Gone) → Stands self.old t gone → IfOk result (λ is_taken. Released kind id (pdu_of pdu.now) t gone self.new is_taken) }
        ensures refused { (t : Trace Act) (gone : Gone) → Stands self.old t gone → IfErr result (λ cause. IsCause (release_fault (self.old).role t (pdu_of pdu.now)) cause) }
        ensures undropped { IfErr result (λ cause. drops kind (why_of cause) ≡ false) }
        ensures held { IfOk result (λ is_taken. held_of kind self.new ≡ hold.without_oldest id (held_of kind self.old)) }
        ensures unchanged { OnErr result (self.new ≡ self.old) }
        ensures quiet { ((self.new).outgoing ≡ (self.old).outgoing) × ((self.new).paths ≡ (self.old).paths) }
        ensures owed { (self.new).owed ≡ (self.old).owed }
        ensures same { ((self.new).role ≡ (self.old).role) × ((self.new).broken ≡ (self.old).broken) }
    {
        if let Err(why) = self.channels.accept(id, pdu) {
            let cause = Cause::from(why);
            if !is_dropped(kind, cause) {
                return Err(cause);
            }
            forget(kind, id, &mut self.held_reliable, &mut self.held_lossy);
            return Ok(false);
        }
        forget(kind, id, &mut self.held_reliable, &mut self.held_lossy);
        Ok(true)
    }
}
