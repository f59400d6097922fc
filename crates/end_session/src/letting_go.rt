//! What is held of a channel is released, up to its close.

ghost use Rattle.std.specs.Prelude.{◌≡◌};
ghost use Rattle.dvc_pdus.specs.Views.{pdu_of};
ghost use Rattle.mt_endpoint.specs.Said.{said};
ghost use Rattle.end_session.specs.Releasing.{is_end};

use crate::closes::end_channel;
use crate::hearing_data::is_closed;
use crate::releasing::PDU;
use crate::session::Session;
use crate::untaken::Untaken;
use dvc_pdus::{DvcPdu, read_dvc};
use mt_base::Kind;

/// Whether a PDU is a close.
pub(crate) fn is_close(pdu: &DvcPdu<'_>) -> bool
    ensures { result ≡ is_end (said (pdu_of pdu.now)) }
{
    match *pdu {
        DvcPdu::Caps { .. } => false,
        DvcPdu::CreateRequest { .. } => false,
        DvcPdu::CreateResponse { .. } => false,
        DvcPdu::DataFirst { .. } => false,
        DvcPdu::Data { .. } => false,
        DvcPdu::CompressedFirst { .. } => false,
        DvcPdu::Compressed { .. } => false,
        DvcPdu::Close { .. } => true,
        DvcPdu::SyncRequest { .. } => false,
        DvcPdu::SyncResponse { .. } => false,
    }
}

impl Session {
    ghost use Rattle.std.specs.Prelude.{◌≡◌, ℕ, ◌+◌, ◌≤◌, false, true, length, Some, None, option_map, IfOk, IfErr, IfSome, IfNone, OnOk};
    ghost use Rattle.mt_base.specs.declared.kinds.Kind.{Kind};
    ghost use Rattle.mt_base.specs.declared.kinds.Kind.TheVariants.{Reliable, Lossy};
    ghost use Rattle.mt_base.specs.Trace.{Trace};
    ghost use Rattle.dvc_pdus.specs.Value.{Close};
    ghost use Rattle.dvc_pdus.specs.Views.{pdu_of};
    ghost use Rattle.hold_queue.specs.Held as hold;
    ghost use Rattle.soft_sync.specs.Words.{inward};
    ghost use Rattle.mt_endpoint.specs.Acts.{Act};
    ghost use Rattle.mt_endpoint.specs.Channels.{is_closed};
    ghost use Rattle.mt_endpoint.specs.Holding.{is_through};
    ghost use Rattle.end_calls.specs.declared.limits.TheConstants.{MAIN_QUEUE};
    ghost use Rattle.end_session.specs.Coming.{Came, Ended, Went, all_released};
    ghost use Rattle.end_session.specs.Drawing.{held_of};
    ghost use Rattle.end_session.specs.Outgoing.{waiting_for};
    ghost use Rattle.end_session.specs.Releasing.{IsOf, IsOldest, Released};
    ghost use Rattle.end_session.specs.Standing.{Gone, Stands};

    /// Releases a close, the oldest PDU that is held for a channel whose word to its tunnel is read and
    /// which isn't closed (MS-RDPEDYC sections 2.2.4 and 3.1.5.3): the act `Releases`. The channel is
    /// closed, what is held of it is dropped, and it is answered by a close: on the main stream, or through
    /// the reliable tunnel where this end's data go that way. Takes no memory.
    pub(crate) fn release_close(&mut self, id: u32)
        requires fresh { (t : Trace Act) (gone : Gone) → Stands self.old t gone → is_closed (self.old).role id t ≡ false }
        requires oldest { (kind : Kind) × (is_through kind (inward id (self.old).paths) ≡ true) × IsOldest kind id (Close id) self.old }
        requires room { length ((self.old).outgoing).main + 8 ≤ MAIN_QUEUE }
        requires waits { length (waiting_for Reliable (self.old).outgoing) + 9 ≤ 3072 }
        ensures released { (kind : Kind) (t : Trace Act) (gone : Gone) → is_through kind (inward id (self.old).paths) ≡ true → IsOldest kind id (Close id) self.old → Stands self.old t gone → Released kind id (Close id) t gone self.new true }
        ensures written { (length ((self.new).outgoing).main ≤ length ((self.old).outgoing).main + 8) × (length (waiting_for Reliable (self.new).outgoing) ≤ length (waiting_for Reliable (self.old).outgoing) + 9) }
        ensures lossy { waiting_for Lossy (self.new).outgoing ≡ waiting_for Lossy (self.old).outgoing }
        ensures paths { (made : ℕ) → inward made (self.new).paths ≡ inward made (self.old).paths }
        ensures owed { (self.new).owed ≡ (self.old).owed }
        ensures same { ((self.new).role ≡ (self.old).role) × ((self.new).broken ≡ (self.old).broken) }
    {
        let path = self.paths.outward(id);
        end_channel(
            id,
            &mut self.channels,
            &mut self.paths,
            &mut self.held_reliable,
            &mut self.held_lossy,
        );
        self.outgoing.close(path, id, self.reliable.is_silent());
    }

    /// Releases what is held for a channel whose word to the tunnel of this kind is read, oldest first, up
    /// to its close (MS-RDPEDYC section 3.1.5.3). Data of the lossy tunnel that the channel doesn't take
    /// are dropped. It ends at the first data of the reliable tunnel that aren't taken, and where memory is
    /// wanting for data.
    pub fn release(&mut self, kind: Kind, id: u32) -> Result<(), Untaken>
        requires whole { (self.old).broken ≡ None }
        requires word { is_through kind (inward id (self.old).paths) ≡ true }
        requires room { length ((self.old).outgoing).main + 8 ≤ MAIN_QUEUE }
        requires waits { length (waiting_for Reliable (self.old).outgoing) + 9 ≤ 3072 }
        ensures came { (t : Trace Act) (gone : Gone) → Stands self.old t gone → OnOk result (Came (all_released (self.old).role kind id t) gone self.new) }
        ensures ended { (t : Trace Act) (gone : Gone) → Stands self.old t gone → IfErr result (λ untaken. Ended t (all_released (self.old).role kind id t) gone self.new untaken) }
        ensures written { (length ((self.new).outgoing).main ≤ length ((self.old).outgoing).main + 8) × (length (waiting_for Reliable (self.new).outgoing) ≤ length (waiting_for Reliable (self.old).outgoing) + 9) }
        ensures lossy { waiting_for Lossy (self.new).outgoing ≡ waiting_for Lossy (self.old).outgoing }
        ensures paths { (made : ℕ) → inward made (self.new).paths ≡ inward made (self.old).paths }
        ensures owed { (self.new).owed ≡ (self.old).owed }
        ensures same { ((self.new).role ≡ (self.old).role) × ((self.new).broken ≡ (self.old).broken) }
    {
        while self.release_one(kind, id)? {}
        Ok(())
    }

    /// Releases the oldest PDU that is held for a channel, unless the channel is closed. True where others
    /// may follow.
    fn release_one(&mut self, kind: Kind, id: u32) -> Result<bool, Untaken>
        requires word { is_through kind (inward id (self.old).paths) ≡ true }
        requires room { length ((self.old).outgoing).main + 8 ≤ MAIN_QUEUE }
        requires waits { length (waiting_for Reliable (self.old).outgoing) + 9 ≤ 3072 }
        ensures went { (t : Trace Act) (gone : Gone) → Stands self.old t gone → IfOk result (λ goes_on. Went kind id t gone self.new goes_on) }
        ensures ended { (t : Trace Act) (gone : Gone) → Stands self.old t gone → IfErr result (λ untaken. Ended t (all_released (self.old).role kind id t) gone self.new untaken) }
        ensures fewer { IfOk result (λ goes_on. goes_on ≡ true → length (held_of kind self.new) + 1 ≡ length (held_of kind self.old)) }
        ensures quiet { IfOk result (λ goes_on. goes_on ≡ true → (self.new).outgoing ≡ (self.old).outgoing) }
        ensures written { (length ((self.new).outgoing).main ≤ length ((self.old).outgoing).main + 8) × (length (waiting_for Reliable (self.new).outgoing) ≤ length (waiting_for Reliable (self.old).outgoing) + 9) }
        ensures lossy { waiting_for Lossy (self.new).outgoing ≡ waiting_for Lossy (self.old).outgoing }
        ensures paths { (made : ℕ) → inward made (self.new).paths ≡ inward made (self.old).paths }
        ensures owed { (self.new).owed ≡ (self.old).owed }
        ensures same { ((self.new).role ≡ (self.old).role) × ((self.new).broken ≡ (self.old).broken) }
    {
        if is_closed(self.channels.state(id)) {
            return Ok(false);
        }
        let mut bytes = [0; PDU];
        let Some((at, pdu)) = self.oldest_pdu(kind, id, &mut bytes) else {
            return Ok(false);
        };
        if is_close(&pdu) {
            self.release_close(id);
            return Ok(false);
        }
        match self.release_data(kind, id, &pdu) {
            Ok(_) => Ok(true),
            Err(cause) => Err(Untaken { at, cause }),
        }
    }

    /// The oldest PDU that is held for a channel of the tunnel of this kind, with its place. Its bytes are
    /// put into `out`.
    fn oldest_pdu<'a>(
        &self,
        kind: Kind,
        id: u32,
        out: &'a mut [u8; 1600],
    ) -> Option<(u64, DvcPdu<'a>)>
        ensures oldest { IfSome result (λ found. IsOldest kind id (pdu_of found.1) self.now) }
        ensures place { IfSome result (λ found. option_map (λ (pdu : hold.Pdu). pdu.at) (hold.oldest id (held_of kind self.now)) ≡ Some found.0) }
        ensures channel { IfSome result (λ found. IsOf id (pdu_of found.1)) }
        ensures none { IfNone result (hold.oldest id (held_of kind self.now) ≡ None) }
    {
        let (at, length) = self.oldest(kind, id, out)?;
        let Ok(pdu) = read_dvc(self.role.other(), &out[..length]) else {
            unreachable!()
        };
        Some((at, pdu))
    }
}
