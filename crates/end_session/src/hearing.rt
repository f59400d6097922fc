//! A frame of the main stream is heard.

use crate::cause::Cause;
use crate::session::Session;
use crate::unread::Unread;
use dvc_pdus::{DvcPdu, read_dvc};
use tunnel_pdus::MainFrame;

impl Session {
    ghost use Rattle.std.specs.Prelude.{◌≡◌, ◌+◌, ◌≤◌, [], length, option_map, None, OnOk, IfOk, IfErr, OnErr};
    ghost use Rattle.mt_base.specs.declared.kinds.Kind.TheVariants.{Reliable, Lossy};
    ghost use Rattle.mt_base.specs.Trace.{Trace, ◌▷◌};
    ghost use Rattle.dvc_pdus.specs.Views.{pdu_of};
    ghost use Rattle.tunnel_pdus.specs.Value.{FitsFrame};
    ghost use Rattle.tunnel_pdus.specs.Views.{frame_of};
    ghost use Rattle.mt_endpoint.specs.Acts.{Act, Hears, Spoken};
    ghost use Rattle.mt_endpoint.specs.Faults.{main_fault};
    ghost use Rattle.end_calls.specs.declared.limits.TheConstants.{MAIN_QUEUE};
    ghost use Rattle.end_calls.specs.Streams.{heard_by};
    ghost use Rattle.end_session.specs.Causes.{IsCause, why_of};
    ghost use Rattle.end_session.specs.Hearing.{IsHeard, IsUnread, MayLack, WasRead, spoken_in};
    ghost use Rattle.end_session.specs.Outgoing.{waiting_for};
    ghost use Rattle.end_session.specs.Standing.{Gone, Stands};

    /// Either end hears a frame of the main stream (MS-RDPBCGR section 2.2.15, MS-RDPEDYC section 2.2): the act
    /// `Hears`, or the first cause against it. Gives the channel PDU that the frame carries. What it writes is at most
    /// 12 bytes on the main stream, and 9 for the reliable link.
    pub fn hear_frame<'a>(&mut self, frame: &MainFrame<'a>) -> Result<Option<DvcPdu<'a>>, Unread>
        requires fits { FitsFrame (frame_of frame.now) }
        requires room { length ((self.old).outgoing).main + 2304 ≤ MAIN_QUEUE }
        requires waits { waiting_for Reliable (self.old).outgoing ≡ [] }
        ensures heard { (t : Trace Act) (gone : Gone) → Stands self.old t gone → OnOk result (IsHeard (self.old).role (heard_by (self.old).role (frame_of frame.now)) t gone self.new) }
        ensures refused { (t : Trace Act) (gone : Gone) → Stands self.old t gone → IfErr result (λ unread. IsUnread (self.old).role (heard_by (self.old).role (frame_of frame.now)) t unread) }
        ensures spoken { IfOk result (λ found. option_map pdu_of found ≡ spoken_in (heard_by (self.old).role (frame_of frame.now))) }
        ensures written { (length ((self.new).outgoing).main ≤ length ((self.old).outgoing).main + 12) × (length (waiting_for Reliable (self.new).outgoing) ≤ length (waiting_for Reliable (self.old).outgoing) + 9) }
        ensures lossy { waiting_for Lossy (self.new).outgoing ≡ waiting_for Lossy (self.old).outgoing }
        ensures unchanged { OnErr result (self.new ≡ self.old) }
        ensures same { ((self.new).role ≡ (self.old).role) × ((self.new).broken ≡ (self.old).broken) }
    {
        let writer = self.role.other();
        match *frame {
            MainFrame::Request { id, kind, cookie } => {
                let mut bytes = [0; 16];
                bytes.copy_from_slice(cookie);
                self.hear_request(id, kind, bytes)?;
                Ok(None)
            }
            MainFrame::Response { id, hr } => {
                self.hear_response(id, hr)?;
                Ok(None)
            }
            MainFrame::Channel { pdu } => {
                let pdu = read_dvc(writer, pdu)?;
                self.hear_pdu(&pdu)?;
                Ok(Some(pdu))
            }
        }
    }

    /// Either end hears a channel PDU on the main stream (MS-RDPEDYC section 2.2): the act `Hears`, or the first
    /// cause against it.
    fn hear_pdu(&mut self, pdu: &DvcPdu<'_>) -> Result<(), Cause>
        requires read { WasRead (self.old).role (pdu_of pdu.now) }
        requires room { length ((self.old).outgoing).main + 2304 ≤ MAIN_QUEUE }
        requires waits { waiting_for Reliable (self.old).outgoing ≡ [] }
        ensures heard { (t : Trace Act) (gone : Gone) → Stands self.old t gone → OnOk result ((main_fault (self.old).role t (Spoken (pdu_of pdu.now)) ≡ None) × Stands self.new (t ▷ Hears (Spoken (pdu_of pdu.now))) gone) }
        ensures refused { (t : Trace Act) (gone : Gone) → Stands self.old t gone → IfErr result (λ cause. IsCause (main_fault (self.old).role t (Spoken (pdu_of pdu.now))) cause) }
        ensures memory { IfErr result (λ cause. MayLack (Hears (Spoken (pdu_of pdu.now))) (why_of cause)) }
        ensures unchanged { OnErr result (self.new ≡ self.old) }
        ensures same { ((self.new).role ≡ (self.old).role) × ((self.new).broken ≡ (self.old).broken) }
    {
        match *pdu {
            DvcPdu::Caps { version, .. } => self.hear_capabilities(version),
            DvcPdu::CreateRequest { id, name, .. } => self.hear_create(id, name),
            DvcPdu::CreateResponse { id, status } => self.hear_created(id, status),
            DvcPdu::DataFirst { id, .. } => self.hear_data(id, pdu),
            DvcPdu::Data { id, .. } => self.hear_data(id, pdu),
            DvcPdu::CompressedFirst { id, .. } => self.hear_data(id, pdu),
            DvcPdu::Compressed { id, .. } => self.hear_data(id, pdu),
            DvcPdu::Close { id } => self.hear_close(id),
            DvcPdu::SyncRequest { lists, .. } => self.hear_moves(lists),
            DvcPdu::SyncResponse { types } => self.hear_moved(types),
        }
    }
}
