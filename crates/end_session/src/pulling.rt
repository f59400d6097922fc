//! A tunnel PDU of a link, of either kind, does all that it makes due.

use crate::session::Session;
use dvc_pdus::{DvcPdu, DvcRefusal, read_dvc};
use end_calls::Place;
use mt_base::{Kind, Role};
use tunnel_pdus::TunnelPdu;

impl Session {
    ghost use Rattle.std.specs.Prelude.{◌≡◌, ℕ, ◌+◌, ◌*◌, ◌≤◌, length, Bool, Ok, Err, OnOk, IfErr, OnErr};
    ghost use Rattle.mt_base.specs.Ends.{other};
    ghost use Rattle.mt_base.specs.Trace.{Trace};
    ghost use Rattle.dvc_pdus.specs.Reading.{reading};
    ghost use Rattle.dvc_pdus.specs.Views as dvc;
    ghost use Rattle.tunnel_pdus.specs.Value.{Data};
    ghost use Rattle.tunnel_pdus.specs.Views.{pdu_of};
    ghost use Rattle.mt_endpoint.specs.Acts.{Act, Carried, CreateAnswered, CreateAsked};
    ghost use Rattle.end_calls.specs.Streams.{drawn_by, told_place};
    ghost use Rattle.end_session.specs.Coming.{CameTo, past_of};
    ghost use Rattle.end_session.specs.Pulling.{IsDrawn, MayDraw, WroteFor, reads_from};
    ghost use Rattle.end_session.specs.Standing.{Gone, Stands};

    /// A tunnel PDU is taken from the link of this kind, which began at this place (MS-RDPEMT section 2.2.2). A lossy
    /// link may be full for an answer. The error is of data that are no channel PDU; nothing changes then.
    pub(crate) fn draw_pdu(
        &mut self,
        kind: Kind,
        at: u64,
        pdu: &TunnelPdu<'_>,
        is_full: bool,
    ) -> Result<(), DvcRefusal>
        requires may { MayDraw kind self.old }
        ensures drawn { (t : Trace Act) (gone : Gone) (place : ℕ) → at ≡ told_place place → Stands self.old t gone → OnOk result (IsDrawn (self.old).role kind place is_full (drawn_by (self.old).role (pdu_of pdu.now)) t gone self.new) }
        ensures refused { IfErr result (λ refusal. drawn_by (self.old).role (pdu_of pdu.now) ≡ Err refusal) }
        ensures unchanged { OnErr result (self.new ≡ self.old) }
        ensures wrote { WroteFor kind (self.old).outgoing (self.new).outgoing }
        ensures claims { length ((self.new).outgoing).main + 17 * (self.new).owed ≤ length ((self.old).outgoing).main + 17 * (self.old).owed + 11 }
        ensures same { (self.new).role ≡ (self.old).role }
    {
        match *pdu {
            TunnelPdu::CreateRequest { id, cookie } => {
                self.draw_request(kind, at, id, cookie, is_full);
                Ok(())
            }
            TunnelPdu::CreateResponse { hr } => {
                self.draw_answer(kind, at, hr);
                Ok(())
            }
            TunnelPdu::Data { payload } => self.draw_payload(kind, at, payload),
        }
    }

    /// A create request is pulled (MS-RDPEMT section 2.2.2.1): a server judges it; at a client it is a fault on the
    /// reliable link, and has no effect on the lossy one.
    fn draw_request(&mut self, kind: Kind, at: u64, id: u32, cookie: &[u8], is_full: bool)
        requires may { MayDraw kind self.old }
        ensures drawn { (t : Trace Act) (gone : Gone) (place : ℕ) → at ≡ told_place place → Stands self.old t gone → CameTo (past_of t) (reads_from (self.old).role kind place is_full (CreateAsked id cookie.now) (past_of t)) gone self.new }
        ensures wrote { WroteFor kind (self.old).outgoing (self.new).outgoing }
        ensures claims { length ((self.new).outgoing).main + 17 * (self.new).owed ≤ length ((self.old).outgoing).main + 17 * (self.old).owed + 11 }
        ensures same { (self.new).role ≡ (self.old).role }
    {
        match self.role {
            Role::Server => {
                let _ = self.judge(kind, id, cookie, is_full);
            }
            Role::Client => {
                if let Err(cause) = self.draw_create_request(kind) {
                    self.break_by(cause.at(Place::Reliable { at }));
                }
            }
        }
    }

    /// An answer to a create request is pulled (MS-RDPEMT section 2.2.2.2). The first one settles the tunnel of a
    /// client, so that answers to Soft-Sync requests can be due.
    fn draw_answer(&mut self, kind: Kind, at: u64, hr: u32)
        requires may { MayDraw kind self.old }
        ensures drawn { (t : Trace Act) (gone : Gone) (place : ℕ) (is_full : Bool) → at ≡ told_place place → Stands self.old t gone → CameTo (past_of t) (reads_from (self.old).role kind place is_full (CreateAnswered hr) (past_of t)) gone self.new }
        ensures wrote { WroteFor kind (self.old).outgoing (self.new).outgoing }
        ensures claims { length ((self.new).outgoing).main + 17 * (self.new).owed ≤ length ((self.old).outgoing).main + 17 * (self.old).owed + 11 }
        ensures same { (self.new).role ≡ (self.old).role }
    {
        match self.draw_create_answer(kind, hr) {
            Ok(()) => self.answer_as_client(),
            Err(cause) => self.break_by(cause.at(Place::Reliable { at })),
        }
    }

    /// Data are pulled (MS-RDPEMT section 2.2.2.3). The error is of data that are no channel PDU; nothing changes then.
    fn draw_payload(&mut self, kind: Kind, at: u64, payload: &[u8]) -> Result<(), DvcRefusal>
        requires may { MayDraw kind self.old }
        ensures drawn { (t : Trace Act) (gone : Gone) (place : ℕ) (is_full : Bool) → at ≡ told_place place → Stands self.old t gone → OnOk result (IsDrawn (self.old).role kind place is_full (drawn_by (self.old).role (Data payload.now)) t gone self.new) }
        ensures refused { IfErr result (λ refusal. drawn_by (self.old).role (Data payload.now) ≡ Err refusal) }
        ensures unchanged { OnErr result (self.new ≡ self.old) }
        ensures wrote { WroteFor kind (self.old).outgoing (self.new).outgoing }
        ensures claims { length ((self.new).outgoing).main + 17 * (self.new).owed ≤ length ((self.old).outgoing).main + 17 * (self.old).owed + 11 }
        ensures same { (self.new).role ≡ (self.old).role }
    {
        if payload.is_empty() {
            self.draw_nothing();
            return Ok(());
        }
        let pdu = read_dvc(self.role.other(), payload)?;
        self.draw_carried(kind, at, payload, &pdu);
        Ok(())
    }

    /// A channel PDU is pulled (MS-RDPEDYC section 3.1.5.3): it is released at once, where it comes behind the word of
    /// its channel, and else held.
    fn draw_carried(&mut self, kind: Kind, at: u64, bytes: &[u8], pdu: &DvcPdu<'_>)
        requires may { MayDraw kind self.old }
        requires read { reading (other (self.old).role) bytes.now ≡ Ok (dvc.pdu_of pdu.now) }
        ensures drawn { (t : Trace Act) (gone : Gone) (place : ℕ) (is_full : Bool) → at ≡ told_place place → Stands self.old t gone → CameTo (past_of t) (reads_from (self.old).role kind place is_full (Carried bytes.now (dvc.pdu_of pdu.now)) (past_of t)) gone self.new }
        ensures wrote { WroteFor kind (self.old).outgoing (self.new).outgoing }
        ensures claims { length ((self.new).outgoing).main + 17 * (self.new).owed ≤ length ((self.old).outgoing).main + 17 * (self.old).owed + 11 }
        ensures same { (self.new).role ≡ (self.old).role }
    {
        // What the end stands for is known from here on.
        let _ = &self.role;
        if let Some(cause) = self.carried_cause(kind, pdu) {
            self.break_by(cause.at(Place::Reliable { at }));
            return;
        }
        if !self.is_behind(kind, pdu) {
            self.draw_ahead(kind, at, bytes, pdu);
            return;
        }
        if let Err(untaken) = self.draw_behind(kind, at, bytes, pdu) {
            self.break_by(untaken.cause.at(Place::Reliable { at: untaken.at }));
        }
    }
}
