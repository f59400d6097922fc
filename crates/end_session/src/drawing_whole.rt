//! A tunnel PDU is read in full.

ghost use Rattle.std.specs.Prelude.{◌≡◌, length, option_map};
ghost use Rattle.tunnel_pdus.specs.Reading.{reading};
ghost use Rattle.tunnel_pdus.specs.Views.{pdu_of};
ghost use Rattle.end_session.specs.Pulling.{whole_part};

use crate::session::Session;
use end_calls::{Fault, Place};
use mt_base::Kind;
use tunnel_pdus::{Part, TunnelPdu, read_tunnel};

/// The tunnel PDU that a part of the lossy link is, where it is one whole PDU and no more.
fn whole_in(bytes: &[u8]) -> Option<TunnelPdu<'_>>
    ensures { option_map pdu_of result ≡ whole_part (length bytes.now) (reading bytes.now) }
{
    match read_tunnel(bytes) {
        Ok(part) => match part {
            Part::Whole { value, used } => {
                if used == bytes.len() {
                    return Some(value);
                }
                None
            }
            Part::More { .. } => None,
        },
        Err(_) => None,
    }
}

impl Session {
    ghost use Rattle.std.specs.Prelude.{◌≡◌, ℕ, ◌+◌, ◌*◌, ◌≤◌, [], length, None};
    ghost use Rattle.mt_base.specs.Trace.{Trace};
    ghost use Rattle.mt_base.specs.declared.kinds.Kind.TheVariants.{Reliable, Lossy};
    ghost use Rattle.mt_base.specs.declared.kinds.Role.TheVariants.{Client};
    ghost use Rattle.tunnel_pdus.specs.Value.{FitsPdu};
    ghost use Rattle.tunnel_pdus.specs.Views.{pdu_of};
    ghost use Rattle.mt_endpoint.specs.Acts.{Act};
    ghost use Rattle.mt_endpoint.specs.Resting.{Rests};
    ghost use Rattle.end_calls.specs.declared.limits.TheConstants.{ANSWER, CONTROL, MAIN_QUEUE};
    ghost use Rattle.end_calls.specs.Streams.{drawn_by, reads_drawn, told_place, with_part};
    ghost use Rattle.end_session.specs.AnswerDue.{due_in};
    ghost use Rattle.end_session.specs.Coming.{CameTo, past_of};
    ghost use Rattle.end_session.specs.Drawing.{IsHeldBeside};
    ghost use Rattle.end_session.specs.Outgoing.{waiting_for};
    ghost use Rattle.end_session.specs.Standing.{Gone, Stands};

    /// A tunnel PDU of the reliable link that begins at this place, the greatest `u64` where it is above that, was
    /// read in full (MS-RDPEMT sections 2.2.2 and 3.1.5, MS-RDPEDYC section 3.1.5.3): its act, the answers to
    /// Soft-Sync requests that it makes due, and its release, where it comes behind the word of its channel. A PDU
    /// that isn't taken breaks the end, as does want of memory; [`Session::broken`] tells that. Nothing may be held of
    /// a channel whose word is read, nor an answer be due, as it is between the steps of an end. It writes at most
    /// 2,304 bytes for the reliable link, and none for the lossy one.
    pub fn draw(&mut self, at: u64, pdu: &TunnelPdu<'_>)
        requires fits { FitsPdu (pdu_of pdu.now) }
        requires whole { (self.old).broken ≡ None }
        requires rests { (t : Trace Act) (gone : Gone) → Stands self.old t gone → Rests (self.old).role t }
        requires quiet { (self.old).role ≡ Client → due_in self.old ≡ None }
        requires held { IsHeldBeside 1600 (self.old).held_reliable }
        requires room { length ((self.old).outgoing).main + (CONTROL + ANSWER * (self.old).owed) ≤ MAIN_QUEUE }
        requires waits { waiting_for Reliable (self.old).outgoing ≡ [] }
        ensures drawn { (t : Trace Act) (gone : Gone) (place : ℕ) → at ≡ told_place place → Stands self.old t gone → CameTo (past_of t) (reads_drawn (self.old).role place (drawn_by (self.old).role (pdu_of pdu.now)) (past_of t)) gone self.new }
        ensures reliable { length (waiting_for Reliable (self.new).outgoing) ≤ 2304 }
        ensures lossy { waiting_for Lossy (self.new).outgoing ≡ waiting_for Lossy (self.old).outgoing }
        ensures main { length ((self.new).outgoing).main + ANSWER * (self.new).owed ≤ length ((self.old).outgoing).main + ANSWER * (self.old).owed + 2304 }
        ensures same { (self.new).role ≡ (self.old).role }
    {
        if let Err(refusal) = self.draw_pdu(Kind::Reliable, at, pdu, false) {
            self.break_by(Fault::Pdu(Place::Reliable { at }, refusal));
        }
    }

    /// A part of the lossy link was handed out, which may be full for an answer (MS-RDPEMT sections 2.2.2 and 3.1.5,
    /// MS-RDPEDYC section 3.1.5.3): the act of its tunnel PDU, where it is one whole PDU, the answers to Soft-Sync
    /// requests that it makes due, and its release, where it comes behind the word of its channel. Nothing in it is a
    /// fault; want of memory breaks the end, and [`Session::broken`] tells that. Nothing may be held of a channel
    /// whose word is read, nor an answer be due, as it is between the steps of an end. It writes at most 2,304 bytes
    /// for the lossy link, and none for the reliable one.
    pub fn draw_part(&mut self, bytes: &[u8], is_full: bool)
        requires whole { (self.old).broken ≡ None }
        requires rests { (t : Trace Act) (gone : Gone) → Stands self.old t gone → Rests (self.old).role t }
        requires quiet { (self.old).role ≡ Client → due_in self.old ≡ None }
        requires room { length ((self.old).outgoing).main + (CONTROL + ANSWER * (self.old).owed) ≤ MAIN_QUEUE }
        requires waits { waiting_for Lossy (self.old).outgoing ≡ [] }
        ensures drawn { (t : Trace Act) (gone : Gone) → Stands self.old t gone → CameTo (past_of t) (with_part (self.old).role (past_of t) bytes.now is_full) gone self.new }
        ensures reliable { waiting_for Reliable (self.new).outgoing ≡ waiting_for Reliable (self.old).outgoing }
        ensures lossy { length (waiting_for Lossy (self.new).outgoing) ≤ 2304 }
        ensures main { length ((self.new).outgoing).main + ANSWER * (self.new).owed ≤ length ((self.old).outgoing).main + ANSWER * (self.old).owed + 2304 }
        ensures same { (self.new).role ≡ (self.old).role }
    {
        let Some(pdu) = whole_in(bytes) else {
            self.miss();
            return;
        };
        if let Err(_) = self.draw_pdu(Kind::Lossy, 0, &pdu, is_full) {
            self.miss();
        }
    }
}
