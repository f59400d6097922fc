//! Channel PDUs that are pulled behind the word of their channel are released at once.

use crate::cause::Cause;
use crate::closes::end_channel;
use crate::keeping::{channel_of, lone_of};
use crate::letting_go::is_close;
use crate::session::Session;
use crate::untaken::Untaken;
use dvc_pdus::DvcPdu;
use mt_base::Kind;

impl Session {
    ghost use Rattle.std.specs.Prelude.{◌≡◌, ℕ, ◌+◌, ◌≤◌, true, List, length, Some, None, Ok, is_some, IfSome, OnOk, IfErr};
    ghost use Rattle.mt_base.specs.Ends.{other};
    ghost use Rattle.mt_base.specs.Trace.{Trace};
    ghost use Rattle.mt_base.specs.declared.kinds.Kind.TheVariants.{Reliable};
    ghost use Rattle.mt_base.specs.declared.kinds.Role.TheVariants.{Client};
    ghost use Rattle.dvc_channels.specs.Acts.{IsData};
    ghost use Rattle.dvc_pdus.specs.Reading.{reading};
    ghost use Rattle.dvc_pdus.specs.Value.{Close};
    ghost use Rattle.dvc_pdus.specs.Views.{pdu_of};
    ghost use Rattle.mt_endpoint.specs.Acts.{Act, Draws, Carried};
    ghost use Rattle.mt_endpoint.specs.Channels.{is_open};
    ghost use Rattle.mt_endpoint.specs.Growing.{grown};
    ghost use Rattle.mt_endpoint.specs.Holding.{channel_of, held, is_held};
    ghost use Rattle.mt_endpoint.specs.Said.{Brings, said};
    ghost use Rattle.end_calls.specs.Streams.{told_place};
    ghost use Rattle.end_calls.specs.declared.limits.TheConstants.{MAIN_QUEUE};
    ghost use Rattle.end_session.specs.AnswerDue.{due_in};
    ghost use Rattle.end_session.specs.Behind.{IsBehind, IsPassing, NoneHeld};
    ghost use Rattle.end_session.specs.Coming.{Came, Ended};
    ghost use Rattle.end_session.specs.Drawing.{IsHeldBeside, drawn_fault};
    ghost use Rattle.end_session.specs.Outgoing.{waiting_for};
    ghost use Rattle.end_session.specs.Pulling.{WroteFor};
    ghost use Rattle.end_session.specs.Releasing.{is_end};
    ghost use Rattle.end_session.specs.Standing.{Gone, Stands};

    /// A channel PDU is pulled from a link behind the word of its channel (MS-RDPEDYC section 3.1.5.3), whose
    /// tunnel PDU began at this place, the greatest `u64` where it is above that: the act `Draws`, and, where
    /// the channel is open, at once `Releases`; or `Discards`, where the lossy tunnel brought data that the
    /// channel doesn't take. A close is answered by a close. The error is a PDU of the reliable tunnel that the
    /// channel doesn't take, which is held then; or there was no memory, and nothing changes. What is released
    /// needs no room among what is held.
    pub(crate) fn draw_behind(
        &mut self,
        kind: Kind,
        at: u64,
        bytes: &[u8],
        pdu: &DvcPdu<'_>,
    ) -> Result<(), Untaken>
        requires whole { (self.old).broken ≡ None }
        requires read { reading (other (self.old).role) bytes.now ≡ Ok (pdu_of pdu.now) }
        requires behind { IsBehind kind (pdu_of pdu.now) self.old }
        requires rests { NoneHeld kind (pdu_of pdu.now) self.old }
        requires quiet { (self.old).role ≡ Client → due_in self.old ≡ None }
        requires allowed { (t : Trace Act) (gone : Gone) → Stands self.old t gone → drawn_fault (self.old).role kind t (Carried bytes.now (pdu_of pdu.now)) ≡ None }
        requires held { kind ≡ Reliable → IsHeldBeside 1600 (self.old).held_reliable }
        requires room { length ((self.old).outgoing).main + 8 ≤ MAIN_QUEUE }
        requires waits { kind ≡ Reliable → length (waiting_for Reliable (self.old).outgoing) + 9 ≤ 3072 }
        ensures came { (t : Trace Act) (gone : Gone) (place : ℕ) → at ≡ told_place place → Stands self.old t gone → OnOk result (Came (grown (self.old).role t (Draws kind place (Carried bytes.now (pdu_of pdu.now)))) gone self.new) }
        ensures ended { (t : Trace Act) (gone : Gone) (place : ℕ) → at ≡ told_place place → Stands self.old t gone → IfErr result (λ untaken. Ended t (grown (self.old).role t (Draws kind place (Carried bytes.now (pdu_of pdu.now)))) gone self.new untaken) }
        ensures wrote { WroteFor kind (self.old).outgoing (self.new).outgoing }
        ensures written { length ((self.new).outgoing).main ≤ length ((self.old).outgoing).main + 8 }
        ensures owed { (self.new).owed ≡ (self.old).owed }
        ensures same { ((self.new).role ≡ (self.old).role) × ((self.new).broken ≡ (self.old).broken) }
    {
        let Some(id) = self.open_for(kind, pdu) else {
            return Ok(());
        };
        if is_close(pdu) {
            self.pass_close(id);
            return Ok(());
        }
        self.pass_data(kind, id, at, bytes, pdu)
    }

    /// The channel for which a PDU behind its word is released, where it is.
    fn open_for(&self, kind: Kind, pdu: &DvcPdu<'_>) -> Option<u32>
        requires { IsBehind kind (pdu_of pdu.now) self.now }
        ensures held { (t : Trace Act) (gone : Gone) (bytes : List ℕ) → Stands self.now t gone → is_held (self.now).role kind t bytes (pdu_of pdu.now) (held (self.now).role kind t) ≡ is_some result }
        ensures channel { IfSome result (λ id. channel_of (pdu_of pdu.now) ≡ Some id) }
        ensures ending { IfSome result (λ id. is_end (said (pdu_of pdu.now)) ≡ true → kind ≡ Reliable) }
    {
        match kind {
            Kind::Reliable => self.if_open(channel_of(pdu)),
            Kind::Lossy => self.if_open(lone_of(pdu)),
        }
    }

    /// Data of an open channel come behind its word, and are released. Where the channel doesn't take
    /// them, the lossy tunnel drops them, and the reliable one holds them: this is a fault.
    fn pass_data(
        &mut self,
        kind: Kind,
        id: u32,
        at: u64,
        bytes: &[u8],
        pdu: &DvcPdu<'_>,
    ) -> Result<(), Untaken>
        requires passing { IsPassing kind bytes.now (pdu_of pdu.now) self.old }
        requires open_one { (t : Trace Act) (gone : Gone) → Stands self.old t gone → is_held (self.old).role kind t bytes.now (pdu_of pdu.now) (held (self.old).role kind t) ≡ true }
        requires brings { said (pdu_of pdu.now) ≡ Brings id }
        requires data { IsData (pdu_of pdu.now) }
        requires short { length bytes.now ≤ 1600 }
        requires held { kind ≡ Reliable → IsHeldBeside 1600 (self.old).held_reliable }
        ensures came { (t : Trace Act) (gone : Gone) (place : ℕ) → at ≡ told_place place → Stands self.old t gone → OnOk result (Came (grown (self.old).role t (Draws kind place (Carried bytes.now (pdu_of pdu.now)))) gone self.new) }
        ensures ended { (t : Trace Act) (gone : Gone) (place : ℕ) → at ≡ told_place place → Stands self.old t gone → IfErr result (λ untaken. Ended t (grown (self.old).role t (Draws kind place (Carried bytes.now (pdu_of pdu.now)))) gone self.new untaken) }
        ensures quiet { (self.new).outgoing ≡ (self.old).outgoing }
        ensures owed { (self.new).owed ≡ (self.old).owed }
        ensures same { ((self.new).role ≡ (self.old).role) × ((self.new).broken ≡ (self.old).broken) }
    {
        let Err(why) = self.channels.accept(id, pdu) else {
            return Ok(());
        };
        let cause = Cause::from(why);
        if cause.is_lack() {
            return Err(Untaken { at, cause });
        }
        match kind {
            Kind::Lossy => Ok(()),
            Kind::Reliable => {
                self.held_reliable.keep(id, at, bytes);
                Err(Untaken { at, cause })
            }
        }
    }

    /// The close of an open channel comes behind its word, and is released: the channel is closed, and it is
    /// answered by a close. Takes no memory.
    fn pass_close(&mut self, id: u32)
        requires passing { (bytes : List ℕ) × IsPassing Reliable bytes (Close id) self.old }
        requires open_one { (t : Trace Act) (gone : Gone) → Stands self.old t gone → is_open (self.old).role id t ≡ true }
        requires room { length ((self.old).outgoing).main + 8 ≤ MAIN_QUEUE }
        requires waits { length (waiting_for Reliable (self.old).outgoing) + 9 ≤ 3072 }
        ensures came { (bytes : List ℕ) (t : Trace Act) (gone : Gone) (place : ℕ) → IsPassing Reliable bytes (Close id) self.old → Stands self.old t gone → Came (grown (self.old).role t (Draws Reliable place (Carried bytes (Close id)))) gone self.new }
        ensures wrote { WroteFor Reliable (self.old).outgoing (self.new).outgoing }
        ensures written { length ((self.new).outgoing).main ≤ length ((self.old).outgoing).main + 8 }
        ensures owed { (self.new).owed ≡ (self.old).owed }
        ensures same { ((self.new).role ≡ (self.old).role) × ((self.new).broken ≡ (self.old).broken) }
    {
        let path = self.paths.outward(id);
        end_channel(
            id,
            &mut self.channels,
            &mut self.paths,
            &mut self.held_reliable,
            &mut self.held_lossy,
        );
        self.outgoing.close(path, id, self.reliable.is_silent());
    }
}
