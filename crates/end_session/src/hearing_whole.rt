//! A frame of the main stream is read in full.

use crate::session::Session;
use end_calls::Place;
use mt_base::Role;
use tunnel_pdus::MainFrame;

impl Session {
    ghost use Rattle.std.specs.Prelude.{◌≡◌, ℕ, ◌+◌, ◌*◌, ◌≤◌, [], length, None, Some};
    ghost use Rattle.mt_base.specs.declared.kinds.Kind.{Kind};
    ghost use Rattle.mt_base.specs.declared.kinds.Kind.TheVariants.{Reliable, Lossy};
    ghost use Rattle.mt_base.specs.Trace.{Trace};
    ghost use Rattle.tunnel_pdus.specs.Value.{FitsFrame};
    ghost use Rattle.tunnel_pdus.specs.Views.{frame_of};
    ghost use Rattle.mt_endpoint.specs.Acts.{Act};
    ghost use Rattle.mt_endpoint.specs.Growing.{answered};
    ghost use Rattle.end_calls.specs.declared.limits.TheConstants.{ANSWER, CONTROL, MAIN_QUEUE};
    ghost use Rattle.end_calls.specs.Streams.{heard_by, reads_heard, told_place};
    ghost use Rattle.end_session.specs.Coming.{CameTo, past_of};
    ghost use Rattle.end_session.specs.Outgoing.{waiting_for};
    ghost use Rattle.end_session.specs.Standing.{Gone, Stands};

    /// A frame of the main stream that begins at this place, the greatest `u64` where it is above that, was read
    /// in full (MS-RDPBCGR section 2.2.15, MS-RDPEDYC section 2.2): its act, the answers to Soft-Sync requests that
    /// it makes due, and then what it releases of what is held. A frame that isn't read breaks the end, as does a PDU
    /// that is released and isn't taken, and want of memory; [`Session::broken`] tells that. It writes at most 2,304
    /// bytes for the reliable link, and none for the lossy one.
    pub fn hear(&mut self, at: u64, frame: &MainFrame<'_>)
        requires fits { FitsFrame (frame_of frame.now) }
        requires whole { (self.old).broken ≡ None }
        requires room { length ((self.old).outgoing).main + (CONTROL + ANSWER * (self.old).owed) ≤ MAIN_QUEUE }
        requires waits { waiting_for Reliable (self.old).outgoing ≡ [] }
        ensures heard { (t : Trace Act) (gone : Gone) (place : ℕ) → at ≡ told_place place → Stands self.old t gone → CameTo (past_of t) (reads_heard (self.old).role place (heard_by (self.old).role (frame_of frame.now)) (past_of t)) gone self.new }
        ensures main { length ((self.new).outgoing).main + ANSWER * (self.new).owed ≤ length ((self.old).outgoing).main + ANSWER * (self.old).owed + 2304 }
        ensures reliable { length (waiting_for Reliable (self.new).outgoing) ≤ 2304 }
        ensures lossy { waiting_for Lossy (self.new).outgoing ≡ waiting_for Lossy (self.old).outgoing }
        ensures same { (self.new).role ≡ (self.old).role }
    {
        let request = self.paths.awaited();
        let spoken = match self.hear_frame(frame) {
            Ok(spoken) => spoken,
            Err(unread) => {
                self.break_by(unread.at(Place::Main { at }));
                return;
            }
        };
        self.answer_as_client();
        let Some(pdu) = spoken else {
            return;
        };
        if let Err(untaken) = self.release_freed(&pdu, request) {
            self.break_by(untaken.cause.at(Place::Reliable { at: untaken.at }));
        }
    }

    /// A client answers the Soft-Sync requests that it read, as [`Session::answer_all`] does; a server reads none.
    pub(crate) fn answer_as_client(&mut self)
        requires whole { (self.old).broken ≡ None }
        requires room { length ((self.old).outgoing).main + 17 * (self.old).owed ≤ MAIN_QUEUE }
        ensures answered { (t : Trace Act) (gone : Gone) → Stands self.old t gone → Stands self.new (answered (self.old).role t) gone }
        ensures written { length ((self.new).outgoing).main ≤ length ((self.old).outgoing).main + 17 * (self.old).owed }
        ensures settled { length ((self.new).outgoing).main + 17 * (self.new).owed ≤ length ((self.old).outgoing).main + 17 * (self.old).owed }
        ensures links { (kind : Kind) → waiting_for kind (self.new).outgoing ≡ waiting_for kind (self.old).outgoing }
        ensures same { ((self.new).role ≡ (self.old).role) × ((self.new).broken ≡ (self.old).broken) }
    {
        match self.role {
            Role::Server => {}
            Role::Client => self.answer_all(),
        }
    }
}
