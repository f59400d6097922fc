//! The main stream is read.

ghost use Rattle.std.specs.Prelude.{◌≡◌, ℕ, ◌+◌, ◌<◌, ◌≤◌, length, Ok};
ghost use Rattle.tunnel_pdus.specs.declared.part.Part.TheVariants.{More};
ghost use Rattle.tunnel_pdus.specs.Reading.{frame_reading};
ghost use Rattle.end_reader.specs.Wanting.{GoesOn, frame_wants};

use crate::reader::Reader;
use end_calls::{Fault, Place};
use tunnel_pdus::{Part, read_frame};

/// How many bytes more the frame that these bytes begin wants at least. With fewer it stays under way.
fn frame_wanted(bytes: &[u8]) -> usize
    requires { length bytes.now ≤ 1855 }
    ensures wants { result ≡ frame_wants bytes.now }
    ensures room { length bytes.now + result ≤ 1855 }
    ensures way { (need : ℕ) → frame_reading bytes.now ≡ Ok (More need) → (length bytes.now < need) × GoesOn frame_reading bytes.now need }
{
    match read_frame(bytes) {
        Ok(Part::More { need }) => need.saturating_sub(bytes.len()),
        Ok(Part::Whole { .. }) => 0,
        Err(_) => 0,
    }
}

impl Reader {
    ghost use Rattle.std.specs.Prelude.{◌≡◌, ◌+◌, ◌*◌, ◌<◌, ◌≤◌, [], length, min, None};
    ghost use Rattle.mt_base.specs.declared.kinds.Kind.TheVariants.{Reliable, Lossy};
    ghost use Rattle.tunnel_pdus.specs.Reading.{frame_reading};
    ghost use Rattle.end_calls.specs.declared.limits.TheConstants.{ANSWER, CONTROL, MAIN_QUEUE};
    ghost use Rattle.end_calls.specs.Streams.{Past, main_reads};
    ghost use Rattle.end_session.specs.Outgoing.{waiting_for};
    ghost use Rattle.end_session.specs.Standing.{Gone};
    ghost use Rattle.end_reader.specs.Standing.{GoesTo, KeepsMain, Reads};
    ghost use Rattle.end_reader.specs.Taking.{OneFrame, TookMain};
    ghost use Rattle.end_reader.specs.Wanting.{frame_wants};

    /// Takes bytes of the main stream (MS-RDPBCGR section 2.2.15, MS-RDPEDYC section 2.2), as many of them as the
    /// frame under way is known to want, and gives their number; there is at least one. Where the last of them ends
    /// the frame, what the frame says is done as by [`Session::hear`](end_session::Session::hear). Where they are no
    /// frame that breaks the end, with the place of the frame's first byte. The other bytes are for the next call.
    pub fn read_main(&mut self, bytes: &[u8]) -> usize
        requires some { 0 < length bytes.now }
        requires whole { (self.old).session.broken ≡ None }
        requires room { length ((self.old).session.outgoing).main + (CONTROL + ANSWER * (self.old).session.owed) ≤ MAIN_QUEUE }
        requires waits { waiting_for Reliable (self.old).session.outgoing ≡ [] }
        ensures took { (p : Past) (gone : Gone) → Reads self.old p gone → TookMain (self.old).session.role p bytes.now result gone self.new }
        ensures wanted { result ≡ min (length bytes.now) (frame_wants (self.old).main.bytes) }
        ensures count { (p : Past) (gone : Gone) → Reads self.old p gone → (0 < result) × (result ≤ length bytes.now) }
        ensures frame { (p : Past) (gone : Gone) → Reads self.old p gone → OneFrame (self.old).session.role p bytes.now result }
        ensures reliable { length (waiting_for Reliable (self.new).session.outgoing) ≤ 2304 }
        ensures main { length ((self.new).session.outgoing).main + ANSWER * (self.new).session.owed ≤ length ((self.old).session.outgoing).main + ANSWER * (self.old).session.owed + 2304 }
        ensures lossy { waiting_for Lossy (self.new).session.outgoing ≡ waiting_for Lossy (self.old).session.outgoing }
        ensures same { (self.new).session.role ≡ (self.old).session.role }
    {
        let wanted = frame_wanted(self.main.bytes());
        let count = self.main.take(bytes, wanted);
        self.look_at_main();
        count
    }

    /// The bytes of the main stream that are kept are looked at: they are a frame, the beginning of one, or neither.
    fn look_at_main(&mut self)
        requires whole { (self.old).session.broken ≡ None }
        requires room { length ((self.old).session.outgoing).main + (CONTROL + ANSWER * (self.old).session.owed) ≤ MAIN_QUEUE }
        requires waits { waiting_for Reliable (self.old).session.outgoing ≡ [] }
        ensures came { (p : Past) (gone : Gone) → KeepsMain self.old p gone → GoesTo p (main_reads (self.old).session.role (self.old).main.bytes (frame_reading (self.old).main.bytes) p) gone self.new }
        ensures reliable { length (waiting_for Reliable (self.new).session.outgoing) ≤ 2304 }
        ensures main { length ((self.new).session.outgoing).main + ANSWER * (self.new).session.owed ≤ length ((self.old).session.outgoing).main + ANSWER * (self.old).session.owed + 2304 }
        ensures lossy { waiting_for Lossy (self.new).session.outgoing ≡ waiting_for Lossy (self.old).session.outgoing }
        ensures same { (self.new).session.role ≡ (self.old).session.role }
    {
        match read_frame(self.main.bytes()) {
            Ok(Part::More { .. }) => {}
            Ok(Part::Whole { value, .. }) => {
                self.session.hear(self.main.at(), &value);
                self.main.pass();
            }
            Err(refusal) => {
                let place = Place::Main { at: self.main.at() };
                self.session.break_by(Fault::Stream(place, refusal));
            }
        }
    }
}
