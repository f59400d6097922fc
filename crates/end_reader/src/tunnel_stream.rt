//! The stream of the reliable link is read, and the parts of the lossy link.

ghost use Rattle.std.specs.Prelude.{◌≡◌, ℕ, ◌+◌, ◌<◌, ◌≤◌, length, Ok};
ghost use Rattle.tunnel_pdus.specs.declared.part.Part.TheVariants.{More};
ghost use Rattle.tunnel_pdus.specs.Reading.{reading};
ghost use Rattle.end_calls.specs.Stops.{wants};
ghost use Rattle.end_reader.specs.Wanting.{GoesOn};

use crate::reader::Reader;
use end_calls::{Fault, Place};
use tunnel_pdus::{Part, read_tunnel};

/// How many bytes more the tunnel PDU that these bytes begin wants at least. With fewer it stays under way.
fn pdu_wanted(bytes: &[u8]) -> usize
    requires { length bytes.now ≤ 1855 }
    ensures wants { result ≡ wants bytes.now }
    ensures room { length bytes.now + result ≤ 1855 }
    ensures way { (need : ℕ) → reading bytes.now ≡ Ok (More need) → (length bytes.now < need) × GoesOn reading bytes.now need }
{
    match read_tunnel(bytes) {
        Ok(Part::More { need }) => need.saturating_sub(bytes.len()),
        Ok(Part::Whole { .. }) => 0,
        Err(_) => 0,
    }
}

impl Reader {
    ghost use Rattle.std.specs.Prelude.{◌≡◌, ℕ, ◌+◌, ◌*◌, ◌<◌, ◌≤◌, [], length, None, Ok};
    ghost use Rattle.std.specs.List.{fold};
    ghost use Rattle.mt_base.specs.Trace.{Trace};
    ghost use Rattle.mt_base.specs.declared.kinds.Kind.TheVariants.{Reliable, Lossy};
    ghost use Rattle.mt_base.specs.declared.kinds.Role.TheVariants.{Client};
    ghost use Rattle.tunnel_pdus.specs.declared.part.Part.TheVariants.{More};
    ghost use Rattle.tunnel_pdus.specs.Reading.{reading};
    ghost use Rattle.mt_endpoint.specs.Acts.{Act};
    ghost use Rattle.mt_endpoint.specs.Resting.{Rests};
    ghost use Rattle.end_calls.specs.declared.limits.TheConstants.{ANSWER, CONTROL, MAIN_QUEUE};
    ghost use Rattle.end_calls.specs.Stops.{wants};
    ghost use Rattle.end_calls.specs.Streams.{Past, tunnel_reads, with_part, with_tunnel};
    ghost use Rattle.end_session.specs.AnswerDue.{due_in};
    ghost use Rattle.end_session.specs.Drawing.{IsHeldBeside};
    ghost use Rattle.end_session.specs.Outgoing.{waiting_for};
    ghost use Rattle.end_session.specs.Standing.{Gone, Stands};
    ghost use Rattle.end_reader.specs.Standing.{GoesTo, KeepsTunnel, Reads};
    ghost use Rattle.end_reader.specs.Wanting.{GoesOn};

    /// How many bytes more the tunnel PDU of the reliable link under way wants at least (MS-RDPEMT section 2.2).
    /// That is one or more, unless the end is broken.
    pub fn wanted(&self) -> usize
        ensures wants { result ≡ wants (self.now).tunnel.bytes }
        ensures some { (p : Past) (gone : Gone) → Reads self.now p gone → (self.now).session.broken ≡ None → 0 < result }
        ensures room { length (self.now).tunnel.bytes + result ≤ 1855 }
        ensures way { (need : ℕ) → reading (self.now).tunnel.bytes ≡ Ok (More need) → (length (self.now).tunnel.bytes < need) × GoesOn reading (self.now).tunnel.bytes need }
    {
        pdu_wanted(self.tunnel.bytes())
    }

    /// Takes bytes that were pulled from the reliable link (MS-RDPEMT section 2.2, MS-RDPEDYC section 3.1.5.3), no more
    /// than are wanted. Where they end the tunnel PDU under way, it is drawn as by
    /// [`Session::draw`](end_session::Session::draw). Where they are no tunnel PDU that breaks the end, with the place
    /// of the PDU's first byte.
    pub fn read_tunnel(&mut self, bytes: &[u8])
        requires wanted { length bytes.now ≤ wants (self.old).tunnel.bytes }
        requires whole { (self.old).session.broken ≡ None }
        requires reads { (p : Past) × (gone : Gone) × Reads self.old p gone }
        requires held { IsHeldBeside 1600 (self.old).session.held_reliable }
        requires room { length ((self.old).session.outgoing).main + (CONTROL + ANSWER * (self.old).session.owed) ≤ MAIN_QUEUE }
        requires waits { waiting_for Reliable (self.old).session.outgoing ≡ [] }
        ensures took { (p : Past) (gone : Gone) → Reads self.old p gone → GoesTo p (fold (with_tunnel (self.old).session.role) p bytes.now) gone self.new }
        ensures reliable { length (waiting_for Reliable (self.new).session.outgoing) ≤ 2304 }
        ensures main { length ((self.new).session.outgoing).main + ANSWER * (self.new).session.owed ≤ length ((self.old).session.outgoing).main + ANSWER * (self.old).session.owed + 2304 }
        ensures lossy { waiting_for Lossy (self.new).session.outgoing ≡ waiting_for Lossy (self.old).session.outgoing }
        ensures same { (self.new).session.role ≡ (self.old).session.role }
    {
        let wanted = self.wanted();
        self.tunnel.take(bytes, wanted);
        self.look_at_tunnel();
    }

    /// The bytes of the reliable link that are kept are looked at: they are a tunnel PDU, the beginning of one, or
    /// neither.
    fn look_at_tunnel(&mut self)
        requires whole { (self.old).session.broken ≡ None }
        requires rests { (t : Trace Act) (gone : Gone) → Stands (self.old).session t gone → Rests (self.old).session.role t }
        requires quiet { (self.old).session.role ≡ Client → due_in (self.old).session ≡ None }
        requires held { IsHeldBeside 1600 (self.old).session.held_reliable }
        requires room { length ((self.old).session.outgoing).main + (CONTROL + ANSWER * (self.old).session.owed) ≤ MAIN_QUEUE }
        requires waits { waiting_for Reliable (self.old).session.outgoing ≡ [] }
        ensures came { (p : Past) (gone : Gone) → KeepsTunnel self.old p gone → GoesTo p (tunnel_reads (self.old).session.role (self.old).tunnel.bytes (reading (self.old).tunnel.bytes) p) gone self.new }
        ensures reliable { length (waiting_for Reliable (self.new).session.outgoing) ≤ 2304 }
        ensures main { length ((self.new).session.outgoing).main + ANSWER * (self.new).session.owed ≤ length ((self.old).session.outgoing).main + ANSWER * (self.old).session.owed + 2304 }
        ensures lossy { waiting_for Lossy (self.new).session.outgoing ≡ waiting_for Lossy (self.old).session.outgoing }
        ensures same { (self.new).session.role ≡ (self.old).session.role }
    {
        match read_tunnel(self.tunnel.bytes()) {
            Ok(Part::More { .. }) => {}
            Ok(Part::Whole { value, .. }) => {
                self.session.draw(self.tunnel.at(), &value);
                self.tunnel.pass();
            }
            Err(refusal) => {
                let place = Place::Reliable {
                    at: self.tunnel.at(),
                };
                self.session.break_by(Fault::Stream(place, refusal));
            }
        }
    }

    /// A part that the lossy link handed out, which may be full for an answer: its tunnel PDU is drawn as by
    /// [`Session::draw_part`](end_session::Session::draw_part).
    pub fn read_part(&mut self, bytes: &[u8], is_full: bool)
        requires whole { (self.old).session.broken ≡ None }
        requires reads { (p : Past) × (gone : Gone) × Reads self.old p gone }
        requires room { length ((self.old).session.outgoing).main + (CONTROL + ANSWER * (self.old).session.owed) ≤ MAIN_QUEUE }
        requires waits { waiting_for Lossy (self.old).session.outgoing ≡ [] }
        ensures took { (p : Past) (gone : Gone) → Reads self.old p gone → GoesTo p (with_part (self.old).session.role p bytes.now is_full) gone self.new }
        ensures reliable { waiting_for Reliable (self.new).session.outgoing ≡ waiting_for Reliable (self.old).session.outgoing }
        ensures main { length ((self.new).session.outgoing).main + ANSWER * (self.new).session.owed ≤ length ((self.old).session.outgoing).main + ANSWER * (self.old).session.owed + 2304 }
        ensures lossy { length (waiting_for Lossy (self.new).session.outgoing) ≤ 2304 }
        ensures same { (self.new).session.role ≡ (self.old).session.role }
    {
        self.session.draw_part(bytes, is_full);
    }
}
