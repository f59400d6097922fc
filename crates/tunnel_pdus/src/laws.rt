//! Laws of the layouts of both streams.

ghost use Rattle.std.specs.Prelude.{◌≡◌, ◌<◌, ◌≤◌, ◌^◌, ◌++◌, ◌∷◌, ◌↔◌, ℕ, List, [], length, drop, All, Ok, Err, Result};
ghost use Rattle.mt_base.specs.Writing.{joined};
ghost use Rattle.tunnel_pdus.specs.declared.part.Part.{Part};
ghost use Rattle.tunnel_pdus.specs.declared.part.Part.TheVariants.{Whole, More};
ghost use Rattle.tunnel_pdus.specs.declared.part.TunnelRefusal.{TunnelRefusal};
ghost use Rattle.tunnel_pdus.specs.Value.{Pdu, Frame, FitsPdu, FitsFrame, pdu_fields, frame_fields};
ghost use Rattle.tunnel_pdus.specs.Layout.{Spells, SpellsFrame};
ghost use Rattle.tunnel_pdus.specs.Faults.{Refused, RefusedFrame};
ghost use Rattle.tunnel_pdus.specs.Streams.{Begins, Front, Stream};
ghost use Rattle.tunnel_pdus.specs.Reading.{reading, frame_reading};

/// What a writer spells for a tunnel PDU spells it, and is read back whatever follows. No spelling is
/// shorter.
pub fn tunnel_written()
    ensures spells { (value : Pdu) → FitsPdu value → Spells (joined (pdu_fields value)) value }
    ensures read { (value : Pdu) (rest : List ℕ) → FitsPdu value → reading (joined (pdu_fields value) ++ rest) ≡ Ok (Whole value (length (joined (pdu_fields value)))) }
    ensures shortest { (text : List ℕ) (value : Pdu) → Spells text value → length (joined (pdu_fields value)) ≤ length text }
{}

/// Bytes have exactly one front: a tunnel PDU, the beginning of one, or a first fault. Reading gives
/// it.
pub fn tunnel_meaning()
    ensures one { (bytes : List ℕ) (a b : Result (Part Pdu) TunnelRefusal) → All (λ b. b < 2 ^ 8) bytes → Front Spells Refused bytes a → Front Spells Refused bytes b → a ≡ b }
    ensures read { (bytes : List ℕ) (a : Result (Part Pdu) TunnelRefusal) → All (λ b. b < 2 ^ 8) bytes → (reading bytes ≡ a) ↔ Front Spells Refused bytes a }
    ensures value { (text : List ℕ) (v w : Pdu) → Spells text v → Spells text w → v ≡ w }
    ensures no_prefix { (text more : List ℕ) (v w : Pdu) → Spells text v → Spells (text ++ more) w → more ≡ [] }
{}

/// A stream has one list of tunnel PDUs. Reading gives the next one and its bytes, or none where none
/// is next; and cutting the stream into pieces changes nothing.
pub fn tunnel_stream()
    ensures some { (bytes : List ℕ) → All (λ b. b < 2 ^ 8) bytes → (vs : List Pdu) × (left : List ℕ) × Stream Spells bytes vs left }
    ensures one { (bytes left right : List ℕ) (vs ws : List Pdu) → Stream Spells bytes vs left → Stream Spells bytes ws right → (vs ≡ ws) × (left ≡ right) }
    ensures next { (bytes left : List ℕ) (v : Pdu) (used : ℕ) (vs : List Pdu) → All (λ b. b < 2 ^ 8) bytes → reading bytes ≡ Ok (Whole v used) → Stream Spells (drop used bytes) vs left → Stream Spells bytes (v ∷ vs) left }
    ensures last { (bytes : List ℕ) → All (λ b. b < 2 ^ 8) bytes → ((v : Pdu) (used : ℕ) → reading bytes ≡ Ok (Whole v used) → ⊥) → Stream Spells bytes [] bytes }
    ensures whole_stays { (bytes more : List ℕ) (v : Pdu) (used : ℕ) → All (λ b. b < 2 ^ 8) bytes → reading bytes ≡ Ok (Whole v used) → reading (bytes ++ more) ≡ Ok (Whole v used) }
    ensures refusal_stays { (bytes more : List ℕ) (r : TunnelRefusal) → All (λ b. b < 2 ^ 8) bytes → reading bytes ≡ Err r → reading (bytes ++ more) ≡ Err r }
    ensures pieces { (bytes more left end : List ℕ) (vs ws : List Pdu) → Stream Spells bytes vs left → Stream Spells (left ++ more) ws end → Stream Spells (bytes ++ more) (vs ++ ws) end }
{}

/// What a writer spells for a main frame spells it, and is read back whatever follows. No spelling is
/// shorter.
pub fn frame_written()
    ensures spells { (value : Frame) → FitsFrame value → SpellsFrame (joined (frame_fields value)) value }
    ensures read { (value : Frame) (rest : List ℕ) → FitsFrame value → frame_reading (joined (frame_fields value) ++ rest) ≡ Ok (Whole value (length (joined (frame_fields value)))) }
    ensures shortest { (text : List ℕ) (value : Frame) → SpellsFrame text value → length (joined (frame_fields value)) ≤ length text }
{}

/// Bytes have exactly one front: a main frame, the beginning of one, or a first fault. Reading gives
/// it.
pub fn frame_meaning()
    ensures one { (bytes : List ℕ) (a b : Result (Part Frame) TunnelRefusal) → All (λ b. b < 2 ^ 8) bytes → Front SpellsFrame RefusedFrame bytes a → Front SpellsFrame RefusedFrame bytes b → a ≡ b }
    ensures read { (bytes : List ℕ) (a : Result (Part Frame) TunnelRefusal) → All (λ b. b < 2 ^ 8) bytes → (frame_reading bytes ≡ a) ↔ Front SpellsFrame RefusedFrame bytes a }
    ensures value { (text : List ℕ) (v w : Frame) → SpellsFrame text v → SpellsFrame text w → v ≡ w }
    ensures no_prefix { (text more : List ℕ) (v w : Frame) → SpellsFrame text v → SpellsFrame (text ++ more) w → more ≡ [] }
{}

/// A stream has one list of main frames. Reading gives the next one and its bytes, or none where none
/// is next; and cutting the stream into pieces changes nothing.
pub fn frame_stream()
    ensures some { (bytes : List ℕ) → All (λ b. b < 2 ^ 8) bytes → (vs : List Frame) × (left : List ℕ) × Stream SpellsFrame bytes vs left }
    ensures one { (bytes left right : List ℕ) (vs ws : List Frame) → Stream SpellsFrame bytes vs left → Stream SpellsFrame bytes ws right → (vs ≡ ws) × (left ≡ right) }
    ensures next { (bytes left : List ℕ) (v : Frame) (used : ℕ) (vs : List Frame) → All (λ b. b < 2 ^ 8) bytes → frame_reading bytes ≡ Ok (Whole v used) → Stream SpellsFrame (drop used bytes) vs left → Stream SpellsFrame bytes (v ∷ vs) left }
    ensures last { (bytes : List ℕ) → All (λ b. b < 2 ^ 8) bytes → ((v : Frame) (used : ℕ) → frame_reading bytes ≡ Ok (Whole v used) → ⊥) → Stream SpellsFrame bytes [] bytes }
    ensures whole_stays { (bytes more : List ℕ) (v : Frame) (used : ℕ) → All (λ b. b < 2 ^ 8) bytes → frame_reading bytes ≡ Ok (Whole v used) → frame_reading (bytes ++ more) ≡ Ok (Whole v used) }
    ensures refusal_stays { (bytes more : List ℕ) (r : TunnelRefusal) → All (λ b. b < 2 ^ 8) bytes → frame_reading bytes ≡ Err r → frame_reading (bytes ++ more) ≡ Err r }
    ensures pieces { (bytes more left end : List ℕ) (vs ws : List Frame) → Stream SpellsFrame bytes vs left → Stream SpellsFrame (left ++ more) ws end → Stream SpellsFrame (bytes ++ more) (vs ++ ws) end }
{}
