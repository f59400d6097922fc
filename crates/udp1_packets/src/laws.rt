//! Laws of the layout.

ghost use Rattle.std.specs.Prelude.{◌≡◌, ◌⊎◌, ◌<◌, ◌^◌, ℕ, List, All, slice_index};
ghost use Rattle.carrier.specs.declared.first_layout.Refusal1.{Refusal1};
ghost use Rattle.udp1_packets.specs.Faults.{Refused};
ghost use Rattle.udp1_packets.specs.Layout.{Spells, IsPacket, spelled};
ghost use Rattle.udp1_packets.specs.Value.{Packet, Syn, SynBody};

/// What a writer spells for a packet spells it, and spells no other: reading it gives the packet
/// back.
pub fn written_is_read()
    ensures spells { (p : Packet) → IsPacket p → Spells (spelled p) p }
    ensures no_other { (p q : Packet) → IsPacket p → Spells (spelled p) q → q ≡ p }
{}

/// Bytes spell one packet or have one first fault, and never both.
pub fn one_meaning()
    ensures value { (bytes : List ℕ) (p q : Packet) → Spells bytes p → Spells bytes q → p ≡ q }
    ensures fault { (bytes : List ℕ) (r q : Refusal1) → Refused bytes r → Refused bytes q → r ≡ q }
    ensures one_of_both { (bytes : List ℕ) → All (λ b. b < 2 ^ 8) bytes
        → ((p : Packet) × Spells bytes p) ⊎ ((r : Refusal1) × Refused bytes r) }
    ensures never_both { (bytes : List ℕ) (p : Packet) (r : Refusal1)
        → Spells bytes p → Refused bytes r → ⊥ }
{}

/// The eighth byte of an opening is 0x01 or 0x05, so bytes with another there open nothing.
pub fn opening_byte()
    ensures { (bytes : List ℕ) (p : Packet) (syn : Syn) → Spells bytes p → p.body ≡ SynBody syn
        → (slice_index bytes 7 ≡ 0x01) ⊎ (slice_index bytes 7 ≡ 0x05) }
{}
