//! Laws of the layout.

ghost use Rattle.std.specs.Prelude.{◌≡◌, ◌<◌, ◌≤◌, ◌^◌, ◌⊎◌, ◌↔◌, ℕ, List, length, slice_index, All, Ok, Err};
ghost use Rattle.carrier.specs.declared.second_layout.Refusal2.{Refusal2};
ghost use Rattle.carrier.specs.declared.second_layout.Refusal2.TheVariants as refusal;
ghost use Rattle.udp1_packets.specs.Value.{Packet as FirstPacket, Syn, SynBody};
ghost use Rattle.udp1_packets.specs.Layout.{Spells as SpellsFirst};
ghost use Rattle.udp2_packets.specs.Value.{Packet};
ghost use Rattle.udp2_packets.specs.Layout.{IsPacket, Spells, spelled};
ghost use Rattle.udp2_packets.specs.Faults.{Refused};
ghost use Rattle.udp2_packets.specs.Reading.{reading};

/// What a writer writes of a packet spells it, and is read back.
pub fn written_is_read()
    ensures spells { (p : Packet) → IsPacket p → length (spelled p) ≤ 1232 → Spells (spelled p) p }
    ensures read { (p : Packet) → IsPacket p → reading (spelled p) ≡ Ok p }
{}

/// A datagram spells one packet or has one first fault, and never both.
pub fn one_meaning()
    ensures value { (datagram : List ℕ) (p q : Packet)
        → Spells datagram p → Spells datagram q → p ≡ q }
    ensures fault { (datagram : List ℕ) (r q : Refusal2)
        → Refused datagram r → Refused datagram q → r ≡ q }
    ensures one_of_both { (datagram : List ℕ) → All (λ b. b < 2 ^ 8) datagram
        → length datagram ≤ 1232 → ((p : Packet) × Spells datagram p) ⊎ ((r : Refusal2) × Refused datagram r) }
    ensures never_both { (datagram : List ℕ) (p : Packet) (r : Refusal2)
        → Spells datagram p → Refused datagram r → ⊥ }
{}

/// Reading as a function of the bytes gives the packet that they spell, or their first fault.
pub fn reading_by_layout()
    ensures packet { (datagram : List ℕ) (p : Packet) → All (λ b. b < 2 ^ 8) datagram
        → length datagram ≤ 1232 → (reading datagram ≡ Ok p) ↔ Spells datagram p }
    ensures fault { (datagram : List ℕ) (r : Refusal2) → All (λ b. b < 2 ^ 8) datagram
        → (reading datagram ≡ Err r) ↔ Refused datagram r }
{}

/// A packet of the second layout has at 7 a byte of at least 0x40, and a datagram with a lower
/// byte there is refused for its short length. An opening of the first layout has at 7 the low byte of
/// its flags, 0x01, or 0x05 where it answers one. So no bytes are both.
pub fn separation()
    ensures high { (datagram : List ℕ) (p : Packet)
        → Spells datagram p → 0x40 ≤ slice_index datagram 7 }
    ensures low { (datagram : List ℕ) → 8 ≤ length datagram → slice_index datagram 7 < 0x40
        → Refused datagram (refusal.ShortLength 0) }
    ensures apart { (bytes : List ℕ) (opening : FirstPacket) (syn : Syn) (second : Packet)
        → SpellsFirst bytes opening → opening.body ≡ SynBody syn → Spells bytes second → ⊥ }
{}
