//! Laws of the layouts of channel PDUs.

ghost use Rattle.std.specs.Prelude.{◌≡◌, ◌<◌, ◌≤◌, ◌^◌, ◌⊎◌, ◌↔◌, ℕ, List, length, All, Ok, Err};
ghost use Rattle.mt_base.specs.declared.kinds.Role.{Role};
ghost use Rattle.dvc_pdus.specs.declared.pdu.DvcRefusal.{DvcRefusal};
ghost use Rattle.dvc_pdus.specs.Value.{Pdu, Fits, IsPdu, spelled};
ghost use Rattle.dvc_pdus.specs.Reading.{reading};
ghost use Rattle.dvc_pdus.specs.Layout.{Spells, Encodes};
ghost use Rattle.dvc_pdus.specs.Faults.{Refused};

/// What a writer spells for a PDU spells it, is read back, and is the shortest that spells it.
pub fn written_is_read()
    ensures spells { (from : Role) (pdu : Pdu) → Fits from pdu → Spells from (spelled pdu) pdu }
    ensures read { (from : Role) (pdu : Pdu) → IsPdu from pdu → reading from (spelled pdu) ≡ Ok pdu }
    ensures shortest { (from : Role) (bytes : List ℕ) (pdu : Pdu) → Spells from bytes pdu → length (spelled pdu) ≤ length bytes }
{}

/// Bytes spell one PDU or have one first fault, and never both.
pub fn one_meaning()
    ensures value { (from : Role) (bytes : List ℕ) (p q : Pdu) → Spells from bytes p → Spells from bytes q → p ≡ q }
    ensures fault { (from : Role) (bytes : List ℕ) (r q : DvcRefusal) → Refused from bytes r → Refused from bytes q → r ≡ q }
    ensures one_of_both { (from : Role) (bytes : List ℕ) → All (λ b. b < 2 ^ 8) bytes → ((pdu : Pdu) × Encodes from bytes pdu) ⊎ ((r : DvcRefusal) × Refused from bytes r) }
    ensures never_both { (from : Role) (bytes : List ℕ) (pdu : Pdu) (r : DvcRefusal) → Encodes from bytes pdu → Refused from bytes r → ⊥ }
{}

/// Reading as a function of the bytes gives the PDU that they are, or their first fault.
pub fn reading_by_layout()
    ensures pdu { (from : Role) (bytes : List ℕ) (pdu : Pdu) → All (λ b. b < 2 ^ 8) bytes → (reading from bytes ≡ Ok pdu) ↔ Encodes from bytes pdu }
    ensures fault { (from : Role) (bytes : List ℕ) (r : DvcRefusal) → All (λ b. b < 2 ^ 8) bytes → (reading from bytes ≡ Err r) ↔ Refused from bytes r }
{}
