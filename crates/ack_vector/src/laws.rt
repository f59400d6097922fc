//! Laws of the vector: what is written spells the flags, in the longest stretches, and which flag
//! tells of which number.

ghost use Rattle.std.specs.Prelude.{◌≡◌, ◌+◌, ◌*◌, ◌<◌, ◌≤◌, ◌⊎◌, ◌∷◌, ◌++◌, ℕ, Bool, List, None, Some, length, map, flat_map};
ghost use Rattle.ack_vector.specs.Elements.{Spell, flags_in, flags_of, run_of};
ghost use Rattle.ack_vector.specs.Longest.{HoldLongest, elements_of};
ghost use Rattle.ack_vector.specs.Numbers.{flag_told};

/// Each element that is written holds the longest stretch of equal flags that comes next, at most
/// 63, and no other list of elements does so.
pub fn longest_stretches()
    ensures held { (flags : List Bool) → HoldLongest (elements_of flags) flags }
    ensures only { (es : List ℕ) (flags : List Bool) →
        HoldLongest es flags → es ≡ elements_of flags }
{}

/// What is written for flags spells just these flags, in no more elements than flags.
pub fn written_spells()
    ensures spells { (flags : List Bool) → Spell (elements_of flags) flags }
    ensures few { (flags : List Bool) → length (elements_of flags) ≤ length flags }
{}

/// The flags of a vector are those of its runs, joined in order; they are at most 63 for each
/// element.
pub fn flags_of_runs()
    ensures joined { (es : List ℕ) → flags_of es ≡ flat_map flags_in (map run_of es) }
    ensures few { (es : List ℕ) → length (flags_of es) ≤ 63 * length es }
{}

/// A flag tells of the number that lies as far below the last as there are flags behind it. No
/// flag tells of a number above the last, or further below it than there are flags.
pub fn numbers_told()
    ensures told { (before after : List Bool) (flag : Bool) (last number : ℕ) →
        number + length after ≡ last →
        flag_told (before ++ flag ∷ after) last number ≡ Some flag }
    ensures untold { (flags : List Bool) (last number : ℕ) →
        (last < number) ⊎ (number + length flags ≤ last) → flag_told flags last number ≡ None }
{}
