//! Laws of writing, in the words of a buffer, and of numbers that are shown in part.

ghost use Rattle.std.specs.Prelude.{◌≡◌, ◌+◌, ◌*◌, ◌/◌, ◌%◌, ◌<◌, ◌≤◌, ◌++◌, ℕ, List, [], length, drop, map, Ok, Err, Option, Some};
ghost use Rattle.mt_base.specs.declared.errors.NoRoom.{NoRoom};
ghost use Rattle.mt_base.specs.Filling.{Counted, Written, fills, in_buffer, in_room};
ghost use Rattle.mt_base.specs.Nearness.{Near, nearest};
ghost use Rattle.mt_base.specs.Space.{counted, numbers, passes};
ghost use Rattle.mt_base.specs.Writing.{Spot, puts, joined};

/// Fields are written exactly where all of them fit, and then stand in the buffer one after the
/// other, with what was behind them untouched. Passing over their lengths answers the same, and so
/// does putting them at a place, be it in the buffer or in its room.
pub fn filling()
    ensures fits { (fields : List (List ℕ)) (s : Spot) → length (joined fields) ≤ length s.after → (t : Spot) × (puts fields s ≡ Ok t) }
    ensures written { (fields : List (List ℕ)) (s t : Spot) → puts fields s ≡ Ok t → (t.before ≡ s.before ++ joined fields) × (t.after ≡ drop (length (joined fields)) s.after) }
    ensures no_room { (fields : List (List ℕ)) (s : Spot) (e : NoRoom) → puts fields s ≡ Err e → length s.after < length (joined fields) }
    ensures counted { (fields : List (List ℕ)) (s : Spot) → passes (map length fields) (numbers s) ≡ counted (puts fields s) }
    ensures placed { (fields : List (List ℕ)) (s : Spot) → (fills fields (Written s) ≡ in_buffer (puts fields s)) × (fills fields (Counted (numbers s)) ≡ in_room (counted (puts fields s))) }
{}

/// One number is near to a reference and has a given low part. Where a number lies within half the
/// modulus of the reference, its low part alone gives it back.
pub fn nearness()
    ensures one { (modulus reference low : ℕ) (x y : Option ℕ) → 0 < modulus → Near modulus reference low x → Near modulus reference low y → x ≡ y }
    ensures value { (half reference low : ℕ) → 0 < half → low < 2 * half → Near (2 * half) reference low (nearest (2 * half) reference low) }
    ensures shown { (half reference low n : ℕ) → 0 < half → low < 2 * half → nearest (2 * half) reference low ≡ Some n → n % (2 * half) ≡ low }
    ensures meant { (half reference n : ℕ) → 0 < half → reference ≤ n + half → n < reference + half → nearest (2 * half) reference (n % (2 * half)) ≡ Some n }
{}
