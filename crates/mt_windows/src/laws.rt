//! Laws of the windows, in the words of their histories.

ghost use Rattle.std.specs.Prelude.{◌≡◌, ◌+◌, ◌-◌, ◌≤◌, ◌++◌, ℕ, List, length, take, drop, true, None, if◌then◌else◌};
ghost use Rattle.mt_base.specs.Trace.{Trace};
ghost use Rattle.mt_base.specs.Writing.{joined};
ghost use Rattle.mt_windows.specs.declared.receive.Accept.TheVariants.{New};
ghost use Rattle.mt_windows.specs.Arrived.{Parts, part_at, passed, verdict, with_part};
ghost use Rattle.mt_windows.specs.Noted.{is_noted, is_seen};
ghost use Rattle.mt_windows.specs.Sending.{Act, Limits, WasTold, cuts, given, is_open, piece, pieces, queued, settled, sum_of, waiting};

/// A part is accepted once, at the place of its number. What is accepted only adds to the bytes in
/// order, so what was pulled stays their beginning, and each pull goes on where the last one ended:
/// nothing is handed out twice.
pub fn parts_arrive_once()
    ensures once { (window first : ℕ) (parts : Parts) (n part : ℕ) → verdict window first parts n part ≡ New → part_at parts (part - first) ≡ None }
    ensures within { (window first : ℕ) (parts : Parts) (n part : ℕ) → verdict window first parts n part ≡ New → first ≤ part }
    ensures adds { (window first : ℕ) (parts : Parts) (n part : ℕ) (bytes : List ℕ) → (more : List ℕ) × (passed (with_part (verdict window first parts n part) parts (part - first) bytes) ≡ passed parts ++ more) }
    ensures goes_on { (parts : Parts) (n r : ℕ) → take n (passed parts) ++ take r (drop n (passed parts)) ≡ take (n + r) (passed parts) }
{}

/// What counts as seen was noted.
pub fn seen_was_noted()
    ensures { (tell : ℕ) (noted : List ℕ) (n : ℕ) → is_seen tell noted n ≡ true → is_noted n noted ≡ true }
{}

/// The parts joined are the beginning of the bytes given, and what waits is the rest of them.
pub fn parts_are_pieces()
    ensures { (limits : Limits) (t : Trace Act) → joined (pieces limits t) ++ waiting limits t ≡ given t }
{}

/// A part that is settled was told as received, or a transmission that carried it was.
pub fn settled_was_told()
    ensures { (limits : Limits) (t : Trace Act) (p : ℕ) → settled limits t p ≡ true → WasTold t p }
{}

/// The bytes that are queued are those given, less those of the settled parts.
pub fn queued_or_settled()
    ensures { (limits : Limits) (t : Trace Act) → queued limits t + sum_of (λ p. if is_open limits t p then 0 else length (piece limits t p)) (cuts t) ≡ length (given t) }
{}
