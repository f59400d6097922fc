//! Laws of what a reader takes.

ghost use Rattle.std.specs.Prelude.{◌≡◌, ℕ, ◌+◌, ◌<◌, ◌≤◌, Bool, true, false, ◌&&◌, ◌||◌, List, length, take, drop, Some, None};
ghost use Rattle.mt_base.specs.declared.kinds.Role.{Role};
ghost use Rattle.end_calls.specs.declared.fault.Fault.{Fault};
ghost use Rattle.end_calls.specs.Calls.{after_bytes};
ghost use Rattle.end_calls.specs.Stops.{Outset, count_from, is_empty, is_stopped};
ghost use Rattle.end_calls.specs.Streams.{Past};
ghost use Rattle.end_reader.specs.Taking.{OneFrame};

/// How many of the bytes offered of the main stream an end takes, where it takes them by
/// [`Reader::read_main`](crate::Reader::read_main) and looks for a stop before each call that begins a frame, and
/// before the first: the bytes that such a call took count, and then those behind them; none count where a stop
/// stands; and all that are left count where a fault was met.
pub fn what_is_taken_counts()
    ensures taken { (role : Role) (outset : Outset) (is_first : Bool) (p : Past) (bytes : List ℕ) (count : ℕ) → p.broken ≡ None → 0 < count → count ≤ length bytes → OneFrame role p bytes count
        → ((is_first || is_empty p.main.bytes) && is_stopped role outset p) ≡ false
        → count_from role outset is_first p bytes ≡ count + count_from role outset false (after_bytes role p (take count bytes)) (drop count bytes) }
    ensures stopped { (role : Role) (outset : Outset) (is_first : Bool) (p : Past) (bytes : List ℕ) → p.broken ≡ None
        → ((is_first || is_empty p.main.bytes) && is_stopped role outset p) ≡ true → count_from role outset is_first p bytes ≡ 0 }
    ensures broken { (role : Role) (outset : Outset) (p : Past) (bytes : List ℕ) (why : Fault) → p.broken ≡ Some why → count_from role outset false p bytes ≡ length bytes }
{}
