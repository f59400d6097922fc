//! What a telling of the second layout does to the transmissions that were made.

ghost use Rattle.std.specs.Prelude.{◌≡◌, ◌+◌, ◌<◌, ◌≤◌, ◌^◌, ℕ, length, replicate, true, IfSome};
ghost use Rattle.mt_base.specs.Trace.{Trace};
ghost use Rattle.coded_vector.specs.CodedBytes.{flags_of};
ghost use Rattle.mt_windows.specs.Sending.{Act, is_recent, settles_transmission};
ghost use Rattle.mt_windows.specs.SendingView.{Sends, limits, queued_of};
ghost use Rattle.carrier.specs.Layout.{Upto, From, tells, read_near};
ghost use Rattle.carrier.specs.Sending.{hears_telling, tell_all, told_reference};
ghost use Rattle.udp2_core.specs.SettleView.{Settles, layout_from, tells_recent};

use coded_vector::read_coded;
use mt_base::{W16, near};
use mt_windows::{NUMBERS, SPAN, SendWindow};

/// Takes as received so many transmissions up to the one with this low part; whether a part became
/// settled.
pub fn settle_last(window: &mut SendWindow<W16>, named: u64, count: u64) -> bool
    requires low { named < 2 ^ 16 }
    requires some { 1 ≤ count }
    ensures settles { (first : ℕ) (acts : Trace Act) → Sends window.old first acts →
        Settles first result window.new acts (hears_telling (layout_from first) acts (Some (Upto named (replicate count true)))) }
    ensures queued { queued_of window.new ≤ queued_of window.old }
{
    match read(window, named) {
        Some(named) => settle_upto(window, named, count - 1),
        None => false,
    }
}

/// Takes as received the transmissions from the one with this low part on whose flags say so;
/// whether a part became settled.
pub fn settle_from(window: &mut SendWindow<W16>, named: u64, coded: &[u8]) -> bool
    requires low { named < 2 ^ 16 }
    requires few { length coded.now < 128 }
    ensures settles { (first : ℕ) (acts : Trace Act) → Sends window.old first acts →
        Settles first result window.new acts (hears_telling (layout_from first) acts (Some (From named (flags_of coded.now)))) }
    ensures queued { queued_of window.new ≤ queued_of window.old }
{
    match read(window, named) {
        Some(base) => settle_flags(window, base, coded),
        None => false,
    }
}

/// The number near the last transmission made that has this low part.
fn read(window: &SendWindow<W16>, low: u64) -> Option<u64>
    requires { low < 2 ^ 16 }
    ensures number { (first : ℕ) (acts : Trace Act) → Sends window.now first acts →
        result ≡ read_near (layout_from first) (told_reference (layout_from first) acts) low }
    ensures bound { IfSome result (λ n. n < 2 ^ 62) }
{
    match near::<W16>(window.made(), low) {
        Some(number) if number < NUMBERS => Some(number),
        _ => None,
    }
}

/// Takes this transmission and so many below it as received; whether a part became settled.
fn settle_upto(window: &mut SendWindow<W16>, named: u64, below: u64) -> bool
    requires { named < 2 ^ 62 }
    ensures settles { (first : ℕ) (acts : Trace Act) → Sends window.old first acts →
        Settles first result window.new acts (tell_all (layout_from first) acts (tells (Upto named (replicate (below + 1) true)))) }
    ensures queued { queued_of window.new ≤ queued_of window.old }
{
    let mut settled = false;
    for number in named.saturating_sub(below)..named + 1 {
        settled |= settle_number(window, number);
    }
    settled
}

/// Takes the transmissions from this one on as received whose flags say so; whether a part became
/// settled.
fn settle_flags(window: &mut SendWindow<W16>, base: u64, coded: &[u8]) -> bool
    requires base { base < 2 ^ 62 }
    requires few { length coded.now < 128 }
    ensures settles { (first : ℕ) (acts : Trace Act) → Sends window.old first acts →
        Settles first result window.new acts (tell_all (layout_from first) acts (tells (From base (flags_of coded.now)))) }
    ensures queued { queued_of window.new ≤ queued_of window.old }
{
    let mut settled = false;
    for (offset, received) in read_coded(coded) {
        if received {
            settled |= settle_number(window, base + offset);
        }
    }
    settled
}

/// Takes the transmission as received where it is one of the last ones; whether a part became
/// settled.
fn settle_number(window: &mut SendWindow<W16>, number: u64) -> bool
    requires { number < 2 ^ 63 }
    ensures settled { (first : ℕ) (acts : Trace Act) → Sends window.old first acts →
        result ≡ settles_transmission limits first acts number }
    ensures sends { (first : ℕ) (acts : Trace Act) → Sends window.old first acts →
        Sends window.new first (tells_recent first number acts) }
    ensures queued { queued_of window.new ≤ queued_of window.old }
{
    let made = window.made();
    if made < number || number + SPAN <= made {
        return false;
    }
    window.tell_transmission(number)
}
