//! What a telling of the first layout does to the parts that were sent.

ghost use Rattle.std.specs.Prelude.{◌≡◌, ◌+◌, ◌<◌, ◌≤◌, ◌^◌, ◌&&◌, ℕ, All, if◌then◌else◌, IfSome};
ghost use Rattle.mt_base.specs.Trace.{Trace};
ghost use Rattle.ack_vector.specs.Elements.{IsGood, flags_of};
ghost use Rattle.mt_windows.specs.Sending.{Act, settles_part, tells_part};
ghost use Rattle.mt_windows.specs.SendingView.{Sends, limits, queued_of};
ghost use Rattle.carrier.specs.Layout.{Upto, tells, read_near};
ghost use Rattle.carrier.specs.Sending.{hears_telling, settles, tell_all, told_reference};
ghost use Rattle.link_machine.specs.Wire.{layout_of};
ghost use Rattle.udp1_core.specs.FirstLayout.{first_wire};

use ack_vector::told;
use mt_base::{W32, near};
use mt_windows::{NUMBERS, SendWindow};

/// Takes each unsettled part as received that is told so up to the one with this low part; whether
/// one became settled.
pub fn settle_named(window: &mut SendWindow<W32>, named: u64, elements: &[u8]) -> bool
    requires good { All IsGood elements.now }
    requires low { named < 2 ^ 32 }
    ensures settles { (wait delay own peer : ℕ) (acts : Trace Act) → Sends window.old own acts →
        let layout = layout_of first_wire wait delay own peer in
        result ≡ settles layout acts (hears_telling layout acts (Some (Upto named (flags_of elements.now)))) }
    ensures sends { (wait delay own peer : ℕ) (acts : Trace Act) → Sends window.old own acts →
        Sends window.new own (hears_telling (layout_of first_wire wait delay own peer) acts (Some (Upto named (flags_of elements.now)))) }
    ensures queued { queued_of window.new ≤ queued_of window.old }
{
    match read(window, named) {
        Some(named) => settle(window, named, elements),
        None => false,
    }
}

/// The number near the last part cut that has this low part.
fn read(window: &SendWindow<W32>, low: u64) -> Option<u64>
    requires { low < 2 ^ 32 }
    ensures { (wait delay own peer : ℕ) (acts : Trace Act) → Sends window.now own acts →
        let layout = layout_of first_wire wait delay own peer in
        result ≡ read_near layout (told_reference layout acts) low }
{
    match near::<W32>(window.last_cut(), low) {
        Some(number) if number < NUMBERS => Some(number),
        _ => None,
    }
}

/// Takes each unsettled part as received that is told so; whether one became settled.
fn settle(window: &mut SendWindow<W32>, named: u64, elements: &[u8]) -> bool
    requires { All IsGood elements.now }
    ensures settles { (wait delay own peer : ℕ) (acts : Trace Act) → Sends window.old own acts →
        let layout = layout_of first_wire wait delay own peer in
        result ≡ settles layout acts (tell_all layout acts (tells (Upto named (flags_of elements.now)))) }
    ensures sends { (wait delay own peer : ℕ) (acts : Trace Act) → Sends window.old own acts →
        Sends window.new own (tell_all (layout_of first_wire wait delay own peer) acts (tells (Upto named (flags_of elements.now)))) }
    ensures queued { queued_of window.new ≤ queued_of window.old }
{
    let mut settled = false;
    for part in window.floor_part()..window.last_cut() + 1 {
        settled |= settle_part(window, named, elements, part);
    }
    settled
}

/// Takes the part as received where it is told so; whether it became settled.
fn settle_part(window: &mut SendWindow<W32>, named: u64, elements: &[u8], part: u64) -> bool
    requires { All IsGood elements.now }
    ensures settled { (first : ℕ) (acts : Trace Act) → Sends window.old first acts →
        let is_told = tells (Upto named (flags_of elements.now)) part in
        result ≡ is_told && settles_part limits first acts part }
    ensures sends { (first : ℕ) (acts : Trace Act) → Sends window.old first acts →
        let is_told = tells (Upto named (flags_of elements.now)) part in
        Sends window.new first (if is_told then tells_part first part acts else acts) }
    ensures queued { queued_of window.new ≤ queued_of window.old }
{
    told(elements, named, part).unwrap_or(false) && window.tell_part(part)
}
