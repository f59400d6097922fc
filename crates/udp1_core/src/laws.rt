//! Laws of the first layout.

ghost use Rattle.std.specs.Prelude.{◌≡◌, ◌≤◌, ℕ, Bool, List, Option, Some, None, IfSome, length};
ghost use Rattle.carrier.specs.Due.{due};
ghost use Rattle.carrier.specs.Law.{Faithful};
ghost use Rattle.carrier.specs.Layout.{Carried, Received, named_in};
ghost use Rattle.carrier.specs.LayoutLaw.{IsCarried, IsLayout, datagram_of};
ghost use Rattle.carrier.specs.Receiving.{last_told};
ghost use Rattle.udp1_core.specs.Exchange.{end, part, part_again, telling, given, sent, came, told};
ghost use Rattle.udp1_core.specs.FirstLayout.{first_layout};

/// The first layout reads back what it spells, tells only what was received and names the last
/// number received, and fits its datagrams: a part can always carry what was received.
pub fn first_layout_is_read()
    ensures reads { (wait delay own peer : ℕ) → 1 ≤ own → 1 ≤ peer
        → IsLayout (first_layout wait delay own peer) }
    ensures named { (wait delay own peer : ℕ) (r : Received) (above : ℕ)
        → let layout = first_layout wait delay own peer in
        named_in (layout.told r above) ≡ last_told layout r }
    ensures with_telling { (wait delay own peer : ℕ) (r : Received) (above : ℕ) (tells : Bool)
        (floor : Option ℕ) (load : Option Carried)
        → let layout = first_layout wait delay own peer in
        IfSome load (IsCarried layout)
        → length (layout.spell (datagram_of layout r above tells floor load)) ≤ 1132 }
{}

/// A part of two bytes is sent at once, and again when the timer expires; where it came it is told
/// of alone once the telling was owed for its time; and then nothing is sent any more.
pub fn one_part_goes_over()
    ensures sends { due end given 0 ≡ Some part }
    ensures waits { due end sent 499 ≡ None }
    ensures again { due end sent 500 ≡ Some part_again }
    ensures takes { Faithful end came }
    ensures owes { due end came 209 ≡ None }
    ensures tells { due end came 210 ≡ Some telling }
    ensures settled { (at : ℕ) → due end told at ≡ None }
{}
