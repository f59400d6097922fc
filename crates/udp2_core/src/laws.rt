//! Laws of the second layout.

ghost use Rattle.std.specs.Prelude.{◌≡◌, ◌≤◌, ℕ, Bool, Option, Some, None, IfSome, length};
ghost use Rattle.carrier.specs.Due.{due};
ghost use Rattle.carrier.specs.Law.{Faithful};
ghost use Rattle.carrier.specs.Layout.{Carried, Received};
ghost use Rattle.carrier.specs.LayoutLaw.{IsCarried, IsLayout, datagram_of};
ghost use Rattle.udp2_core.specs.Exchange.{came, given, part, part_again, sent, telling, told};
ghost use Rattle.udp2_core.specs.SecondLayout.{second_layout};

/// The second layout reads back what it spells, tells only what was received, of the last 512 numbers
/// up to the last one, and fits its datagrams: a part can always carry what was received.
pub fn second_layout_is_read()
    ensures reads { IsLayout second_layout }
    ensures with_telling { (r : Received) (above : ℕ) (is_telling : Bool) (floor : Option ℕ) (load : Option Carried)
        → IfSome load (IsCarried second_layout)
        → length (second_layout.spell (datagram_of second_layout r above is_telling floor load)) ≤ 1132 }
{}

/// A part of two bytes is sent at once, and again when the timer expires; where it came it is told
/// of alone once the telling was owed for its time; and then nothing is sent any more.
pub fn one_part_goes_over()
    ensures sends { due second_layout given 0 ≡ Some part }
    ensures waits { due second_layout sent 299 ≡ None }
    ensures again { due second_layout sent 300 ≡ Some part_again }
    ensures takes { Faithful second_layout came }
    ensures owes { due second_layout came 59 ≡ None }
    ensures tells { due second_layout came 60 ≡ Some telling }
    ensures settled { (at : ℕ) → due second_layout told at ≡ None }
{}
