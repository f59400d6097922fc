//! What one link of the second layout keeps to.

ghost use Rattle.std.specs.Prelude.{◌≡◌, ◌+◌, ◌<◌, ◌≤◌, ℕ, true, None};
ghost use Rattle.mt_base.specs.Trace.{Trace};
ghost use Rattle.mt_windows.specs.Sending.{cuts, lowest_or_next, queued, reach};
ghost use Rattle.mt_windows.specs.SendingView.{limits};
ghost use Rattle.mt_windows.specs.declared.limits.TheConstants.{QUEUE, SPAN, WINDOW};
ghost use Rattle.carrier.specs.Due.{meant};
ghost use Rattle.carrier.specs.Entries.{Entry};
ghost use Rattle.carrier.specs.Faithful.{HasRoom, InOrder, PartsWereGiven, PulledWasPassed, SendsNext, ShowsMeant, TellsReceived, carried};
ghost use Rattle.carrier.specs.Law.{Faithful};
ghost use Rattle.carrier.specs.Sending.{acts, is_closed, timer};
ghost use Rattle.udp2_core.specs.SecondLayout.{second_layout};

use carrier::{faithful_links, links_close};

/// What a link of version 0x0101 keeps to, whatever comes: each datagram shows what it means; one
/// with data carries an unsettled part or the next one, of 1 to 1,000 bytes; the datagrams with data
/// have the numbers from 1 on, in order; the parts joined are the beginning of what was given; only
/// transmissions that were seen are told; what was pulled is the beginning of the accepted parts
/// joined; what is queued, the parts past the lowest unsettled one, and the transmissions past the
/// last one known as told are within their bounds; and the 17th expiry in a row is the last, after
/// which nothing is sent any more. A machine that stands for a trace is such a link
/// ([`crate::Udp2Core`]).
pub fn second_links_keep()
    ensures asks { HasRoom second_layout }
    ensures shows { (t : Trace Entry) → Faithful second_layout t → ShowsMeant second_layout t }
    ensures next { (t : Trace Entry) → Faithful second_layout t → SendsNext second_layout t }
    ensures numbers { (t : Trace Entry) → Faithful second_layout t
        → InOrder second_layout (acts second_layout t) (carried second_layout t) }
    ensures pieces { (t : Trace Entry) → Faithful second_layout t → PartsWereGiven second_layout t }
    ensures told { (t : Trace Entry) → Faithful second_layout t → TellsReceived second_layout t }
    ensures pulled { (t : Trace Entry) → Faithful second_layout t → PulledWasPassed second_layout t }
    ensures queue { (t : Trace Entry) → Faithful second_layout t
        → queued limits (acts second_layout t) ≤ QUEUE }
    ensures window { (t : Trace Entry) (p : ℕ) → Faithful second_layout t
        → p < cuts (acts second_layout t)
        → p < lowest_or_next limits (acts second_layout t) + WINDOW }
    ensures reach { (t : Trace Entry) → Faithful second_layout t
        → reach limits (acts second_layout t) ≤ SPAN }
    ensures expiries { (t : Trace Entry) → (timer second_layout t).expiries ≤ 17 }
    ensures silent { (t : Trace Entry) (now : ℕ) → is_closed second_layout t ≡ true
        → meant second_layout t now ≡ None }
{
    faithful_links();
    links_close();
}
