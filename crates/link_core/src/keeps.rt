//! What one link keeps to, whatever its version.

ghost use Rattle.std.specs.Prelude.{◌≡◌, ◌+◌, ◌<◌, ◌≤◌, ℕ, true, None};
ghost use Rattle.mt_base.specs.Trace.{Trace};
ghost use Rattle.mt_windows.specs.Sending.{cuts, lowest_or_next, queued, reach};
ghost use Rattle.mt_windows.specs.SendingView.{limits};
ghost use Rattle.mt_windows.specs.declared.limits.TheConstants.{QUEUE, SPAN, WINDOW};
ghost use Rattle.carrier.specs.Due.{meant};
ghost use Rattle.carrier.specs.Entries.{Entry};
ghost use Rattle.carrier.specs.Faithful.{HasRoom, InOrder, PartsWereGiven, PulledWasPassed, SendsNext, ShowsMeant, TellsReceived, carried};
ghost use Rattle.carrier.specs.Law.{Faithful};
ghost use Rattle.carrier.specs.Sending.{acts, is_closed, timer};
ghost use Rattle.link_core.specs.CoreView.{link_layout};

use carrier::{faithful_links, links_close};

/// What a link of whatever version and initial numbers keeps to, whatever comes: each datagram shows
/// what it means; one with data carries an unsettled part or the next one, of 1 to 1,000 bytes; the
/// datagrams with data have the numbers from the first one on, in order; the parts joined are the
/// beginning of what was given; only accepted parts, or transmissions that were seen, are told; what was pulled is the beginning of
/// the accepted parts joined; what is queued, the parts past the lowest unsettled one, and the
/// transmissions past the last one known as told are within their bounds; and the 17th expiry in a
/// row is the last, after which nothing is sent any more. A machine that stands for a trace is such
/// a link ([`crate::LinkCore`]).
pub fn links_keep()
    ensures asks { (own peer version : ℕ) → HasRoom (link_layout own peer version) }
    ensures shows { (own peer version : ℕ) (t : Trace Entry)
        → let layout = link_layout own peer version in
        Faithful layout t → ShowsMeant layout t }
    ensures next { (own peer version : ℕ) (t : Trace Entry)
        → let layout = link_layout own peer version in
        Faithful layout t → SendsNext layout t }
    ensures numbers { (own peer version : ℕ) (t : Trace Entry)
        → let layout = link_layout own peer version in
        Faithful layout t → InOrder layout (acts layout t) (carried layout t) }
    ensures pieces { (own peer version : ℕ) (t : Trace Entry)
        → let layout = link_layout own peer version in
        Faithful layout t → PartsWereGiven layout t }
    ensures told { (own peer version : ℕ) (t : Trace Entry)
        → let layout = link_layout own peer version in
        Faithful layout t → TellsReceived layout t }
    ensures pulled { (own peer version : ℕ) (t : Trace Entry)
        → let layout = link_layout own peer version in
        Faithful layout t → PulledWasPassed layout t }
    ensures queue { (own peer version : ℕ) (t : Trace Entry)
        → let layout = link_layout own peer version in
        Faithful layout t → queued limits (acts layout t) ≤ QUEUE }
    ensures window { (own peer version : ℕ) (t : Trace Entry) (p : ℕ)
        → let layout = link_layout own peer version in
        Faithful layout t → p < cuts (acts layout t)
        → p < lowest_or_next limits (acts layout t) + WINDOW }
    ensures reach { (own peer version : ℕ) (t : Trace Entry)
        → let layout = link_layout own peer version in
        Faithful layout t → reach limits (acts layout t) ≤ SPAN }
    ensures expiries { (own peer version : ℕ) (t : Trace Entry)
        → (timer (link_layout own peer version) t).expiries ≤ 17 }
    ensures silent { (own peer version : ℕ) (t : Trace Entry) (now : ℕ)
        → let layout = link_layout own peer version in
        is_closed layout t ≡ true → meant layout t now ≡ None }
{
    faithful_links();
    links_close();
}
