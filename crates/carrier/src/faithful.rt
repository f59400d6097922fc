//! What follows from the law of a link for one of its ends.

ghost use Rattle.std.specs.Prelude.{◌≡◌, ◌+◌, ◌≤◌, ℕ, true, None};
ghost use Rattle.mt_base.specs.Trace.{Trace, ◌▷◌};
ghost use Rattle.mt_windows.specs.Sending.{queued, reach};
ghost use Rattle.carrier.specs.Due.{meant};
ghost use Rattle.carrier.specs.Entries.{Entry};
ghost use Rattle.carrier.specs.Faithful.{InOrder, PartsWereGiven, PulledWasPassed, SendsNext, ShowsMeant, TellsReceived, HasRoom, WithinWindow, carried};
ghost use Rattle.carrier.specs.Law.{Faithful};
ghost use Rattle.carrier.specs.Layout.{Layout};
ghost use Rattle.carrier.specs.Sending.{acts, is_closed, timer};

/// An end of a link, whatever the other end and the network do: a datagram shows what it means; one with data carries an unsettled part or the next one, and the datagrams
/// with data have the numbers from the first one on, in order; the parts joined are the beginning
/// of what was given; what is told was received; what was pulled is the beginning of the accepted
/// parts joined; and what is queued, the parts past the lowest unsettled one, and the transmissions
/// past the last one known as told are within their bounds.
pub fn faithful_links()
    ensures next { (layout : Layout) (t : Trace Entry) → HasRoom layout → Faithful layout t
        → SendsNext layout t }
    ensures shows { (layout : Layout) (t : Trace Entry) → HasRoom layout → Faithful layout t
        → ShowsMeant layout t }
    ensures numbers { (layout : Layout) (t : Trace Entry) → HasRoom layout → Faithful layout t
        → InOrder layout (acts layout t) (carried layout t) }
    ensures pieces { (layout : Layout) (t : Trace Entry) → HasRoom layout → Faithful layout t
        → PartsWereGiven layout t }
    ensures told { (layout : Layout) (t : Trace Entry) → HasRoom layout → Faithful layout t
        → TellsReceived layout t }
    ensures pulled { (layout : Layout) (t : Trace Entry) → Faithful layout t → PulledWasPassed layout t }
    ensures queue { (layout : Layout) (t : Trace Entry) → HasRoom layout → Faithful layout t
        → queued layout.bounds.windows (acts layout t) ≤ layout.bounds.windows.queue }
    ensures window { (layout : Layout) (t : Trace Entry) → HasRoom layout → Faithful layout t
        → WithinWindow layout (acts layout t) }
    ensures reach { (layout : Layout) (t : Trace Entry) → HasRoom layout → Faithful layout t
        → reach layout.bounds.windows (acts layout t) ≤ layout.bounds.windows.span }
{}

/// A link that is not heard closes after a bounded number of expiries in a row; a closed link sends
/// nothing, and stays closed.
pub fn links_close()
    ensures expiries { (layout : Layout) (t : Trace Entry)
        → (timer layout t).expiries ≤ layout.bounds.expiries + 1 }
    ensures silent { (layout : Layout) (t : Trace Entry) (now : ℕ) → is_closed layout t ≡ true
        → meant layout t now ≡ None }
    ensures stays { (layout : Layout) (t : Trace Entry) (e : Entry) → Faithful layout (t ▷ e)
        → is_closed layout t ≡ true → is_closed layout (t ▷ e) ≡ true }
{}
