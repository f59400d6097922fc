//! What stands for steps tells of them.

ghost use Rattle.std.specs.Prelude.{◌≡◌};
ghost use Rattle.mt_base.specs.Trace.{Trace, ◌▷◌};
ghost use Rattle.mt_endpoint.specs.Acts.{Act};
ghost use Rattle.end_calls.specs.Calls.{Own};
ghost use Rattle.mt_session.specs.Steps.{Step, Calls, entries};
ghost use Rattle.mt_session.specs.Turns.{Over, stage};
ghost use Rattle.mt_session.specs.Live.{Seen, First, Live};
ghost use Rattle.mt_session.specs.Carried.{Carried};

use crate::end::End;

/// What the devices tell is what they told before and what the steps added, as lists and counts.
pub fn carried<E: End>()
    ensures { (e : E) (now : Seen) (first : First) (s : Trace Step) → Live (E.stands e) now first s → Carried first now s }
{}

/// A call of the end's own between two turns is a step.
pub fn called<E: End>()
    ensures { (e later : E) (now : Seen) (first : First) (s : Trace Step) (act : Act) →
        Live (E.stands e) now first s → stage s ≡ Over → E.stands later first.role (entries s ▷ Own act) →
        Live (E.stands later) now first (s ▷ Calls act) }
{}
