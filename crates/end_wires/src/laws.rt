//! A law of the main streams.

ghost use Rattle.std.specs.Prelude.{◌≡◌, ◌++◌};
ghost use Rattle.mt_base.specs.declared.kinds.Role.{Role};
ghost use Rattle.mt_base.specs.Ends.{other};
ghost use Rattle.mt_base.specs.Trace.{Trace};
ghost use Rattle.end_calls.specs.Calls.{Entry};
ghost use Rattle.end_calls.specs.Law.{given_main, taken_main};
ghost use Rattle.end_calls.specs.Net.{at};
ghost use Rattle.end_wires.specs.MainStreams.{MainInOrder, under_way};

/// What left an end is what the other took, and behind it what is under way.
pub fn what_is_under_way()
    ensures { (w : Trace (Role × Entry)) (role : Role) → MainInOrder w → given_main (at role w) ≡ taken_main (at (other role) w) ++ under_way role w }
{}
