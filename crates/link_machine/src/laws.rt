//! What a machine's value says of its trace.

ghost use Rattle.std.specs.Prelude.{◌≡◌, length, drop, if◌then◌else◌};
ghost use Rattle.mt_base.specs.Trace.{Trace};
ghost use Rattle.mt_windows.specs.Arrived.{passed};
ghost use Rattle.mt_windows.specs.ArrivedView.{left_of};
ghost use Rattle.carrier.specs.Entries.{Entry, pulled};
ghost use Rattle.carrier.specs.Receiving.{accepted};
ghost use Rattle.carrier.specs.Sending.{is_closed};
ghost use Rattle.carrier.specs.declared.state.LinkState.TheVariants.{Open, Closed as IsClosed};
ghost use Rattle.link_machine.specs.Wire.{Wire};
ghost use Rattle.link_machine.specs.MachineView.{Machine as MachineValue, Stands, condition_of, layout_at};

/// Of a machine that stands for a trace: what is left to be pulled are the bytes of the accepted parts
/// in order, without those that were pulled; and the link is closed exactly after the 17th expiry in a
/// row. How many bytes are queued is said by `queued` of the machine.
pub fn a_machine_is_its_trace()
    ensures left { (wire : Wire) (m : MachineValue) (t : Trace Entry) → Stands wire m t
        → left_of m.receiver.inbox ≡ drop (length (pulled t)) (passed (accepted (layout_at wire m) t)) }
    ensures state { (wire : Wire) (m : MachineValue) (t : Trace Entry) → Stands wire m t
        → condition_of m ≡ (if is_closed (layout_at wire m) t then IsClosed 17 else Open) }
{}
