//! The parts of a turn on the wire.

ghost use Rattle.std.specs.Prelude.{◌≡◌, ◌≤◌, ◌<◌, ◌^◌, ◌==◌, OnOk, OnErr};
ghost use Rattle.mt_base.specs.Trace.{Trace};
ghost use Rattle.mt_outside.specs.Faults.{Rose};
ghost use Rattle.mt_session.specs.Steps.{Step};
ghost use Rattle.mt_session.specs.Turns.{Taking, Waited, Sending, Filling, stage, came_count, left_count};
ghost use Rattle.mt_session.specs.Live.{Seen, First, Live};
ghost use Rattle.mt_session.specs.Leading.{LeadsTo, Takes, Sends, SameTurn};
ghost use Rattle.mt_session.specs.Counting.{Grew};

use crate::end::End;
use crate::tally::Tally;
use mt_base::Kind;
use mt_outside::{Failed, Wire};

/// The datagrams that a turn takes, and sends, at most.
const DATAGRAMS: usize = 64;

/// Gives the end an empty datagram, where its link is there.
fn pull<E: End>(end: &mut E, now: u64)
    requires moment { now < 2 ^ 62 }
    ensures steps { (first : First) (seen : Seen) (s : Trace Step) →
        Live (E.stands end.old) (record seen { now = now }) first s →
        stage s ≡ Waited →
        LeadsTo (E.stands end.new) (record seen { now = now }) first (λ later. (stage later ≡ Sending) × (left_count later ≡ left_count s) × SameTurn s later) }
{
    if end.attached(Kind::Reliable) {
        end.wire_in(Kind::Reliable, now, &[]);
    }
}

/// Takes a datagram from the wire, where one is there, and gives it to the end. Where none is there and none was, it
/// gives an empty one.
fn take_one<E: End, W: Wire>(
    end: &mut E,
    now: u64,
    wire: &mut W,
    tally: &mut Tally,
    is_first: bool,
) -> Result<bool, Failed>
    requires moment { now < 2 ^ 62 }
    ensures stays { W.stays wire.old wire.new }
    ensures never_falls { W.faults wire.old ≤ W.faults wire.new }
    ensures cause { OnErr result (Rose (W.faults wire.old) (W.faults wire.new)) }
    ensures counts { OnOk result (W.faults wire.new ≡ W.faults wire.old) }
    ensures grew { Grew tally.old tally.new }
    ensures steps { (first : First) (seen : Seen) (s : Trace Step) →
        Live (E.stands end.old) (record seen { wire = W.told wire.old; tally = tally.old; now = now }) first s →
        stage s ≡ Taking → is_first ≡ (came_count s == 0) →
        LeadsTo (E.stands end.new) (record seen { wire = W.told wire.new; tally = tally.new; now = now }) first (Takes result s) }
{
    let mut datagram = [0u8; 1232];
    match wire.take(&mut datagram) {
        Ok(Some(count)) => {
            end.wire_in(Kind::Reliable, now, &datagram[..count]);
            tally.note_taken();
            Ok(true)
        }
        Ok(None) => {
            if is_first {
                pull(end, now);
            }
            Ok(false)
        }
        Err(failed) => Err(failed),
    }
}

/// Takes datagrams until there is none or enough came.
pub(crate) fn take_all<E: End, W: Wire>(
    end: &mut E,
    now: u64,
    wire: &mut W,
    tally: &mut Tally,
) -> Result<(), Failed>
    requires moment { now < 2 ^ 62 }
    ensures stays { W.stays wire.old wire.new }
    ensures never_falls { W.faults wire.old ≤ W.faults wire.new }
    ensures cause { OnErr result (Rose (W.faults wire.old) (W.faults wire.new)) }
    ensures counts { OnOk result (W.faults wire.new ≡ W.faults wire.old) }
    ensures grew { Grew tally.old tally.new }
    ensures steps { (first : First) (seen : Seen) (s : Trace Step) →
        Live (E.stands end.old) (record seen { wire = W.told wire.old; tally = tally.old; now = now }) first s →
        stage s ≡ Taking → came_count s ≡ 0 → left_count s ≡ 0 →
        LeadsTo (E.stands end.new) (record seen { wire = W.told wire.new; tally = tally.new; now = now }) first (λ later. OnOk result ((stage later ≡ Sending) × (left_count later ≡ 0)) × SameTurn s later) }
{
    for count in 0..DATAGRAMS {
        match take_one(end, now, wire, tally, count == 0) {
            Ok(true) => {}
            Ok(false) => return Ok(()),
            Err(failed) => return Err(failed),
        }
    }
    Ok(())
}

/// Sends a datagram of the end, where it has one.
fn send_one<E: End, W: Wire>(end: &mut E, now: u64, wire: &mut W) -> Result<bool, Failed>
    requires moment { now < 2 ^ 62 }
    ensures stays { W.stays wire.old wire.new }
    ensures never_falls { W.faults wire.old ≤ W.faults wire.new }
    ensures cause { OnErr result (Rose (W.faults wire.old) (W.faults wire.new)) }
    ensures counts { OnOk result (W.faults wire.new ≡ W.faults wire.old) }
    ensures steps { (first : First) (seen : Seen) (s : Trace Step) →
        Live (E.stands end.old) (record seen { wire = W.told wire.old; now = now }) first s →
        stage s ≡ Sending →
        LeadsTo (E.stands end.new) (record seen { wire = W.told wire.new; now = now }) first (Sends result s) }
{
    let mut datagram = [0u8; 1232];
    let Some(count) = end.wire_out(Kind::Reliable, now, &mut datagram) else {
        return Ok(false);
    };
    match wire.send(&datagram[..count]) {
        Ok(()) => Ok(true),
        Err(failed) => Err(failed),
    }
}

/// Sends datagrams until the end has none or enough were sent.
pub(crate) fn send_all<E: End, W: Wire>(end: &mut E, now: u64, wire: &mut W) -> Result<(), Failed>
    requires moment { now < 2 ^ 62 }
    ensures stays { W.stays wire.old wire.new }
    ensures never_falls { W.faults wire.old ≤ W.faults wire.new }
    ensures cause { OnErr result (Rose (W.faults wire.old) (W.faults wire.new)) }
    ensures counts { OnOk result (W.faults wire.new ≡ W.faults wire.old) }
    ensures steps { (first : First) (seen : Seen) (s : Trace Step) →
        Live (E.stands end.old) (record seen { wire = W.told wire.old; now = now }) first s →
        stage s ≡ Sending → left_count s ≡ 0 →
        LeadsTo (E.stands end.new) (record seen { wire = W.told wire.new; now = now }) first (λ later. OnOk result (stage later ≡ Filling) × SameTurn s later) }
{
    for count in 0..DATAGRAMS {
        match send_one(end, now, wire) {
            Ok(true) => {}
            Ok(false) => return Ok(()),
            Err(failed) => return Err(failed),
        }
    }
    Ok(())
}
