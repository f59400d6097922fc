//! Bytes of the main streams move.

ghost use Rattle.std.specs.Prelude.{◌≡◌, ◌≤◌, length, take, OnErr, OnOk};
ghost use Rattle.mt_base.specs.declared.kinds.Role.{Role as Side};
ghost use Rattle.mt_base.specs.Trace.{Trace, ◌▷◌};
ghost use Rattle.end_calls.specs.Calls.{Entry, MainOut};
ghost use Rattle.end_calls.specs.Law.{unsent};
ghost use Rattle.endpoint.specs.Laws.{KeepsLaws};
ghost use Rattle.endpoint.specs.Standing.{EndStands};
ghost use Rattle.end_pair.specs.Moving.{HandsOut, TakesIn, needed, up_to};

use crate::pair::Pair;
use carrier::{Carrier, Post};
use endpoint::Endpoint;
use mt_base::{NoMemory, Role};

/// How many bytes more are asked of a sender.
fn bytes_needed(limit: Option<usize>, kept: usize, waiting: usize) -> usize
    ensures { result ≡ needed limit kept waiting }
{
    match limit {
        None => waiting,
        Some(limit) => waiting.min(limit.saturating_sub(kept)),
    }
}

/// The bytes that are offered to a receiver.
fn offered(limit: Option<usize>, bytes: &[u8]) -> &[u8]
    ensures { result.now ≡ up_to limit bytes.now }
{
    match limit {
        None => bytes,
        Some(limit) => &bytes[..limit.min(bytes.len())],
    }
}

/// The sender hands out as many bytes as `out` has room for, where as many wait.
fn pour<C: Carrier + Drop, P: Post + Drop>(from: &mut Endpoint<C, P>, out: &mut [u8])
    ensures poured { (role : Side) (t : Trace Entry) → EndStands C.stands C.left C.condition P.stands P.left P.condition from.old role t → length out.old ≤ length (unsent role t)
        → (out.new ≡ take (length out.old) (unsent role t)) × EndStands C.stands C.left C.condition P.stands P.left P.condition from.new role (t ▷ MainOut (length out.old) (take (length out.old) (unsent role t))) }
    ensures laws { KeepsLaws C.law P.law from.old from.new }
{
    from.main_out(out);
}

/// The sender hands out as many bytes as are needed, behind those that are under way.
fn hand_out<C: Carrier + Drop, P: Post + Drop>(
    from: &mut Endpoint<C, P>,
    under_way: &mut Vec<u8>,
    limit: Option<usize>,
) -> Result<(), NoMemory>
    requires lawful { (role : Side) × (t : Trace Entry) × EndStands C.stands C.left C.condition P.stands P.left P.condition from.old role t }
    ensures handed { (role : Side) (t : Trace Entry) → EndStands C.stands C.left C.condition P.stands P.left P.condition from.old role t → OnOk result (HandsOut C.stands C.left C.condition P.stands P.left P.condition role t limit under_way.old.items under_way.new.items from.new) }
    ensures unchanged { OnErr result ((from.new ≡ from.old) × (under_way.new.items ≡ under_way.old.items)) }
    ensures laws { KeepsLaws C.law P.law from.old from.new }
{
    let kept = under_way.len();
    let more = bytes_needed(limit, kept, from.main_queued());
    under_way.resize(kept + more, 0)?;
    pour(from, &mut under_way[kept..]);
    Ok(())
}

/// The receiver takes bytes that are under way, and gives their number.
fn take_in<C: Carrier + Drop, P: Post + Drop>(
    to: &mut Endpoint<C, P>,
    under_way: &mut Vec<u8>,
    limit: Option<usize>,
) -> usize
    ensures taken { (role : Side) (t : Trace Entry) → EndStands C.stands C.left C.condition P.stands P.left P.condition to.old role t → TakesIn C.stands C.left C.condition P.stands P.left P.condition role t limit under_way.old.items under_way.new.items result to.new }
    ensures laws { KeepsLaws C.law P.law to.old to.new }
{
    let taken = to.main_in(offered(limit, under_way));
    under_way.drain(..taken);
    taken
}

impl<C: Carrier + Drop, P: Post + Drop> Pair<C, P> {
    ghost use Rattle.std.specs.Prelude.{◌≡◌, IfOk, OnErr};
    ghost use Rattle.mt_base.specs.Trace.{Trace};
    ghost use Rattle.mt_base.specs.declared.kinds.Role.{Role as Side};
    ghost use Rattle.end_calls.specs.Calls.{Entry};
    ghost use Rattle.end_pair.specs.Joined.{PairStands};
    ghost use Rattle.end_pair.specs.Laws.{PairKeepsLaws};
    ghost use Rattle.end_pair.specs.Moving.{Moves};

    /// Moves bytes of the main stream from this end to the other, at most so many, or all, and gives how many the
    /// other end took. Those that it did not take stay under way, and come first the next time. Where memory is
    /// wanting nothing changes.
    pub fn move_main(&mut self, side: Role, limit: Option<usize>) -> Result<usize, NoMemory>
        ensures moved { (w : Trace (Side × Entry)) → PairStands C.stands C.left C.condition P.stands P.left P.condition self.old w → IfOk result (λ count. (v : Trace (Side × Entry)) × Moves side limit count w v × PairStands C.stands C.left C.condition P.stands P.left P.condition self.new v) }
        ensures unchanged { OnErr result (self.new ≡ self.old) }
        ensures laws { PairKeepsLaws C.law P.law self.old self.new }
    {
        match side {
            Role::Server => {
                hand_out(&mut self.server, &mut self.from_server, limit)?;
                Ok(take_in(&mut self.client, &mut self.from_server, limit))
            }
            Role::Client => {
                hand_out(&mut self.client, &mut self.from_client, limit)?;
                Ok(take_in(&mut self.server, &mut self.from_client, limit))
            }
        }
    }
}
