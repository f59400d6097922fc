//! One direction of the network.

ghost use Rattle.std.specs.Prelude.{◌≡◌, ◌<◌, ◌^◌, ℕ, Some, None, min};

use mt_base::NoMemory;
use std::alloc::Global;
use std::collections::VecDeque;

/// How long a datagram is under way, in milliseconds.
const DELAY: u64 = 10;

/// How long a datagram is under way that comes later.
const LONGER: u64 = 40;

/// What happens to a datagram on its way.
#[derive(Clone, Copy, Debug, PartialEq, Eq)]
pub enum Fate {
    /// It arrives after 10 milliseconds.
    Pass,
    /// It never arrives.
    Lose,
    /// It arrives after 10 milliseconds, and a copy of it after 40.
    Twice,
    /// It arrives after 40 milliseconds, behind those that are sent until then.
    Later,
}

/// A datagram under way, and the moment at which it arrives.
#[derive(Drop)]
struct Flying {
    arrives: u64,
    bytes: Vec<u8>,
}

/// One direction of the network. The datagram sent as number k has the fate at k in the plan, which
/// begins again at its end; with an empty plan each datagram passes.
#[derive(Drop)]
pub struct Way<'p> {
    alloc: Global,
    plan: &'p [Fate],
    sent: usize,
    early: VecDeque<Flying>,
    late: VecDeque<Flying>,
}

impl<'p> Way<'p> {
    /// A way on which nothing was sent.
    pub fn new(alloc: Global, plan: &'p [Fate]) -> Way<'p> {
        Way {
            alloc,
            plan,
            sent: 0,
            early: VecDeque::new(alloc),
            late: VecDeque::new(alloc),
        }
    }

    /// How many datagrams were sent.
    pub fn sent(&self) -> usize {
        self.sent
    }

    fn next_fate(&mut self) -> Fate {
        let sent = self.sent;
        self.sent = sent.saturating_add(1);
        if self.plan.is_empty() {
            return Fate::Pass;
        }
        self.plan[sent % self.plan.len()]
    }

    /// Takes a datagram at this moment, which is not before the last one.
    pub fn carry(&mut self, datagram: &[u8], now: u64) -> Result<(), NoMemory>
        requires { now < 2 ^ 62 }
    {
        match self.next_fate() {
            Fate::Pass => fly(&mut self.early, self.alloc, datagram, now + DELAY),
            Fate::Lose => Ok(()),
            Fate::Twice => {
                fly(&mut self.early, self.alloc, datagram, now + DELAY)?;
                fly(&mut self.late, self.alloc, datagram, now + LONGER)
            }
            Fate::Later => fly(&mut self.late, self.alloc, datagram, now + LONGER),
        }
    }

    /// The next datagram that has arrived at this moment, if there is one. Of two that arrive at once
    /// the one that was sent first comes first.
    pub fn arrived(&mut self, now: u64) -> Option<Vec<u8>> {
        match land(&mut self.late, now) {
            Some(datagram) => Some(datagram),
            None => land(&mut self.early, now),
        }
    }

    /// The moment at which the next datagram arrives, if one is under way.
    pub fn next_arrival(&self) -> Option<u64> {
        earlier(landing(&self.early), landing(&self.late))
    }
}

/// Puts a datagram behind those that are under way.
fn fly(
    queue: &mut VecDeque<Flying>,
    alloc: Global,
    datagram: &[u8],
    arrives: u64,
) -> Result<(), NoMemory> {
    let bytes = datagram.to_vec(alloc)?;
    queue.push_back(Flying { arrives, bytes })?;
    Ok(())
}

/// The moment at which the first of these arrives.
fn landing(queue: &VecDeque<Flying>) -> Option<u64> {
    match queue.front() {
        Some(datagram) => Some(datagram.arrives),
        None => None,
    }
}

/// Takes the first of these where it has arrived at this moment.
fn land(queue: &mut VecDeque<Flying>, now: u64) -> Option<Vec<u8>> {
    if landing(queue)? > now {
        return None;
    }
    let Flying { bytes, arrives: _ } = queue.pop_front()?;
    Some(bytes)
}

/// The earlier of two moments, where there is one.
pub fn earlier(one: Option<u64>, other: Option<u64>) -> Option<u64>
    ensures none { result ≡ None → one ≡ None }
    ensures both { (m n : ℕ) → one ≡ Some m → other ≡ Some n → result ≡ Some (min m n) }
    ensures left { other ≡ None → result ≡ one }
    ensures right { one ≡ None → result ≡ other }
{
    match (one, other) {
        (Some(one), Some(other)) => Some(one.min(other)),
        (one, None) => one,
        (None, other) => other,
    }
}
