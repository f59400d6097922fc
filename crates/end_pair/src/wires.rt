//! Datagrams are given, and come.

ghost use Rattle.std.specs.Prelude.{◌≡◌, ◌<◌, ◌^◌, true, false, IfErr, IfOk, OnErr};
ghost use Rattle.mt_base.specs.declared.kinds.Role.{Role as Side};
ghost use Rattle.mt_base.specs.Trace.{Trace};
ghost use Rattle.mt_endpoint.specs.Tunnels.{is_attached};
ghost use Rattle.end_calls.specs.Calls.{Entry, acts};
ghost use Rattle.endpoint.specs.Laws.{KeepsLaws};
ghost use Rattle.endpoint.specs.Standing.{EndStands};
ghost use Rattle.end_pair.specs.Delivered.{Brings, IsDue, WhyNotDelivered};
ghost use Rattle.end_pair.specs.Given.{Gives};

use crate::pair::{LATE, Pair};
use carrier::{Carrier, Post, Took};
use endpoint::Endpoint;
use link_traffic::Traffic;
use mt_base::{Kind, NoMemory, Role};

/// Why a datagram does not come. Nothing changed.
#[derive(Clone, Copy, Debug, PartialEq, Eq)]
pub enum DeliverRefusal {
    /// The end gave only so many datagrams on the link.
    NotGiven { given: usize },
    /// So many datagrams were given on the link after it, which are `limit` or more.
    TooLate { later: usize, limit: usize },
}

/// An end is polled, and the datagram that it gives is kept.
fn give<C: Carrier + Drop, P: Post + Drop>(
    end: &mut Endpoint<C, P>,
    traffic: &mut Traffic,
    side: Role,
    kind: Kind,
    now: u64,
) -> Result<bool, NoMemory>
    requires moment { now < 2 ^ 62 }
    requires lawful { (t : Trace Entry) × EndStands C.stands C.left C.condition P.stands P.left P.condition end.old side t }
    ensures given { (t : Trace Entry) → EndStands C.stands C.left C.condition P.stands P.left P.condition end.old side t → is_attached kind (acts side t) ≡ true → IfOk result (λ is_given. Gives C.stands C.left C.condition P.stands P.left P.condition side t kind now is_given end.new traffic.old traffic.new) }
    ensures none { (t : Trace Entry) → EndStands C.stands C.left C.condition P.stands P.left P.condition end.old side t → is_attached kind (acts side t) ≡ false → IfOk result (λ is_given. (is_given ≡ false) × (end.new ≡ end.old) × (traffic.new ≡ traffic.old)) }
    ensures lawful { (t : Trace Entry) × EndStands C.stands C.left C.condition P.stands P.left P.condition end.new side t }
    ensures laws { KeepsLaws C.law P.law end.old end.new }
{
    let mut out = [0; 1232];
    let Some(count) = end.wire_out(kind, now, &mut out) else {
        return Ok(false);
    };
    traffic.push(side, &out[..count])?;
    Ok(true)
}

/// The datagram with this number, where it was given and may still come.
fn datagram_due(traffic: &Traffic, side: Role, number: usize) -> Result<&[u8], DeliverRefusal>
    ensures due { IfOk result (λ datagram. IsDue side number traffic.now datagram.now) }
    ensures refused { IfErr result (WhyNotDelivered side number traffic.now) }
{
    let given = traffic.given(side);
    let Some(later) = traffic.later(side, number) else {
        return Err(DeliverRefusal::NotGiven { given });
    };
    if later >= LATE {
        return Err(DeliverRefusal::TooLate { later, limit: LATE });
    }
    match traffic.datagram(side, number) {
        Some(datagram) => Ok(datagram),
        None => Err(DeliverRefusal::NotGiven { given }),
    }
}

/// A datagram of the other end comes, where it was given and may still come.
fn bring<C: Carrier + Drop, P: Post + Drop>(
    end: &mut Endpoint<C, P>,
    traffic: &Traffic,
    side: Role,
    kind: Kind,
    number: usize,
    now: u64,
) -> Result<Took, DeliverRefusal>
    requires moment { now < 2 ^ 62 }
    ensures brought { (role : Side) (t : Trace Entry) → EndStands C.stands C.left C.condition P.stands P.left P.condition end.old role t → IfOk result (λ took. Brings C.stands C.left C.condition P.stands P.left P.condition side number traffic.now role t kind now took end.new) }
    ensures refused { IfErr result (WhyNotDelivered side number traffic.now) }
    ensures unchanged { OnErr result (end.new ≡ end.old) }
    ensures laws { KeepsLaws C.law P.law end.old end.new }
{
    match datagram_due(traffic, side, number) {
        Ok(datagram) => Ok(end.wire_in(kind, now, datagram)),
        Err(why) => Err(why),
    }
}

impl<C: Carrier + Drop, P: Post + Drop> Pair<C, P> {
    ghost use Rattle.std.specs.Prelude.{◌≡◌, ◌<◌, ◌≤◌, ◌^◌, ℕ, List, Bool, true, false, length, is_some, Option, Some, IfErr, IfOk, OnErr};
    ghost use Rattle.mt_base.specs.Trace.{Trace, ◌▷◌};
    ghost use Rattle.mt_base.specs.Ends.{other};
    ghost use Rattle.mt_base.specs.declared.kinds.Role.{Role as Side};
    ghost use Rattle.carrier.specs.declared.state.LinkState.{LinkState};
    ghost use Rattle.mt_endpoint.specs.Tunnels.{is_attached};
    ghost use Rattle.end_calls.specs.Calls.{Entry, WireOut, acts};
    ghost use Rattle.end_calls.specs.Net.{at};
    ghost use Rattle.link_traffic.specs.Given.{numbered};
    ghost use Rattle.end_pair.specs.Delivered.{Delivers, WhyNotDelivered};
    ghost use Rattle.end_pair.specs.Joined.{PairStands};
    ghost use Rattle.end_pair.specs.Laws.{PairKeepsLaws};
    ghost use Rattle.end_wires.specs.Wires.{given_on};

    /// An end is polled on the link of this kind, at this moment in milliseconds; tells whether it gave a datagram. That
    /// has the next number of this side and kind. Where memory is wanting the pair is not to be used again.
    pub fn poll(&mut self, side: Role, kind: Kind, now: u64) -> Result<bool, NoMemory>
        requires moment { now < 2 ^ 62 }
        ensures polled { (w : Trace (Side × Entry)) → PairStands C.stands C.left C.condition P.stands P.left P.condition self.old w → is_attached kind (acts side (at side w)) ≡ true → IfOk result (λ is_given. (is_full : Bool) × (out : Option (List ℕ)) × (state : LinkState) × (is_given ≡ is_some out) × PairStands C.stands C.left C.condition P.stands P.left P.condition self.new (w ▷ (side, WireOut kind now is_full out state))) }
        ensures none { (w : Trace (Side × Entry)) → PairStands C.stands C.left C.condition P.stands P.left P.condition self.old w → is_attached kind (acts side (at side w)) ≡ false → IfOk result (λ is_given. (is_given ≡ false) × (self.new ≡ self.old)) }
        ensures laws { PairKeepsLaws C.law P.law self.old self.new }
    {
        match side {
            Role::Server => match kind {
                Kind::Reliable => give(
                    &mut self.server,
                    &mut self.reliable,
                    Role::Server,
                    Kind::Reliable,
                    now,
                ),
                Kind::Lossy => give(
                    &mut self.server,
                    &mut self.lossy,
                    Role::Server,
                    Kind::Lossy,
                    now,
                ),
            },
            Role::Client => match kind {
                Kind::Reliable => give(
                    &mut self.client,
                    &mut self.reliable,
                    Role::Client,
                    Kind::Reliable,
                    now,
                ),
                Kind::Lossy => give(
                    &mut self.client,
                    &mut self.lossy,
                    Role::Client,
                    Kind::Lossy,
                    now,
                ),
            },
        }
    }

    /// The datagram with this number, which this side gave on the link of this kind, comes at the other end at this
    /// moment, in milliseconds: the answer of that end. It may come any number of times, but not once [`LATE`] were
    /// given on the link after it.
    pub fn deliver(
        &mut self,
        side: Role,
        kind: Kind,
        number: usize,
        now: u64,
    ) -> Result<Took, DeliverRefusal>
        requires moment { now < 2 ^ 62 }
        ensures delivered { (w : Trace (Side × Entry)) → PairStands C.stands C.left C.condition P.stands P.left P.condition self.old w → IfOk result (λ took. (v : Trace (Side × Entry)) × Delivers side kind number now took w v × PairStands C.stands C.left C.condition P.stands P.left P.condition self.new v) }
        ensures refused { (w : Trace (Side × Entry)) → PairStands C.stands C.left C.condition P.stands P.left P.condition self.old w → IfErr result (WhyNotDelivered side number (given_on kind w)) }
        ensures unchanged { OnErr result (self.new ≡ self.old) }
        ensures laws { PairKeepsLaws C.law P.law self.old self.new }
    {
        match side {
            Role::Server => match kind {
                Kind::Reliable => bring(
                    &mut self.client,
                    &self.reliable,
                    Role::Server,
                    Kind::Reliable,
                    number,
                    now,
                ),
                Kind::Lossy => bring(
                    &mut self.client,
                    &self.lossy,
                    Role::Server,
                    Kind::Lossy,
                    number,
                    now,
                ),
            },
            Role::Client => match kind {
                Kind::Reliable => bring(
                    &mut self.server,
                    &self.reliable,
                    Role::Client,
                    Kind::Reliable,
                    number,
                    now,
                ),
                Kind::Lossy => bring(
                    &mut self.server,
                    &self.lossy,
                    Role::Client,
                    Kind::Lossy,
                    number,
                    now,
                ),
            },
        }
    }
}
