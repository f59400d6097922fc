//! Tunnels get their links.

ghost use Rattle.std.specs.Prelude.{◌≡◌, true, false, [], None};
ghost use Rattle.mt_base.specs.declared.kinds.Kind.TheVariants as kinds;
ghost use Rattle.mt_base.specs.declared.kinds.Role.{Role as Side};
ghost use Rattle.mt_base.specs.Trace.{Trace, Start, ◌▷◌};
ghost use Rattle.mt_endpoint.specs.Acts.{Attaches};
ghost use Rattle.end_calls.specs.Calls.{Entry, Own, past};
ghost use Rattle.endpoint.specs.Attached.{is_closed};
ghost use Rattle.endpoint.specs.Laws.{HasLawOf, KeepsLaw};
ghost use Rattle.endpoint.specs.Standing.{EndStands};
ghost use Rattle.end_session.specs.OfKind.{tunnel_of};
ghost use Rattle.end_pair.specs.Attaching.{Waits, is_asked_state, is_fine, may_attach};

use crate::pair::Pair;
use carrier::{Carrier, Post};
use end_session::TunnelState;
use endpoint::{EndState, Endpoint};
use mt_base::{Kind, Role};

/// Whether the end goes on.
fn goes_on(state: EndState) -> bool
    ensures { result ≡ is_fine state }
{
    match state {
        EndState::Fine => true,
        EndState::Broken(_) => false,
    }
}

/// Whether the tunnel was asked for, and nothing came of that yet.
fn is_asked(state: TunnelState) -> bool
    ensures { result ≡ is_asked_state state }
{
    match state {
        TunnelState::None => false,
        TunnelState::Asked => true,
        TunnelState::Attached => false,
        TunnelState::Open => false,
        TunnelState::Refused { .. } => false,
        TunnelState::Silent { .. } => false,
    }
}

/// Whether the tunnel of this kind waits for its link.
fn waits_for_link<C: Carrier + Drop, P: Post + Drop>(end: &Endpoint<C, P>, kind: Kind) -> bool
    ensures acts { (role : Side) (t : Trace Entry) → EndStands C.stands C.left C.condition P.stands P.left P.condition end.now role t → result ≡ may_attach role kind (past role t) }
    ensures asked { result ≡ true → Waits (end.now.reader.session).role (tunnel_of kind end.now.reader.session) }
    ensures whole { result ≡ true → (end.now.reader.session).broken ≡ None }
{
    if !goes_on(end.state()) {
        return false;
    }
    is_asked(end.tunnel(kind))
}

/// The reliable tunnel of an end gets this link, where it waits for one. Tells whether it did.
fn give_reliable<C: Carrier + Drop, P: Post + Drop>(end: &mut Endpoint<C, P>, link: C) -> bool
    requires fresh { C.stands link Start }
    requires empty { (C.left link ≡ []) × (C.load link ≡ 0) }
    requires unclosed { is_closed (C.condition link) ≡ false }
    ensures attached { (role : Side) (t : Trace Entry) → EndStands C.stands C.left C.condition P.stands P.left P.condition end.old role t → result ≡ true → EndStands C.stands C.left C.condition P.stands P.left P.condition end.new role (t ▷ Own (Attaches kinds.Reliable)) }
    ensures cause { (role : Side) (t : Trace Entry) → EndStands C.stands C.left C.condition P.stands P.left P.condition end.old role t → result ≡ may_attach role kinds.Reliable (past role t) }
    ensures unchanged { result ≡ false → end.new ≡ end.old }
    ensures law { result ≡ true → HasLawOf C.law link end.new.reliable }
    ensures other_law { KeepsLaw P.law end.old.lossy end.new.lossy }
{
    if !waits_for_link(end, Kind::Reliable) {
        return false;
    }
    end.attach_reliable(link);
    true
}

/// The lossy tunnel of an end gets this link, where it waits for one. Tells whether it did.
fn give_lossy<C: Carrier + Drop, P: Post + Drop>(end: &mut Endpoint<C, P>, link: P) -> bool
    requires fresh { P.stands link Start }
    requires empty { (P.left link ≡ []) × (P.load link ≡ 0) }
    requires unclosed { is_closed (P.condition link) ≡ false }
    ensures attached { (role : Side) (t : Trace Entry) → EndStands C.stands C.left C.condition P.stands P.left P.condition end.old role t → result ≡ true → EndStands C.stands C.left C.condition P.stands P.left P.condition end.new role (t ▷ Own (Attaches kinds.Lossy)) }
    ensures cause { (role : Side) (t : Trace Entry) → EndStands C.stands C.left C.condition P.stands P.left P.condition end.old role t → result ≡ may_attach role kinds.Lossy (past role t) }
    ensures unchanged { result ≡ false → end.new ≡ end.old }
    ensures law { result ≡ true → HasLawOf P.law link end.new.lossy }
    ensures other_law { KeepsLaw C.law end.old.reliable end.new.reliable }
{
    if !waits_for_link(end, Kind::Lossy) {
        return false;
    }
    end.attach_lossy(link);
    true
}

impl<C: Carrier + Drop, P: Post + Drop> Pair<C, P> {
    ghost use Rattle.std.specs.Prelude.{◌≡◌, true, false, []};
    ghost use Rattle.mt_base.specs.declared.kinds.Kind.TheVariants as kinds;
    ghost use Rattle.mt_base.specs.declared.kinds.Role.{Role as Side};
    ghost use Rattle.mt_base.specs.Ends.{other};
    ghost use Rattle.mt_base.specs.Trace.{Trace, Start, ◌▷◌};
    ghost use Rattle.mt_endpoint.specs.Acts.{Attaches};
    ghost use Rattle.end_calls.specs.Calls.{Entry, Own, past};
    ghost use Rattle.end_calls.specs.Net.{at};
    ghost use Rattle.endpoint.specs.Attached.{is_closed};
    ghost use Rattle.endpoint.specs.Laws.{HasLawOf, KeepsLaw};
    ghost use Rattle.end_pair.specs.Attaching.{may_attach};
    ghost use Rattle.end_pair.specs.Joined.{PairStands, end_of};

    /// The reliable tunnel of an end gets this link, of which nothing was called yet, where it was asked for, has no
    /// link yet, was not refused and isn't silent, and the end goes on
    /// ([`Endpoint::attach_reliable`](endpoint::Endpoint::attach_reliable)). Tells whether it did; else nothing changes,
    /// and the link is let go.
    pub fn attach_reliable(&mut self, side: Role, link: C) -> bool
        requires fresh { C.stands link Start }
        requires empty { (C.left link ≡ []) × (C.load link ≡ 0) }
        requires unclosed { is_closed (C.condition link) ≡ false }
        ensures attached { (w : Trace (Side × Entry)) → PairStands C.stands C.left C.condition P.stands P.left P.condition self.old w → result ≡ true → PairStands C.stands C.left C.condition P.stands P.left P.condition self.new (w ▷ (side, Own (Attaches kinds.Reliable))) }
        ensures cause { (w : Trace (Side × Entry)) → PairStands C.stands C.left C.condition P.stands P.left P.condition self.old w → result ≡ may_attach side kinds.Reliable (past side (at side w)) }
        ensures unchanged { result ≡ false → self.new ≡ self.old }
        ensures law { result ≡ true → HasLawOf C.law link (end_of side self.new).reliable }
        ensures other_law { KeepsLaw P.law (end_of side self.old).lossy (end_of side self.new).lossy }
        ensures other_end { end_of (other side) self.new ≡ end_of (other side) self.old }
    {
        match side {
            Role::Server => give_reliable(&mut self.server, link),
            Role::Client => give_reliable(&mut self.client, link),
        }
    }

    /// The lossy tunnel of an end gets its link, in the same way.
    pub fn attach_lossy(&mut self, side: Role, link: P) -> bool
        requires fresh { P.stands link Start }
        requires empty { (P.left link ≡ []) × (P.load link ≡ 0) }
        requires unclosed { is_closed (P.condition link) ≡ false }
        ensures attached { (w : Trace (Side × Entry)) → PairStands C.stands C.left C.condition P.stands P.left P.condition self.old w → result ≡ true → PairStands C.stands C.left C.condition P.stands P.left P.condition self.new (w ▷ (side, Own (Attaches kinds.Lossy))) }
        ensures cause { (w : Trace (Side × Entry)) → PairStands C.stands C.left C.condition P.stands P.left P.condition self.old w → result ≡ may_attach side kinds.Lossy (past side (at side w)) }
        ensures unchanged { result ≡ false → self.new ≡ self.old }
        ensures law { result ≡ true → HasLawOf P.law link (end_of side self.new).lossy }
        ensures other_law { KeepsLaw C.law (end_of side self.old).reliable (end_of side self.new).reliable }
        ensures other_end { end_of (other side) self.new ≡ end_of (other side) self.old }
    {
        match side {
            Role::Server => give_lossy(&mut self.server, link),
            Role::Client => give_lossy(&mut self.client, link),
        }
    }
}
