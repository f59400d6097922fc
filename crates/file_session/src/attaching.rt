//! The reliable tunnel of an end gets its link.

ghost use Rattle.std.specs.Prelude.{◌≡◌, true, false, [], None, OnErr, IfOk, Ok};
ghost use Rattle.mt_base.specs.declared.kinds.Kind.TheVariants as kinds;
ghost use Rattle.mt_base.specs.declared.kinds.Role.{Role as Side};
ghost use Rattle.mt_base.specs.Trace.{Trace, ◌▷◌};
ghost use Rattle.mt_endpoint.specs.Acts.{Attaches};
ghost use Rattle.end_calls.specs.Calls.{Entry, Own, past};
ghost use Rattle.endpoint.specs.Standing.{EndStands};
ghost use Rattle.end_session.specs.OfKind.{tunnel_of};
ghost use Rattle.file_session.specs.Attaching.{Waits, is_asked_state, is_fine, may_attach};

use crate::linker::Linker;
use carrier::{Carrier, Post};
use end_session::TunnelState;
use endpoint::{EndState, Endpoint};
use mt_base::{Kind, NoMemory, Role};
use udp_open::{OpenSettings, hash_cookie};

/// Whether the end goes on.
fn goes_on(state: EndState) -> bool
    ensures { result ≡ is_fine state }
{
    match state {
        EndState::Fine => true,
        EndState::Broken(_) => false,
    }
}

/// Whether the tunnel was asked for, and nothing came of that yet.
fn is_asked(state: TunnelState) -> bool
    ensures { result ≡ is_asked_state state }
{
    match state {
        TunnelState::None => false,
        TunnelState::Asked => true,
        TunnelState::Attached => false,
        TunnelState::Open => false,
        TunnelState::Refused { .. } => false,
        TunnelState::Silent { .. } => false,
    }
}

/// Whether the reliable tunnel waits for its link.
fn waits_for_link<C: Carrier + Drop, P: Post + Drop>(end: &Endpoint<C, P>) -> bool
    ensures acts { (role : Side) (t : Trace Entry) → EndStands C.stands C.left C.condition P.stands P.left P.condition end.now role t → result ≡ may_attach role (past role t) }
    ensures asked { result ≡ true → Waits (end.now.reader.session).role (tunnel_of kinds.Reliable end.now.reader.session) }
    ensures whole { result ≡ true → (end.now.reader.session).broken ≡ None }
{
    if !goes_on(end.state()) {
        return false;
    }
    is_asked(end.tunnel(Kind::Reliable))
}

/// The reliable tunnel of an end gets a link in the first turn in which it was asked for: where it has none yet, was not
/// refused and isn't silent, and the end goes on. Tells whether it did. The link is of version 0x0101, and of the
/// cookie with which the tunnel was asked for.
pub fn attach_link<C: Carrier + Drop, P: Post + Drop, L: Linker<C>>(
    end: &mut Endpoint<C, P>,
    linker: &mut L,
    role: Role,
    initial: u32,
) -> Result<bool, NoMemory>
    ensures attached { (side : Side) (t : Trace Entry) → EndStands C.stands C.left C.condition P.stands P.left P.condition end.old side t → result ≡ Ok true → EndStands C.stands C.left C.condition P.stands P.left P.condition end.new side (t ▷ Own (Attaches kinds.Reliable)) }
    ensures cause { (side : Side) (t : Trace Entry) → EndStands C.stands C.left C.condition P.stands P.left P.condition end.old side t → IfOk result (λ is. is ≡ may_attach side (past side t)) }
    ensures unattached { result ≡ Ok false → end.new ≡ end.old }
    ensures unchanged { OnErr result (end.new ≡ end.old) }
{
    if !waits_for_link(end) {
        return Ok(false);
    }
    let Some(asked) = end.asked(Kind::Reliable) else {
        unreachable!()
    };
    let settings = OpenSettings {
        role,
        kind: Kind::Reliable,
        version: 0x0101,
        initial,
        cookie_hash: hash_cookie(&asked.cookie),
    };
    let link = linker.link(&settings)?;
    end.attach_reliable(link);
    Ok(true)
}
