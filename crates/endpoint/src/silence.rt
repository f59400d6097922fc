//! A tunnel falls silent at a poll of its link.

ghost use Rattle.std.specs.Prelude.{◌≡◌, ◌+◌, ◌*◌, ◌≤◌, true, length, if◌then◌else◌};
ghost use Rattle.mt_base.specs.declared.kinds.Role.{Role as End};
ghost use Rattle.mt_base.specs.Trace.{Trace};
ghost use Rattle.mt_endpoint.specs.Acts.{Act, Silences};
ghost use Rattle.mt_endpoint.specs.Tunnels.{is_silent as is_mute};
ghost use Rattle.end_calls.specs.declared.limits.TheConstants.{MAIN_QUEUE};
ghost use Rattle.end_calls.specs.Calls.{closed_act, if_steps, steps};
ghost use Rattle.end_calls.specs.Streams.{Past};
ghost use Rattle.end_session.specs.OfKind.{tunnel_of};
ghost use Rattle.end_session.specs.Standing.{Gone, Stands};
ghost use Rattle.endpoint.specs.Idle.{IsIdle, IsPaused};
ghost use Rattle.endpoint.specs.Answering.{answered_by};

use carrier::LinkState;
use end_session::{Session, TunnelState};
use mt_base::{Kind, Role};

/// Whether the tunnel of this kind is silent.
pub(crate) fn is_silent(session: &Session, kind: Kind) -> bool
    ensures { (t : Trace Act) (gone : Gone) → Stands session.now t gone → result ≡ is_mute kind t }
{
    match session.tunnel(kind) {
        TunnelState::None => false,
        TunnelState::Asked => false,
        TunnelState::Attached => false,
        TunnelState::Open => false,
        TunnelState::Refused { .. } => false,
        TunnelState::Silent { .. } => true,
    }
}

/// A client that isn't broken answers the Soft-Sync requests whose answers are due.
fn answer_due(session: &mut Session)
    requires { length ((session.old).outgoing).main + 17 * (session.old).owed ≤ MAIN_QUEUE }
    ensures stands { (t : Trace Act) (gone : Gone) → Stands session.old t gone → Stands session.new (answered_by (session.old).role (session.old).broken t) gone }
    ensures same { ((session.new).role ≡ (session.old).role) × ((session.new).broken ≡ (session.old).broken) }
{
    if session.broken().is_some() {
        return;
    }
    match session.role() {
        Role::Server => {}
        Role::Client => session.answer_all(),
    }
}

/// The tunnel of this kind is silent after so many expiries, also where the end is broken. A client that isn't
/// broken then answers the Soft-Sync requests that waited for it.
pub(crate) fn fall_silent(session: &mut Session, kind: Kind, expiries: u32)
    requires attached { (tunnel_of kind session.old).is_attached ≡ true }
    requires paused { IsPaused session.old }
    ensures { (role : End) (p : Past) (gone : Gone) → IsIdle role p gone session.old → IsIdle role (steps role (Silences kind expiries) p) gone session.new }
{
    session.silence(kind, expiries);
    answer_due(session);
}

/// The same, where the tunnel isn't silent already.
fn silence_once(session: &mut Session, kind: Kind, expiries: u32)
    requires attached { (tunnel_of kind session.old).is_attached ≡ true }
    requires paused { IsPaused session.old }
    ensures { (role : End) (p : Past) (gone : Gone) → IsIdle role p gone session.old → IsIdle role (if is_mute kind p.acts then p else steps role (Silences kind expiries) p) gone session.new }
{
    if !is_silent(session, kind) {
        fall_silent(session, kind, expiries);
    }
}

/// A link in this state was polled: where it is closed, its tunnel is silent.
pub(crate) fn silence_closed(session: &mut Session, kind: Kind, state: LinkState)
    requires attached { (tunnel_of kind session.old).is_attached ≡ true }
    requires paused { IsPaused session.old }
    ensures { (role : End) (p : Past) (gone : Gone) → IsIdle role p gone session.old → IsIdle role (if_steps role (closed_act kind (is_mute kind p.acts) state) p) gone session.new }
{
    match state {
        LinkState::Opening => {}
        LinkState::Open => {}
        LinkState::Closed { expiries } => silence_once(session, kind, expiries),
    }
}
