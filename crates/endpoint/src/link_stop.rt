//! Where an end stops reading its links.

ghost use Rattle.std.specs.Prelude.{◌≡◌, ℕ, ◌+◌, ◌*◌, ◌≤◌, true, false, length, None};
ghost use Rattle.mt_base.specs.declared.kinds.Kind.{Kind};
ghost use Rattle.mt_base.specs.declared.kinds.Kind.TheVariants.{Reliable};
ghost use Rattle.mt_base.specs.declared.kinds.Role.{Role};
ghost use Rattle.mt_base.specs.Trace.{Trace};
ghost use Rattle.mt_windows.specs.declared.limits.TheConstants.{QUEUE};
ghost use Rattle.mt_endpoint.specs.Acts.{Act};
ghost use Rattle.mt_endpoint.specs.Holding.{held, weight};
ghost use Rattle.end_calls.specs.declared.limits.TheConstants.{ANSWER, CONTROL, HOLD, MAIN_QUEUE};
ghost use Rattle.end_calls.specs.Stops.{Outset, is_link_stopped};
ghost use Rattle.end_calls.specs.Streams.{Past};
ghost use Rattle.end_session.specs.Drawing.{IsHeldBeside};
ghost use Rattle.end_session.specs.Standing.{Gone, Stands};
ghost use Rattle.endpoint.specs.Pulled.{IsAt};

use end_calls::CONTROL;
use end_session::Session;
use mt_windows::QUEUE;

/// Whether nothing is read of the links, where the reliable one has this load, or 0 where there is none: the end
/// is broken, or a stop stands. What is held of either tunnel never passes its limit.
pub(crate) fn is_link_stopped(session: &Session, load: usize) -> bool
    ensures stops { (role : Role) (outset : Outset) (p : Past) (gone : Gone) → Stands session.now p.acts gone → IsAt role outset p gone session.now load → result ≡ is_link_stopped role outset p }
    ensures whole { result ≡ false → (session.now).broken ≡ None }
    ensures room { result ≡ false → length ((session.now).outgoing).main + (CONTROL + ANSWER * (session.now).owed) ≤ MAIN_QUEUE }
    ensures free { result ≡ false → load + CONTROL ≤ QUEUE }
    ensures held { result ≡ false → IsHeldBeside 1600 (session.now).held_reliable }
    ensures within { (t : Trace Act) (gone : Gone) (kind : Kind) → Stands session.now t gone → weight (held (session.now).role kind t) ≤ HOLD }
{
    let is_hold_full = session.is_hold_full();
    if session.broken().is_some() || session.is_full() {
        return true;
    }
    load > QUEUE - CONTROL || is_hold_full
}
