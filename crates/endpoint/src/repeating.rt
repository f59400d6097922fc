//! A client asks once more through its lossy link, since that may lose the create request.

ghost use Rattle.std.specs.Prelude.{◌≡◌, ◌≤◌, nat_le, true, false, [], length, None, Some, is_some, if◌then◌else◌};
ghost use Rattle.mt_base.specs.declared.kinds.Kind.TheVariants as kinds;
ghost use Rattle.mt_base.specs.declared.kinds.Role.{Role as End};
ghost use Rattle.mt_base.specs.Trace.{Trace, ◌▷◌};
ghost use Rattle.mt_windows.specs.declared.limits.TheConstants.{WINDOW as PARTS};
ghost use Rattle.mt_endpoint.specs.Acts.{Act, Repeats};
ghost use Rattle.end_calls.specs.Calls.{if_steps, is_due as is_request_due, posts_again, steps};
ghost use Rattle.end_calls.specs.Streams.{Past};
ghost use Rattle.end_session.specs.Outgoing.{waiting_for};
ghost use Rattle.end_session.specs.Standing.{Gone, Stands};
ghost use Rattle.endpoint.specs.Idle.{IsIdle, IsPaused};
ghost use Rattle.endpoint.specs.Laws.{SameLaw};
ghost use Rattle.endpoint.specs.Posted.{IsAsking, IsReady, Posts};

use crate::giving::post_waiting;
use crate::postings::Postings;
use crate::silence::{fall_silent, is_silent};
use carrier::Post;
use end_session::Session;
use mt_base::Kind;
use mt_windows::WINDOW;

/// Whether the link is full for one more part.
pub(crate) fn is_full<P: Post>(link: &P) -> bool
    ensures { result ≡ nat_le PARTS (P.load link.now) }
{
    WINDOW <= link.queued() as u64
}

/// Whether the create request of the lossy tunnel is due once more at this moment: 500 ms passed since it was
/// posted last, no answer was read, and the tunnel isn't silent.
pub(crate) fn is_due(session: &Session, postings: &Postings, now: u64) -> bool
    ensures { (t : Trace Act) (gone : Gone) → Stands session.now t gone → result ≡ is_request_due t postings.now now }
{
    if !postings.is_over(now) {
        return false;
    }
    if session.answer(Kind::Lossy).is_some() {
        return false;
    }
    !is_silent(session, Kind::Lossy)
}

/// The create request, of 28 bytes, waits for the lossy link once more (MS-RDPEMT section 2.2.2.1).
fn ask_again(session: &mut Session)
    requires asking { IsAsking session.old }
    requires whole { (session.old).broken ≡ None }
    requires waits { waiting_for kinds.Lossy (session.old).outgoing ≡ [] }
    ensures stands { (t : Trace Act) (gone : Gone) → Stands session.old t gone → Stands session.new (t ▷ Repeats false) gone }
    ensures written { (t : Trace Act) (gone : Gone) → Stands session.old t gone → length (waiting_for kinds.Lossy (session.new).outgoing) ≤ 28 }
    ensures same { ((session.new).role ≡ (session.old).role) × ((session.new).broken ≡ (session.old).broken) }
{
    let Some(_asked) = session.asked(Kind::Lossy) else {
        unreachable!()
    };
    session.repeat(false);
}

/// The create request is posted once more, unless the link is full. A broken end posts nothing.
fn repeat<P: Post>(session: &mut Session, link: &mut P, is_full: bool)
    requires asking { IsAsking session.old }
    requires paused { IsPaused session.old }
    ensures posted { (role : End) (p : Past) (gone : Gone) → IsIdle role p gone session.old → IsReady P.condition P.load is_full p link.old → Posts P.stands role p (steps role (Repeats is_full) p) gone session.new link.old link.new }
    ensures left { P.left link.new ≡ P.left link.old }
    ensures law { SameLaw P.law link.old link.new }
{
    if session.broken().is_some() {
        return;
    }
    if is_full {
        session.repeat(true);
        return;
    }
    ask_again(session);
    post_waiting(link, session.waiting(Kind::Lossy));
    session.given(Kind::Lossy);
}

/// The create request, which is due once more, is posted; or the tunnel is silent, where it was posted 17 times.
fn ask_or_give_up<P: Post>(session: &mut Session, link: &mut P, postings: &Postings, is_full: bool)
    requires asking { IsAsking session.old }
    requires paused { IsPaused session.old }
    ensures posted { (role : End) (p : Past) (gone : Gone) → IsIdle role p gone session.old → IsReady P.condition P.load is_full p link.old → Posts P.stands role p (steps role (posts_again postings.now is_full) p) gone session.new link.old link.new }
    ensures left { P.left link.new ≡ P.left link.old }
    ensures law { SameLaw P.law link.old link.new }
{
    if postings.is_last() {
        fall_silent(session, Kind::Lossy, 17);
    } else {
        repeat(session, link, is_full);
    }
}

/// What is due before a poll of the lossy link.
pub(crate) fn before_poll<P: Post>(
    session: &mut Session,
    link: &mut P,
    postings: &Postings,
    is_due: bool,
    is_full: bool,
)
    requires asking { is_due ≡ true → IsAsking session.old }
    requires paused { IsPaused session.old }
    ensures posted { (role : End) (p : Past) (gone : Gone) → IsIdle role p gone session.old → IsReady P.condition P.load is_full p link.old → Posts P.stands role p (if_steps role (if is_due then Some (posts_again postings.now is_full) else None) p) gone session.new link.old link.new }
    ensures left { P.left link.new ≡ P.left link.old }
    ensures law { SameLaw P.law link.old link.new }
{
    if is_due {
        ask_or_give_up(session, link, postings, is_full);
    }
}
