//! Links are given what an end writes for them.

ghost use Rattle.std.specs.Prelude.{◌≡◌, ◌+◌, ◌<◌, ◌≤◌, false, [], length};
ghost use Rattle.mt_base.specs.Trace.{Trace};
ghost use Rattle.mt_windows.specs.declared.limits.TheConstants.{QUEUE, WINDOW};
ghost use Rattle.carrier.specs.Entries.{Entry as Called};
ghost use Rattle.end_calls.specs.Links.{gives_bytes};
ghost use Rattle.endpoint.specs.Attached.{GaveIf, is_closed, load_in, posts_bytes};
ghost use Rattle.endpoint.specs.Laws.{KeepsLaw, SameLaw};

use carrier::{Carrier, Post};

/// Gives bytes to a reliable link, where there are any. A link that isn't closed and has room takes them.
pub(crate) fn give_waiting<C: Carrier>(link: &mut C, bytes: &[u8])
    ensures trace { (t : Trace Called) → C.stands link.old t → is_closed (C.condition link.old) ≡ false → C.load link.old + length bytes.now ≤ QUEUE → C.stands link.new (gives_bytes bytes.now t) }
    ensures load { is_closed (C.condition link.old) ≡ false → C.load link.old + length bytes.now ≤ QUEUE → C.load link.new ≡ C.load link.old + length bytes.now }
    ensures left { C.left link.new ≡ C.left link.old }
    ensures state { C.condition link.new ≡ C.condition link.old }
    ensures law { SameLaw C.law link.old link.new }
    ensures none { bytes.now ≡ [] → link.new ≡ link.old }
{
    if bytes.is_empty() {
        return;
    }
    let _ = link.give(bytes);
}

/// Posts bytes on a lossy link as one part, where there are any. A link that isn't closed and has room takes
/// them.
pub(crate) fn post_waiting<P: Post>(link: &mut P, bytes: &[u8])
    requires { length bytes.now ≤ 1000 }
    ensures trace { (t : Trace Called) → P.stands link.old t → is_closed (P.condition link.old) ≡ false → P.load link.old < WINDOW → P.stands link.new (posts_bytes bytes.now t) }
    ensures load { P.load link.new ≤ P.load link.old + 1 }
    ensures left { P.left link.new ≡ P.left link.old }
    ensures state { P.condition link.new ≡ P.condition link.old }
    ensures law { SameLaw P.law link.old link.new }
    ensures none { bytes.now ≡ [] → link.new ≡ link.old }
{
    if bytes.is_empty() {
        return;
    }
    let _ = link.post(bytes);
}

/// Gives bytes to the reliable link, where an end has one.
pub(crate) fn give_if<C: Carrier>(link: &mut Option<C>, bytes: &[u8])
    ensures gave { GaveIf C.stands C.left C.condition C.load bytes.now link.old link.new }
    ensures law { KeepsLaw C.law link.old link.new }
{
    if let Some(link) = link {
        give_waiting(link, bytes);
    }
}

/// How many bytes the queue of the reliable link holds, where an end has one.
pub(crate) fn load_of<C: Carrier>(link: &Option<C>) -> usize
    ensures { result ≡ load_in C.load link.now }
{
    match link {
        None => 0,
        Some(link) => link.queued(),
    }
}
