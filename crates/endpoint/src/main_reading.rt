//! Bytes of the main stream are read.

ghost use Rattle.std.specs.Prelude.{◌≡◌, ℕ, ◌+◌, ◌*◌, ◌<◌, ◌≤◌, ◌||◌, nat_lt, false, List, length, flat_map, None, IfNone, IfSome};
ghost use Rattle.mt_base.specs.declared.kinds.Kind.TheVariants as kinds;
ghost use Rattle.mt_base.specs.declared.kinds.Role.{Role};
ghost use Rattle.mt_base.specs.Trace.{Trace};
ghost use Rattle.mt_windows.specs.declared.limits.TheConstants.{QUEUE};
ghost use Rattle.carrier.specs.Entries.{Entry as Called};
ghost use Rattle.end_calls.specs.declared.limits.TheConstants.{ANSWER, CONTROL, MAIN_QUEUE};
ghost use Rattle.mt_endpoint.specs.Writing.{tunneled};
ghost use Rattle.end_calls.specs.Stops.{is_stopped};
ghost use Rattle.end_calls.specs.Streams.{Past, is_broken, written};
ghost use Rattle.end_reader.specs.Taking.{OneFrame};
ghost use Rattle.endpoint.specs.Laws.{KeepsLaw};
ghost use Rattle.endpoint.specs.MainRead.{AllRead, KeepsRoom, begins_with};
ghost use Rattle.endpoint.specs.OnWay.{OnWay, Reached, SomeWay};

use crate::endpoint::Endpoint;
use crate::giving::give_waiting;
use carrier::{Carrier, Post};
use end_calls::CONTROL;
use end_reader::Reader;
use mt_base::Kind;
use mt_windows::QUEUE;

/// Takes bytes of the main stream as [`Reader::read_main`] does, and gives the reliable link what they made the
/// end write for it.
fn read_frame<C: Carrier + Drop>(
    reader: &mut Reader,
    reliable: &mut Option<C>,
    bytes: &[u8],
) -> usize
    requires some { 0 < length bytes.now }
    requires whole { (reader.old).session.broken ≡ None }
    requires room { length ((reader.old).session.outgoing).main + (CONTROL + ANSWER * (reader.old).session.owed) ≤ MAIN_QUEUE }
    requires free { IfSome reliable.old (λ link. C.load link + CONTROL ≤ QUEUE) }
    requires lawful { SomeWay C.stands C.left C.condition C.load reader.old reliable.old }
    ensures reached { (unread sent : List ℕ) (role : Role) (p : Past) (l : Trace Called) (queued : ℕ) → OnWay C.stands C.left C.condition C.load unread sent role p l queued reader.old reliable.old → Reached C.stands C.left C.condition C.load unread sent role p l queued bytes.now result reader.new reliable.new }
    ensures count { (0 < result) × (result ≤ length bytes.now) }
    ensures frame { (unread sent : List ℕ) (role : Role) (p : Past) (l : Trace Called) (queued : ℕ) → OnWay C.stands C.left C.condition C.load unread sent role p l queued reader.old reliable.old → OneFrame role p bytes.now result }
    ensures main { length ((reader.new).session.outgoing).main + ANSWER * (reader.new).session.owed ≤ length ((reader.old).session.outgoing).main + (2304 + ANSWER * (reader.old).session.owed) }
    ensures law { KeepsLaw C.law reliable.old reliable.new }
{
    let count = reader.read_main(bytes);
    if let Some(link) = reliable {
        give_waiting(link, reader.session.waiting(Kind::Reliable));
        reader.session.given(Kind::Reliable);
    }
    count
}

/// Whether the reliable link's queue has too little room for what one frame more may make the end write.
fn is_link_full<C: Carrier + Drop>(reliable: &Option<C>) -> bool
    ensures some { IfSome reliable.now (λ link. result ≡ nat_lt QUEUE (C.load link + CONTROL)) }
    ensures none { IfNone reliable.now (result ≡ false) }
{
    match reliable {
        Some(link) => link.queued() > QUEUE - CONTROL,
        None => false,
    }
}

/// Whether no byte more is read: the end is broken, or a stop stands.
fn is_stopped<C: Carrier + Drop>(reader: &Reader, reliable: &Option<C>) -> bool
    ensures stopped { (unread sent : List ℕ) (role : Role) (p q : Past) (l : Trace Called) (queued : ℕ) → OnWay C.stands C.left C.condition C.load unread sent role q l (queued + length (flat_map tunneled (written kinds.Reliable role p q))) reader.now reliable.now → result ≡ (is_broken q || is_stopped role (begins_with sent queued p) q) }
    ensures whole { result ≡ false → (reader.now).session.broken ≡ None }
    ensures room { result ≡ false → length ((reader.now).session.outgoing).main + (CONTROL + ANSWER * (reader.now).session.owed) ≤ MAIN_QUEUE }
    ensures free { result ≡ false → IfSome reliable.now (λ link. C.load link + CONTROL ≤ QUEUE) }
{
    if reader.session.broken().is_some() {
        return true;
    }
    if reader.session.is_full() {
        return true;
    }
    is_link_full(reliable)
}

/// Takes bytes of the main stream frame by frame, up to a stop, and gives their number; all of them where they
/// break the end.
fn read_all<C: Carrier + Drop>(reader: &mut Reader, reliable: &mut Option<C>, bytes: &[u8]) -> usize
    requires lawful { SomeWay C.stands C.left C.condition C.load reader.old reliable.old }
    ensures read { (unread sent : List ℕ) (role : Role) (p : Past) (l : Trace Called) (queued : ℕ) → OnWay C.stands C.left C.condition C.load unread sent role p l queued reader.old reliable.old → AllRead C.stands C.left C.condition C.load unread sent role p l queued bytes.now result reader.new reliable.new }
    ensures room { KeepsRoom (reader.old).session (reader.new).session }
    ensures law { KeepsLaw C.law reliable.old reliable.new }
    ensures bound { result ≤ length bytes.now }
{
    let mut taken = 0;
    while taken < bytes.len() && !is_stopped(reader, reliable) {
        taken += read_frame(reader, reliable, &bytes[taken..]);
        if reader.session.broken().is_some() {
            return bytes.len();
        }
    }
    taken
}

impl<C: Carrier + Drop, P: Post + Drop> Endpoint<C, P> {
    ghost use Rattle.std.specs.Prelude.{◌≡◌, ◌≤◌, ℕ, length, Option};
    ghost use Rattle.mt_base.specs.declared.kinds.Role.{Role};
    ghost use Rattle.mt_base.specs.Trace.{Trace, ◌▷◌};
    ghost use Rattle.mt_endpoint.specs.Acts.{Act};
    ghost use Rattle.end_calls.specs.Calls.{Entry, MainIn};
    ghost use Rattle.endpoint.specs.Attached.{load_in};
    ghost use Rattle.endpoint.specs.Laws.{KeepsLaws};
    ghost use Rattle.endpoint.specs.Standing.{EndStands};

    /// Reads bytes of the main stream (MS-RDPBCGR section 2.2.15, MS-RDPEDYC section 2.2), cut anywhere, and gives
    /// how many of them it took; the others are to be offered again. It stops at the beginning of a frame, or at the
    /// first byte of the call, while messages of 4,194,304 bytes wait, each counted with 64 more, while the main
    /// queue has fewer than 3,072 bytes free beside 17 for each Soft-Sync request that isn't answered, and while the
    /// reliable link's has fewer than 3,072 free. At a fault, and where memory is wanting, all of them count as
    /// taken; a broken end takes none.
    pub fn main_in(&mut self, bytes: &[u8]) -> usize
        ensures bound { result ≤ length bytes.now }
        ensures reads { (role : Role) (t : Trace Entry) → EndStands C.stands C.left C.condition P.stands P.left P.condition self.old role t → (lack : Option (ℕ × Trace Act)) × EndStands C.stands C.left C.condition P.stands P.left P.condition self.new role (t ▷ MainIn bytes.now result (load_in C.load self.old.reliable) lack) }
        ensures laws { KeepsLaws C.law P.law self.old self.new }
    {
        read_all(&mut self.reader, &mut self.reliable, bytes)
    }
}
