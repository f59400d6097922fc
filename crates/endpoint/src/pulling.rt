//! Bytes of the reliable link are pulled and read.

ghost use Rattle.std.specs.Prelude.{◌≡◌, ℕ, ◌+◌, ◌*◌, ◌<◌, ◌≤◌, true, List, length, take, drop, min, None, Some};
ghost use Rattle.mt_base.specs.declared.kinds.Role.{Role};
ghost use Rattle.mt_base.specs.Trace.{Trace, ◌▷◌};
ghost use Rattle.mt_windows.specs.declared.limits.TheConstants.{QUEUE};
ghost use Rattle.carrier.specs.Entries.{Entry as Called, Pulled};
ghost use Rattle.end_calls.specs.declared.limits.TheConstants.{ANSWER, CONTROL, MAIN_QUEUE};
ghost use Rattle.end_calls.specs.Streams.{Past};
ghost use Rattle.end_session.specs.Drawing.{IsHeldBeside};
ghost use Rattle.endpoint.specs.Laws.{SameLaw};
ghost use Rattle.endpoint.specs.MainRead.{KeepsRoom};
ghost use Rattle.endpoint.specs.OnWay.{OnWay, SomeWay};
ghost use Rattle.endpoint.specs.Pulled.{AllPulled, OnePull};

use crate::giving::give_waiting;
use crate::link_stop::is_link_stopped;
use carrier::Carrier;
use end_reader::Reader;
use mt_base::Kind;

/// The bytes of the longest tunnel PDU (MS-RDPEMT section 2.2).
const LONGEST: usize = 1855;

/// Pulls the next bytes of a link, as many as there are and are wanted.
fn next_bytes<C: Carrier>(link: &mut C, wanted: usize, buffer: &mut [u8; 1855]) -> usize
    requires fits { wanted ≤ 1855 }
    ensures count { result ≡ min wanted (length (C.left link.old)) }
    ensures bytes { take result buffer.new ≡ take result (C.left link.old) }
    ensures left { C.left link.new ≡ drop result (C.left link.old) }
    ensures trace { (t : Trace Called) → C.stands link.old t → C.stands link.new (t ▷ Pulled wanted (take result buffer.new)) }
    ensures load { C.load link.new ≡ C.load link.old }
    ensures state { C.condition link.new ≡ C.condition link.old }
    ensures law { SameLaw C.law link.old link.new }
{
    link.pull(&mut buffer[..wanted])
}

/// Pulls what the tunnel PDU under way wants, reads it, and gives the link what that made the end write for it.
/// Tells whether there was as much.
fn pull_one<C: Carrier + Drop>(reader: &mut Reader, link: &mut C) -> bool
    requires whole { (reader.old).session.broken ≡ None }
    requires room { length ((reader.old).session.outgoing).main + (CONTROL + ANSWER * (reader.old).session.owed) ≤ MAIN_QUEUE }
    requires free { C.load link.old + CONTROL ≤ QUEUE }
    requires held { IsHeldBeside 1600 (reader.old).session.held_reliable }
    requires lawful { SomeWay C.stands C.left C.condition C.load reader.old (Some link.old) }
    ensures pulled { (unread sent : List ℕ) (role : Role) (p : Past) (l : Trace Called) (queued : ℕ) → OnWay C.stands C.left C.condition C.load unread sent role p l queued reader.old (Some link.old) → OnePull C.stands C.left C.condition C.load unread sent role p l queued result reader.new link.new }
    ensures no_more { length (C.left link.new) ≤ length (C.left link.old) }
    ensures less { result ≡ true → length (C.left link.new) < length (C.left link.old) }
    ensures main { length ((reader.new).session.outgoing).main + ANSWER * (reader.new).session.owed ≤ length ((reader.old).session.outgoing).main + (2304 + ANSWER * (reader.old).session.owed) }
    ensures law { SameLaw C.law link.old link.new }
{
    let wanted = reader.wanted();
    let mut buffer = [0; LONGEST];
    let count = next_bytes(link, wanted, &mut buffer);
    reader.read_tunnel(&buffer[..count]);
    give_waiting(link, reader.session.waiting(Kind::Reliable));
    reader.session.given(Kind::Reliable);
    count == wanted
}

/// Pulls what the reliable link has and reads it, tunnel PDU by tunnel PDU, up to a stop.
pub(crate) fn pull_all<C: Carrier + Drop>(reader: &mut Reader, link: &mut C)
    requires lawful { SomeWay C.stands C.left C.condition C.load reader.old (Some link.old) }
    ensures pulled { (unread sent : List ℕ) (role : Role) (p : Past) (l : Trace Called) (queued : ℕ) → OnWay C.stands C.left C.condition C.load unread sent role p l queued reader.old (Some link.old) → AllPulled C.stands C.left C.condition C.load unread sent role p l queued reader.new link.new }
    ensures room { KeepsRoom (reader.old).session (reader.new).session }
    ensures law { SameLaw C.law link.old link.new }
{
    let mut is_whole = true;
    while is_whole && !is_link_stopped(&reader.session, link.queued()) {
        is_whole = pull_one(reader, link);
    }
}
