//! Parts of the lossy link are handed out and read.

ghost use Rattle.std.specs.Prelude.{◌≡◌, ℕ, ◌+◌, ◌*◌, ◌<◌, ◌≤◌, true, false, List, [], length, None};
ghost use Rattle.mt_base.specs.declared.kinds.Role.{Role};
ghost use Rattle.mt_base.specs.Trace.{Trace, ◌▷◌};
ghost use Rattle.carrier.specs.Entries.{Entry as Called, Next};
ghost use Rattle.end_calls.specs.declared.limits.TheConstants.{ANSWER, CONTROL, MAIN_QUEUE};
ghost use Rattle.end_calls.specs.Stops.{Outset};
ghost use Rattle.end_calls.specs.Streams.{Past};
ghost use Rattle.endpoint.specs.Handed.{AllHanded, LoadAt, OnePart, PartWay, SomePart};
ghost use Rattle.endpoint.specs.Laws.{SameLaw};
ghost use Rattle.endpoint.specs.MainRead.{KeepsRoom};

use crate::giving::post_waiting;
use crate::link_stop::is_link_stopped;
use crate::repeating::is_full;
use carrier::Post;
use end_reader::Reader;
use mt_base::Kind;

/// Takes the next part of the lossy link, reads it, and posts what that made the end write for the link. Tells
/// whether there was one.
fn take_part<P: Post + Drop>(reader: &mut Reader, link: &mut P) -> bool
    requires whole { (reader.old).session.broken ≡ None }
    requires room { length ((reader.old).session.outgoing).main + (CONTROL + ANSWER * (reader.old).session.owed) ≤ MAIN_QUEUE }
    requires lawful { SomePart P.stands P.left P.condition reader.old link.old }
    ensures taken { (unhanded : List (List ℕ)) (sent : List ℕ) (role : Role) (p : Past) (m : Trace Called) → PartWay P.stands P.left P.condition unhanded sent role p m reader.old link.old → result ≡ true → OnePart P.stands P.left P.condition P.load link.old unhanded sent role p m reader.new link.new }
    ensures none { result ≡ false → (reader.new ≡ reader.old) × (P.left link.old ≡ []) × (P.left link.new ≡ []) × (P.condition link.new ≡ P.condition link.old) × ((m : Trace Called) → P.stands link.old m → P.stands link.new (m ▷ Next None)) }
    ensures stays { result ≡ false → P.load link.new ≡ P.load link.old }
    ensures less { result ≡ true → length (P.left link.new) < length (P.left link.old) }
    ensures main { length ((reader.new).session.outgoing).main + ANSWER * (reader.new).session.owed ≤ length ((reader.old).session.outgoing).main + (2304 + ANSWER * (reader.old).session.owed) }
    ensures law { SameLaw P.law link.old link.new }
{
    let is_full = is_full(link);
    let mut part = [0; 1232];
    let Some(count) = link.next(&mut part) else {
        return false;
    };
    reader.read_part(&part[..count], is_full);
    post_waiting(link, reader.session.waiting(Kind::Lossy));
    reader.session.given(Kind::Lossy);
    true
}

/// Takes the parts that the lossy link has and reads them, up to a stop, where the reliable link has this load, or 0
/// where there is none.
pub(crate) fn take_parts<P: Post + Drop>(reader: &mut Reader, link: &mut P, load: usize)
    requires lawful { SomePart P.stands P.left P.condition reader.old link.old }
    ensures handed { (unhanded : List (List ℕ)) (sent : List ℕ) (role : Role) (outset : Outset) (p : Past) (m : Trace Called) → PartWay P.stands P.left P.condition unhanded sent role p m reader.old link.old → LoadAt role outset sent p load → AllHanded P.stands P.left P.condition P.load link.old unhanded sent role outset p m reader.new link.new }
    ensures room { KeepsRoom (reader.old).session (reader.new).session }
    ensures law { SameLaw P.law link.old link.new }
{
    let mut has_part = true;
    while has_part && !is_link_stopped(&reader.session, load) {
        has_part = take_part(reader, link);
    }
}
