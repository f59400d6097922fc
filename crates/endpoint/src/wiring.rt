//! Datagrams that came for the links.

ghost use Rattle.std.specs.Prelude.{IfSome};
ghost use Rattle.endpoint.specs.Handed.{SomePart};
ghost use Rattle.endpoint.specs.Laws.{KeepsLaw};
ghost use Rattle.endpoint.specs.MainRead.{KeepsRoom};
ghost use Rattle.endpoint.specs.WiredIn.{HandedIf};

use crate::endpoint::Endpoint;
use crate::giving::load_of;
use crate::parts::take_parts;
use crate::pulling::pull_all;
use carrier::{Carrier, Post, Reason, Took};
use end_reader::Reader;
use mt_base::Kind;

/// Takes the parts that the lossy link has and reads them, where an end has one.
fn take_if<P: Post + Drop>(reader: &mut Reader, lossy: &mut Option<P>, load: usize)
    requires lawful { IfSome lossy.old (λ link. SomePart P.stands P.left P.condition reader.old link) }
    ensures handed { HandedIf P.stands P.left P.condition P.load load reader.old reader.new lossy.old lossy.new }
    ensures room { KeepsRoom (reader.old).session (reader.new).session }
    ensures law { KeepsLaw P.law lossy.old lossy.new }
{
    if let Some(link) = lossy {
        take_parts(reader, link, load);
    }
}

impl<C: Carrier + Drop, P: Post + Drop> Endpoint<C, P> {
    ghost use Rattle.std.specs.Prelude.{◌≡◌, ◌<◌, ◌^◌, false};
    ghost use Rattle.mt_base.specs.declared.kinds.Role.{Role};
    ghost use Rattle.mt_base.specs.declared.kinds.Kind.TheVariants as kinds;
    ghost use Rattle.mt_base.specs.Trace.{Trace};
    ghost use Rattle.carrier.specs.declared.state.Took.TheVariants.{Ignored};
    ghost use Rattle.carrier.specs.declared.state.Reason.TheVariants as reason;
    ghost use Rattle.mt_endpoint.specs.Tunnels.{is_attached};
    ghost use Rattle.end_calls.specs.Calls.{Entry, acts};
    ghost use Rattle.endpoint.specs.Laws.{KeepsLaws};
    ghost use Rattle.endpoint.specs.Standing.{EndStands};
    ghost use Rattle.endpoint.specs.WiredIn.{WiredIn};

    /// Hands the datagram to the reliable link, and reads what that and the lossy link have.
    fn wire_reliable(&mut self, now: u64, datagram: &[u8]) -> Took
        requires moment { now < 2 ^ 62 }
        ensures read { (role : Role) (t : Trace Entry) → EndStands C.stands C.left C.condition P.stands P.left P.condition self.old role t → WiredIn C.stands C.left C.condition C.load P.stands P.left P.condition P.load role t kinds.Reliable now datagram.now result self.old self.new }
        ensures none { (role : Role) (t : Trace Entry) → EndStands C.stands C.left C.condition P.stands P.left P.condition self.old role t → is_attached kinds.Reliable (acts role t) ≡ false → (result ≡ Ignored reason.NotOpen) × (self.new ≡ self.old) }
        ensures laws { KeepsLaws C.law P.law self.old self.new }
    {
        let Some(link) = &mut self.reliable else {
            return Took::Ignored(Reason::NotOpen);
        };
        let took = link.input(now, datagram);
        pull_all(&mut self.reader, link);
        take_if(&mut self.reader, &mut self.lossy, link.queued());
        // Nothing turns on this answer: its clause says that what is held keeps its limit.
        let _is_full = self.reader.session.is_hold_full();
        took
    }

    /// Hands the datagram to the lossy link, and reads what that has.
    fn wire_lossy(&mut self, now: u64, datagram: &[u8]) -> Took
        requires moment { now < 2 ^ 62 }
        ensures read { (role : Role) (t : Trace Entry) → EndStands C.stands C.left C.condition P.stands P.left P.condition self.old role t → WiredIn C.stands C.left C.condition C.load P.stands P.left P.condition P.load role t kinds.Lossy now datagram.now result self.old self.new }
        ensures none { (role : Role) (t : Trace Entry) → EndStands C.stands C.left C.condition P.stands P.left P.condition self.old role t → is_attached kinds.Lossy (acts role t) ≡ false → (result ≡ Ignored reason.NotOpen) × (self.new ≡ self.old) }
        ensures laws { KeepsLaws C.law P.law self.old self.new }
    {
        let Some(link) = &mut self.lossy else {
            return Took::Ignored(Reason::NotOpen);
        };
        let took = link.input(now, datagram);
        take_parts(&mut self.reader, link, load_of(&self.reliable));
        // Nothing turns on this answer: its clause says that what is held keeps its limit.
        let _is_full = self.reader.session.is_hold_full();
        took
    }

    /// Hands a datagram that came at this moment, in milliseconds, to the link of this kind, and gives the link's
    /// answer; `Ignored(NotOpen)` where there is no link, and then nothing changes. Then the tunnel PDUs that the
    /// reliable link has are read, where the datagram was for it, and the parts that the lossy link has (MS-RDPEMT
    /// section 2.2). That stops before a PDU or a part where [`Endpoint::main_in`] would stop, and also while what is
    /// held of the reliable tunnel leaves fewer than 1,616 bytes of 1,048,576. What was not read is read by a later
    /// call; an empty datagram will do. A broken end reads nothing.
    pub fn wire_in(&mut self, link: Kind, now: u64, datagram: &[u8]) -> Took
        requires moment { now < 2 ^ 62 }
        ensures read { (role : Role) (t : Trace Entry) → EndStands C.stands C.left C.condition P.stands P.left P.condition self.old role t → WiredIn C.stands C.left C.condition C.load P.stands P.left P.condition P.load role t link now datagram.now result self.old self.new }
        ensures none { (role : Role) (t : Trace Entry) → EndStands C.stands C.left C.condition P.stands P.left P.condition self.old role t → is_attached link (acts role t) ≡ false → (result ≡ Ignored reason.NotOpen) × (self.new ≡ self.old) }
        ensures laws { KeepsLaws C.law P.law self.old self.new }
    {
        match link {
            Kind::Reliable => self.wire_reliable(now, datagram),
            Kind::Lossy => self.wire_lossy(now, datagram),
        }
    }
}
