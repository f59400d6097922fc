//! A message is sent.

ghost use Rattle.std.specs.Prelude.{◌≡◌, ◌<◌, ◌≤◌, length, map, take, slice_get, Some};
ghost use Rattle.mt_base.specs.declared.kinds.Kind.TheVariants as kinds;
ghost use Rattle.dvc_pdus.specs.Value.{Pdu as Spelled};
ghost use Rattle.dvc_channels.specs.Fragments.{fragments_of};
ghost use Rattle.soft_sync.specs.declared.kinds.Path.TheVariants.{Tunnel};
ghost use Rattle.mt_base.specs.Writing.{joined};
ghost use Rattle.tunnel_pdus.specs.Value.{Data, pdu_fields};
ghost use Rattle.mt_endpoint.specs.Writing.{tunneled};
ghost use Rattle.end_session.specs.MessageGiven.{carrying};
ghost use Rattle.endpoint.specs.Attached.{load_in};
ghost use Rattle.endpoint.specs.Laws.{KeepsLaw, SameLaw};
ghost use Rattle.endpoint.specs.Messages.{TookEach, TookIf, through};

use crate::endpoint::Endpoint;
use crate::giving::{give_waiting, load_of, post_waiting};
use carrier::{Carrier, Post};
use dvc_channels::{fragment_of, fragments};
use end_calls::SendRefusal;
use mt_base::Kind;
use soft_sync::Path;
use tunnel_pdus::{TunnelPdu, write_tunnel};

/// The bytes of the greatest channel PDU.
const PDU: usize = 1_600;

/// The bytes of the greatest tunnel PDU that carries one, with its header of four.
const TUNNELED: usize = 1_604;

/// Writes a channel PDU as a tunnel PDU that carries it (MS-RDPEMT section 2.2.2.3) to the front of `out`, and
/// gives the number of its bytes.
fn wrap(payload: &[u8], out: &mut [u8; TUNNELED]) -> usize
    requires { length payload.now ≤ 1600 }
    ensures bytes { take result out.new ≡ joined (pdu_fields (Data payload.now)) }
    ensures bound { result ≤ 1604 }
{
    let Ok(count) = write_tunnel(&TunnelPdu::Data { payload }, out) else {
        unreachable!()
    };
    count
}

/// The same of the channel PDU of this number of a message, counted from 0.
fn wrap_fragment(id: u32, message: &[u8], k: u32, out: &mut [u8; TUNNELED]) -> usize
    requires message { length message.now ≤ 1048576 }
    requires number { k < length (fragments_of id message.now) }
    ensures bytes { (pdu : Spelled) → slice_get (fragments_of id message.now) k ≡ Some pdu → take result out.new ≡ tunneled (carrying pdu) }
    ensures bound { result ≤ 1604 }
{
    let mut pdu = [0; PDU];
    let count = fragment_of(id, message, k, &mut pdu);
    wrap(&pdu[..count], out)
}

/// Gives the PDUs of a message to a reliable link. One that isn't closed and has room takes them.
fn give_message<C: Carrier>(link: &mut C, id: u32, message: &[u8])
    requires { length message.now ≤ 1048576 }
    ensures took { TookEach kinds.Reliable C.stands C.left C.condition C.load (map carrying (fragments_of id message.now)) link.old link.new }
    ensures law { SameLaw C.law link.old link.new }
{
    let mut part = [0; TUNNELED];
    for k in 0..fragments(id, message.len() as u32) {
        let count = wrap_fragment(id, message, k, &mut part);
        give_waiting(link, &part[..count]);
    }
}

/// Posts a message, which has one PDU, on a lossy link. One that isn't closed and has room takes it.
fn post_message<P: Post>(link: &mut P, id: u32, message: &[u8])
    requires { length message.now ≤ 990 }
    ensures took { TookEach kinds.Lossy P.stands P.left P.condition P.load (map carrying (fragments_of id message.now)) link.old link.new }
    ensures law { SameLaw P.law link.old link.new }
{
    let mut part = [0; TUNNELED];
    let count = wrap_fragment(id, message, 0, &mut part);
    post_waiting(link, &part[..count]);
}

/// Gives the PDUs of a message to the reliable link, where an end has one.
fn give_message_if<C: Carrier>(link: &mut Option<C>, id: u32, message: &[u8])
    requires { length message.now ≤ 1048576 }
    ensures took { TookIf kinds.Reliable C.stands C.left C.condition C.load (map carrying (fragments_of id message.now)) link.old link.new }
    ensures law { KeepsLaw C.law link.old link.new }
{
    if let Some(link) = link {
        give_message(link, id, message);
    }
}

/// Posts a message, which has one PDU, on the lossy link, where an end has one.
fn post_message_if<P: Post>(link: &mut Option<P>, id: u32, message: &[u8])
    requires { length message.now ≤ 990 }
    ensures took { TookIf kinds.Lossy P.stands P.left P.condition P.load (map carrying (fragments_of id message.now)) link.old link.new }
    ensures law { KeepsLaw P.law link.old link.new }
{
    if let Some(link) = link {
        post_message(link, id, message);
    }
}

/// A message whose path is a tunnel goes into the tunnel's link.
fn carry<C: Carrier, P: Post>(
    path: Path,
    id: u32,
    message: &[u8],
    reliable: &mut Option<C>,
    lossy: &mut Option<P>,
)
    requires message { length message.now ≤ 1048576 }
    requires part { path ≡ Tunnel kinds.Lossy → length message.now ≤ 990 }
    ensures reliable { TookIf kinds.Reliable C.stands C.left C.condition C.load (through kinds.Reliable path (fragments_of id message.now)) reliable.old reliable.new }
    ensures lossy { TookIf kinds.Lossy P.stands P.left P.condition P.load (through kinds.Lossy path (fragments_of id message.now)) lossy.old lossy.new }
    ensures reliable_law { KeepsLaw C.law reliable.old reliable.new }
    ensures lossy_law { KeepsLaw P.law lossy.old lossy.new }
{
    match path {
        Path::Main => {}
        Path::Tunnel(kind) => match kind {
            Kind::Reliable => give_message_if(reliable, id, message),
            Kind::Lossy => post_message_if(lossy, id, message),
        },
    }
}

/// How many parts wait in the lossy link, where an end has one.
fn parts_of<P: Post>(link: &Option<P>) -> usize
    ensures { result ≡ load_in P.load link.now }
{
    match link {
        None => 0,
        Some(link) => link.queued(),
    }
}

impl<C: Carrier + Drop, P: Post + Drop> Endpoint<C, P> {
    ghost use Rattle.std.specs.Prelude.{◌≡◌, length, None, Some, OnOk, IfErr, OnErr};
    ghost use Rattle.mt_base.specs.declared.kinds.Role.{Role};
    ghost use Rattle.mt_base.specs.Trace.{Trace, ◌▷◌};
    ghost use Rattle.mt_endpoint.specs.Acts.{Sends};
    ghost use Rattle.end_calls.specs.Calls.{Entry, Own, acts, past};
    ghost use Rattle.end_calls.specs.Law.{unsent};
    ghost use Rattle.end_calls.specs.Refusing.{why_not_sent};
    ghost use Rattle.endpoint.specs.Attached.{load_in};
    ghost use Rattle.endpoint.specs.Laws.{KeepsLaws};
    ghost use Rattle.endpoint.specs.Standing.{EndStands};

    /// Sends a message on an open channel (MS-RDPEDYC section 3.1.5.1.4), by its path: on the main stream, or
    /// through a tunnel, into whose link all of its PDUs go at once. The refusals are looked at in the order
    /// in which [`SendRefusal`] lists them. Takes no memory.
    pub fn send(&mut self, id: u32, message: &[u8]) -> Result<(), SendRefusal>
        ensures sent { (role : Role) (t : Trace Entry) → EndStands C.stands C.left C.condition P.stands P.left P.condition self.old role t → OnOk result (EndStands C.stands C.left C.condition P.stands P.left P.condition self.new role (t ▷ Own (Sends id message.now))) }
        ensures allowed { (role : Role) (t : Trace Entry) → EndStands C.stands C.left C.condition P.stands P.left P.condition self.old role t → OnOk result (why_not_sent (past role t).broken role (acts role t) (record { unsent = length (unsent role t); reliable = load_in C.load self.old.reliable; lossy = load_in P.load self.old.lossy }) id message.now ≡ None) }
        ensures refused { (role : Role) (t : Trace Entry) → EndStands C.stands C.left C.condition P.stands P.left P.condition self.old role t → IfErr result (λ why. why_not_sent (past role t).broken role (acts role t) (record { unsent = length (unsent role t); reliable = load_in C.load self.old.reliable; lossy = load_in P.load self.old.lossy }) id message.now ≡ Some why) }
        ensures unchanged { OnErr result (self.new ≡ self.old) }
        ensures laws { KeepsLaws C.law P.law self.old self.new }
    {
        let load = load_of(&self.reliable);
        let parts = parts_of(&self.lossy);
        let path = self.reader.session.send(id, message, load, parts)?;
        carry(path, id, message, &mut self.reliable, &mut self.lossy);
        Ok(())
    }
}
