//! The requests for tunnels so far, and what the client asked for on the reliable link.

ghost use Rattle.std.specs.Prelude.{◌≡◌, ◌↔◌, ◌++◌, ◌∷◌, ℕ, [], List, IfOk, IsTrue, IsFalse};
ghost use Rattle.mt_base.specs.declared.kinds.Kind.TheVariants.{Reliable};
ghost use Rattle.mt_base.specs.declared.kinds.Role.TheVariants.{Client};
ghost use Rattle.tunnel_pdus.specs.Views.{pdu_of};
ghost use Rattle.capture_check.specs.declared.entry.Entry.{Entry};
ghost use Rattle.capture_check.specs.declared.entry.Entry.TheVariants.{Out};
ghost use Rattle.capture_check.specs.LayoutsSoFar.{AreAgreed};
ghost use Rattle.capture_check.specs.Requests.{AsksForIssued, AsksForTunnel, GaveData, IsIssued};
ghost use Rattle.capture_check.specs.RequestsSoFar.{AreIssued, AreRequests, NamesIssued};

use crate::agreed::AgreedLayouts;
use crate::entry::Entry;
use crate::issued::{Issued, IssuedById};
use crate::layout::GREATEST;
use mt_base::{Kind, NoMemory, Role};
use std::alloc::Global;
use tunnel_pdus::{Part, TunnelPdu, read_tunnel};

/// What was issued, and whether the client gave data on the reliable link.
#[derive(Drop)]
pub(crate) struct Requests {
    issued: IssuedById,
    gave_data: bool,
}

impl Requests {
    /// Nothing was issued or given.
    pub(crate) fn new(alloc: Global) -> Result<Requests, NoMemory>
        ensures { IfOk result (AreRequests []) }
    {
        Ok(Requests {
            issued: IssuedById::new(alloc)?,
            gave_data: false,
        })
    }

    /// Notes an entry; false where it is a request with an id that was issued before, or the first
    /// data of the client on the reliable link and these ask for no tunnel that was issued.
    pub(crate) fn note(&mut self, agreed: AgreedLayouts, entry: &Entry) -> Result<bool, NoMemory>
        ensures kept { IfOk result (λ kept. (before : List Entry) → AreAgreed agreed before
            → AreRequests before self.old → IsTrue kept
            → AsksForTunnel before entry.now × AreRequests (before ++ entry.now ∷ []) self.new) }
        ensures broken { IfOk result (λ kept. (before : List Entry) → AreAgreed agreed before
            → AreRequests before self.old → IsFalse kept → ¬ AsksForTunnel before entry.now) }
    {
        match entry {
            Entry::Issue { id, kind, cookie } => self.issued.add(
                *id,
                Issued {
                    kind: *kind,
                    cookie: *cookie,
                },
            ),
            Entry::Out {
                side,
                kind,
                datagram,
                ..
            } => Ok(self.give(agreed, *side, *kind, datagram.bytes())),
            _ => Ok(true),
        }
    }

    /// Notes a datagram of a side; false where it carries the first data of the client on the
    /// reliable link, and these ask for no tunnel that was issued.
    fn give(&mut self, agreed: AgreedLayouts, side: Role, kind: Kind, datagram: &[u8]) -> bool
        ensures kept { (before : List Entry) → AreAgreed agreed before → AreRequests before self.old
            → IsTrue result → (number : ℕ)
            → AsksForTunnel before (Out side kind number datagram.now)
            × AreRequests (before ++ Out side kind number datagram.now ∷ []) self.new }
        ensures broken { (before : List Entry) → AreAgreed agreed before → AreRequests before self.old
            → IsFalse result → (number : ℕ)
            → ¬ AsksForTunnel before (Out side kind number datagram.now) }
    {
        match (side, kind) {
            (Role::Client, Kind::Reliable) => self.ask(agreed, datagram),
            (Role::Client, Kind::Lossy) => true,
            (Role::Server, Kind::Reliable) => true,
            (Role::Server, Kind::Lossy) => true,
        }
    }

    /// Notes a datagram of the client on the reliable link.
    fn ask(&mut self, agreed: AgreedLayouts, datagram: &[u8]) -> bool
        ensures kept { (before : List Entry) → AreAgreed agreed before → AreRequests before self.old
            → IsTrue result → (number : ℕ)
            → AsksForTunnel before (Out Client Reliable number datagram.now)
            × AreRequests (before ++ Out Client Reliable number datagram.now ∷ []) self.new }
        ensures broken { (before : List Entry) → AreAgreed agreed before → AreRequests before self.old
            → IsFalse result → (number : ℕ)
            → ¬ AsksForTunnel before (Out Client Reliable number datagram.now) }
    {
        let mut scratch = [0; GREATEST];
        match agreed.carried(Kind::Reliable, datagram, &mut scratch) {
            Some(bytes) => {
                let may = self.may_carry(bytes);
                self.gave_data = true;
                may
            }
            None => true,
        }
    }

    /// Whether the client may give these data now: others were given before, or they ask for a tunnel
    /// that was issued.
    fn may_carry(&self, bytes: &[u8]) -> bool
        ensures { (before : List Entry) → AreRequests before self.now
            → IsTrue result ↔ (¬ GaveData before → AsksForIssued before bytes.now) }
    {
        self.gave_data || self.asks_for_issued(bytes)
    }

    /// Whether bytes are one create request, for a reliable tunnel that was issued.
    fn asks_for_issued(&self, bytes: &[u8]) -> bool
        ensures { (before : List Entry) → AreIssued before self.now.issued
            → IsTrue result ↔ AsksForIssued before bytes.now }
    {
        match read_tunnel(bytes) {
            Ok(Part::Whole { value, used }) => used == bytes.len() && self.is_issued(value),
            Ok(Part::More { .. }) => false,
            Err(_) => false,
        }
    }

    /// Whether a tunnel PDU is a create request for a reliable tunnel that was issued.
    fn is_issued(&self, pdu: TunnelPdu<'_>) -> bool
        ensures { (before : List Entry) → AreIssued before self.now.issued
            → IsTrue result ↔ NamesIssued before (pdu_of pdu.entry) }
    {
        match pdu {
            TunnelPdu::CreateRequest { id, cookie } => self.has_issued(id, cookie),
            TunnelPdu::CreateResponse { .. } => false,
            TunnelPdu::Data { .. } => false,
        }
    }

    /// Whether a request for a reliable tunnel was issued with this id and cookie.
    fn has_issued(&self, id: u32, cookie: &[u8]) -> bool
        ensures { (before : List Entry) → AreIssued before self.now.issued
            → IsTrue result ↔ IsIssued id Reliable cookie.now before }
    {
        match self.issued.get(id) {
            Some(issued) => is_for(issued, cookie),
            None => false,
        }
    }
}

/// Whether a request is for a reliable tunnel, with this cookie.
fn is_for(issued: &Issued, cookie: &[u8]) -> bool
    ensures { IsTrue result ↔ (issued.now ≡ record { kind = Reliable; cookie = cookie.now }) }
{
    match issued.kind {
        Kind::Reliable => issued.cookie.as_slice() == cookie,
        Kind::Lossy => false,
    }
}
