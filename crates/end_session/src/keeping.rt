//! Channel PDUs that are pulled from the links ahead of their word are held.

ghost use Rattle.std.specs.Prelude.{◌≡◌, ◌∷◌, [], Some, IfSome, IfNone};
ghost use Rattle.dvc_pdus.specs.Views.{pdu_of};
ghost use Rattle.mt_endpoint.specs.Channels.{is_open_in};
ghost use Rattle.mt_endpoint.specs.Faults.{is_taken_in};
ghost use Rattle.mt_endpoint.specs.Holding.{channel_of, is_through};
ghost use Rattle.mt_endpoint.specs.Said.{lone};

use crate::cause::Cause;
use crate::session::Session;
use dvc_channels::{ChannelRefusal, ChannelState};
use dvc_pdus::DvcPdu;
use mt_base::Kind;
use soft_sync::Path;

/// What a PDU that is held counts beside its bytes.
const OVERHEAD: usize = 16;

/// The channel of data or of a close.
pub(crate) fn channel_of(pdu: &DvcPdu<'_>) -> Option<u32>
    ensures { result ≡ channel_of (pdu_of pdu.now) }
{
    match *pdu {
        DvcPdu::Caps { .. } => None,
        DvcPdu::CreateRequest { .. } => None,
        DvcPdu::CreateResponse { .. } => None,
        DvcPdu::DataFirst { id, .. } => Some(id),
        DvcPdu::Data { id, .. } => Some(id),
        DvcPdu::CompressedFirst { id, .. } => Some(id),
        DvcPdu::Compressed { id, .. } => Some(id),
        DvcPdu::Close { id } => Some(id),
        DvcPdu::SyncRequest { .. } => None,
        DvcPdu::SyncResponse { .. } => None,
    }
}

/// The channel of a lone data PDU, which is all that a lossy tunnel carries.
pub(crate) fn lone_of(pdu: &DvcPdu<'_>) -> Option<u32>
    ensures lone { IfSome result (λ id. lone (pdu_of pdu.now) ≡ id ∷ []) }
    ensures other { IfNone result (lone (pdu_of pdu.now) ≡ []) }
    ensures channel { IfSome result (λ id. channel_of (pdu_of pdu.now) ≡ Some id) }
{
    match *pdu {
        DvcPdu::Caps { .. } => None,
        DvcPdu::CreateRequest { .. } => None,
        DvcPdu::CreateResponse { .. } => None,
        DvcPdu::DataFirst { .. } => None,
        DvcPdu::Data { id, .. } => Some(id),
        DvcPdu::CompressedFirst { .. } => None,
        DvcPdu::Compressed { .. } => None,
        DvcPdu::Close { .. } => None,
        DvcPdu::SyncRequest { .. } => None,
        DvcPdu::SyncResponse { .. } => None,
    }
}

/// Whether a channel in this state is open.
fn is_open(state: ChannelState) -> bool
    ensures { result ≡ is_open_in state }
{
    match state {
        ChannelState::Unknown => false,
        ChannelState::Asked => false,
        ChannelState::Open => true,
        ChannelState::Refused => false,
        ChannelState::Closed => false,
    }
}

/// Whether a channel in this state takes data, be it to drop them.
fn is_taken(state: ChannelState) -> bool
    ensures { result ≡ is_taken_in state }
{
    match state {
        ChannelState::Unknown => false,
        ChannelState::Asked => false,
        ChannelState::Open => true,
        ChannelState::Refused => false,
        ChannelState::Closed => true,
    }
}

/// Whether this is the path of the tunnel of this kind.
fn is_through(kind: Kind, path: Path) -> bool
    ensures { result ≡ is_through kind path }
{
    match path {
        Path::Main => false,
        Path::Tunnel(made) => made == kind,
    }
}

impl Session {
    ghost use Rattle.std.specs.Prelude.{◌≡◌, ℕ, ◌≤◌, true, false, List, length, Some, None, Ok, is_some, IfSome, IfNone};
    ghost use Rattle.mt_base.specs.declared.kinds.Kind.TheVariants.{Reliable};
    ghost use Rattle.mt_base.specs.Trace.{Trace, ◌▷◌};
    ghost use Rattle.mt_base.specs.Ends.{other};
    ghost use Rattle.dvc_pdus.specs.Reading.{reading};
    ghost use Rattle.dvc_pdus.specs.Views.{pdu_of};
    ghost use Rattle.mt_endpoint.specs.Acts.{Act, Draws, Carried};
    ghost use Rattle.mt_endpoint.specs.Holding.{channel_of, held, is_for_open, is_held};
    ghost use Rattle.end_calls.specs.Streams.{told_place};
    ghost use Rattle.end_session.specs.Behind.{IsAhead, IsBehind};
    ghost use Rattle.end_session.specs.Causes.{IsCause, why_of};
    ghost use Rattle.end_session.specs.Drawing.{IsHeldBeside, drawn_fault, held_of};
    ghost use Rattle.end_session.specs.Standing.{Gone, Stands};

    /// A channel PDU was pulled from a link ahead of the word of its channel, whose tunnel PDU began at this
    /// place, the greatest `u64` where it is above that: the act `Draws`. It is held, where its channel is
    /// open (MS-RDPEDYC section 3.1.5.3); it is for [`Session::release`] once that word is read. What a
    /// lossy tunnel carries beside lone data PDUs has no effect, nor have data that find no room.
    pub(crate) fn draw_ahead(&mut self, kind: Kind, at: u64, bytes: &[u8], pdu: &DvcPdu<'_>)
        requires read { reading (other (self.old).role) bytes.now ≡ Ok (pdu_of pdu.now) }
        requires ahead { IsAhead kind (pdu_of pdu.now) self.old }
        requires allowed { (t : Trace Act) (gone : Gone) → Stands self.old t gone → drawn_fault (self.old).role kind t (Carried bytes.now (pdu_of pdu.now)) ≡ None }
        requires held { kind ≡ Reliable → IsHeldBeside 1600 (self.old).held_reliable }
        ensures drawn { (t : Trace Act) (gone : Gone) (place : ℕ) → at ≡ told_place place → Stands self.old t gone → Stands self.new (t ▷ Draws kind place (Carried bytes.now (pdu_of pdu.now))) gone }
        ensures quiet { (self.new).outgoing ≡ (self.old).outgoing }
        ensures owed { (self.new).owed ≡ (self.old).owed }
        ensures same { ((self.new).role ≡ (self.old).role) × ((self.new).broken ≡ (self.old).broken) }
    {
        let Some(id) = self.held_for(kind, bytes.len(), pdu) else {
            return;
        };
        match kind {
            Kind::Reliable => self.held_reliable.keep(id, at, bytes),
            Kind::Lossy => self.held_lossy.keep(id, at, bytes),
        }
    }

    /// Whether a channel PDU is for a channel whose data come by the tunnel of this kind.
    pub(crate) fn is_behind(&self, kind: Kind, pdu: &DvcPdu<'_>) -> bool
        ensures behind { result ≡ true → IsBehind kind (pdu_of pdu.now) self.now }
        ensures ahead { result ≡ false → IsAhead kind (pdu_of pdu.now) self.now }
    {
        let Some(id) = channel_of(pdu) else {
            return false;
        };
        is_through(kind, self.paths.inward(id))
    }

    /// Why a channel PDU doesn't come on a link: on the reliable one before the tunnel is open, or where it
    /// is neither data nor a close, or where its channel takes no data.
    pub(crate) fn carried_cause(&self, kind: Kind, pdu: &DvcPdu<'_>) -> Option<Cause>
        ensures refused { (t : Trace Act) (gone : Gone) (bytes : List ℕ) → Stands self.now t gone → IfSome result (λ cause. IsCause (drawn_fault (self.now).role kind t (Carried bytes (pdu_of pdu.now))) cause) }
        ensures allowed { (t : Trace Act) (gone : Gone) (bytes : List ℕ) → Stands self.now t gone → IfNone result (drawn_fault (self.now).role kind t (Carried bytes (pdu_of pdu.now)) ≡ None) }
        ensures told { IfSome result (λ cause. is_some (why_of cause) ≡ true) }
    {
        match kind {
            Kind::Lossy => None,
            Kind::Reliable => {
                if !self.reliable.is_open(self.role) {
                    return Some(Cause::Unexpected);
                }
                let Some(id) = channel_of(pdu) else {
                    return Some(Cause::Unexpected);
                };
                if is_taken(self.channels.state(id)) {
                    return None;
                }
                Some(Cause::Channel(ChannelRefusal::UnknownChannel { id }))
            }
        }
    }

    /// The channel for which a PDU of so many bytes is held, where it is.
    fn held_for(&self, kind: Kind, size: usize, pdu: &DvcPdu<'_>) -> Option<u32>
        requires short { size ≤ 1600 }
        requires ahead { IsAhead kind (pdu_of pdu.now) self.now }
        requires room { kind ≡ Reliable → IsHeldBeside 1600 (self.now).held_reliable }
        ensures held { (t : Trace Act) (gone : Gone) (bytes : List ℕ) → length bytes ≡ size → Stands self.now t gone → is_held (self.now).role kind t bytes (pdu_of pdu.now) (held (self.now).role kind t) ≡ is_some result }
        ensures channel { IfSome result (λ id. channel_of (pdu_of pdu.now) ≡ Some id) }
        ensures fits { IfSome result (λ id. IsHeldBeside size (held_of kind self.now)) }
    {
        match kind {
            Kind::Reliable => self.if_open(channel_of(pdu)),
            Kind::Lossy => {
                let Some(id) = self.if_open(lone_of(pdu)) else {
                    return None;
                };
                if OVERHEAD + size <= self.held_lossy.room() {
                    return Some(id);
                }
                None
            }
        }
    }

    /// A channel, where it is open.
    pub(crate) fn if_open(&self, id: Option<u32>) -> Option<u32>
        ensures open_one { (t : Trace Act) (gone : Gone) → Stands self.now t gone → is_for_open (self.now).role t id ≡ is_some result }
        ensures found { IfSome result (λ found. id ≡ Some found) }
    {
        let id = id?;
        if is_open(self.channels.state(id)) {
            return Some(id);
        }
        None
    }
}
