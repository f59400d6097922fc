//! A channel is closed.

ghost use Rattle.std.specs.Prelude.{◌≡◌, ◌≤◌};
ghost use Rattle.end_calls.specs.Refusing.{link_limit, passes, when, why_not_in};
ghost use Rattle.end_calls.specs.declared.refusal.CloseRefusal.TheVariants as close;
ghost use Rattle.end_session.specs.Closing.{closing_path};

use crate::closes::end_channel;
use crate::opening::HEADER;
use crate::session::Session;
use crate::spelled::Spelled;
use crate::writing::write_on;
use dvc_channels::ChannelState;
use dvc_pdus::DvcPdu;
use end_calls::{CONTROL, CloseRefusal};
use mt_base::Kind;
use mt_windows::QUEUE;
use soft_sync::Path;

/// The bytes of a tunnel PDU before its payload.
pub(crate) const TUNNEL_HEADER: usize = 4;

/// The path of the close of a channel whose data go on this one: not through a lossy tunnel.
fn close_path(path: Path) -> Path
    ensures { result ≡ closing_path path }
{
    match path {
        Path::Main => Path::Main,
        Path::Tunnel(kind) => match kind {
            Kind::Reliable => Path::Tunnel(Kind::Reliable),
            Kind::Lossy => Path::Main,
        },
    }
}

/// Why a channel in this state is not closed.
fn state_refusal(state: ChannelState) -> Option<CloseRefusal>
    ensures { result ≡ why_not_in close.UnknownChannel close.NotOpen close.ChannelClosed state }
{
    match state {
        ChannelState::Unknown => Some(CloseRefusal::UnknownChannel),
        ChannelState::Asked => Some(CloseRefusal::NotOpen),
        ChannelState::Open => None,
        ChannelState::Refused => Some(CloseRefusal::NotOpen),
        ChannelState::Closed => Some(CloseRefusal::ChannelClosed),
    }
}

/// Why a tunnel PDU of so many bytes does not go into a reliable link that holds so many.
fn link_refusal(queued: usize, size: usize) -> Option<CloseRefusal>
    requires { size ≤ 1604 }
    ensures { result ≡ when (passes queued size link_limit) (close.QueueFull queued link_limit) }
{
    let limit = QUEUE - CONTROL;
    if queued > limit - size {
        Some(CloseRefusal::QueueFull { queued, limit })
    } else {
        None
    }
}

impl Session {
    ghost use Rattle.std.specs.Prelude.{◌≡◌, ◌≤◌, ℕ, [], length, None, Some, OnOk, IfErr, OnErr};
    ghost use Rattle.mt_base.specs.declared.kinds.Kind.TheVariants.{Reliable};
    ghost use Rattle.mt_base.specs.Trace.{Trace, ◌▷◌};
    ghost use Rattle.mt_endpoint.specs.Acts.{Act, Closes};
    ghost use Rattle.mt_endpoint.specs.Moving.{outward};
    ghost use Rattle.end_calls.specs.Refusing.{silence_for_close, why_not_closed};
    ghost use Rattle.end_session.specs.Closing.{before_closing, full_for_size, loads_of};
    ghost use Rattle.end_session.specs.Outgoing.{waiting_for};
    ghost use Rattle.end_session.specs.Standing.{Gone, Stands};

    /// Closes an open channel, and tells the other end (MS-RDPEDYC section 2.2.4): what came of a message
    /// that isn't whole and what is held of the channel are dropped, and whole messages stay to be taken.
    /// The refusals are looked at in the order in which [`CloseRefusal`] lists them; `load` are the bytes
    /// that the reliable link holds. Takes no memory.
    pub fn close_channel(&mut self, id: u32, load: usize) -> Result<(), CloseRefusal>
        requires { waiting_for Reliable (self.old).outgoing ≡ [] }
        ensures closed { (t : Trace Act) (gone : Gone) → Stands self.old t gone → OnOk result (Stands self.new (t ▷ Closes id) gone) }
        ensures allowed { (t : Trace Act) (gone : Gone) (parts : ℕ) → Stands self.old t gone → OnOk result (why_not_closed (self.old).broken (self.old).role t (loads_of (self.old).outgoing load parts) id ≡ None) }
        ensures refused { (t : Trace Act) (gone : Gone) (parts : ℕ) → Stands self.old t gone → IfErr result (λ why. why_not_closed (self.old).broken (self.old).role t (loads_of (self.old).outgoing load parts) id ≡ Some why) }
        ensures unchanged { OnErr result (self.new ≡ self.old) }
        ensures same { ((self.new).role ≡ (self.old).role) × ((self.new).broken ≡ (self.old).broken) }
    {
        if let Some(why) = self.close_refusal(id) {
            return Err(why);
        }
        let path = close_path(self.outward(id));
        let pdu = Spelled::of(&DvcPdu::Close { id });
        if let Some(why) = self.close_room(path, pdu.len(), load) {
            return Err(why);
        }
        end_channel(
            id,
            &mut self.channels,
            &mut self.paths,
            &mut self.held_reliable,
            &mut self.held_lossy,
        );
        write_on(&mut self.outgoing, path, pdu.bytes());
        Ok(())
    }

    /// Why a channel is not closed, apart from the room of the queue.
    fn close_refusal(&self, id: u32) -> Option<CloseRefusal>
        ensures { (t : Trace Act) (gone : Gone) → Stands self.now t gone → result ≡ before_closing (self.now).broken (self.now).role t id }
    {
        if let Some(fault) = self.broken {
            return Some(CloseRefusal::Broken(fault));
        }
        if let Some(why) = state_refusal(self.channel(id)) {
            return Some(why);
        }
        if let Some(expiries) = self.close_silence(id) {
            return Some(CloseRefusal::TunnelSilent { expiries });
        }
        None
    }

    /// After how many expiries the tunnel of a channel's close is silent, where it is.
    fn close_silence(&self, id: u32) -> Option<u32>
        ensures { (t : Trace Act) (gone : Gone) → Stands self.now t gone → result ≡ silence_for_close t (outward id t) }
    {
        match close_path(self.outward(id)) {
            Path::Main => None,
            Path::Tunnel(_) => self.reliable.silence(),
        }
    }

    /// Why a channel PDU of so many bytes has no room on this path, the main stream or the reliable
    /// link, which holds so many.
    fn close_room(&self, path: Path, size: usize, load: usize) -> Option<CloseRefusal>
        requires { size ≤ 1600 }
        ensures { (t : Trace Act) (gone : Gone) (parts : ℕ) → Stands self.now t gone → result ≡ full_for_size t (loads_of (self.now).outgoing load parts) path size }
    {
        match path {
            Path::Main => {
                let limit = self.full_main(size + HEADER)?;
                let queued = self.outgoing.main_len();
                Some(CloseRefusal::QueueFull { queued, limit })
            }
            Path::Tunnel(_) => link_refusal(load, size + TUNNEL_HEADER),
        }
    }
}
