//! A message is sent.

ghost use Rattle.std.specs.Prelude.{◌≡◌, ◌+◌, ◌≤◌, ◌++◌, length, nat_le};
ghost use Rattle.dvc_channels.specs.Fragments.{fragments_of};
ghost use Rattle.end_calls.specs.declared.limits.TheConstants.{MAIN_QUEUE};
ghost use Rattle.end_calls.specs.declared.refusal.SendRefusal.TheVariants as send;
ghost use Rattle.end_calls.specs.Refusing.{Loads, frames_size, full_for, passes, too_long_for, tunnel_size, when, why_not_in};
ghost use Rattle.end_session.specs.MessageGiven.{frames_of};

use crate::closing::TUNNEL_HEADER;
use crate::opening::HEADER;
use crate::outgoing::Outgoing;
use crate::session::Session;
use dvc_channels::{ChannelState, fragment_of, fragments, fragments_size};
use end_calls::{LOSSY_MESSAGE, MAIN_QUEUE, MESSAGE, RESERVE, SendRefusal};
use mt_base::Kind;
use mt_windows::{QUEUE, WINDOW};
use soft_sync::Path;

/// The bytes of the greatest channel PDU.
const PDU: usize = 1_600;

/// The parts that a lossy link has room for.
const PARTS: usize = WINDOW as usize;

/// Why a channel in this state takes no message.
fn state_refusal(state: ChannelState) -> Option<SendRefusal>
    ensures { result ≡ why_not_in send.UnknownChannel send.NotOpen send.ChannelClosed state }
{
    match state {
        ChannelState::Unknown => Some(SendRefusal::UnknownChannel),
        ChannelState::Asked => Some(SendRefusal::NotOpen),
        ChannelState::Open => None,
        ChannelState::Refused => Some(SendRefusal::NotOpen),
        ChannelState::Closed => Some(SendRefusal::ChannelClosed),
    }
}

/// Whether a message of so many bytes has no room in one part of its path, which is all that it may take
/// on a lossy link.
fn too_long_for(path: Path, size: usize) -> bool
    ensures { result ≡ too_long_for path size }
{
    match path {
        Path::Main => false,
        Path::Tunnel(kind) => match kind {
            Kind::Reliable => false,
            Kind::Lossy => size > LOSSY_MESSAGE,
        },
    }
}

/// The bytes of a message's frames on the main stream.
fn frames_size(id: u32, message: &[u8]) -> usize
    requires { length message.now ≤ 1048576 }
    ensures { result ≡ frames_size (fragments_of id message.now) }
{
    let total = message.len() as u32;
    fragments_size(id, total) + HEADER * fragments(id, total) as usize
}

/// The bytes of a message's PDUs in a tunnel.
fn tunnel_size(id: u32, message: &[u8]) -> usize
    requires { length message.now ≤ 1048576 }
    ensures { result ≡ tunnel_size (fragments_of id message.now) }
{
    let total = message.len() as u32;
    fragments_size(id, total) + TUNNEL_HEADER * fragments(id, total) as usize
}

/// Why a queue that holds so many bytes has no room for so many more below a limit.
fn full(queued: usize, more: usize, limit: usize) -> Option<SendRefusal>
    requires { limit ≤ 4194304 }
    ensures { result ≡ when (passes queued more limit) (send.QueueFull queued limit) }
{
    if queued > limit {
        return Some(SendRefusal::QueueFull { queued, limit });
    }
    if more > limit - queued {
        return Some(SendRefusal::QueueFull { queued, limit });
    }
    None
}

/// Why the lossy link, which holds so many parts, has no room for one more.
fn full_parts(parts: usize) -> Option<SendRefusal>
    ensures { result ≡ when (nat_le 64 parts) (send.QueueFull parts 64) }
{
    if parts >= PARTS {
        Some(SendRefusal::QueueFull {
            queued: parts,
            limit: PARTS,
        })
    } else {
        None
    }
}

/// Why the queue of a message's path has no room for its PDUs: the main stream's, which holds so many bytes
/// (`unsent`), the reliable link's (`load`), or the lossy link's, which holds so many parts.
fn full_for(
    path: Path,
    id: u32,
    message: &[u8],
    unsent: usize,
    load: usize,
    parts: usize,
) -> Option<SendRefusal>
    requires { length message.now ≤ 1048576 }
    ensures { result ≡ full_for (record { unsent = unsent; reliable = load; lossy = parts }) path (fragments_of id message.now) }
{
    match path {
        Path::Main => full(unsent, frames_size(id, message), MAIN_QUEUE - RESERVE),
        Path::Tunnel(kind) => match kind {
            Kind::Reliable => full(load, tunnel_size(id, message), QUEUE - RESERVE),
            Kind::Lossy => full_parts(parts),
        },
    }
}

/// Writes the PDUs of a message on the main stream, each as a frame.
fn say_message(outgoing: &mut Outgoing, id: u32, message: &[u8])
    requires size { length message.now ≤ 1048576 }
    requires room { length (outgoing.old).main + frames_size (fragments_of id message.now) ≤ MAIN_QUEUE }
    ensures { outgoing.new ≡ record outgoing.old { main = (outgoing.old).main ++ frames_of (fragments_of id message.now) } }
{
    let mut pdu = [0; PDU];
    for k in 0..fragments(id, message.len() as u32) {
        let count = fragment_of(id, message, k, &mut pdu);
        outgoing.say(&pdu[..count]);
    }
}

impl Session {
    ghost use Rattle.std.specs.Prelude.{◌≡◌, [], length, None, Some, IfOk, OnOk, IfErr, OnErr};
    ghost use Rattle.mt_base.specs.declared.kinds.Kind.TheVariants.{Reliable, Lossy};
    ghost use Rattle.mt_base.specs.Trace.{Trace, ◌▷◌};
    ghost use Rattle.dvc_channels.specs.Fragments.{fragments_of};
    ghost use Rattle.mt_endpoint.specs.Acts.{Act, Sends};
    ghost use Rattle.mt_endpoint.specs.Moving.{outward};
    ghost use Rattle.end_calls.specs.Refusing.{Loads, silence_on, why_not_sent};
    ghost use Rattle.end_session.specs.MessageGiven.{with_message};
    ghost use Rattle.end_session.specs.Outgoing.{waiting_for};
    ghost use Rattle.end_session.specs.Standing.{Gone, Stands};

    /// Sends a message on a channel (MS-RDPEDYC section 3.1.5.1.4), and gives its path, whose links hold so much:
    /// the reliable one `load` bytes, the lossy one `parts` parts. On the main stream the message's PDUs wait
    /// as frames. For a tunnel nothing waits: the caller gives each of the PDUs
    /// ([`fragment_of`](dvc_channels::fragment_of)) to the link of that kind, in order. The refusals are
    /// looked at in the order in which [`SendRefusal`] lists them. Takes no memory.
    pub fn send(
        &mut self,
        id: u32,
        message: &[u8],
        load: usize,
        parts: usize,
    ) -> Result<Path, SendRefusal>
        requires waits { (waiting_for Reliable (self.old).outgoing ≡ []) × (waiting_for Lossy (self.old).outgoing ≡ []) }
        ensures sent { (t : Trace Act) (gone : Gone) → Stands self.old t gone → IfOk result (λ path. (path ≡ outward id t) × Stands self.new (t ▷ Sends id message.now) (with_message path (fragments_of id message.now) gone)) }
        ensures allowed { (t : Trace Act) (gone : Gone) → Stands self.old t gone → OnOk result (why_not_sent (self.old).broken (self.old).role t (record { unsent = length ((self.old).outgoing).main; reliable = load; lossy = parts }) id message.now ≡ None) }
        ensures refused { (t : Trace Act) (gone : Gone) → Stands self.old t gone → IfErr result (λ why. why_not_sent (self.old).broken (self.old).role t (record { unsent = length ((self.old).outgoing).main; reliable = load; lossy = parts }) id message.now ≡ Some why) }
        ensures unchanged { OnErr result (self.new ≡ self.old) }
        ensures same { ((self.new).role ≡ (self.old).role) × ((self.new).broken ≡ (self.old).broken) }
    {
        if let Some(why) = self.send_refusal(id, message, load, parts) {
            return Err(why);
        }
        match self.paths.outward(id) {
            Path::Main => {
                say_message(&mut self.outgoing, id, message);
                Ok(Path::Main)
            }
            Path::Tunnel(kind) => Ok(Path::Tunnel(kind)),
        }
    }

    /// Why a message is not sent on a channel.
    fn send_refusal(
        &self,
        id: u32,
        message: &[u8],
        load: usize,
        parts: usize,
    ) -> Option<SendRefusal>
        ensures { (t : Trace Act) (gone : Gone) → Stands self.now t gone → result ≡ why_not_sent (self.now).broken (self.now).role t (record { unsent = length ((self.now).outgoing).main; reliable = load; lossy = parts }) id message.now }
    {
        if let Some(fault) = self.broken {
            return Some(SendRefusal::Broken(fault));
        }
        if let Some(why) = state_refusal(self.channels.state(id)) {
            return Some(why);
        }
        let path = self.paths.outward(id);
        if let Some(expiries) = self.silence_on(path) {
            return Some(SendRefusal::TunnelSilent { expiries });
        }
        if message.len() > MESSAGE {
            return Some(SendRefusal::MessageTooLong { limit: MESSAGE });
        }
        if too_long_for(path, message.len()) {
            return Some(SendRefusal::TooLongForLossy {
                limit: LOSSY_MESSAGE,
            });
        }
        let unsent = self.outgoing.main_len();
        full_for(path, id, message, unsent, load, parts)
    }

    /// After how many expiries the tunnel of a path is silent, where it is one.
    fn silence_on(&self, path: Path) -> Option<u32>
        ensures { (t : Trace Act) (gone : Gone) → Stands self.now t gone → result ≡ silence_on t path }
    {
        match path {
            Path::Main => None,
            Path::Tunnel(kind) => match kind {
                Kind::Reliable => self.reliable.silence(),
                Kind::Lossy => self.lossy.silence(),
            },
        }
    }
}
