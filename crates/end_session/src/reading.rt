//! What a caller can ask of an end.

use crate::session::Session;
use crate::tunnel::{Asked, Tunnel, TunnelState};
use dvc_channels::ChannelState;
use end_calls::Fault;
use mt_base::{Kind, Role};
use soft_sync::Path;

impl Session {
    ghost use Rattle.std.specs.Prelude.{◌≡◌, option_map};
    ghost use Rattle.mt_base.specs.Trace.{Trace};
    ghost use Rattle.mt_endpoint.specs.Acts.{Act};
    ghost use Rattle.mt_endpoint.specs.Channels.{channel};
    ghost use Rattle.mt_endpoint.specs.Moving.{outward};
    ghost use Rattle.mt_endpoint.specs.Tunnels.{answer, asked, is_attached, refusal, tunnel};
    ghost use Rattle.end_session.specs.AskedView.{request_of};
    ghost use Rattle.end_session.specs.Known.{refusal_in, state_of, tunnel_in};
    ghost use Rattle.end_session.specs.OfKind.{tunnel_of};
    ghost use Rattle.end_session.specs.Standing.{Gone, Stands};

    /// Which end it is.
    pub fn role(&self) -> Role
        ensures { result ≡ (self.now).role }
    {
        self.role
    }

    /// Why the end is broken, where it is. It then reads nothing, and refuses its calls.
    pub fn broken(&self) -> Option<Fault>
        ensures { result ≡ (self.now).broken }
    {
        self.broken
    }

    /// The state of a channel.
    pub fn channel(&self, id: u32) -> ChannelState
        ensures { (t : Trace Act) (gone : Gone) → Stands self.now t gone → result ≡ channel (self.now).role id t }
    {
        self.channels.state(id)
    }

    /// The path of what this end sends on a channel (MS-RDPEDYC section 3.1.5.3).
    pub fn outward(&self, id: u32) -> Path
        ensures { (t : Trace Act) (gone : Gone) → Stands self.now t gone → result ≡ outward id t }
    {
        self.paths.outward(id)
    }

    /// What the tunnel of this kind is.
    pub fn tunnel(&self, kind: Kind) -> TunnelState
        ensures value { result ≡ state_of (tunnel_in (self.now).role (tunnel_of kind self.now)) }
        ensures acts { (t : Trace Act) (gone : Gone) → Stands self.now t gone → result ≡ state_of (tunnel (self.now).role kind t) }
    {
        self.tunnel_of(kind).state(self.role)
    }

    /// The request for the tunnel of this kind: the one that a server made, or that a client read.
    pub fn asked(&self, kind: Kind) -> Option<Asked>
        ensures value { option_map request_of result ≡ (tunnel_of kind self.now).asked }
        ensures acts { (t : Trace Act) (gone : Gone) → Stands self.now t gone → option_map request_of result ≡ asked kind t }
    {
        self.tunnel_of(kind).asked()
    }

    /// Whether the tunnel of this kind has its link.
    pub fn attached(&self, kind: Kind) -> bool
        ensures value { result ≡ (tunnel_of kind self.now).is_attached }
        ensures acts { (t : Trace Act) (gone : Gone) → Stands self.now t gone → result ≡ is_attached kind t }
    {
        self.tunnel_of(kind).is_attached()
    }

    /// The code by which the tunnel of this kind was refused, where it was.
    pub fn refusal(&self, kind: Kind) -> Option<u32>
        ensures value { result ≡ refusal_in (self.now).role (tunnel_of kind self.now) }
        ensures acts { (t : Trace Act) (gone : Gone) → Stands self.now t gone → result ≡ refusal (self.now).role kind t }
    {
        self.tunnel_of(kind).refusal(self.role)
    }

    /// The first answer to a client's create request for the tunnel of this kind.
    pub fn answer(&self, kind: Kind) -> Option<u32>
        ensures value { result ≡ (tunnel_of kind self.now).answer }
        ensures acts { (t : Trace Act) (gone : Gone) → Stands self.now t gone → result ≡ answer kind t }
    {
        self.tunnel_of(kind).answer()
    }

    /// What is known of the tunnel of this kind.
    pub(crate) fn tunnel_of(&self, kind: Kind) -> &Tunnel
        ensures { result.now ≡ tunnel_of kind self.now }
    {
        match kind {
            Kind::Reliable => &self.reliable,
            Kind::Lossy => &self.lossy,
        }
    }
}
