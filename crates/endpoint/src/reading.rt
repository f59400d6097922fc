//! What a caller can ask of an end.

use crate::endpoint::Endpoint;
use crate::state::EndState;
use carrier::{Carrier, Post};
use dvc_channels::ChannelState;
use end_session::{Asked, TunnelState};
use mt_base::Kind;
use soft_sync::Path;

impl<C: Carrier + Drop, P: Post + Drop> Endpoint<C, P> {
    ghost use Rattle.std.specs.Prelude.{◌≡◌, false, true, length, option_map, IfNone, IfSome};
    ghost use Rattle.mt_base.specs.declared.kinds.Kind.TheVariants.{Reliable};
    ghost use Rattle.mt_base.specs.declared.kinds.Role.{Role};
    ghost use Rattle.mt_base.specs.Trace.{Trace};
    ghost use Rattle.mt_endpoint.specs.Channels.{channel};
    ghost use Rattle.mt_endpoint.specs.Moving.{outward};
    ghost use Rattle.mt_endpoint.specs.Tunnels.{asked, is_attached, tunnel};
    ghost use Rattle.end_calls.specs.Calls.{Entry, acts, past};
    ghost use Rattle.end_calls.specs.Law.{unsent};
    ghost use Rattle.end_calls.specs.Links.{linked};
    ghost use Rattle.end_session.specs.AskedView.{request_of};
    ghost use Rattle.end_session.specs.Known.{state_of, tunnel_in};
    ghost use Rattle.end_session.specs.OfKind.{tunnel_of};
    ghost use Rattle.endpoint.specs.Standing.{EndStands};
    ghost use Rattle.endpoint.specs.States.{end_state};

    /// Whether the end goes on. One that is broken reads nothing more, refuses its calls, and still hands out
    /// the messages that it has.
    pub fn state(&self) -> EndState
        ensures value { result ≡ end_state (self.now.reader.session).broken }
        ensures acts { (role : Role) (t : Trace Entry) → EndStands C.stands C.left C.condition P.stands P.left P.condition self.now role t → result ≡ end_state (past role t).broken }
    {
        match self.reader.session.broken() {
            None => EndState::Fine,
            Some(fault) => EndState::Broken(fault),
        }
    }

    /// The state of a channel.
    pub fn channel(&self, id: u32) -> ChannelState
        ensures { (role : Role) (t : Trace Entry) → EndStands C.stands C.left C.condition P.stands P.left P.condition self.now role t → result ≡ channel role id (acts role t) }
    {
        self.reader.session.channel(id)
    }

    /// The path of what this end sends on a channel (MS-RDPEDYC section 3.1.5.3).
    pub fn outward(&self, id: u32) -> Path
        ensures { (role : Role) (t : Trace Entry) → EndStands C.stands C.left C.condition P.stands P.left P.condition self.now role t → result ≡ outward id (acts role t) }
    {
        self.reader.session.outward(id)
    }

    /// What the tunnel of this kind is: the first of silent, open, refused, attached and asked that holds.
    pub fn tunnel(&self, kind: Kind) -> TunnelState
        ensures value { result ≡ state_of (tunnel_in (self.now.reader.session).role (tunnel_of kind self.now.reader.session)) }
        ensures acts { (role : Role) (t : Trace Entry) → EndStands C.stands C.left C.condition P.stands P.left P.condition self.now role t → result ≡ state_of (tunnel role kind (acts role t)) }
    {
        self.reader.session.tunnel(kind)
    }

    /// The request for the tunnel of this kind: the one that a server made, or that a client read (MS-RDPBCGR
    /// section 2.2.15.1).
    pub fn asked(&self, kind: Kind) -> Option<Asked>
        ensures value { option_map request_of result ≡ (tunnel_of kind self.now.reader.session).asked }
        ensures acts { (role : Role) (t : Trace Entry) → EndStands C.stands C.left C.condition P.stands P.left P.condition self.now role t → option_map request_of result ≡ asked kind (acts role t) }
    {
        self.reader.session.asked(kind)
    }

    /// Whether the tunnel of this kind has its link.
    pub fn attached(&self, kind: Kind) -> bool
        ensures value { result ≡ (tunnel_of kind self.now.reader.session).is_attached }
        ensures acts { (role : Role) (t : Trace Entry) → EndStands C.stands C.left C.condition P.stands P.left P.condition self.now role t → result ≡ is_attached kind (acts role t) }
    {
        self.reader.session.attached(kind)
    }

    /// How many bytes of the main stream wait to be handed out.
    pub fn main_queued(&self) -> usize
        ensures { (role : Role) (t : Trace Entry) → EndStands C.stands C.left C.condition P.stands P.left P.condition self.now role t → result ≡ length (unsent role t) }
    {
        self.reader.session.main_queued()
    }

    /// The reliable link, where the tunnel has it.
    pub fn reliable(&self) -> Option<&C>
        ensures value { option_map (λ link. link.now) result ≡ self.now.reliable }
        ensures called { (role : Role) (t : Trace Entry) → EndStands C.stands C.left C.condition P.stands P.left P.condition self.now role t → IfSome result (λ link. (is_attached Reliable (acts role t) ≡ true) × C.stands link.now (linked Reliable role t)) }
        ensures none { (role : Role) (t : Trace Entry) → EndStands C.stands C.left C.condition P.stands P.left P.condition self.now role t → IfNone result (is_attached Reliable (acts role t) ≡ false) }
    {
        self.reliable.as_ref()
    }
}
