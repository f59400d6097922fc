//! Steps that either end makes by itself.

use crate::pair::Pair;
use carrier::{Carrier, Post};
use dvc_channels::Message;
use end_calls::{CloseRefusal, SendRefusal};
use mt_base::Role;

impl<C: Carrier + Drop, P: Post + Drop> Pair<C, P> {
    ghost use Rattle.std.specs.Prelude.{◌≡◌, length, slice_get, None, Some, IfErr, IfNone, IfSome, OnErr, OnOk};
    ghost use Rattle.mt_base.specs.Trace.{Trace, ◌▷◌};
    ghost use Rattle.mt_base.specs.declared.kinds.Role.{Role as Side};
    ghost use Rattle.dvc_channels.specs.Acts.{untaken};
    ghost use Rattle.mt_endpoint.specs.Acts.{Closes, Sends, Takes};
    ghost use Rattle.mt_endpoint.specs.Channels.{table};
    ghost use Rattle.end_calls.specs.Calls.{Entry, Own, acts, past};
    ghost use Rattle.end_calls.specs.Law.{unsent};
    ghost use Rattle.end_calls.specs.Net.{at};
    ghost use Rattle.end_calls.specs.Refusing.{why_not_closed, why_not_sent};
    ghost use Rattle.endpoint.specs.Attached.{load_in};
    ghost use Rattle.end_pair.specs.Joined.{PairStands, end_of};
    ghost use Rattle.end_pair.specs.Laws.{PairKeepsLaws};

    /// An end sends a message, as [`Endpoint::send`](endpoint::Endpoint::send) says.
    pub fn send(&mut self, side: Role, id: u32, message: &[u8]) -> Result<(), SendRefusal>
        ensures sent { (w : Trace (Side × Entry)) → PairStands C.stands C.left C.condition P.stands P.left P.condition self.old w → OnOk result (PairStands C.stands C.left C.condition P.stands P.left P.condition self.new (w ▷ (side, Own (Sends id message.now)))) }
        ensures allowed { (w : Trace (Side × Entry)) → PairStands C.stands C.left C.condition P.stands P.left P.condition self.old w → OnOk result (why_not_sent (past side (at side w)).broken side (acts side (at side w)) (record { unsent = length (unsent side (at side w)); reliable = load_in C.load (end_of side self.old).reliable; lossy = load_in P.load (end_of side self.old).lossy }) id message.now ≡ None) }
        ensures refused { (w : Trace (Side × Entry)) → PairStands C.stands C.left C.condition P.stands P.left P.condition self.old w → IfErr result (λ why. why_not_sent (past side (at side w)).broken side (acts side (at side w)) (record { unsent = length (unsent side (at side w)); reliable = load_in C.load (end_of side self.old).reliable; lossy = load_in P.load (end_of side self.old).lossy }) id message.now ≡ Some why) }
        ensures unchanged { OnErr result (self.new ≡ self.old) }
        ensures laws { PairKeepsLaws C.law P.law self.old self.new }
    {
        match side {
            Role::Server => self.server.send(id, message),
            Role::Client => self.client.send(id, message),
        }
    }

    /// An end closes a channel, as [`Endpoint::close_channel`](endpoint::Endpoint::close_channel) says.
    pub fn close_channel(&mut self, side: Role, id: u32) -> Result<(), CloseRefusal>
        ensures closed { (w : Trace (Side × Entry)) → PairStands C.stands C.left C.condition P.stands P.left P.condition self.old w → OnOk result (PairStands C.stands C.left C.condition P.stands P.left P.condition self.new (w ▷ (side, Own (Closes id)))) }
        ensures allowed { (w : Trace (Side × Entry)) → PairStands C.stands C.left C.condition P.stands P.left P.condition self.old w → OnOk result (why_not_closed (past side (at side w)).broken side (acts side (at side w)) (record { unsent = length (unsent side (at side w)); reliable = load_in C.load (end_of side self.old).reliable; lossy = load_in P.load (end_of side self.old).lossy }) id ≡ None) }
        ensures refused { (w : Trace (Side × Entry)) → PairStands C.stands C.left C.condition P.stands P.left P.condition self.old w → IfErr result (λ why. why_not_closed (past side (at side w)).broken side (acts side (at side w)) (record { unsent = length (unsent side (at side w)); reliable = load_in C.load (end_of side self.old).reliable; lossy = load_in P.load (end_of side self.old).lossy }) id ≡ Some why) }
        ensures unchanged { OnErr result (self.new ≡ self.old) }
        ensures laws { PairKeepsLaws C.law P.law self.old self.new }
    {
        match side {
            Role::Server => self.server.close_channel(id),
            Role::Client => self.client.close_channel(id),
        }
    }

    /// The oldest whole message of a channel that an end did not hand out yet; `None` where there is none, and then
    /// nothing changes.
    pub fn take(&mut self, side: Role, id: u32) -> Option<Message>
        ensures taken { (w : Trace (Side × Entry)) → PairStands C.stands C.left C.condition P.stands P.left P.condition self.old w → IfSome result (λ message. PairStands C.stands C.left C.condition P.stands P.left P.condition self.new (w ▷ (side, Own (Takes id message)))) }
        ensures oldest { (w : Trace (Side × Entry)) → PairStands C.stands C.left C.condition P.stands P.left P.condition self.old w → result ≡ slice_get (untaken (table side (acts side (at side w))) id) 0 }
        ensures none { IfNone result (self.new ≡ self.old) }
        ensures laws { PairKeepsLaws C.law P.law self.old self.new }
    {
        match side {
            Role::Server => self.server.take(id),
            Role::Client => self.client.take(id),
        }
    }
}
