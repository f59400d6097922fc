//! A client hears a Soft-Sync request.

ghost use Rattle.std.specs.Prelude.{◌≡◌, ◌<◌, ◌++◌, ◌∷◌, [], length, nat_eq, take};
ghost use Rattle.std.specs.List.{list_any};
ghost use Rattle.dvc_pdus.specs.ListViews.{lists_left};
ghost use Rattle.soft_sync.specs.Exchanges.{unanswered};
ghost use Rattle.mt_endpoint.specs.Moving.{channels_listed, kinds_named, request_read};
ghost use Rattle.mt_endpoint.specs.Orders.{ids_in};
ghost use Rattle.end_session.specs.ListedView.{channels_left};
ghost use Rattle.end_session.specs.Listing.{AreNew};

use crate::cause::Cause;
use crate::listed::Listed;
use crate::session::Session;
use dvc_channels::ChannelState;
use dvc_pdus::SyncLists;
use mt_base::{Kind, Role};
use soft_sync::{Kinds, Path, Paths};

/// The Soft-Sync requests that a client reads at most.
const REQUESTS: usize = 256;

/// The kinds that lists name, with ids or without.
fn kinds_named(lists: SyncLists<'_>) -> Kinds
    ensures { result ≡ kinds_named (lists_left lists.entry) }
{
    let mut named = Kinds::NONE;
    for list in lists {
        named.set(list.kind, true);
    }
    named
}

/// Whether this is the id of one of the first channels, so many of them.
fn is_before(channels: Listed<'_>, count: usize, id: u32) -> bool
    ensures { result ≡ list_any (nat_eq id) (ids_in (take count (channels_left channels.entry))) }
{
    let mut left = count;
    for channel in channels {
        if left == 0 {
            return false;
        }
        if channel.0 == id {
            return true;
        }
        left -= 1;
    }
    false
}

/// The request of these lists is read.
fn take_request(paths: &mut Paths, lists: SyncLists<'_>)
    requires few { length (paths.old).read < 256 }
    requires new { AreNew (channels_listed (lists_left lists)) paths.old }
    ensures { paths.new ≡ record paths.old { read = (paths.old).read ++ unanswered (request_read (lists_left lists.entry)) ∷ [] } }
{
    let named = kinds_named(lists);
    let Some(_number) = paths.got_begin(named.reliable, named.lossy) else {
        unreachable!()
    };
    for channel in Listed::of(lists) {
        paths.got_request(channel.1, channel.0);
    }
}

impl Session {
    ghost use Rattle.std.specs.Prelude.{◌≡◌, ℕ, ◌+◌, ◌<◌, ◌≤◌, List, ◌∷◌, [], length, nat_eq, OnOk, IfErr, OnErr, None, IfSome, IsSome};
    ghost use Rattle.std.specs.List.{list_any};
    ghost use Rattle.mt_base.specs.declared.kinds.Kind.{Kind as KindValue};
    ghost use Rattle.mt_base.specs.declared.kinds.Role.TheVariants.{Client};
    ghost use Rattle.mt_base.specs.Trace.{Trace, ◌▷◌};
    ghost use Rattle.dvc_pdus.specs.ListViews.{lists_left};
    ghost use Rattle.dvc_pdus.specs.Value.{SyncRequest};
    ghost use Rattle.mt_endpoint.specs.Acts.{Act, Hears, Spoken};
    ghost use Rattle.mt_endpoint.specs.Faults.{ids_fault, main_fault};
    ghost use Rattle.mt_endpoint.specs.Moving.{channels_listed};
    ghost use Rattle.end_session.specs.Causes.{IsCause, why_in, why_of};
    ghost use Rattle.end_session.specs.Standing.{Gone, Stands};

    /// A client hears that the server moves channels to tunnels (MS-RDPEDYC section 2.2.5.1): what comes
    /// for the channels that it lists comes through their tunnels from now on, and an answer is owed. What
    /// is refused is a request ahead of the capabilities or behind 256 others, one that lists a channel
    /// that is not known, or that it or an earlier one listed before, and any at a server. Takes no memory.
    pub fn hear_moves(&mut self, lists: SyncLists<'_>) -> Result<(), Cause>
        ensures heard { (t : Trace Act) (gone : Gone) (flags tunnels : ℕ) → Stands self.old t gone → OnOk result ((main_fault (self.old).role t (Spoken (SyncRequest flags tunnels (lists_left lists.entry))) ≡ None) × Stands self.new (t ▷ Hears (Spoken (SyncRequest flags tunnels (lists_left lists.entry)))) gone) }
        ensures refused { (t : Trace Act) (gone : Gone) (flags tunnels : ℕ) → Stands self.old t gone → IfErr result (λ cause. IsCause (main_fault (self.old).role t (Spoken (SyncRequest flags tunnels (lists_left lists.entry)))) cause) }
        ensures named { IfErr result (λ cause. IsSome (why_of cause)) }
        ensures few { OnOk result (length (channels_listed (lists_left lists.entry)) ≤ 256) }
        ensures owed { OnOk result ((self.new).owed ≡ (self.old).owed + 1) }
        ensures queues { OnOk result ((self.new).outgoing ≡ (self.old).outgoing) }
        ensures unchanged { OnErr result (self.new ≡ self.old) }
        ensures same { ((self.new).role ≡ (self.old).role) × ((self.new).broken ≡ (self.old).broken) }
    {
        if let Some(cause) = self.moves_cause(lists) {
            return Err(cause);
        }
        take_request(&mut self.paths, lists);
        self.owed += 1;
        Ok(())
    }

    /// What there is against a Soft-Sync request. It is no want of memory.
    fn moves_cause(&self, lists: SyncLists<'_>) -> Option<Cause>
        ensures found { (t : Trace Act) (gone : Gone) (flags tunnels : ℕ) → Stands self.now t gone → main_fault (self.now).role t (Spoken (SyncRequest flags tunnels (lists_left lists.entry))) ≡ why_in result }
        ensures named { IfSome result (λ cause. IsSome (why_of cause)) }
    {
        if !self.is_ready {
            return Some(Cause::Unexpected);
        }
        match self.role {
            Role::Server => Some(Cause::Unexpected),
            Role::Client => {
                if self.paths.requests_read() >= REQUESTS {
                    return Some(Cause::Unexpected);
                }
                self.ids_cause(lists)
            }
        }
    }

    /// What there is against the channels that a request lists: that of the first one at fault. Those
    /// before it are known and distinct, so that at most 257 are looked at, each beside those before it.
    fn ids_cause(&self, lists: SyncLists<'_>) -> Option<Cause>
        requires client { (self.now).role ≡ Client }
        requires stands { (t : Trace Act) × (gone : Gone) × Stands self.now t gone }
        ensures found { (t : Trace Act) (gone : Gone) → Stands self.now t gone → ids_fault Client t [] (channels_listed (lists_left lists.entry)) ≡ why_in result }
        ensures named { IfSome result (λ cause. IsSome (why_of cause)) }
    {
        let mut count = 0;
        for channel in Listed::of(lists) {
            let id = channel.0;
            let is_repeated = is_before(Listed::of(lists), count, id);
            if let Some(cause) = self.id_cause(id, is_repeated) {
                return Some(cause);
            }
            count += 1;
        }
        None
    }

    /// What there is against a channel that a request lists, which may stand before in the same request.
    /// It is no want of memory.
    fn id_cause(&self, id: u32, is_repeated: bool) -> Option<Cause>
        requires client { (self.now).role ≡ Client }
        ensures found { (t : Trace Act) (gone : Gone) (seen : List ℕ) (kind : KindValue) → Stands self.now t gone → list_any (nat_eq id) seen ≡ is_repeated → ids_fault Client t seen ((id, kind) ∷ []) ≡ why_in result }
        ensures named { IfSome result (λ cause. IsSome (why_of cause)) }
    {
        if is_repeated {
            return Some(Cause::Unexpected);
        }
        match self.paths.inward(id) {
            Path::Tunnel(_) => return Some(Cause::Unexpected),
            Path::Main => {}
        }
        match self.channels.state(id) {
            ChannelState::Unknown => Some(Cause::SyncUnknown { id }),
            ChannelState::Asked => None,
            ChannelState::Open => None,
            ChannelState::Refused => None,
            ChannelState::Closed => None,
        }
    }
}
