//! The paths of channels.

ghost use Rattle.std.specs.Prelude.{◌≡◌, ◌++◌};
ghost use Rattle.soft_sync.specs.Words.{first_repeated, is_empty};

use crate::exchanges::Exchanges;
use crate::kinds::{Kinds, Path, Placed, SyncRefusal};
use indexmap::IndexMap;
use mt_base::{Kind, NoMemory};
use std::alloc::Global;
use std::marker::Model;

/// The channels that a session has at most.
const CHANNELS: usize = 256;

/// The requests that are read at most.
const REQUESTS: usize = 256;

/// The version of the capabilities from which channels can be moved (MS-RDPEDYC section 2.2.1.1.3).
const VERSION: u16 = 3;

/// The paths of the channels of one end of a session, by what was said of them. Clauses speak of
/// the requests that this end made and read, each with its answer so far. No call after
/// [`Paths::new`] takes memory.
#[derive(Drop)]
pub struct Paths {
    version: u16,
    opened: Kinds,
    channels: IndexMap<u32, bool>,
    made: Exchanges,
    read: Exchanges,
}

impl Model for Paths {
    ghost use Rattle.std.specs.Prelude.{◌≡◌, ◌+◌, ◌≤◌, length};
    ghost use Rattle.std.specs.Vec.{vec_capacity};
    ghost use Rattle.indexmap.specs.IndexMap.{spare};
    ghost use Rattle.soft_sync.specs.Words.{Words};
    ghost use Rattle.soft_sync.specs.Table.{exchanges_in, IsTold, IsRoomy, AreAmong};

    ghost Value = { Words };

    ghost view = { λ s. record { version = s.version; opened = s.opened; channels = s.channels.entries; made = exchanges_in s.made.rows.items s.made.listings.entries; read = exchanges_in s.read.rows.items s.read.listings.entries } };

    ghost invariant = { λ s. IsTold s.channels.entries (spare s.channels) × IsRoomy s.made.rows.items s.made.listings.entries (vec_capacity s.made.rows) (spare s.made.listings) × IsRoomy s.read.rows.items s.read.listings.entries (vec_capacity s.read.rows) (spare s.read.listings) × AreAmong s.made.listings.entries s.channels.entries × AreAmong s.read.listings.entries s.channels.entries × (length s.made.rows.items ≤ length s.made.listings.entries) };
}

impl Paths {
    ghost use Rattle.std.specs.Prelude.{◌≡◌, ◌<◌, ◌++◌, ◌∷◌, ◌&&◌, [], length, not, nat_eq, None, Some, true, IfOk, OnOk, IfErr, OnErr, IfSome, IfNone, if◌then◌else◌};
    ghost use Rattle.std.specs.Prelude.{slice_get};
    ghost use Rattle.soft_sync.specs.Exchanges.{unanswered, listed, behind, names, is_named, is_given, channels_at, with_channel, with_answer, naming, giving, set_kind};
    ghost use Rattle.soft_sync.specs.Words.{silence, outward, inward, placed, request_of, why_not, told, told_of, HasPlace, first_closed, begun_of, is_open_channel};
    ghost use Rattle.std.specs.List.{find};

    /// The paths of an end that nothing was said to: the version is 0, and no tunnel is open. There
    /// is room for 256 channels, and for 256 requests in each direction.
    pub fn new(alloc: Global) -> Result<Paths, NoMemory>
        ensures { IfOk result (λ paths. paths ≡ silence) }
    {
        Ok(Paths {
            version: 0,
            opened: Kinds::NONE,
            channels: IndexMap::with_capacity(alloc, CHANNELS)?,
            made: Exchanges::new(alloc)?,
            read: Exchanges::new(alloc)?,
        })
    }

    /// The version of the session's capabilities is now known.
    pub fn set_version(&mut self, version: u16)
        ensures { self.new ≡ record self.old { version = version } }
    {
        self.version = version;
    }

    /// The tunnel of this kind is now open, or isn't.
    pub fn set_open(&mut self, kind: Kind, is_open: bool)
        ensures { self.new ≡ record self.old { opened = set_kind kind is_open self.old.opened } }
    {
        self.opened.set(kind, is_open);
    }

    /// This is now an open channel, or isn't.
    pub fn set_channel(&mut self, id: u32, is_open: bool)
        requires { HasPlace id self.old.channels }
        ensures { self.new ≡ record self.old { channels = told id is_open self.old.channels } }
    {
        if let Some(place) = self.channels.get_mut(&id) {
            *place = is_open;
            return;
        }
        // There is room for each channel, so that no memory is taken here.
        match self.channels.insert(id, is_open) {
            Ok(_) => {}
            Err(_) => unreachable!(),
        }
    }

    /// This end makes a Soft-Sync request that lists these channels (MS-RDPEDYC section 2.2.5.1):
    /// what it sends for them goes on their tunnels from now on. The refusals are looked at in the
    /// order in which [`SyncRefusal`] lists them.
    pub fn request(&mut self, reliable: &[u32], lossy: &[u32]) -> Result<(), SyncRefusal>
        ensures made { OnOk result (self.new ≡ record self.old { made = self.old.made ++ unanswered (request_of reliable.now lossy.now) ∷ [] }) }
        ensures allowed { OnOk result (why_not reliable.now lossy.now self.old ≡ None) }
        ensures refused { IfErr result (λ why. why_not reliable.now lossy.now self.old ≡ Some why) }
        ensures unchanged { OnErr result (self.new ≡ self.old) }
    {
        if let Some(why) = self.refusal(reliable, lossy) {
            return Err(why);
        }
        let named = Kinds {
            reliable: !is_empty(reliable),
            lossy: !is_empty(lossy),
        };
        let _ = self.made.begin(named);
        self.made.list_all(Kind::Reliable, reliable);
        self.made.list_all(Kind::Lossy, lossy);
        Ok(())
    }

    /// How many requests were read: at most 256.
    pub fn requests_read(&self) -> usize
        ensures { result ≡ length self.now.read }
    {
        self.read.count()
    }

    /// A Soft-Sync request was read, which names these kinds, with channels or without. Its number
    /// is given, from 0; none where 256 were read before, and then nothing changes.
    pub fn got_begin(&mut self, reliable: bool, lossy: bool) -> Option<u32>
        ensures begun { IfSome result (λ number. (number ≡ length self.old.read) × (self.new ≡ record self.old { read = self.old.read ++ begun_of reliable lossy ∷ [] })) }
        ensures few { IfSome result (λ number. number < 256) }
        ensures none { IfNone result ((length self.old.read ≡ 256) × (self.new ≡ self.old)) }
    {
        if self.read.count() >= REQUESTS {
            return None;
        }
        Some(self.read.begin(Kinds { reliable, lossy }))
    }

    /// The request that was read last lists this channel under this kind: from now on what comes
    /// for it comes on that tunnel.
    pub fn got_request(&mut self, kind: Kind, id: u32)
        requires begun { 0 < length self.old.read }
        requires once { listed id self.old.read ≡ None }
        requires place { HasPlace id self.old.channels }
        ensures { self.new ≡ record self.old { channels = told_of id self.old.channels; read = with_channel id kind self.old.read } }
    {
        self.tell_of(id);
        self.read.list(kind, id);
    }

    /// Whether a request that was read names this kind.
    pub fn names(&self, request: u32, kind: Kind) -> bool
        requires { request < length self.now.read }
        ensures { result ≡ names request kind self.now.read }
    {
        self.read.names(request, kind)
    }

    /// The oldest request that was read and isn't answered; none where each is.
    pub fn unanswered(&self) -> Option<u32>
        ensures { result ≡ behind self.now.read }
    {
        self.read.behind()
    }

    /// The answer to a request that was read names this kind: what this end sends for the channels
    /// that the request lists under it goes on that tunnel from now on.
    pub fn respond(&mut self, request: u32, kind: Kind)
        requires { request < length self.old.read }
        ensures { self.new ≡ record self.old { read = with_answer request (naming kind) self.old.read } }
    {
        self.read.name(request, kind);
    }

    /// A request that was read is answered.
    pub fn answered(&mut self, request: u32)
        requires { request < length self.old.read }
        ensures { self.new ≡ record self.old { read = with_answer request giving self.old.read } }
    {
        self.read.give(request);
    }

    /// A Soft-Sync response was read (MS-RDPEDYC section 2.2.5.2): it answers the oldest request of
    /// this end that has no answer yet. None where each has one, and then nothing changes.
    pub fn answer_begin(&mut self) -> Option<u32>
        ensures oldest { result ≡ behind self.old.made }
        ensures given { IfSome result (λ number. self.new ≡ record self.old { made = with_answer number giving self.old.made }) }
        ensures answered { IfSome result (λ number. is_given number self.new.made ≡ true) }
        ensures none { IfNone result (self.new ≡ self.old) }
    {
        let number = self.made.behind()?;
        self.made.give(number);
        Some(number)
    }

    /// The oldest request of this end that has no answer yet; none where each has one.
    pub fn awaited(&self) -> Option<u32>
        ensures { result ≡ behind self.now.made }
    {
        self.made.behind()
    }

    /// Whether a request of this end names this kind.
    pub fn asks(&self, request: u32, kind: Kind) -> bool
        ensures { result ≡ names request kind self.now.made }
    {
        self.made.names(request, kind)
    }

    /// The answer to a request of this end names this kind: from now on what comes for the channels
    /// that the request lists under it comes on that tunnel. False exactly where the request didn't
    /// name the kind, or where its answer named it before; then nothing changes.
    pub fn got_response(&mut self, request: u32, kind: Kind) -> bool
        requires { is_given request self.old.made ≡ true }
        ensures answer { result ≡ (names request kind self.old.made && not (is_named request kind self.old.made)) }
        ensures words { self.new ≡ (if result then record self.old { made = with_answer request (naming kind) self.old.made } else self.old) }
    {
        if !self.made.names(request, kind) || self.made.is_named(request, kind) {
            return false;
        }
        self.made.name(request, kind);
        true
    }

    /// The channel at this place among those that a request of this end lists, in order, each with
    /// its kind; none where there are no more.
    pub fn made_channel(&self, request: u32, place: usize) -> Option<(u32, Kind)>
        requires { request < length self.now.made }
        ensures { result ≡ slice_get (channels_at request self.now.made) place }
    {
        self.made.channel(request, place)
    }

    /// The path of what this end sends for a channel.
    pub fn outward(&self, id: u32) -> Path
        ensures { result ≡ outward id self.now }
    {
        self.made
            .listed(id)
            .or(self.read.moved(id))
            .map_or(Path::Main, Path::Tunnel)
    }

    /// The path of what the other end sends for a channel, by the words that were read.
    pub fn inward(&self, id: u32) -> Path
        ensures { result ≡ inward id self.now }
    {
        self.read
            .listed(id)
            .or(self.made.moved(id))
            .map_or(Path::Main, Path::Tunnel)
    }

    /// What becomes of data of a channel that came from this path.
    pub fn place(&self, id: u32, from: Path) -> Placed
        ensures { result ≡ placed from (inward id self.now) }
    {
        match (from, self.inward(id)) {
            (from, inward) if from == inward => Placed::Deliver,
            (Path::Main, _) => Placed::TooLateOnMain,
            (Path::Tunnel(_), _) => Placed::HoldIt,
        }
    }

    /// The session has this channel, which isn't open where nothing else was told of it.
    fn tell_of(&mut self, id: u32)
        requires { HasPlace id self.old.channels }
        ensures { self.new ≡ record self.old { channels = told_of id self.old.channels } }
    {
        if self.channels.get(&id).is_some() {
            return;
        }
        self.set_channel(id, false);
    }

    /// Why a request that lists these channels would not be made: the first cause, in the order in
    /// which [`SyncRefusal`] lists them.
    pub fn refusal(&self, reliable: &[u32], lossy: &[u32]) -> Option<SyncRefusal>
        ensures { result ≡ why_not reliable.now lossy.now self.now }
    {
        if self.version < VERSION {
            return Some(SyncRefusal::OldVersion {
                version: self.version,
            });
        }
        if are_empty(reliable, lossy) {
            return Some(SyncRefusal::Empty);
        }
        if let Some(id) = self.first_unknown(reliable).or(self.first_unknown(lossy)) {
            return Some(SyncRefusal::UnknownChannel { id });
        }
        if let Some(id) = first_repeated(&[], reliable).or(first_repeated(reliable, lossy)) {
            return Some(SyncRefusal::Repeated { id });
        }
        if let Some(id) = self
            .made
            .first_listed(reliable)
            .or(self.made.first_listed(lossy))
        {
            return Some(SyncRefusal::AlreadyListed { id });
        }
        if let Some(kind) = self.first_closed(reliable, lossy) {
            return Some(SyncRefusal::TunnelNotOpen { kind });
        }
        None
    }

    /// The first kind with ids that has no open tunnel.
    fn first_closed(&self, reliable: &[u32], lossy: &[u32]) -> Option<Kind>
        ensures { result ≡ first_closed reliable.now lossy.now self.now.opened }
    {
        if !is_empty(reliable) && !self.opened.reliable {
            return Some(Kind::Reliable);
        }
        if !is_empty(lossy) && !self.opened.lossy {
            return Some(Kind::Lossy);
        }
        None
    }

    /// The first id that isn't that of an open channel.
    fn first_unknown(&self, ids: &[u32]) -> Option<u32>
        ensures { result ≡ find (λ id. not (is_open_channel id self.now)) ids.now }
    {
        for id in ids {
            if !self.is_open_channel(*id) {
                return Some(*id);
            }
        }
        None
    }

    /// Whether this is an open channel.
    fn is_open_channel(&self, id: u32) -> bool
        ensures { result ≡ is_open_channel id self.now }
    {
        self.channels.get(&id).copied().unwrap_or(false)
    }
}

/// Whether a list of ids has none.
fn is_empty(ids: &[u32]) -> bool
    ensures { result ≡ is_empty ids.now }
{
    ids.is_empty()
}

/// Whether two lists of ids have none.
fn are_empty(reliable: &[u32], lossy: &[u32]) -> bool
    ensures { result ≡ is_empty (reliable.now ++ lossy.now) }
{
    if is_empty(reliable) {
        is_empty(lossy)
    } else {
        false
    }
}

/// The first id that stands before it too, or among those that were seen.
fn first_repeated(seen: &[u32], ids: &[u32]) -> Option<u32>
    ensures { result ≡ first_repeated seen.now ids.now }
{
    for index in 0..ids.len() {
        let id = ids[index];
        let before = &ids[..index];
        if seen.contains(&id) {
            return Some(id);
        }
        if before.contains(&id) {
            return Some(id);
        }
    }
    None
}
