//! Two ends, and what is between them.

use carrier::{Carrier, Post};
use endpoint::Endpoint;
use link_traffic::Traffic;
use mt_base::{Kind, NoMemory, Role};
use std::alloc::Global;
use std::marker::Model;

/// So many datagrams and more, given on a link after one, make that one too late to come.
pub const LATE: usize = 1_024;

/// Two ends of a session in memory. Clauses see both ends, the bytes of the main streams under way, and all datagrams
/// that were given on each link.
#[derive(Drop)]
pub struct Pair<C: Carrier + Drop, P: Post + Drop> {
    pub(crate) server: Endpoint<C, P>,
    pub(crate) client: Endpoint<C, P>,
    pub(crate) from_server: Vec<u8>,
    pub(crate) from_client: Vec<u8>,
    pub(crate) reliable: Traffic,
    pub(crate) lossy: Traffic,
}

impl<C: Carrier + Drop, P: Post + Drop> Model for Pair<C, P> {
    ghost use Rattle.end_pair.specs.Joined.{Joined, PairIsLawful};

    ghost Value = { Joined C P };

    ghost view = { λ s. record { server = s.server; client = s.client; from_server = s.from_server.items; from_client = s.from_client.items; reliable = s.reliable; lossy = s.lossy } };

    ghost invariant = { λ s. PairIsLawful C.stands C.left C.condition P.stands P.left P.condition (record { server = s.server; client = s.client; from_server = s.from_server.items; from_client = s.from_client.items; reliable = s.reliable; lossy = s.lossy }) };
}

impl<C: Carrier + Drop, P: Post + Drop> Pair<C, P> {
    ghost use Rattle.std.specs.Prelude.{◌≡◌, IfOk};
    ghost use Rattle.mt_base.specs.declared.kinds.Role.{Role as Side};
    ghost use Rattle.end_pair.specs.Joined.{PairStands, end_of, made, on};

    /// Two ends that were made, with no link and nothing under way.
    pub fn new(alloc: Global) -> Result<Pair<C, P>, NoMemory>
        ensures { IfOk result (λ pair. PairStands C.stands C.left C.condition P.stands P.left P.condition pair made) }
    {
        Ok(Pair {
            server: Endpoint::new(alloc, Role::Server)?,
            client: Endpoint::new(alloc, Role::Client)?,
            from_server: Vec::new(alloc),
            from_client: Vec::new(alloc),
            reliable: Traffic::new(alloc),
            lossy: Traffic::new(alloc),
        })
    }

    /// One of the ends, to be asked what it tells.
    pub fn end(&self, side: Role) -> &Endpoint<C, P>
        ensures { result.now ≡ end_of side self.now }
    {
        match side {
            Role::Server => &self.server,
            Role::Client => &self.client,
        }
    }

    /// All datagrams that both ends gave on the link of this kind, in their order.
    pub fn traffic(&self, kind: Kind) -> &Traffic
        ensures { result.now ≡ on kind self.now }
    {
        match kind {
            Kind::Reliable => &self.reliable,
            Kind::Lossy => &self.lossy,
        }
    }
}
