//! All datagrams of a link, by side and number.

use mt_base::{NoMemory, Role};
use std::alloc::Global;
use std::marker::Model;

/// One datagram: who gave it, and where its bytes stand.
#[derive(Clone, Copy, Drop)]
struct Given {
    side: Role,
    start: usize,
    length: usize,
}

impl Given {
    ghost use Rattle.std.specs.Prelude.{◌≡◌, ◌+◌, ◌≤◌, length, take, drop};

    /// The bytes of this datagram.
    fn bytes_in(self, bytes: &[u8]) -> &[u8]
        requires inside { self.start + self.length ≤ length bytes.now }
        ensures { result.now ≡ take self.length (drop self.start bytes.now) }
    {
        &bytes[self.start..self.start + self.length]
    }
}

/// The datagrams that were given on a link. Clauses see it as the list of them, with their sides, in the order in which
/// they were given.
#[derive(Drop)]
pub struct Traffic {
    bytes: Vec<u8>,
    datagrams: Vec<Given>,
    server: Vec<usize>,
    client: Vec<usize>,
}

impl Model for Traffic {
    ghost use Rattle.std.specs.Prelude.{ℕ, List};
    ghost use Rattle.mt_base.specs.declared.kinds.Role.{Role};
    ghost use Rattle.link_traffic.specs.Stored.{IsStored, datagrams_in};

    ghost Value = { List (Role × List ℕ) };

    ghost view = { λ s. datagrams_in s.bytes.items s.datagrams.items };

    ghost invariant = { λ s. IsStored s.bytes.items s.datagrams.items s.server.items s.client.items };
}

impl Traffic {
    ghost use Rattle.std.specs.Prelude.{◌≡◌, ◌++◌, ◌∷◌, [], length, option_map, OnOk, OnErr};
    ghost use Rattle.link_traffic.specs.Given.{IsOldest, later, numbered, by, places};

    /// None yet. Takes no memory.
    pub fn new(alloc: Global) -> Traffic
        ensures { result ≡ [] }
    {
        Traffic {
            bytes: Vec::new(alloc),
            datagrams: Vec::new(alloc),
            server: Vec::new(alloc),
            client: Vec::new(alloc),
        }
    }

    /// One more was given by this side. Where memory is wanting nothing changes.
    pub fn push(&mut self, side: Role, datagram: &[u8]) -> Result<(), NoMemory>
        ensures given { OnOk result (self.new ≡ self.old ++ (side, datagram.now) ∷ []) }
        ensures unchanged { OnErr result (self.new ≡ self.old) }
    {
        self.bytes.reserve(datagram.len())?;
        self.datagrams.reserve(1)?;
        self.server.reserve(1)?;
        self.client.reserve(1)?;
        let place = self.datagrams.len();
        let _ = match side {
            Role::Server => self.server.push(place),
            Role::Client => self.client.push(place),
        };
        let _ = self.datagrams.push(Given {
            side,
            start: self.bytes.len(),
            length: datagram.len(),
        });
        let _ = self.bytes.extend_from_slice(datagram);
        Ok(())
    }

    /// How many this side gave.
    pub fn given(&self, side: Role) -> usize
        ensures { result ≡ length (by side self.now) }
    {
        self.places(side).len()
    }

    /// The datagram of this side with this number, counted from 0; `None` exactly where it gave no more than so many.
    pub fn datagram(&self, side: Role, number: usize) -> Option<&[u8]>
        ensures { option_map (λ d. d.now) result ≡ numbered side number self.now }
    {
        let place = *self.places(side).get(number)?;
        Some(self.datagrams[place].bytes_in(&self.bytes))
    }

    /// How many datagrams were given on the link, by either side, after this one.
    pub fn later(&self, side: Role, number: usize) -> Option<usize>
        ensures { result ≡ later side number self.now }
    {
        let place = *self.places(side).get(number)?;
        Some(self.datagrams.len() - (place + 1))
    }

    /// The oldest datagram of this side after which at most so many were given on the link.
    pub fn oldest(&self, side: Role, most: usize) -> Option<usize>
        ensures { IsOldest side most self.now result }
    {
        let first = self.datagrams.len().saturating_sub(most).saturating_sub(1);
        let places = self.places(side);
        let number = places.partition_point(|place| *place < first);
        (number < places.len()).then_some(number)
    }

    /// The places of this side's among all.
    fn places(&self, side: Role) -> &[usize]
        ensures { result.now ≡ places side self.now }
    {
        match side {
            Role::Server => &self.server,
            Role::Client => &self.client,
        }
    }
}
