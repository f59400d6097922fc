//! The datagrams that were given so far, by their numbers.

use crate::entry::Entry;
use mt_base::{Kind, NoMemory, Role};
use std::alloc::Global;
use std::marker::Model;

/// The number of datagrams that may be given on a link after one and before it arrives.
const LATE: u64 = 1024;

/// For each datagram of a side and kind, in order of their numbers, how many datagrams of the kind
/// were given before it, by both sides.
#[derive(Drop)]
pub(crate) struct GivenOuts {
    server_reliable: Vec<u64>,
    client_reliable: Vec<u64>,
    server_lossy: Vec<u64>,
    client_lossy: Vec<u64>,
}

impl Model for GivenOuts {
    ghost use Rattle.capture_check.specs.GivenSoFar.{Given};

    ghost Value = { Given };

    ghost view = { λ g. record {
      server_reliable = g.server_reliable.items;
      client_reliable = g.client_reliable.items;
      server_lossy = g.server_lossy.items;
      client_lossy = g.client_lossy.items;
    } };
}

impl GivenOuts {
    ghost use Rattle.std.specs.Prelude.{◌≡◌, ◌-◌, OnOk, slice_get};
    ghost use Rattle.capture_check.specs.GivenSoFar.{arrival_rule, given_of, no_datagrams, places, rule_broken, with_entry, with_out};

    /// No datagrams.
    pub(crate) fn new(alloc: Global) -> GivenOuts
        ensures { result ≡ no_datagrams }
    {
        GivenOuts {
            server_reliable: Vec::new(alloc),
            client_reliable: Vec::new(alloc),
            server_lossy: Vec::new(alloc),
            client_lossy: Vec::new(alloc),
        }
    }

    /// The places of a side's datagrams of a kind.
    fn places(&self, side: Role, kind: Kind) -> &[u64]
        ensures { result.now ≡ places self.now side kind }
    {
        match (side, kind) {
            (Role::Server, Kind::Reliable) => &self.server_reliable,
            (Role::Client, Kind::Reliable) => &self.client_reliable,
            (Role::Server, Kind::Lossy) => &self.server_lossy,
            (Role::Client, Kind::Lossy) => &self.client_lossy,
        }
    }

    /// How many datagrams of a kind were given.
    fn total(&self, kind: Kind) -> u64
        ensures { result ≡ given_of self.now kind }
    {
        match kind {
            Kind::Reliable => (self.server_reliable.len() + self.client_reliable.len()) as u64,
            Kind::Lossy => (self.server_lossy.len() + self.client_lossy.len()) as u64,
        }
    }

    /// The least rule of numbers that an entry breaks.
    pub(crate) fn broken_rule(&self, entry: &Entry) -> Option<u8>
        ensures { result ≡ rule_broken self.now entry.now }
    {
        match entry {
            Entry::Out {
                side,
                kind,
                number,
                ..
            } => {
                if *number == self.places(*side, *kind).len() as u64 {
                    None
                } else {
                    Some(1)
                }
            }
            Entry::In { side, kind, number } => self.arrival_rule(*side, *kind, *number),
            _ => None,
        }
    }

    /// The rule that a datagram breaks which arrives.
    fn arrival_rule(&self, side: Role, kind: Kind, number: u64) -> Option<u8>
        ensures { result ≡ arrival_rule (given_of self.now kind)
            (slice_get (places self.now side kind) number) }
    {
        match self.places(side, kind).get(number as usize) {
            None => Some(2),
            Some(place) => {
                if self.total(kind).saturating_sub(*place) > LATE {
                    Some(3)
                } else {
                    None
                }
            }
        }
    }

    /// Notes an entry.
    pub(crate) fn note(&mut self, entry: &Entry) -> Result<(), NoMemory>
        ensures { OnOk result (self.new ≡ with_entry self.old entry.now) }
    {
        match entry {
            Entry::Out { side, kind, .. } => self.add(*side, *kind),
            _ => Ok(()),
        }
    }

    /// Notes a datagram.
    fn add(&mut self, side: Role, kind: Kind) -> Result<(), NoMemory>
        ensures { OnOk result (self.new ≡ with_out self.old side kind) }
    {
        let place = self.total(kind);
        let pushed = match (side, kind) {
            (Role::Server, Kind::Reliable) => self.server_reliable.push(place),
            (Role::Client, Kind::Reliable) => self.client_reliable.push(place),
            (Role::Server, Kind::Lossy) => self.server_lossy.push(place),
            (Role::Client, Kind::Lossy) => self.client_lossy.push(place),
        };
        pushed.map_err(|_| NoMemory)
    }
}
