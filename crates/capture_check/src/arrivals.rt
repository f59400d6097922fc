//! The datagrams of both sides on both kinds of link, and which of their numbers came.

ghost use Rattle.std.specs.Prelude.{◌≡◌, ◌↔◌, ◌++◌, ◌∷◌, [], List, IsTrue, IfOk, OnOk, Option, slice_get};
ghost use Rattle.mt_base.specs.Ends.{other};
ghost use Rattle.capture_check.specs.declared.entry.Entry.{Entry};
ghost use Rattle.capture_check.specs.LayoutsSoFar.{AreAgreed};
ghost use Rattle.capture_check.specs.Numbers.{CountsUp};
ghost use Rattle.capture_check.specs.Tellings.{TellsWhatCame};
ghost use Rattle.capture_check.specs.TellingsSoFar.{AreArrivals};

use crate::agreed::AgreedLayouts;
use crate::arrived::Arrived;
use crate::entry::Entry;
use mt_base::{Kind, NoMemory, Role};
use std::alloc::Global;
use std::marker::Model;

/// The datagrams of each side and kind.
#[derive(Drop)]
pub(crate) struct Arrivals {
    server_reliable: Arrived,
    client_reliable: Arrived,
    server_lossy: Arrived,
    client_lossy: Arrived,
}

impl Model for Arrivals {
    ghost use Rattle.capture_check.specs.Arrivals.{ArrivalsView};

    ghost Value = { ArrivalsView };

    ghost view = { λ a. record {
      server_reliable = a.server_reliable;
      client_reliable = a.client_reliable;
      server_lossy = a.server_lossy;
      client_lossy = a.client_lossy;
    } };
}

impl Arrivals {
    ghost use Rattle.capture_check.specs.Arrivals.{arrived_of, no_arrivals, with_arrived, with_came, with_given};

    /// No datagram was given.
    pub(crate) fn new(alloc: Global) -> Result<Arrivals, NoMemory>
        ensures { IfOk result (λ arrivals. arrivals ≡ no_arrivals) }
    {
        Ok(Arrivals {
            server_reliable: Arrived::new(alloc)?,
            client_reliable: Arrived::new(alloc)?,
            server_lossy: Arrived::new(alloc)?,
            client_lossy: Arrived::new(alloc)?,
        })
    }

    /// The datagrams of a side and kind.
    fn arrived(&self, side: Role, kind: Kind) -> &Arrived
        ensures { result.now ≡ arrived_of self.now side kind }
    {
        match (side, kind) {
            (Role::Server, Kind::Reliable) => &self.server_reliable,
            (Role::Client, Kind::Reliable) => &self.client_reliable,
            (Role::Server, Kind::Lossy) => &self.server_lossy,
            (Role::Client, Kind::Lossy) => &self.client_lossy,
        }
    }

    /// Whether an entry is no datagram, or one that tells only numbers which came from the other
    /// side, or SeqNum 0 where none came.
    pub(crate) fn tells_what_came(&self, agreed: AgreedLayouts, entry: &Entry) -> bool
        ensures { (before : List Entry) → AreAgreed agreed before → AreArrivals before self.now
            → IsTrue result ↔ TellsWhatCame before entry.now }
    {
        match entry {
            Entry::Out {
                side,
                kind,
                datagram,
                ..
            } => agreed.tells_what_came(
                *kind,
                datagram.bytes(),
                self.arrived(side.other(), *kind).came(),
            ),
            _ => true,
        }
    }

    /// Notes an entry.
    pub(crate) fn note(&mut self, agreed: AgreedLayouts, entry: &Entry) -> Result<(), NoMemory>
        ensures { OnOk result ((before : List Entry) → AreAgreed agreed before
            → CountsUp before entry.now → AreArrivals before self.old
            → AreArrivals (before ++ entry.now ∷ []) self.new) }
    {
        match entry {
            Entry::Out {
                side,
                kind,
                datagram,
                ..
            } => self.give(*side, *kind, agreed.shown(*kind, datagram.bytes())),
            Entry::In { side, kind, number } => self.arrive(*side, *kind, *number),
            _ => Ok(()),
        }
    }

    /// Notes a datagram that a side gave, by the number that it shows.
    fn give(&mut self, side: Role, kind: Kind, shown: Option<u64>) -> Result<(), NoMemory>
        ensures { OnOk result (self.new
            ≡ with_arrived self.old side kind (with_given shown (arrived_of self.old side kind))) }
    {
        match (side, kind) {
            (Role::Server, Kind::Reliable) => self.server_reliable.give(shown),
            (Role::Client, Kind::Reliable) => self.client_reliable.give(shown),
            (Role::Server, Kind::Lossy) => self.server_lossy.give(shown),
            (Role::Client, Kind::Lossy) => self.client_lossy.give(shown),
        }
    }

    /// Notes that a side's datagram came.
    fn arrive(&mut self, side: Role, kind: Kind, number: u64) -> Result<(), NoMemory>
        ensures { OnOk result (self.new ≡ with_arrived self.old side kind
            (with_came (slice_get (arrived_of self.old side kind).given number) (arrived_of self.old side kind))) }
    {
        match (side, kind) {
            (Role::Server, Kind::Reliable) => self.server_reliable.arrive(number),
            (Role::Client, Kind::Reliable) => self.client_reliable.arrive(number),
            (Role::Server, Kind::Lossy) => self.server_lossy.arrive(number),
            (Role::Client, Kind::Lossy) => self.client_lossy.arrive(number),
        }
    }
}
