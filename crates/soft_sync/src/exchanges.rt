//! Requests in one direction, with their answers.

ghost use Rattle.std.specs.Prelude.{◌≡◌, ◌+◌, ◌<◌, ◌≤◌, ◌++◌, ◌∷◌, [], IfOk, IfSome, IfNone, None, length, nat_eq, option_map};
ghost use Rattle.std.specs.Vec.{vec_capacity};
ghost use Rattle.std.specs.Map.{lookup};
ghost use Rattle.indexmap.specs.IndexMap.{spare};
ghost use Rattle.soft_sync.specs.Exchanges.{Exchange, unanswered, listed, moved, behind, names, is_named, is_given, with_channel, with_answer, naming, giving};
ghost use Rattle.soft_sync.specs.Table.{exchanges_in, IsKept};
ghost use Rattle.soft_sync.specs.declared.row.Listing.{Listing as ListingValue};

use crate::kinds::Kinds;
use crate::row::{Listing, Row};
use indexmap::IndexMap;
use mt_base::{Kind, NoMemory};
use std::alloc::Global;

/// The channels that a session has at most, and the requests.
const LIMIT: usize = 256;

/// Requests in order, each with its answer, and the channels that they list.
#[derive(Drop)]
pub struct Exchanges {
    pub rows: Vec<Row>,
    pub listings: IndexMap<u32, Listing>,
}

impl Exchanges {
    ghost use Rattle.std.specs.Prelude.{not, is_some, slice_get};
    ghost use Rattle.std.specs.List.{find};
    ghost use Rattle.soft_sync.specs.Table.{IsRoomy, under, row_of, listed_by};
    ghost use Rattle.std.specs.Prelude.{◌-◌};
    ghost use Rattle.std.specs.Map.{keys_of};
    ghost use Rattle.soft_sync.specs.Words.{first_repeated};

    /// No requests, with room for 256, and for 256 channels.
    pub fn new(alloc: Global) -> Result<Exchanges, NoMemory>
        ensures empty { IfOk result (λ x. (x.rows.items ≡ []) × (x.listings.entries ≡ [])) }
        ensures roomy { IfOk result (λ x. IsRoomy x.rows.items x.listings.entries (vec_capacity x.rows) (spare x.listings)) }
    {
        Ok(Exchanges {
            rows: Vec::with_capacity(alloc, LIMIT)?,
            listings: IndexMap::with_capacity(alloc, LIMIT)?,
        })
    }

    /// How many requests there are.
    pub fn count(&self) -> usize
        ensures { result ≡ length self.now.rows.items }
    {
        self.rows.len()
    }

    /// A request that names these kinds, and lists no channel yet. Its number is given.
    pub fn begin(&mut self, named: Kinds) -> u32
        requires roomy { IsRoomy self.old.rows.items self.old.listings.entries (vec_capacity self.old.rows) (spare self.old.listings) }
        requires few { length self.old.rows.items < 256 }
        ensures number { result ≡ length self.old.rows.items }
        ensures rows { self.new.rows.items ≡ self.old.rows.items ++ row_of named ∷ [] }
        ensures listings { self.new.listings ≡ self.old.listings }
        ensures roomy { IsRoomy self.new.rows.items self.new.listings.entries (vec_capacity self.new.rows) (spare self.new.listings) }
    {
        let number = self.rows.len() as u32;
        let row = Row {
            named,
            is_given: false,
            answer: Kinds::NONE,
        };
        // There is room for each request, so that no memory is taken here.
        match self.rows.push(row) {
            Ok(()) => number,
            Err(_) => unreachable!(),
        }
    }

    /// The last request lists this channel too.
    pub fn list(&mut self, kind: Kind, id: u32)
        requires roomy { IsRoomy self.old.rows.items self.old.listings.entries (vec_capacity self.old.rows) (spare self.old.listings) }
        requires begun { 0 < length self.old.rows.items }
        requires fit { length self.old.listings.entries < 256 }
        requires once { lookup (nat_eq id) self.old.listings.entries ≡ None }
        ensures rows { self.new.rows ≡ self.old.rows }
        ensures listings { self.new.listings.entries ≡ self.old.listings.entries ++ under (length self.old.rows.items - 1) kind (id ∷ []) }
        ensures roomy { IsRoomy self.new.rows.items self.new.listings.entries (vec_capacity self.new.rows) (spare self.new.listings) }
    {
        let number = self.rows.len() as u32 - 1;
        // There is room for each channel, so that no memory is taken here.
        match self.listings.insert(id, Listing { number, kind }) {
            Ok(_) => {}
            Err(_) => unreachable!(),
        }
    }

    /// The last request lists these channels too.
    pub fn list_all(&mut self, kind: Kind, ids: &[u32])
        requires roomy { IsRoomy self.old.rows.items self.old.listings.entries (vec_capacity self.old.rows) (spare self.old.listings) }
        requires begun { 0 < length self.old.rows.items }
        requires fit { length self.old.listings.entries + length ids.now ≤ 256 }
        requires once { first_repeated (keys_of self.old.listings.entries) ids.now ≡ None }
        ensures rows { self.new.rows ≡ self.old.rows }
        ensures listings { self.new.listings.entries ≡ self.old.listings.entries ++ under (length self.old.rows.items - 1) kind ids.now }
        ensures roomy { IsRoomy self.new.rows.items self.new.listings.entries (vec_capacity self.new.rows) (spare self.new.listings) }
    {
        for id in ids {
            self.list(kind, *id);
        }
    }

    /// The kind under which a channel is listed.
    pub fn listed(&self, id: u32) -> Option<Kind>
        requires kept { IsKept self.now.rows.items self.now.listings.entries }
        ensures { result ≡ listed id (exchanges_in self.now.rows.items self.now.listings.entries) }
    {
        match self.listings.get(&id) {
            Some(listing) => Some(listing.kind),
            None => None,
        }
    }

    /// The kind under which a channel is listed, where the answer to its request names it.
    pub fn moved(&self, id: u32) -> Option<Kind>
        requires kept { IsKept self.now.rows.items self.now.listings.entries }
        ensures { result ≡ moved id (exchanges_in self.now.rows.items self.now.listings.entries) }
    {
        let Some(listing) = self.listings.get(&id) else {
            return None;
        };
        let Some(row) = self.rows.get(listing.number as usize) else {
            unreachable!()
        };
        if row.answer.has(listing.kind) {
            Some(listing.kind)
        } else {
            None
        }
    }

    /// The number of the oldest request without an answer.
    pub fn behind(&self) -> Option<u32>
        requires kept { IsKept self.now.rows.items self.now.listings.entries }
        ensures { result ≡ behind (exchanges_in self.now.rows.items self.now.listings.entries) }
    {
        for number in 0..self.rows.len() {
            let Some(row) = self.rows.get(number) else {
                unreachable!()
            };
            if !row.is_given {
                return Some(number as u32);
            }
        }
        None
    }

    /// Whether a request names this kind.
    pub fn names(&self, number: u32, kind: Kind) -> bool
        ensures { result ≡ names number kind (exchanges_in self.now.rows.items self.now.listings.entries) }
    {
        match self.rows.get(number as usize) {
            Some(row) => row.named.has(kind),
            None => false,
        }
    }

    /// Whether the answer to it does.
    pub fn is_named(&self, number: u32, kind: Kind) -> bool
        ensures { result ≡ is_named number kind (exchanges_in self.now.rows.items self.now.listings.entries) }
    {
        match self.rows.get(number as usize) {
            Some(row) => row.answer.has(kind),
            None => false,
        }
    }

    /// The answer to a request names this kind too.
    pub fn name(&mut self, number: u32, kind: Kind)
        ensures exchanges { exchanges_in self.new.rows.items self.new.listings.entries ≡ with_answer number (naming kind) (exchanges_in self.old.rows.items self.old.listings.entries) }
        ensures rows { (length self.new.rows.items ≡ length self.old.rows.items) × (vec_capacity self.new.rows ≡ vec_capacity self.old.rows) }
        ensures listings { self.new.listings ≡ self.old.listings }
    {
        let Some(row) = self.rows.get_mut(number as usize) else {
            return;
        };
        row.answer.set(kind, true);
    }

    /// The answer to a request is given.
    pub fn give(&mut self, number: u32)
        ensures exchanges { exchanges_in self.new.rows.items self.new.listings.entries ≡ with_answer number giving (exchanges_in self.old.rows.items self.old.listings.entries) }
        ensures rows { (length self.new.rows.items ≡ length self.old.rows.items) × (vec_capacity self.new.rows ≡ vec_capacity self.old.rows) }
        ensures listings { self.new.listings ≡ self.old.listings }
    {
        let Some(row) = self.rows.get_mut(number as usize) else {
            return;
        };
        row.is_given = true;
    }

    /// The channel at this place among those that a request lists, in order, with its kind.
    pub fn channel(&self, number: u32, place: usize) -> Option<(u32, Kind)>
        ensures { result ≡ slice_get (listed_by number self.now.listings.entries) place }
    {
        let mut ahead = place;
        for at in 0..self.listings.len() {
            let Some((id, listing)) = self.listings.get_index(at) else {
                unreachable!()
            };
            if listing.number == number {
                if ahead == 0 {
                    return Some((*id, listing.kind));
                }
                ahead -= 1;
            }
        }
        None
    }

    /// The first id that is listed.
    pub fn first_listed(&self, ids: &[u32]) -> Option<u32>
        requires kept { IsKept self.now.rows.items self.now.listings.entries }
        ensures { result ≡ find (λ id. is_some (listed id (exchanges_in self.now.rows.items self.now.listings.entries))) ids.now }
    {
        for id in ids {
            if self.listed(*id).is_some() {
                return Some(*id);
            }
        }
        None
    }
}
