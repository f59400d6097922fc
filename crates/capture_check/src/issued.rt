//! The requests for tunnels that were issued.

ghost use Rattle.std.specs.Prelude.{◌≡◌, ◌≢◌, ℕ, IfOk, OnOk, IsTrue, IsFalse, nat_eq, [], Some, None, option_copied, IsSome};
ghost use Rattle.std.specs.Map.{lookup};

use indexmap::IndexMap;
use mt_base::{Kind, NoMemory};
use std::alloc::Global;
use std::marker::Model;

/// A request for a tunnel of a kind, and its cookie.
#[derive(Clone, Copy)]
pub(crate) struct Issued {
    pub(crate) kind: Kind,
    pub(crate) cookie: [u8; 16],
}

/// The requests, each under its id.
#[derive(Drop)]
pub(crate) struct IssuedById {
    requests: IndexMap<u32, Issued>,
}

impl Model for IssuedById {
    ghost use Rattle.std.specs.Prelude.{ℕ, List};
    ghost use Rattle.capture_check.specs.declared.issued.Issued.{Issued};

    ghost Value = { List (ℕ × Issued) };

    ghost view = { λ i. i.requests.entries };
}

impl IssuedById {
    /// Nothing was issued.
    pub(crate) fn new(alloc: Global) -> Result<IssuedById, NoMemory>
        ensures { IfOk result (λ issued. issued ≡ []) }
    {
        Ok(IssuedById {
            requests: IndexMap::with_capacity(alloc, 0)?,
        })
    }

    /// The request of an id.
    pub(crate) fn get(&self, id: u32) -> Option<&Issued>
        ensures { option_copied result ≡ lookup (nat_eq id) self.now }
    {
        self.requests.get(&id)
    }

    /// Notes a request; false where its id was issued before.
    pub(crate) fn add(&mut self, id: u32, request: Issued) -> Result<bool, NoMemory>
        ensures fresh { IfOk result (λ added. IsTrue added → lookup (nat_eq id) self.old ≡ None) }
        ensures again { IfOk result (λ added. IsFalse added → IsSome (lookup (nat_eq id) self.old)) }
        ensures here { IfOk result (λ added. IsTrue added → lookup (nat_eq id) self.new ≡ Some request) }
        ensures others { IfOk result (λ added. IsTrue added → (other : ℕ) → other ≢ id
            → lookup (nat_eq other) self.new ≡ lookup (nat_eq other) self.old) }
    {
        if self.requests.get(&id).is_some() {
            return Ok(false);
        }
        self.requests.insert(id, request)?;
        Ok(true)
    }
}
