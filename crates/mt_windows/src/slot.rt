//! Room for the bytes of one part.

ghost use Rattle.std.specs.Prelude.{◌≡◌, ◌≤◌, length, is_some, IsSome, IfOk};

use crate::limits::DATAGRAM;
use mt_base::NoMemory;
use std::alloc::Global;
use std::marker::Model;

/// Room for one part: it holds the part's bytes, or none.
#[derive(Drop)]
pub struct Slot {
    bytes: Vec<u8>,
    filled: bool,
}

impl Model for Slot {
    ghost use Rattle.std.specs.Prelude.{ℕ, ◌≤◌, List, Option, Some, None, if◌then◌else◌, length, vec_capacity};

    ghost Value = { Option (List ℕ) };

    ghost view = { λ s. if s.filled then Some s.bytes.items else None };

    ghost invariant = { λ s. record { room : 1232 ≤ vec_capacity s.bytes; fits : length s.bytes.items ≤ 1232 } };
}

impl Slot {
    /// An empty slot with room for a whole datagram.
    pub fn new(alloc: Global) -> Result<Slot, NoMemory>
        ensures { IfOk result (λ s. s ≡ None) }
    {
        let bytes = Vec::with_capacity(alloc, DATAGRAM)?;
        Ok(Slot {
            bytes,
            filled: false,
        })
    }

    /// Whether a part is in it.
    pub fn is_filled(&self) -> bool
        ensures { result ≡ is_some self.now }
    {
        self.filled
    }

    /// The bytes of the part in it.
    pub fn bytes(&self) -> &[u8]
        requires { IsSome self.now }
        ensures bytes { self.now ≡ Some result.now }
        ensures fits { length result.now ≤ 1232 }
    {
        self.bytes.as_slice()
    }

    /// Puts a part in.
    pub fn fill(&mut self, bytes: &[u8])
        requires { length bytes.now ≤ 1232 }
        ensures { self.new ≡ Some bytes.now }
    {
        self.bytes.clear();
        match self.bytes.extend_from_slice(bytes) {
            Ok(()) => {}
            Err(_) => unreachable!(),
        }
        self.filled = true;
    }

    /// Takes the part out.
    pub fn clear(&mut self)
        ensures { self.new ≡ None }
    {
        self.filled = false;
    }
}
