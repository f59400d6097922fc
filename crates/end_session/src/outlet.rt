//! Tunnel PDUs that a link is to be given.

use std::marker::Model;

/// The bytes of the tunnel PDUs that a step or a frame writes into one link, at most 3,072. Clauses see
/// it as the list of them.
#[derive(Drop)]
pub struct Outlet {
    bytes: [u8; 3072],
    length: usize,
}

impl Model for Outlet {
    ghost use Rattle.std.specs.Prelude.{◌≤◌, List, ℕ, take};

    ghost Value = { List ℕ };

    ghost view = { λ s. take s.length s.bytes };

    ghost invariant = { λ s. s.length ≤ 3072 };
}

impl Outlet {
    ghost use Rattle.std.specs.Prelude.{◌≡◌, ◌+◌, ◌≤◌, ◌++◌, [], length};

    /// Without bytes.
    pub fn new() -> Outlet
        ensures { result ≡ [] }
    {
        Outlet {
            bytes: [0; 3072],
            length: 0,
        }
    }

    /// The bytes that wait.
    pub fn bytes(&self) -> &[u8]
        ensures { result.now ≡ self.now }
    {
        &self.bytes[..self.length]
    }

    /// Puts bytes behind those that wait.
    pub fn put(&mut self, bytes: &[u8])
        requires { length self.old + length bytes.now ≤ 3072 }
        ensures { self.new ≡ self.old ++ bytes.now }
    {
        let end = self.length + bytes.len();
        self.bytes[self.length..end].copy_from_slice(bytes);
        self.length = end;
    }

    /// The bytes that waited are given.
    pub fn clear(&mut self)
        ensures { self.new ≡ [] }
    {
        self.length = 0;
    }
}
