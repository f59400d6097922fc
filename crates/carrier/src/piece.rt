//! The bytes of one part, kept in place.

ghost use Rattle.std.specs.Prelude.{◌≡◌, ◌≤◌, length};

use std::marker::Model;

/// Bytes of a part that a datagram has room for behind the part's number.
pub const ROOM: usize = 1_224;

/// The bytes of a part, as many as a datagram has behind the part's number.
#[derive(Drop)]
pub struct Piece {
    bytes: [u8; ROOM],
    length: usize,
}

impl Model for Piece {
    ghost use Rattle.std.specs.Prelude.{ℕ, ◌≤◌, List, take};
    ghost use Rattle.carrier.specs.declared.piece.TheConstants.{ROOM};

    ghost Value = { List ℕ };

    ghost view = { λ p. take p.length p.bytes };

    ghost invariant = { λ p. p.length ≤ ROOM };
}

impl Piece {
    /// A part of these bytes.
    pub fn new(bytes: &[u8]) -> Piece
        requires { length bytes.now ≤ ROOM }
        ensures { result ≡ bytes.now }
    {
        let length = bytes.len();
        let mut room = [0; ROOM];
        room[..length].copy_from_slice(bytes);
        Piece {
            bytes: room,
            length,
        }
    }

    /// Its bytes.
    pub fn bytes(&self) -> &[u8]
        ensures bytes { result.now ≡ self.now }
        ensures size { length self.now ≤ ROOM }
    {
        &self.bytes[..self.length]
    }
}
