//! Whether fields find a place in an output, before a byte of them is written.

ghost use Rattle.std.specs.Prelude.{◌≡◌, ◌+◌, ◌<◌, ◌^◌, ℕ};

use crate::errors::NoRoom;
use crate::place::Place;

/// The room that is left in an output: the next field's place, and the bytes from there on.
///
/// Passing over fields answers what writing them into [`Out`](crate::Out) would answer.
#[derive(Drop)]
pub struct Room {
    at: usize,
    left: usize,
    ghost within: { at + left < 2 ^ 64 },
}

impl Room {
    ghost use Rattle.std.specs.Prelude.{◌≡◌, OnErr};
    ghost use Rattle.mt_base.specs.Space.{Passes, pass};
    ghost use Rattle.mt_base.specs.RoomView.{space};

    /// The room in an output of this length.
    pub fn new(len: usize) -> Room
        ensures { space result ≡ record { before = 0; behind = len } }
    {
        Room { at: 0, left: len }
    }

    /// Passes over a field of so many bytes. Where it does not fit it is [`NoRoom`], with its place
    /// and length, and nothing is changed.
    pub fn pass(&mut self, need: usize) -> Result<(), NoRoom>
        ensures passed { Passes (space self.new) result (pass need (space self.old)) }
        ensures unchanged { OnErr result (space self.new ≡ space self.old) }
    {
        if self.left < need {
            return Err(NoRoom { at: self.at, need });
        }
        self.at += need;
        self.left -= need;
        Ok(())
    }
}

impl Place for Room {
    ghost use Rattle.mt_base.specs.Filling.{Counted};
    ghost use Rattle.mt_base.specs.RoomView.{space};

    ghost filling = { λ r. Counted (space r) };

    ghost lent = { λ r. 0 };

    fn put(&mut self, bytes: &[u8]) -> Result<(), NoRoom> {
        self.pass(bytes.len())
    }

    fn put_zeros(&mut self, count: usize) -> Result<(), NoRoom> {
        self.pass(count)
    }
}
