//! Parts in flight.

ghost use Rattle.std.specs.Prelude.{◌≡◌, [], length, unwrap_or};

use crate::slot::Slot;

/// A part that was sent and is not settled, with its first and its latest transmission, counted
/// from 0; or room for one.
#[derive(Drop)]
pub struct Flight {
    pub slot: Slot,
    pub earliest: u64,
    pub latest: u64,
}

impl Flight {
    /// How many bytes the part has, 0 where there is none.
    pub fn size(&self) -> usize
        ensures { result ≡ length (unwrap_or self.now.slot []) }
    {
        if self.slot.is_filled() {
            self.slot.bytes().len()
        } else {
            0
        }
    }
}
