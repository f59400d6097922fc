//! What stands beside the bytes of a PDU.

ghost use Rattle.std.specs.Prelude.{◌≡◌};

/// The record of a PDU: its channel, its place, its length, and whether it is still held.
#[derive(Clone, Copy, Debug, PartialEq, Eq)]
pub struct Record {
    pub id: u32,
    pub at: u64,
    pub length: u16,
    pub is_held: bool,
}

impl Record {
    ghost use Rattle.hold_queue.specs.Stored.{stays};

    /// Whether it stays where gone ones leave, and those of a channel that is named.
    pub fn stays(&self, leaving: Option<u32>) -> bool
        ensures { result ≡ stays leaving self.now }
    {
        self.is_held && leaving != Some(self.id)
    }
}
