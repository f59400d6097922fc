//! What a side sent on a channel, and how much of it was delivered.

ghost use Rattle.std.specs.Prelude.{◌≡◌, ◌≢◌, ◌≤◌, ◌<◌, ◌+◌, ℕ, true, IfSome, IfNone, OnOk, IsTrue, IsFalse};
ghost use Rattle.capture_check.specs.Flows.{no_flow, with_message};
ghost use Rattle.capture_check.specs.Messages.{Follows};

use mt_base::NoMemory;
use std::alloc::Global;
use std::marker::Model;

/// The messages that a side sent on a channel, in order, how many of them were matched by what the
/// other side got, and whether the side moved the channel to the lossy tunnel.
#[derive(Drop)]
pub(crate) struct Flow<'a> {
    sent: Vec<&'a [u8]>,
    matched: usize,
    lossy: bool,
}

impl<'a> Model for Flow<'a> {
    ghost use Rattle.std.specs.Prelude.{map};
    ghost use Rattle.capture_check.specs.Flows.{FlowView};

    ghost Value = { FlowView };

    ghost view = { λ f. record { sent = map (λ m. m.now) f.sent.items; matched = f.matched; lossy = f.lossy } };
}

impl<'a> Flow<'a> {
    /// Nothing was sent.
    pub(crate) fn new(alloc: Global) -> Flow<'a>
        ensures { result ≡ no_flow }
    {
        Flow {
            sent: Vec::new(alloc),
            matched: 0,
            lossy: false,
        }
    }

    /// Notes a message that the side sent.
    pub(crate) fn send(&mut self, message: &'a [u8]) -> Result<(), NoMemory>
        ensures { OnOk result (self.new ≡ with_message message.now self.old) }
    {
        self.sent.push(message).map_err(|_| NoMemory)
    }

    /// Notes that the side moved the channel to the lossy tunnel.
    pub(crate) fn move_to_lossy(&mut self)
        ensures { self.new ≡ record self.old { lossy = true } }
    {
        self.lossy = true;
    }

    /// The place of the message that is matched next where this one is delivered.
    fn place_of(&self, message: &[u8]) -> Option<usize>
        ensures found { IfSome result (Follows self.now.sent self.now.lossy self.now.matched message.now) }
        ensures none { IfNone result ((place : ℕ)
            → ¬ Follows self.now.sent self.now.lossy self.now.matched message.now place) }
    {
        let mut place = self.matched;
        while place < self.sent.len() {
            if self.sent[place] == message {
                return Some(place);
            }
            if !self.lossy {
                return None;
            }
            place += 1;
        }
        None
    }

    /// Notes that a message was delivered; false, and nothing is noted, where it is not the one
    /// that is matched next.
    pub(crate) fn deliver(&mut self, message: &[u8]) -> bool
        ensures yes { IsTrue result → (place : ℕ)
            × Follows self.old.sent self.old.lossy self.old.matched message.now place
            × (self.new ≡ record self.old { matched = place + 1 }) }
        ensures no { IsFalse result → (self.new ≡ self.old) × ((place : ℕ)
            → ¬ Follows self.old.sent self.old.lossy self.old.matched message.now place) }
    {
        match self.place_of(message) {
            Some(place) => {
                self.matched = place + 1;
                true
            }
            None => false,
        }
    }
}
