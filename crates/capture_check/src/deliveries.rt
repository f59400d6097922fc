//! What was sent and delivered on all channels so far.

ghost use Rattle.std.specs.Prelude.{◌≡◌, ◌++◌, ◌∷◌, [], List, IfOk, OnOk, IsTrue, IsFalse};
ghost use Rattle.mt_base.specs.Ends.{other};
ghost use Rattle.capture_check.specs.declared.entry.Entry.{Entry};
ghost use Rattle.capture_check.specs.declared.entry.Entry.TheVariants.{Sent, Got, Word};
ghost use Rattle.mt_base.specs.declared.kinds.Kind.TheVariants.{Lossy};
ghost use Rattle.capture_check.specs.FlowsSoFar.{AreDeliveries};
ghost use Rattle.capture_check.specs.Messages.{WasSent};

use crate::entry::Entry;
use crate::flows::Flows;
use mt_base::{Kind, NoMemory, Role};
use std::alloc::Global;

/// The messages that either side sent, and how many of them the other one got.
#[derive(Drop)]
pub(crate) struct Deliveries<'a> {
    server: Flows<'a>,
    client: Flows<'a>,
}

impl<'a> Deliveries<'a> {
    /// Nothing was sent.
    pub(crate) fn new(alloc: Global) -> Result<Deliveries<'a>, NoMemory>
        ensures { IfOk result (AreDeliveries []) }
    {
        Ok(Deliveries {
            server: Flows::new(alloc)?,
            client: Flows::new(alloc)?,
        })
    }

    /// Notes an entry; false where it is a delivery of another message than was sent.
    pub(crate) fn note(&mut self, entry: &'a Entry) -> Result<bool, NoMemory>
        ensures kept { IfOk result (λ kept. (before : List Entry) → AreDeliveries before self.old
            → IsTrue kept → WasSent before entry.now × AreDeliveries (before ++ entry.now ∷ []) self.new) }
        ensures broken { IfOk result (λ kept. (before : List Entry) → AreDeliveries before self.old
            → IsFalse kept → ¬ WasSent before entry.now) }
    {
        match entry {
            Entry::Sent { side, id, message } => {
                self.send(*side, *id, message.bytes())?;
                Ok(true)
            }
            Entry::Word { side, kind, id } => {
                self.word(*side, *kind, *id)?;
                Ok(true)
            }
            Entry::Got { side, id, message } => Ok(self.deliver(*side, *id, message.bytes())),
            _ => Ok(true),
        }
    }

    /// Notes a message that a side sent.
    fn send(&mut self, side: Role, id: u32, message: &'a [u8]) -> Result<(), NoMemory>
        ensures { OnOk result ((before : List Entry) → AreDeliveries before self.old
            → AreDeliveries (before ++ Sent side id message.now ∷ []) self.new) }
    {
        match side {
            Role::Server => self.server.send(id, message),
            Role::Client => self.client.send(id, message),
        }
    }

    /// Notes a side's word.
    fn word(&mut self, side: Role, kind: Kind, id: u32) -> Result<(), NoMemory>
        ensures { OnOk result ((before : List Entry) → AreDeliveries before self.old
            → AreDeliveries (before ++ Word side kind id ∷ []) self.new) }
    {
        match kind {
            Kind::Reliable => Ok(()),
            Kind::Lossy => self.word_for_lossy(side, id),
        }
    }

    /// Notes a side's word for the lossy tunnel.
    fn word_for_lossy(&mut self, side: Role, id: u32) -> Result<(), NoMemory>
        ensures { OnOk result ((before : List Entry) → AreDeliveries before self.old
            → AreDeliveries (before ++ Word side Lossy id ∷ []) self.new) }
    {
        match side {
            Role::Server => self.server.move_to_lossy(id),
            Role::Client => self.client.move_to_lossy(id),
        }
    }

    /// Notes a message that a side got; false where it is another than was sent.
    fn deliver(&mut self, side: Role, id: u32, message: &[u8]) -> bool
        ensures kept { (before : List Entry) → AreDeliveries before self.old → IsTrue result
            → WasSent before (Got side id message.now) × AreDeliveries (before ++ Got side id message.now ∷ []) self.new }
        ensures broken { (before : List Entry) → AreDeliveries before self.old → IsFalse result
            → ¬ WasSent before (Got side id message.now) }
    {
        match side {
            Role::Server => self.client.deliver(id, message),
            Role::Client => self.server.deliver(id, message),
        }
    }
}
