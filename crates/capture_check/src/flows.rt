//! What the two sides sent on their channels so far, and how much of it was delivered.

ghost use Rattle.std.specs.Prelude.{◌≡◌, ◌≢◌, ℕ, IfOk, OnOk, IsTrue, IsFalse, nat_eq, ◌+◌, [], Some, true};
ghost use Rattle.std.specs.Map.{lookup};
ghost use Rattle.capture_check.specs.Flows.{flow_of, with_message};
ghost use Rattle.capture_check.specs.Messages.{Follows};

use crate::flow::Flow;
use indexmap::IndexMap;
use mt_base::NoMemory;
use std::alloc::Global;
use std::marker::Model;

/// What a side sent on its channels, each under its id.
#[derive(Drop)]
pub(crate) struct Flows<'a> {
    alloc: Global,
    flows: IndexMap<u32, Flow<'a>>,
}

impl<'a> Model for Flows<'a> {
    ghost use Rattle.std.specs.Prelude.{ℕ, List};
    ghost use Rattle.capture_check.specs.Flows.{FlowView};

    ghost Value = { List (ℕ × FlowView) };

    ghost view = { λ f. f.flows.entries };
}

impl<'a> Flows<'a> {
    /// Nothing was sent.
    pub(crate) fn new(alloc: Global) -> Result<Flows<'a>, NoMemory>
        ensures { IfOk result (λ flows. flows ≡ []) }
    {
        Ok(Flows {
            alloc,
            flows: IndexMap::with_capacity(alloc, 0)?,
        })
    }

    /// Makes a place for a channel that has none.
    fn begin(&mut self, id: u32) -> Result<(), NoMemory>
        ensures there { OnOk result (lookup (nat_eq id) self.new ≡ Some (flow_of self.old id)) }
        ensures same { OnOk result ((other : ℕ) → flow_of self.new other ≡ flow_of self.old other) }
    {
        if self.flows.get(&id).is_none() {
            self.flows.insert(id, Flow::new(self.alloc))?;
        }
        Ok(())
    }

    /// Notes a message that the side sent on a channel.
    pub(crate) fn send(&mut self, id: u32, message: &'a [u8]) -> Result<(), NoMemory>
        ensures here { OnOk result (flow_of self.new id ≡ with_message message.now (flow_of self.old id)) }
        ensures others { OnOk result ((other : ℕ) → other ≢ id → flow_of self.new other ≡ flow_of self.old other) }
    {
        self.begin(id)?;
        match self.flows.get_mut(&id) {
            Some(flow) => flow.send(message),
            None => unreachable!(),
        }
    }

    /// Notes that the side moved a channel to the lossy tunnel.
    pub(crate) fn move_to_lossy(&mut self, id: u32) -> Result<(), NoMemory>
        ensures here { OnOk result (flow_of self.new id ≡ record (flow_of self.old id) { lossy = true }) }
        ensures others { OnOk result ((other : ℕ) → other ≢ id → flow_of self.new other ≡ flow_of self.old other) }
    {
        self.begin(id)?;
        match self.flows.get_mut(&id) {
            Some(flow) => flow.move_to_lossy(),
            None => unreachable!(),
        }
        Ok(())
    }

    /// Notes that a message of a channel was delivered; false, and nothing is noted, where it is not
    /// the one that is matched next.
    pub(crate) fn deliver(&mut self, id: u32, message: &[u8]) -> bool
        ensures yes { IsTrue result → (place : ℕ)
            × Follows (flow_of self.old id).sent (flow_of self.old id).lossy (flow_of self.old id).matched message.now place
            × (flow_of self.new id ≡ record (flow_of self.old id) { matched = place + 1 }) }
        ensures no { IsFalse result → (place : ℕ)
            → ¬ Follows (flow_of self.old id).sent (flow_of self.old id).lossy (flow_of self.old id).matched message.now place }
        ensures others { (other : ℕ) → other ≢ id → flow_of self.new other ≡ flow_of self.old other }
    {
        match self.flows.get_mut(&id) {
            Some(flow) => flow.deliver(message),
            None => false,
        }
    }
}
