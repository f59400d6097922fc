//! A set of channels.

ghost use Rattle.std.specs.Prelude.{◌≡◌, ◌||◌, ℕ, [], IfOk, OnOk};
ghost use Rattle.capture_check.specs.Arrivals.{has, with_number};
ghost use Rattle.capture_check.specs.WordsSoFar.{names_id};

use crate::moves::{Move, Named};
use indexmap::IndexSet;
use mt_base::NoMemory;
use std::alloc::Global;
use std::marker::Model;

/// Channels, by their ids.
#[derive(Drop)]
pub(crate) struct ChannelSet {
    ids: IndexSet<u32>,
}

impl Model for ChannelSet {
    ghost use Rattle.std.specs.Prelude.{ℕ, List};

    ghost Value = { List ℕ };

    ghost view = { λ c. c.ids.keys };
}

impl ChannelSet {
    /// No channels.
    pub(crate) fn new(alloc: Global) -> Result<ChannelSet, NoMemory>
        ensures { IfOk result (λ channels. channels ≡ []) }
    {
        Ok(ChannelSet {
            ids: IndexSet::with_capacity(alloc, 0)?,
        })
    }

    /// Whether a channel is among them.
    pub(crate) fn has(&self, id: u32) -> bool
        ensures { result ≡ has self.now id }
    {
        self.ids.contains(&id)
    }

    /// Adds a channel.
    fn add(&mut self, id: u32) -> Result<(), NoMemory>
        ensures { OnOk result (self.new ≡ with_number id self.old) }
    {
        self.ids.insert(id)?;
        Ok(())
    }

    /// Adds the channels that move to a tunnel of a kind that is named.
    pub(crate) fn add_moved(&mut self, moves: &[Move], named: Named) -> Result<(), NoMemory>
        ensures { OnOk result ((id : ℕ)
            → has self.new id ≡ (has self.old id || names_id named id moves.now)) }
    {
        for moved in moves {
            if named.has(moved.kind) {
                self.add(moved.id)?;
            }
        }
        Ok(())
    }
}
