//! A channel, and what is counted of it.

use mt_base::{NoMemory, Role};
use play_report::{Report, Tally};
use std::alloc::Global;

/// What a side sent on a channel, and what was handed out at it.
#[derive(Drop)]
pub(crate) struct SideCounts {
    pub(crate) sent: Tally,
    pub(crate) handed: Tally,
}

impl SideCounts {
    ghost use Rattle.channel_counts.specs.Counting.{AreCounted};
    ghost use Rattle.channel_counts.specs.Told.{no_messages};

    /// Nothing yet.
    fn new() -> SideCounts
        ensures { AreCounted result no_messages }
    {
        SideCounts {
            sent: Tally::new(),
            handed: Tally::new(),
        }
    }
}

/// A channel that the server created.
#[derive(Drop)]
pub(crate) struct Channel {
    pub(crate) id: u32,
    pub(crate) name: Vec<u8>,
    pub(crate) server: SideCounts,
    pub(crate) client: SideCounts,
}

impl Channel {
    ghost use Rattle.std.specs.Prelude.{◌≡◌, ◌++◌, IfOk, OnOk};
    ghost use Rattle.mt_base.specs.declared.kinds.Role.{Role as Side};
    ghost use Rattle.channel_counts.specs.Counting.{IsKept};
    ghost use Rattle.channel_counts.specs.Lines.{both_lines};
    ghost use Rattle.channel_counts.specs.Told.{Told, created, noted, with_handed, with_sent};

    /// A channel of this id and name, of which nothing is counted yet.
    pub(crate) fn new(alloc: Global, id: u32, name: &[u8]) -> Result<Channel, NoMemory>
        ensures { IfOk result (λ channel. IsKept channel (created id name.now)) }
    {
        let mut copy = Vec::new(alloc);
        copy.extend_from_slice(name)?;
        Ok(Channel {
            id,
            name: copy,
            server: SideCounts::new(),
            client: SideCounts::new(),
        })
    }

    /// A side sent this message on the channel of this id, which this one may be.
    pub(crate) fn note_sent(&mut self, side: Role, id: u32, message: &[u8])
        ensures { (told : Told) → IsKept self.old told → IsKept self.new (noted side id (with_sent message.now) told) }
    {
        if self.id != id {
            return;
        }
        match side {
            Role::Server => self.server.sent.add(message),
            Role::Client => self.client.sent.add(message),
        }
    }

    /// This message was handed out at a side, of the channel of this id, which this one may be.
    pub(crate) fn note_handed(&mut self, side: Role, id: u32, message: &[u8])
        ensures { (told : Told) → IsKept self.old told → IsKept self.new (noted side id (with_handed message.now) told) }
    {
        if self.id != id {
            return;
        }
        match side {
            Role::Server => self.server.handed.add(message),
            Role::Client => self.client.handed.add(message),
        }
    }

    /// Writes the lines of this channel.
    pub(crate) fn report(&self, report: &mut Report) -> Result<(), NoMemory>
        ensures { (told : Told) → IsKept self.now told → OnOk result (report.new ≡ report.old ++ both_lines told) }
    {
        let (server, client) = (&self.server, &self.client);
        report.channel(
            self.id,
            &self.name,
            Role::Server,
            &server.sent,
            &client.handed,
        )?;
        report.channel(
            self.id,
            &self.name,
            Role::Client,
            &client.sent,
            &server.handed,
        )
    }
}
