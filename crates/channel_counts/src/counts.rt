//! All channels of a session.

ghost use Rattle.std.specs.List.{list_any};
ghost use Rattle.std.specs.Prelude.{◌≡◌, nat_eq, option_map, slice_get};

use crate::channel::Channel;
use mt_base::{NoMemory, Role};
use play_report::Report;
use std::alloc::Global;
use std::marker::Model;

/// Whether one of the channels has this id.
fn has_id(channels: &[Channel], id: u32) -> bool
    ensures { result ≡ list_any (λ channel. nat_eq channel.id id) channels.now }
{
    channels.iter().any(|channel| channel.id == id)
}

/// The id of the channel at this place.
fn id_of(channels: &[Channel], place: usize) -> Option<u32>
    ensures { result ≡ option_map (λ channel. channel.id) (slice_get channels.now place) }
{
    channels.get(place).map(|channel| channel.id)
}

/// The channels that the server of a session created, in order, and how many messages went on each.
#[derive(Drop)]
pub struct ChannelCounts {
    alloc: Global,
    channels: Vec<Channel>,
}

impl Model for ChannelCounts {
    ghost use Rattle.std.specs.Prelude.{List};
    ghost use Rattle.channel_counts.specs.declared.channel.Channel.{Channel as Kept};

    ghost Value = { List Kept };

    ghost view = { λ c. c.channels.items };
}

impl ChannelCounts {
    ghost use Rattle.std.specs.Prelude.{◌≡◌, ◌∷◌, ◌++◌, [], List, length, map, option_map, slice_get, OnErr, OnOk};
    ghost use Rattle.mt_base.specs.declared.kinds.Role.{Role as Side};
    ghost use Rattle.channel_counts.specs.Counting.{AreKept};
    ghost use Rattle.channel_counts.specs.Lines.{channel_lines};
    ghost use Rattle.channel_counts.specs.Told.{Told, created, has, noted, with_handed, with_sent};

    /// No channel yet. Takes no memory.
    pub fn new(alloc: Global) -> ChannelCounts
        ensures { AreKept result [] }
    {
        ChannelCounts {
            alloc,
            channels: Vec::new(alloc),
        }
    }

    /// A channel of this id and name was created. Where memory is wanting nothing changes.
    pub fn create(&mut self, id: u32, name: &[u8]) -> Result<(), NoMemory>
        ensures created { (told : List Told) → AreKept self.old told → OnOk result (AreKept self.new (told ++ created id name.now ∷ [])) }
        ensures unchanged { OnErr result (self.new ≡ self.old) }
    {
        let channel = Channel::new(self.alloc, id, name)?;
        self.channels.push(channel)?;
        Ok(())
    }

    /// How many channels there are.
    pub fn len(&self) -> usize
        ensures { (told : List Told) → AreKept self.now told → result ≡ length told }
    {
        self.channels.len()
    }

    /// The id of the channel at this place, counted from 0 in the order of their creation.
    pub fn id_at(&self, place: usize) -> Option<u32>
        ensures { (told : List Told) → AreKept self.now told → result ≡ option_map (λ t. t.id) (slice_get told place) }
    {
        id_of(&self.channels, place)
    }

    /// Whether there is a channel of this id.
    pub fn has(&self, id: u32) -> bool
        ensures { (told : List Told) → AreKept self.now told → result ≡ has id told }
    {
        has_id(&self.channels, id)
    }

    /// A side sent this message on the channel of this id.
    pub fn note_sent(&mut self, side: Role, id: u32, message: &[u8])
        ensures { (told : List Told) → AreKept self.old told → AreKept self.new (map (noted side id (with_sent message.now)) told) }
    {
        for channel in self.channels.iter_mut() {
            channel.note_sent(side, id, message);
        }
    }

    /// This message of the channel of this id was handed out at a side.
    pub fn note_handed(&mut self, side: Role, id: u32, message: &[u8])
        ensures { (told : List Told) → AreKept self.old told → AreKept self.new (map (noted side id (with_handed message.now)) told) }
    {
        for channel in self.channels.iter_mut() {
            channel.note_handed(side, id, message);
        }
    }

    /// Writes two lines for each channel, the server's first: what the side sent, and what of it was handed out at the
    /// other.
    pub fn report(&self, report: &mut Report) -> Result<(), NoMemory>
        ensures { (told : List Told) → AreKept self.now told → OnOk result (report.new ≡ report.old ++ channel_lines told) }
    {
        for channel in &self.channels {
            channel.report(report)?;
        }
        Ok(())
    }
}
