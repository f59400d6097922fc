//! The table of channels.

ghost use Rattle.std.specs.Prelude.{◌≡◌, ◌<◌, ◌⊎◌, length, IfOk, OnOk, IfErr, OnErr, IfSome, IfNone, None, slice_get, option_map};
ghost use Rattle.mt_base.specs.Trace.{Trace, Start, ◌▷◌};
ghost use Rattle.dvc_pdus.specs.Views.{pdu_of};
ghost use Rattle.dvc_channels.specs.Acts.{Act, ids, state, name_of, untaken, waiting, TakesData, IsData, IsAnswer, WhyNotMade, WhyNotAnswered, WhyNotClosed};
ghost use Rattle.dvc_channels.specs.Acts.Act.{Made, Answered, Came, Took, Ended};
ghost use Rattle.dvc_channels.specs.Table.{Stands};
ghost use Rattle.dvc_channels.specs.declared.answers.ChannelState.TheVariants.{Unknown, Asked};

use crate::answers::{Accepted, ChannelRefusal, ChannelState, CreateRefusal};
use crate::channel::{Channel, OVERHEAD};
use crate::message::Message;
use dvc_pdus::DvcPdu;
use indexmap::IndexMap;
use mt_base::NoMemory;
use std::alloc::Global;
use std::marker::Model;

/// The channels that a session has at most, with those that were closed.
const CHANNELS: usize = 256;

/// Bit 31 of a status: the client refused.
const REFUSED: u32 = 0x8000_0000;

/// The channels of a session, each under its id: their states, the messages that their data make,
/// and those that wait to be taken. Clauses speak of what was done to the table so far, as a trace
/// that it stands for; a call that refuses leaves no entry in it.
#[derive(Drop)]
pub struct Channels {
    alloc: Global,
    channels: IndexMap<u32, Channel>,
    waiting: u64,
}

impl Model for Channels {
    ghost use Rattle.std.specs.Prelude.{◌+◌, ◌≤◌, length};
    ghost use Rattle.indexmap.specs.IndexMap.{spare};
    ghost use Rattle.dvc_channels.specs.Table.{Table, IsCounted};

    ghost Value = { Table };

    ghost view = { λ s. record { channels = s.channels.entries; waiting = s.waiting } };

    ghost invariant = { λ s. IsCounted (record { channels = s.channels.entries; waiting = s.waiting }) × (256 ≤ length s.channels.entries + spare s.channels) };
}

impl Channels {
    /// A table without channels, with room for 256.
    pub fn new(alloc: Global) -> Result<Channels, NoMemory>
        ensures { IfOk result (λ table. Stands table Start) }
    {
        Ok(Channels {
            alloc,
            channels: IndexMap::with_capacity(alloc, CHANNELS)?,
            waiting: 0,
        })
    }

    /// Creates a channel, of which the client's answer isn't known yet. Known is looked at before
    /// TooMany.
    pub fn create(&mut self, id: u32, name: &[u8]) -> Result<(), CreateRefusal>
        ensures made { (t : Trace Act) → Stands self.old t → OnOk result (Stands self.new (t ▷ Made id name.now)) }
        ensures allowed { (t : Trace Act) → Stands self.old t → OnOk result ((state t id ≡ Unknown) × (length (ids t) < 256)) }
        ensures refused { (t : Trace Act) → Stands self.old t → IfErr result (λ why. WhyNotMade t id why) }
        ensures unchanged { OnErr result (self.new ≡ self.old) }
    {
        if self.channels.get(&id).is_some() {
            return Err(CreateRefusal::Known);
        }
        if self.channels.len() >= CHANNELS {
            return Err(CreateRefusal::TooMany { limit: CHANNELS });
        }
        let channel = Channel::new(self.alloc, name)?;
        // There is room for each channel, so that no memory is taken here.
        match self.channels.insert(id, channel) {
            Ok(_) => Ok(()),
            Err(_) => unreachable!(),
        }
    }

    /// Takes the client's answer for a channel: it is open where bit 31 of the status is clear (MS-
    /// RDPEDYC section 2.2.2.2), and else refused. Takes no memory.
    pub fn answer(&mut self, id: u32, status: u32) -> Result<(), ChannelRefusal>
        ensures answered { (t : Trace Act) → Stands self.old t → OnOk result (Stands self.new (t ▷ Answered id status)) }
        ensures allowed { (t : Trace Act) → Stands self.old t → OnOk result (state t id ≡ Asked) }
        ensures refused { (t : Trace Act) → Stands self.old t → IfErr result (λ why. WhyNotAnswered t id why) }
        ensures unchanged { OnErr result (self.new ≡ self.old) }
    {
        let Some(channel) = self.channels.get_mut(&id) else {
            return Err(ChannelRefusal::UnknownChannel { id });
        };
        if channel.state() != ChannelState::Asked {
            return Err(ChannelRefusal::KnownChannel { id });
        }
        channel.answer(if status < REFUSED {
            ChannelState::Open
        } else {
            ChannelState::Refused
        });
        Ok(())
    }

    /// The state of a channel.
    pub fn state(&self, id: u32) -> ChannelState
        ensures { (t : Trace Act) → Stands self.now t → result ≡ state t id }
    {
        match self.channels.get(&id) {
            Some(channel) => channel.state(),
            None => ChannelState::Unknown,
        }
    }

    /// The name that a channel was created with.
    pub fn name(&self, id: u32) -> Option<&[u8]>
        ensures { (t : Trace Act) → Stands self.now t → option_map (λ name. name.now) result ≡ name_of t id }
    {
        self.channels.get(&id).map(|channel| channel.name())
    }

    /// Takes a data PDU that came for a channel: a DataFirst with at most the bytes of the length
    /// that it tells, or any other, with at most 1,600 bytes of data. Where it is refused, the
    /// message under way stays as it was.
    pub fn accept(&mut self, id: u32, pdu: &DvcPdu<'_>) -> Result<Accepted, ChannelRefusal>
        requires { IsData (pdu_of pdu.now) }
        ensures came { (t : Trace Act) → Stands self.old t → OnOk result (Stands self.new (t ▷ Came id (pdu_of pdu.now))) }
        ensures answer { (t : Trace Act) → Stands self.old t → IsAnswer t id (pdu_of pdu.now) result }
        ensures unchanged { OnErr result (self.new ≡ self.old) }
    {
        let Some(channel) = self.channels.get_mut(&id) else {
            return Err(ChannelRefusal::UnknownChannel { id });
        };
        channel.accept(id, pdu, &mut self.waiting)
    }

    /// Takes the oldest whole message of a channel that was not taken yet. Takes no memory.
    pub fn take(&mut self, id: u32) -> Option<Message>
        ensures taken { (t : Trace Act) → Stands self.old t → IfSome result (λ message. Stands self.new (t ▷ Took id message)) }
        ensures oldest { (t : Trace Act) → Stands self.old t → result ≡ slice_get (untaken t id) 0 }
        ensures none { IfNone result (self.new ≡ self.old) }
    {
        let message = self.channels.get_mut(&id)?.take()?;
        self.waiting -= message.bytes().len() as u64 + OVERHEAD;
        Some(message)
    }

    /// How many channels were created, with those that were closed; 256 at most.
    pub fn made(&self) -> usize
        ensures { (t : Trace Act) → Stands self.now t → result ≡ length (ids t) }
    {
        self.channels.len()
    }

    /// The bytes of all messages that were not taken yet, and 64 more for each message.
    pub fn waiting(&self) -> u64
        ensures { (t : Trace Act) → Stands self.now t → result ≡ waiting t }
    {
        self.waiting
    }

    /// Closes a channel: what came of a message that isn't whole is dropped, and whole messages stay
    /// to be taken. It has no effect on a closed one. Takes no memory.
    pub fn close(&mut self, id: u32) -> Result<(), ChannelRefusal>
        ensures ended { (t : Trace Act) → Stands self.old t → OnOk result (Stands self.new (t ▷ Ended id)) }
        ensures allowed { (t : Trace Act) → Stands self.old t → OnOk result (TakesData (state t id)) }
        ensures refused { (t : Trace Act) → Stands self.old t → IfErr result (λ why. WhyNotClosed t id why) }
        ensures unchanged { OnErr result (self.new ≡ self.old) }
    {
        let Some(channel) = self.channels.get_mut(&id) else {
            return Err(ChannelRefusal::UnknownChannel { id });
        };
        match channel.state() {
            ChannelState::Open | ChannelState::Closed => {}
            _ => return Err(ChannelRefusal::UnknownChannel { id }),
        }
        channel.close();
        Ok(())
    }
}
