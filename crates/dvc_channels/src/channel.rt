//! One channel.

ghost use Rattle.std.specs.Prelude.{◌≡◌, ◌+◌, ◌-◌, ◌≤◌, [], length, IfOk, IfErr, IfSome, OnOk, OnErr, None, option_map, slice_get, drop};
ghost use Rattle.dvc_pdus.specs.Value.{DataFirst, Data};
ghost use Rattle.dvc_pdus.specs.Views.{pdu_of};
ghost use Rattle.dvc_channels.specs.Pieces.{First, Next, ended_by};
ghost use Rattle.dvc_channels.specs.Acts.{weight, data_refusal, IsData};
ghost use Rattle.dvc_channels.specs.Table.{Kept, Ends, with_piece, with_pdu, made_by, IsCause, IsAnswerOf, IsFair};
ghost use Rattle.dvc_channels.specs.declared.answers.ChannelState.TheVariants.{Asked, Closed};

use crate::answers::{Accepted, ChannelRefusal, ChannelState};
use crate::message::Message;
use dvc_pdus::DvcPdu;
use mt_base::NoMemory;
use std::alloc::Global;
use std::collections::VecDeque;
use std::marker::Model;

/// The bytes that a message has at most.
const MESSAGE: u32 = 1_048_576;

/// What each waiting message counts beside its bytes.
pub(crate) const OVERHEAD: u64 = 64;

/// The count of what waits up to which one more message can be counted. No machine has memory for so
/// many bytes, so that past it memory is what is wanting.
const COUNTED: u64 = u64::MAX - MESSAGE as u64 - OVERHEAD;

/// A message under way.
#[derive(Drop)]
pub struct Part {
    total: usize,
    bytes: Vec<u8>,
}

impl Model for Part {
    ghost use Rattle.std.specs.Prelude.{◌<◌, ◌≤◌, length};
    ghost use Rattle.dvc_channels.specs.Pieces.{Part as PartValue};

    ghost Value = { PartValue };

    ghost view = { λ p. record { total = p.total; bytes = p.bytes.items } };
}

impl Part {
    /// How many bytes are missing.
    pub fn missing(&self) -> usize
        ensures { result ≡ self.now.total - length self.now.bytes }
    {
        self.total.saturating_sub(self.bytes.len())
    }
}

/// A channel that was created: its messages that wait, and the one under way.
#[derive(Drop)]
pub struct Channel {
    alloc: Global,
    name: Vec<u8>,
    state: ChannelState,
    whole: VecDeque<Message>,
    part: Option<Part>,
}

impl Model for Channel {
    ghost use Rattle.dvc_channels.specs.Table.{Kept, Ends};

    ghost Value = { Kept };

    ghost view = { λ c. record { name = c.name.items; state = c.state; whole = c.whole.items; part = c.part } };
}

impl Channel {
    /// A channel that the client was asked for.
    pub fn new(alloc: Global, name: &[u8]) -> Result<Channel, NoMemory>
        ensures { IfOk result (λ c. c ≡ record { name = name.now; state = Asked; whole = []; part = None }) }
    {
        Ok(Channel {
            alloc,
            name: name.to_vec(alloc)?,
            state: ChannelState::Asked,
            whole: VecDeque::new(alloc),
            part: None,
        })
    }

    /// Its name.
    pub fn name(&self) -> &[u8]
        ensures { result.now ≡ self.now.name }
    {
        self.name.as_slice()
    }

    /// Its state.
    pub fn state(&self) -> ChannelState
        ensures { result ≡ self.now.state }
    {
        self.state
    }

    /// The client's answer came: it is open or refused.
    pub fn answer(&mut self, state: ChannelState)
        ensures { self.new ≡ record self.old { state = state } }
    {
        self.state = state;
    }

    /// Closes it: the message under way is dropped, and those that wait stay.
    pub fn close(&mut self)
        ensures { self.new ≡ record self.old { state = Closed; part = None } }
    {
        self.state = ChannelState::Closed;
        self.part = None;
    }

    /// The message under way.
    fn part(&self) -> Option<&Part>
        ensures { option_map (λ p. p.now) result ≡ self.now.part }
    {
        self.part.as_ref()
    }

    /// Takes the first bytes of a message. The answer is how many bytes the message has that they
    /// make whole.
    fn begin(&mut self, total: usize, bytes: &[u8]) -> Result<Option<usize>, NoMemory>
        requires none { self.old.part ≡ None }
        ensures taken { OnOk result (self.new ≡ with_piece (First total bytes.now) self.old) }
        ensures ended { IfOk result (λ length_of. Ends length_of (ended_by self.old.part (First total bytes.now))) }
        ensures unchanged { OnErr result (self.new ≡ self.old) }
    {
        let mut copy = Vec::new(self.alloc);
        copy.extend_from_slice(bytes)?;
        if bytes.len() == total {
            self.whole.push_back(Message::new(copy))?;
            return Ok(Some(total));
        }
        self.part = Some(Part { total, bytes: copy });
        Ok(None)
    }

    /// Takes further bytes of the message under way, no more than it misses; a whole message where
    /// none is under way. The answer is how many bytes the message has that they make whole.
    fn go_on(&mut self, bytes: &[u8]) -> Result<Option<usize>, NoMemory>
        requires fits { IfSome self.old.part (λ p. length p.bytes + length bytes.now ≤ p.total) }
        ensures taken { OnOk result (self.new ≡ with_piece (Next bytes.now) self.old) }
        ensures ended { IfOk result (λ length_of. Ends length_of (ended_by self.old.part (Next bytes.now))) }
        ensures unchanged { OnErr result (self.new ≡ self.old) }
    {
        let Some(part) = &mut self.part else {
            let mut copy = Vec::new(self.alloc);
            copy.extend_from_slice(bytes)?;
            self.whole.push_back(Message::new(copy))?;
            return Ok(Some(bytes.len()));
        };
        if part.missing() > bytes.len() {
            part.bytes.extend_from_slice(bytes)?;
            return Ok(None);
        }
        self.whole.reserve(1)?;
        part.bytes.extend_from_slice(bytes)?;
        let Some(part) = self.part.take() else {
            unreachable!()
        };
        match self.whole.push_back(Message::new(part.bytes)) {
            Ok(()) => Ok(Some(part.total)),
            Err(_) => unreachable!(),
        }
    }

    /// Takes the first bytes of a message, where the channel is open. The answer is as that of
    /// `begin`.
    fn first(
        &mut self,
        id: u32,
        total: u32,
        bytes: &[u8],
        waiting: u64,
    ) -> Result<Option<usize>, ChannelRefusal>
        requires told { length bytes.now ≤ total }
        ensures taken { OnOk result (self.new ≡ with_piece (First total bytes.now) self.old) }
        ensures ended { IfOk result (λ length_of. Ends length_of (ended_by self.old.part (First total bytes.now))) }
        ensures fair { OnOk result (IsFair self.new.part × (total ≤ 1048576)) }
        ensures room { OnOk result (waiting ≤ 18446744073708502975) }
        ensures allowed { OnOk result (data_refusal id self.old.part (DataFirst id total bytes.now) ≡ None) }
        ensures refused { IfErr result (λ why. IsCause (data_refusal id self.old.part (DataFirst id total bytes.now)) why) }
        ensures unchanged { OnErr result (self.new ≡ self.old) }
    {
        if self.part.is_some() {
            return Err(ChannelRefusal::FirstInside { id });
        }
        if total > MESSAGE {
            return Err(ChannelRefusal::MessageTooLong { id, length: total });
        }
        if waiting > COUNTED {
            return Err(ChannelRefusal::NoMemory);
        }
        Ok(self.begin(total as usize, bytes)?)
    }

    /// Takes further bytes, where the channel is open. The answer is as that of `go_on`.
    fn next(&mut self, id: u32, bytes: &[u8], waiting: u64) -> Result<Option<usize>, ChannelRefusal>
        requires fair { IsFair self.old.part }
        ensures taken { OnOk result (self.new ≡ with_piece (Next bytes.now) self.old) }
        ensures ended { IfOk result (λ length_of. Ends length_of (ended_by self.old.part (Next bytes.now))) }
        ensures fair { OnOk result (IsFair self.new.part) }
        ensures room { OnOk result (waiting ≤ 18446744073708502975) }
        ensures allowed { OnOk result (data_refusal id self.old.part (Data id bytes.now) ≡ None) }
        ensures refused { IfErr result (λ why. IsCause (data_refusal id self.old.part (Data id bytes.now)) why) }
        ensures unchanged { OnErr result (self.new ≡ self.old) }
    {
        if let Some(part) = self.part() {
            if bytes.len() > part.missing() {
                return Err(ChannelRefusal::MoreThanLength { id });
            }
        }
        if waiting > COUNTED {
            return Err(ChannelRefusal::NoMemory);
        }
        Ok(self.go_on(bytes)?)
    }

    /// Takes a data PDU that came for this channel under its id, and adds the message that it makes
    /// whole to the count of what waits.
    pub fn accept(
        &mut self,
        id: u32,
        pdu: &DvcPdu<'_>,
        waiting: &mut u64,
    ) -> Result<Accepted, ChannelRefusal>
        requires data { IsData (pdu_of pdu.now) }
        requires fair { IsFair self.old.part }
        ensures came { OnOk result (self.new ≡ with_pdu (pdu_of pdu.now) self.old) }
        ensures counted { OnOk result (waiting.new ≡ waiting.old + weight (made_by (pdu_of pdu.now) self.old)) }
        ensures fair { IsFair self.new.part }
        ensures answer { IsAnswerOf self.old id (pdu_of pdu.now) result }
        ensures unchanged { OnErr result ((self.new ≡ self.old) × (waiting.new ≡ waiting.old)) }
    {
        match self.state {
            ChannelState::Open => {}
            ChannelState::Closed => return Ok(Accepted::Dropped),
            _ => return Err(ChannelRefusal::UnknownChannel { id }),
        }
        let ended = match *pdu {
            DvcPdu::DataFirst { length, bytes, .. } => self.first(id, length, bytes, *waiting)?,
            DvcPdu::Data { bytes, .. } => self.next(id, bytes, *waiting)?,
            _ => return Ok(Accepted::Dropped),
        };
        let Some(length) = ended else {
            return Ok(Accepted::Inside);
        };
        *waiting += length as u64 + OVERHEAD;
        Ok(Accepted::Whole)
    }

    /// Takes the oldest message that waits.
    pub fn take(&mut self) -> Option<Message>
        ensures oldest { result ≡ slice_get self.old.whole 0 }
        ensures rest { self.new ≡ record self.old { whole = drop 1 self.old.whole } }
    {
        self.whole.pop_front()
    }
}
