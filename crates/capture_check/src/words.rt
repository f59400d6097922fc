//! The words of both sides for their channels so far.

ghost use Rattle.std.specs.Prelude.{◌≡◌, ◌↔◌, ◌++◌, ◌∷◌, [], List, IfOk, OnOk, IsTrue, IsFalse};
ghost use Rattle.dvc_pdus.specs.ListViews.{lists_left, types_left};
ghost use Rattle.dvc_pdus.specs.Reading.{reading};
ghost use Rattle.dvc_pdus.specs.Views.{pdu_of};
ghost use Rattle.tunnel_pdus.specs.Views.{frame_of};
ghost use Rattle.capture_check.specs.Sayings.{HasWord, Moves, Saying, Takes, moves_in, moving, said_by, said_in, saying_of, taking};
ghost use Rattle.capture_check.specs.WordsSoFar.{AreWords, MaySay};

use crate::channel_set::ChannelSet;
use crate::moves::{Move, Named, moves};
use dvc_pdus::{DvcPdu, SyncLists, SyncTypes, read_dvc};
use mt_base::{NoMemory, Role};
use std::alloc::Global;
use tunnel_pdus::MainFrame;

/// What each Soft-Sync request moves, how many responses came, and the channels for which the word of
/// either side came.
#[derive(Drop)]
pub(crate) struct Words {
    alloc: Global,
    requests: Vec<Vec<Move>>,
    responses: usize,
    server: ChannelSet,
    client: ChannelSet,
}

impl Words {
    /// Nothing was said.
    pub(crate) fn new(alloc: Global) -> Result<Words, NoMemory>
        ensures { IfOk result (AreWords []) }
    {
        Ok(Words {
            alloc,
            requests: Vec::new(alloc),
            responses: 0,
            server: ChannelSet::new(alloc)?,
            client: ChannelSet::new(alloc)?,
        })
    }

    /// Notes a frame of a side; false where it is data of a channel for which the side's word came.
    pub(crate) fn hear(&mut self, side: Role, frame: MainFrame<'_>) -> Result<bool, NoMemory>
        ensures kept { IfOk result (λ kept. (said : List Saying) → AreWords said self.old → IsTrue kept
            → MaySay said (saying_of side (frame_of frame.entry))
            × AreWords (said ++ saying_of side (frame_of frame.entry) ∷ []) self.new) }
        ensures broken { IfOk result (λ kept. (said : List Saying) → AreWords said self.old → IsFalse kept
            → ¬ MaySay said (saying_of side (frame_of frame.entry))) }
    {
        match frame {
            MainFrame::Request { .. } => Ok(true),
            MainFrame::Response { .. } => Ok(true),
            MainFrame::Channel { pdu } => self.hear_channel(side, pdu),
        }
    }

    /// Notes the bytes of a channel PDU. Bytes that are none say nothing.
    fn hear_channel(&mut self, side: Role, bytes: &[u8]) -> Result<bool, NoMemory>
        ensures kept { IfOk result (λ kept. (said : List Saying) → AreWords said self.old → IsTrue kept
            → MaySay said (said_in side (reading side bytes.now))
            × AreWords (said ++ said_in side (reading side bytes.now) ∷ []) self.new) }
        ensures broken { IfOk result (λ kept. (said : List Saying) → AreWords said self.old → IsFalse kept
            → ¬ MaySay said (said_in side (reading side bytes.now))) }
    {
        match read_dvc(side, bytes) {
            Ok(pdu) => self.hear_pdu(side, pdu),
            Err(_) => Ok(true),
        }
    }

    /// Notes a channel PDU.
    fn hear_pdu(&mut self, side: Role, pdu: DvcPdu<'_>) -> Result<bool, NoMemory>
        ensures kept { IfOk result (λ kept. (said : List Saying) → AreWords said self.old → IsTrue kept
            → MaySay said (said_by side (pdu_of pdu.entry))
            × AreWords (said ++ said_by side (pdu_of pdu.entry) ∷ []) self.new) }
        ensures broken { IfOk result (λ kept. (said : List Saying) → AreWords said self.old → IsFalse kept
            → ¬ MaySay said (said_by side (pdu_of pdu.entry))) }
    {
        match pdu {
            DvcPdu::Caps { .. } => Ok(true),
            DvcPdu::CreateRequest { .. } => Ok(true),
            DvcPdu::CreateResponse { .. } => Ok(true),
            DvcPdu::DataFirst { id, .. } => Ok(self.may_send(side, id)),
            DvcPdu::Data { id, .. } => Ok(self.may_send(side, id)),
            DvcPdu::CompressedFirst { id, .. } => Ok(self.may_send(side, id)),
            DvcPdu::Compressed { id, .. } => Ok(self.may_send(side, id)),
            DvcPdu::Close { .. } => Ok(true),
            DvcPdu::SyncRequest { lists, .. } => {
                self.hear_request(side, lists)?;
                Ok(true)
            }
            DvcPdu::SyncResponse { types } => {
                self.hear_response(side, types)?;
                Ok(true)
            }
        }
    }

    /// Whether a side may send data of a channel on the main stream.
    fn may_send(&self, side: Role, id: u32) -> bool
        ensures { (said : List Saying) → AreWords said self.now → IsTrue result ↔ (¬ HasWord side said id) }
    {
        match side {
            Role::Server => !self.server.has(id),
            Role::Client => !self.client.has(id),
        }
    }

    /// Notes a Soft-Sync request, which is one of the server alone.
    fn hear_request(&mut self, side: Role, lists: SyncLists<'_>) -> Result<(), NoMemory>
        ensures { OnOk result ((said : List Saying) → AreWords said self.old
            → AreWords (said ++ moving side (lists_left lists.entry) ∷ []) self.new) }
    {
        match side {
            Role::Server => self.move_channels(lists),
            Role::Client => Ok(()),
        }
    }

    /// Notes what a Soft-Sync request of the server moves.
    fn move_channels(&mut self, lists: SyncLists<'_>) -> Result<(), NoMemory>
        ensures { OnOk result ((said : List Saying) → AreWords said self.old
            → AreWords (said ++ Moves (moves_in (lists_left lists.entry)) ∷ []) self.new) }
    {
        let moves = moves(self.alloc, lists)?;
        self.server.add_moved(&moves, Named::ALL)?;
        self.requests.push(moves).map_err(|_| NoMemory)
    }

    /// Notes a Soft-Sync response, which is one of the client alone.
    fn hear_response(&mut self, side: Role, types: SyncTypes<'_>) -> Result<(), NoMemory>
        ensures { OnOk result ((said : List Saying) → AreWords said self.old
            → AreWords (said ++ taking side (types_left types.entry) ∷ []) self.new) }
    {
        match side {
            Role::Server => Ok(()),
            Role::Client => self.take_channels(types),
        }
    }

    /// Notes the kinds that a Soft-Sync response of the client names: the channels that the request
    /// with the response's number moves to tunnels of these are taken.
    fn take_channels(&mut self, types: SyncTypes<'_>) -> Result<(), NoMemory>
        ensures { OnOk result ((said : List Saying) → AreWords said self.old
            → AreWords (said ++ Takes (types_left types.entry) ∷ []) self.new) }
    {
        let number = self.responses;
        self.responses = number.saturating_add(1);
        match self.requests.get(number) {
            Some(moves) => self.client.add_moved(moves, Named::of(types)),
            None => Ok(()),
        }
    }
}
