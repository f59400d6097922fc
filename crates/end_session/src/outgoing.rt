//! What an end wrote and has not handed out.

use crate::outlet::Outlet;
use crate::queue::MainQueue;
use mt_base::{Kind, NoMemory};
use std::alloc::Global;
use std::marker::Model;
use tunnel_pdus::{MainFrame, TunnelPdu, write_frame, write_tunnel};

/// The bytes of the greatest frame, with its header of three.
const FRAME: usize = 1_603;

/// The bytes of the greatest tunnel PDU that an end writes, with its header of four.
const TUNNELED: usize = 1_604;

/// The bytes of the main stream that wait to be handed out, and those that the links are still to be
/// given. No call after [`Outgoing::new`] takes memory.
#[derive(Drop)]
pub struct Outgoing {
    main: MainQueue,
    reliable: Outlet,
    lossy: Outlet,
}

impl Model for Outgoing {
    ghost use Rattle.end_session.specs.Outgoing.{Outgoing as Waiting};

    ghost Value = { Waiting };

    ghost view = { λ s. record { main = s.main; reliable = s.reliable; lossy = s.lossy } };
}

impl Outgoing {
    ghost use Rattle.std.specs.Prelude.{◌≡◌, ◌+◌, ◌≤◌, ◌++◌, length, take, drop, min, IfOk};
    ghost use Rattle.mt_base.specs.Writing.{joined};
    ghost use Rattle.tunnel_pdus.specs.Value.{Channel, Data, FitsFrame, FitsPdu, frame_fields, pdu_fields};
    ghost use Rattle.tunnel_pdus.specs.Views.{frame_of, pdu_of};
    ghost use Rattle.end_calls.specs.declared.limits.TheConstants.{MAIN_QUEUE};
    ghost use Rattle.end_session.specs.Outgoing.{emptied, nothing_waits, waiting_for, with_bytes};

    /// Nothing waits.
    pub fn new(alloc: Global) -> Result<Outgoing, NoMemory>
        ensures { IfOk result (λ outgoing. outgoing ≡ nothing_waits) }
    {
        Ok(Outgoing {
            main: MainQueue::new(alloc)?,
            reliable: Outlet::new(),
            lossy: Outlet::new(),
        })
    }

    /// How many bytes of the main stream wait.
    pub fn main_len(&self) -> usize
        ensures count { result ≡ length (self.now).main }
        ensures bound { result ≤ MAIN_QUEUE }
    {
        self.main.len()
    }

    /// Moves the first bytes of the main stream to the front of `out`, as many as wait and fit, and gives
    /// their number.
    pub fn take_main(&mut self, out: &mut [u8]) -> usize
        ensures count { result ≡ min (length out.old) (length (self.old).main) }
        ensures bytes { out.new ≡ take result (self.old).main ++ drop result out.old }
        ensures left { self.new ≡ record self.old { main = drop result (self.old).main } }
    {
        self.main.take(out)
    }

    /// Writes a frame on the main stream.
    pub fn put_frame(&mut self, frame: &MainFrame<'_>)
        requires fits { FitsFrame (frame_of frame.now) }
        requires room { length (self.old).main + length (joined (frame_fields (frame_of frame.now))) ≤ MAIN_QUEUE }
        ensures { self.new ≡ record self.old { main = (self.old).main ++ joined (frame_fields (frame_of frame.now)) } }
    {
        let mut bytes = [0; FRAME];
        let Ok(count) = write_frame(frame, &mut bytes) else {
            unreachable!()
        };
        self.main.put(&bytes[..count]);
    }

    /// Writes a tunnel PDU for the link of this kind.
    pub fn put_tunnel(&mut self, kind: Kind, pdu: &TunnelPdu<'_>)
        requires fits { FitsPdu (pdu_of pdu.now) }
        requires room { length (waiting_for kind self.old) + length (joined (pdu_fields (pdu_of pdu.now))) ≤ 3072 }
        ensures { self.new ≡ with_bytes kind (joined (pdu_fields (pdu_of pdu.now))) self.old }
    {
        let mut bytes = [0; TUNNELED];
        let Ok(count) = write_tunnel(pdu, &mut bytes) else {
            unreachable!()
        };
        match kind {
            Kind::Reliable => self.reliable.put(&bytes[..count]),
            Kind::Lossy => self.lossy.put(&bytes[..count]),
        }
    }

    /// Writes a channel PDU on the main stream.
    pub fn say(&mut self, pdu: &[u8])
        requires size { (1 ≤ length pdu.now) × (length pdu.now ≤ 1600) }
        requires room { length (self.old).main + (3 + length pdu.now) ≤ MAIN_QUEUE }
        ensures { self.new ≡ record self.old { main = (self.old).main ++ joined (frame_fields (Channel pdu.now)) } }
    {
        self.put_frame(&MainFrame::Channel { pdu });
    }

    /// Writes a channel PDU for the link of this kind.
    pub fn carry(&mut self, kind: Kind, pdu: &[u8])
        requires size { length pdu.now ≤ 1600 }
        requires room { length (waiting_for kind self.old) + (4 + length pdu.now) ≤ 3072 }
        ensures { self.new ≡ with_bytes kind (joined (pdu_fields (Data pdu.now))) self.old }
    {
        self.put_tunnel(kind, &TunnelPdu::Data { payload: pdu });
    }

    /// What waits for the link of this kind.
    pub fn waiting(&self, kind: Kind) -> &[u8]
        ensures { result.now ≡ waiting_for kind self.now }
    {
        match kind {
            Kind::Reliable => self.reliable.bytes(),
            Kind::Lossy => self.lossy.bytes(),
        }
    }

    /// The link of this kind was given all that waited for it.
    pub fn clear(&mut self, kind: Kind)
        ensures { self.new ≡ emptied kind self.old }
    {
        match kind {
            Kind::Reliable => self.reliable.clear(),
            Kind::Lossy => self.lossy.clear(),
        }
    }
}
