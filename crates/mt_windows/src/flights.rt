//! Rings of parts in flight.

ghost use Rattle.std.specs.Prelude.{◌≡◌, ◌<◌, ◌≤◌, ◌++◌, length, take, drop, None, Some, slice_set, IfOk};
ghost use Rattle.mt_windows.specs.FlightView.{bytes_in, flight_at, no_flights};

use crate::flight::Flight;
use crate::limits::WINDOW;
use crate::slot::Slot;
use circular_buffer::HeapCircularBuffer;
use mt_base::NoMemory;
use std::alloc::Global;
use std::marker::Model;

/// Room for as many parts in flight as a window holds, from the lowest unsettled one on. Clauses
/// see it as the list of these places.
#[derive(Drop)]
pub struct Flights {
    ring: HeapCircularBuffer<Flight>,
    bytes: usize,
}

impl Model for Flights {
    ghost use Rattle.std.specs.Prelude.{◌≡◌, List, length};
    ghost use Rattle.mt_windows.specs.declared.flight.Flight.{Flight};
    ghost use Rattle.mt_windows.specs.FlightView.{bytes_in};

    ghost Value = { List Flight };

    ghost view = { λ f. f.ring.items };

    ghost invariant = { λ f. (f.ring.capacity ≡ length f.ring.items) × (f.bytes ≡ bytes_in f.ring.items) };
}

impl Flights {
    /// No part in flight.
    pub fn new(alloc: Global) -> Result<Flights, NoMemory>
        ensures { IfOk result (λ f. f ≡ no_flights 64) }
    {
        let mut ring = HeapCircularBuffer::with_capacity(alloc, WINDOW as usize)?;
        for _place in 0..WINDOW as usize {
            let flight = Flight {
                slot: Slot::new(alloc)?,
                earliest: 0,
                latest: 0,
            };
            let _ = ring.push_back(flight);
        }
        Ok(Flights { ring, bytes: 0 })
    }

    /// How many bytes are in flight.
    pub fn bytes(&self) -> usize
        ensures { result ≡ bytes_in self.now }
    {
        self.bytes
    }

    /// What is so far ahead of the lowest unsettled part.
    pub fn get(&self, ahead: usize) -> &Flight
        requires { ahead < length self.now }
        ensures { result.now ≡ flight_at self.now ahead }
    {
        match self.ring.get(ahead) {
            Some(flight) => flight,
            None => unreachable!(),
        }
    }

    /// Puts a part there that this transmission carries.
    pub fn fill(&mut self, ahead: usize, bytes: &[u8], transmission: u64)
        requires there { ahead < length self.old }
        requires fits { length bytes.now ≤ 1000 }
        requires room { bytes_in self.old ≤ 64000 }
        ensures { self.new ≡ slice_set self.old ahead (record { slot = Some bytes.now; earliest = transmission; latest = transmission }) }
    {
        let before = self.get(ahead).size();
        self.bytes = self.bytes - before + bytes.len();
        let Some(flight) = self.ring.get_mut(ahead) else {
            unreachable!()
        };
        flight.slot.fill(bytes);
        flight.earliest = transmission;
        flight.latest = transmission;
    }

    /// Notes that this transmission carries the part there too.
    pub fn carry(&mut self, ahead: usize, transmission: u64)
        requires { ahead < length self.old }
        ensures { self.new ≡ slice_set self.old ahead (record (flight_at self.old ahead) { latest = transmission }) }
    {
        let Some(flight) = self.ring.get_mut(ahead) else {
            unreachable!()
        };
        flight.latest = transmission;
    }

    /// Takes the part there out of flight.
    pub fn land(&mut self, ahead: usize)
        requires { ahead < length self.old }
        ensures { self.new ≡ slice_set self.old ahead (record (flight_at self.old ahead) { slot = None }) }
    {
        self.bytes -= self.get(ahead).size();
        let Some(flight) = self.ring.get_mut(ahead) else {
            unreachable!()
        };
        flight.slot.clear();
    }

    /// Moves on by one place: the first becomes the last.
    pub fn turn(&mut self)
        ensures { self.new ≡ drop 1 self.old ++ take 1 self.old }
    {
        let Some(flight) = self.ring.pop_front() else {
            return;
        };
        let _ = self.ring.push_back(flight);
    }

    /// Takes all parts out of flight.
    pub fn clear(&mut self)
        ensures { self.new ≡ no_flights (length self.old) }
    {
        for place in 0..self.ring.len() {
            let Some(flight) = self.ring.get_mut(place) else {
                unreachable!()
            };
            flight.slot.clear();
            flight.earliest = 0;
            flight.latest = 0;
        }
        self.bytes = 0;
    }
}
