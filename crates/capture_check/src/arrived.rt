//! The datagrams of a side and kind: what they show, and which of their numbers came.

use crate::came::NumbersCame;
use mt_base::NoMemory;
use std::alloc::Global;
use std::marker::Model;

/// For each datagram of a side and kind, in order of their numbers, the number that it shows, if
/// any; and the numbers that those showed which came.
#[derive(Drop)]
pub(crate) struct Arrived {
    given: Vec<Option<u64>>,
    came: NumbersCame,
}

impl Model for Arrived {
    ghost use Rattle.capture_check.specs.Arrivals.{ArrivedView};

    ghost Value = { ArrivedView };

    ghost view = { λ a. record { given = a.given.items; came = a.came } };
}

impl Arrived {
    ghost use Rattle.std.specs.Prelude.{◌≡◌, IfOk, OnOk, slice_get};
    ghost use Rattle.capture_check.specs.Arrivals.{none_given, with_came, with_given};

    /// No datagram was given.
    pub(crate) fn new(alloc: Global) -> Result<Arrived, NoMemory>
        ensures { IfOk result (λ arrived. arrived ≡ none_given) }
    {
        Ok(Arrived {
            given: Vec::new(alloc),
            came: NumbersCame::new(alloc)?,
        })
    }

    /// The numbers that came.
    pub(crate) fn came(&self) -> &NumbersCame
        ensures { result.now ≡ self.now.came }
    {
        &self.came
    }

    /// Notes a datagram that is given, by the number that it shows.
    pub(crate) fn give(&mut self, shown: Option<u64>) -> Result<(), NoMemory>
        ensures { OnOk result (self.new ≡ with_given shown self.old) }
    {
        self.given.push(shown).map_err(|_| NoMemory)
    }

    /// Notes that the datagram of this number came.
    pub(crate) fn arrive(&mut self, number: u64) -> Result<(), NoMemory>
        ensures { OnOk result (self.new ≡ with_came (slice_get self.old.given number) self.old) }
    {
        match self.given.get(number as usize) {
            Some(given) => match *given {
                Some(shown) => self.came.add(shown),
                None => Ok(()),
            },
            None => Ok(()),
        }
    }
}
