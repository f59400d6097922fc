//! A wire that keeps its datagrams in memory.

ghost use Rattle.std.specs.Prelude.{◌≡◌, ℕ, ◌+◌, ◌-◌, ◌≤◌, ◌^◌, [], ◌∷◌, ◌++◌, Some, is_err, min, map, vec_items, IsTrue, IsErr, IfSome, IfOk, OnOk, OnErr};
ghost use Rattle.std.proofs.Common.{refl, ◌∙◌};
ghost use Rattle.mt_outside.specs.Faults.{Rose};
ghost use Rattle.mt_outside.specs.Told.{added};
ghost use Rattle.mt_outside.specs.Wires.{WireTold, opening, datagram_of, came, left};
ghost use Rattle.mt_outside.specs.Memory.{Wired, fails_at, passed, take_of};

use crate::byte_strings::ByteStrings;
use crate::failed::Failed;
use crate::faults::{Faults, one_more};
use crate::memory_files::copy_front;
use crate::plan::Plan;
use crate::story::Story;
use crate::waiting::Waiting;
use crate::wire::Wire;
use mt_base::{NoMemory, Role};
use std::alloc::Global;
use std::marker::Model;

/// A wire in memory, which gives its datagrams and keeps what is sent. Clauses see what it tells,
/// the datagrams that are left, the numbers of the calls that are to fail, the number of the next
/// call, and the faults so far.
#[derive(Drop)]
pub struct MemoryWire {
    alloc: Global,
    datagrams: Waiting,
    opened: Story<(Role, u16)>,
    taken: ByteStrings,
    sent: Vec<Vec<u8>>,
    quiet: u64,
    plan: Plan,
    faults: Faults,
}

impl Model for MemoryWire {
    ghost Value = { Wired };

    ghost view = { λ s. record {
      told = record {
        opened = Some s.opened.list;
        taken = Some s.taken.list;
        sent = Some (map vec_items s.sent.items);
        quiet = s.quiet;
      };
      left = s.datagrams;
      fails = s.plan.fails.items;
      next = s.plan.next;
      faults = s.faults.count;
    } };
}

impl MemoryWire {
    /// A wire that gives these datagrams, of at most 1,232 bytes each, and then none. (Of a longer
    /// one a take gives as much as fits, and the next one the rest.) `fails` holds the numbers, from
    /// 0, of the calls of `Wire` that are to fail.
    pub fn new(alloc: Global, datagrams: Vec<Vec<u8>>, fails: Vec<u64>) -> MemoryWire
        ensures { result ≡ record {
          told = record { opened = Some []; taken = Some []; sent = Some []; quiet = 0 };
          left = map vec_items datagrams.items;
          fails = fails.items;
          next = 0;
          faults = 0;
        } }
    {
        MemoryWire {
            alloc,
            datagrams: Waiting::new(datagrams),
            opened: Story::new(),
            taken: ByteStrings::new(),
            sent: Vec::new(alloc),
            quiet: 0,
            plan: Plan::new(fails),
            faults: Faults::new(),
        }
    }

    /// All datagrams that were sent, in order.
    pub fn sent(&self) -> &[Vec<u8>]
        ensures { Some (map vec_items result.now) ≡ self.now.told.sent }
    {
        self.sent.as_slice()
    }

    /// Begins a call of `Wire`, which may be one that is to fail.
    fn begin(&mut self) -> Result<(), Failed>
        ensures same { self.new ≡ record self.old {
          next = min (self.old.next + 1) (2 ^ 64 - 1);
          faults = self.new.faults;
        } }
        ensures answer { is_err result ≡ fails_at self.old.fails self.old.next }
        ensures counts { OnOk result (self.new.faults ≡ self.old.faults) }
        ensures later { self.old.faults ≤ self.new.faults }
        ensures cause { OnErr result (Rose self.old.faults self.new.faults) }
    {
        if self.plan.is_to_fail() {
            return Err(self.faults.raise());
        }
        Ok(())
    }
}

impl Wire for MemoryWire {
    ghost faults = { λ s. s.faults };

    ghost told = { λ s. s.told };

    ghost stays = { λ a b. b.fails ≡ a.fails };

    fn open(&mut self, role: Role, port: u16) -> Result<(), Failed>
        ensures stays { self.new.fails ≡ self.old.fails }
        ensures never_falls { self.old.faults ≤ self.new.faults }
        ensures cause { OnErr result (Rose self.old.faults self.new.faults) }
        ensures counts { OnOk result (self.new.faults ≡ self.old.faults) }
        ensures tells { self.new.told ≡ opening role port self.old.told }
        ensures answer { is_err result ≡ fails_at self.old.fails self.old.next }
        ensures rest { self.new ≡ record self.old {
          told = self.new.told;
          next = min (self.old.next + 1) (2 ^ 64 - 1);
          faults = self.new.faults;
        } }
    {
        self.opened = self.opened.and(&(role, port));
        self.begin()
    }

    /// Keeps the datagram. It fails where this call is to fail, and where no memory is found.
    fn send(&mut self, datagram: &[u8]) -> Result<(), Failed>
        ensures stays { self.new.fails ≡ self.old.fails }
        ensures never_falls { self.old.faults ≤ self.new.faults }
        ensures cause { OnErr result (Rose self.old.faults self.new.faults) }
        ensures counts { OnOk result (self.new.faults ≡ self.old.faults) }
        ensures tells { OnOk result (self.new.told ≡ left datagram.now self.old.told) }
        ensures same { OnErr result (self.new.told ≡ self.old.told) }
        ensures planned { IsTrue (fails_at self.old.fails self.old.next) → IsErr result }
        ensures rest { self.new ≡ record self.old {
          told = self.new.told;
          next = min (self.old.next + 1) (2 ^ 64 - 1);
          faults = self.new.faults;
        } }
    {
        self.begin()?;
        let Ok(()) = keep(self.alloc, &mut self.sent, datagram) else {
            return Err(self.faults.raise());
        };
        Ok(())
    }

    /// Gives the next datagram; `None` for an empty one. It fails where this call is to fail, and
    /// nowhere else.
    fn take(&mut self, out: &mut [u8; 1232]) -> Result<Option<usize>, Failed>
        ensures stays { self.new.fails ≡ self.old.fails }
        ensures never_falls { self.old.faults ≤ self.new.faults }
        ensures cause { OnErr result (Rose self.old.faults self.new.faults) }
        ensures counts { OnOk result (self.new.faults ≡ self.old.faults) }
        ensures bound { IfOk result (λ got. IfSome got (λ n. n ≤ 1232)) }
        ensures tells { IfOk result (λ got. self.new.told ≡ came (datagram_of got out.new) self.old.told) }
        ensures same { OnErr result (self.new.told ≡ self.old.told) }
        ensures answer { is_err result ≡ fails_at self.old.fails self.old.next }
        ensures gives { IfOk result (λ got. datagram_of got out.new ≡ take_of 1232 self.old.left) }
        ensures left { OnOk result (self.new.left ≡ passed 1232 self.old.left) }
        ensures kept { OnErr result (self.new.left ≡ self.old.left) }
        ensures rest { self.new ≡ record self.old {
          told = self.new.told;
          left = self.new.left;
          next = min (self.old.next + 1) (2 ^ 64 - 1);
          faults = self.new.faults;
        } }
    {
        self.begin()?;
        let Some(datagram) = self.datagrams.first() else {
            self.quiet = one_more(self.quiet);
            return Ok(None);
        };
        if datagram.is_empty() {
            self.quiet = one_more(self.quiet);
            self.datagrams.pass(0);
            return Ok(None);
        }
        let count = copy_front(datagram, 0, out);
        self.taken.add(&out[..count]);
        self.datagrams.pass(count);
        Ok(Some(count))
    }

    ghost stays_same = { λ _. refl };

    ghost stays_on = { λ _ _ _ first second. second ∙ first };
}

/// Adds a datagram to a list. Where no memory is found nothing changes.
fn keep(alloc: Global, list: &mut Vec<Vec<u8>>, datagram: &[u8]) -> Result<(), NoMemory>
    ensures more { OnOk result
        (map vec_items list.new.items ≡ map vec_items list.old.items ++ datagram.now ∷ []) }
    ensures same { OnErr result (list.new.items ≡ list.old.items) }
{
    let Ok(copy) = Vec::from_slice(alloc, datagram) else {
        return Err(NoMemory);
    };
    let Ok(()) = list.push(copy) else {
        return Err(NoMemory);
    };
    Ok(())
}
