//! A stream that keeps its bytes in memory.

ghost use Rattle.std.specs.Prelude.{◌≡◌, ℕ, ◌+◌, ◌-◌, ◌≤◌, ◌^◌, [], ◌∷◌, false, Some, is_err, min, map, vec_items, length, take, IsTrue, IsErr, IfOk, OnOk, OnErr};
ghost use Rattle.std.specs.List.{concat};
ghost use Rattle.std.proofs.Common.{refl, ◌∙◌};
ghost use Rattle.mt_outside.specs.Faults.{Rose};
ghost use Rattle.mt_outside.specs.Told.{added};
ghost use Rattle.mt_outside.specs.Streams.{StreamTold, IsWithin, heard_of, opening, heard, wrote};
ghost use Rattle.mt_outside.specs.Memory.{Streamed, fails_at, passed, read_of};

use crate::byte_strings::ByteStrings;
use crate::failed::Failed;
use crate::faults::{Faults, one_more};
use crate::got::Got;
use crate::memory_files::copy_front;
use crate::plan::Plan;
use crate::story::Story;
use crate::stream::Stream;
use crate::waiting::Waiting;
use mt_base::Role;
use std::alloc::Global;
use std::marker::Model;

/// A stream in memory, which gives the bytes of its pieces and keeps what is written. Clauses see
/// what it tells, the pieces that are left, whether it ends behind them, the numbers of the calls
/// that are to fail, the number of the next call, and the faults so far.
#[derive(Drop)]
pub struct MemoryStream {
    pieces: Waiting,
    ends: bool,
    opened: Story<(Role, u16)>,
    read: ByteStrings,
    written: Vec<u8>,
    quiet: u64,
    ended: bool,
    plan: Plan,
    faults: Faults,
}

impl Model for MemoryStream {
    ghost Value = { Streamed };

    ghost view = { λ s. record {
      told = record {
        opened = Some s.opened.list;
        read = Some (concat s.read.list);
        written = Some s.written.items;
        quiet = s.quiet;
        stuck = 0;
        ended = s.ended;
      };
      left = s.pieces;
      ends = s.ends;
      fails = s.plan.fails.items;
      next = s.plan.next;
      faults = s.faults.count;
    } };
}

impl MemoryStream {
    /// A stream that gives these pieces and then ends, or gives nothing more. `fails` holds the
    /// numbers, from 0, of the calls of `Stream` that are to fail.
    pub fn new(alloc: Global, pieces: Vec<Vec<u8>>, ends: bool, fails: Vec<u64>) -> MemoryStream
        ensures { result ≡ record {
          told = record {
            opened = Some [];
            read = Some [];
            written = Some [];
            quiet = 0;
            stuck = 0;
            ended = false;
          };
          left = map vec_items pieces.items;
          ends = ends;
          fails = fails.items;
          next = 0;
          faults = 0;
        } }
    {
        MemoryStream {
            pieces: Waiting::new(pieces),
            ends,
            opened: Story::new(),
            read: ByteStrings::new(),
            written: Vec::new(alloc),
            quiet: 0,
            ended: false,
            plan: Plan::new(fails),
            faults: Faults::new(),
        }
    }

    /// All bytes that were written, in order.
    pub fn written(&self) -> &[u8]
        ensures { Some result.now ≡ self.now.told.written }
    {
        self.written.as_slice()
    }

    /// Begins a call of `Stream`, which may be one that is to fail.
    fn begin(&mut self) -> Result<(), Failed>
        ensures same { self.new ≡ record self.old {
          next = min (self.old.next + 1) (2 ^ 64 - 1);
          faults = self.new.faults;
        } }
        ensures answer { is_err result ≡ fails_at self.old.fails self.old.next }
        ensures counts { OnOk result (self.new.faults ≡ self.old.faults) }
        ensures later { self.old.faults ≤ self.new.faults }
        ensures cause { OnErr result (Rose self.old.faults self.new.faults) }
    {
        if self.plan.is_to_fail() {
            return Err(self.faults.raise());
        }
        Ok(())
    }
}

impl Stream for MemoryStream {
    ghost faults = { λ s. s.faults };

    ghost told = { λ s. s.told };

    ghost stays = { λ a b. b.fails ≡ a.fails };

    fn open(&mut self, role: Role, port: u16) -> Result<(), Failed>
        ensures stays { self.new.fails ≡ self.old.fails }
        ensures never_falls { self.old.faults ≤ self.new.faults }
        ensures cause { OnErr result (Rose self.old.faults self.new.faults) }
        ensures counts { OnOk result (self.new.faults ≡ self.old.faults) }
        ensures tells { self.new.told ≡ opening role port self.old.told }
        ensures answer { is_err result ≡ fails_at self.old.fails self.old.next }
        ensures rest { self.new ≡ record self.old {
          told = self.new.told;
          next = min (self.old.next + 1) (2 ^ 64 - 1);
          faults = self.new.faults;
        } }
    {
        self.opened = self.opened.and(&(role, port));
        self.begin()
    }

    /// Gives the next piece, or as much of it as fits; `Nothing` for an empty one. It fails where
    /// this call is to fail, and nowhere else.
    fn read(&mut self, out: &mut [u8]) -> Result<Got, Failed>
        ensures stays { self.new.fails ≡ self.old.fails }
        ensures never_falls { self.old.faults ≤ self.new.faults }
        ensures cause { OnErr result (Rose self.old.faults self.new.faults) }
        ensures counts { OnOk result (self.new.faults ≡ self.old.faults) }
        ensures bound { IfOk result (λ got. IsWithin got out.new) }
        ensures tells { IfOk result (λ got. self.new.told ≡ heard (heard_of got out.new) self.old.told) }
        ensures same { OnErr result (self.new.told ≡ self.old.told) }
        ensures answer { is_err result ≡ fails_at self.old.fails self.old.next }
        ensures gives { IfOk result (λ got.
            heard_of got out.new ≡ read_of self.old.ends (length out.old) self.old.left) }
        ensures left { OnOk result (self.new.left ≡ passed (length out.old) self.old.left) }
        ensures kept { OnErr result (self.new.left ≡ self.old.left) }
        ensures rest { self.new ≡ record self.old {
          told = self.new.told;
          left = self.new.left;
          next = min (self.old.next + 1) (2 ^ 64 - 1);
          faults = self.new.faults;
        } }
    {
        self.begin()?;
        let Some(piece) = self.pieces.first() else {
            self.quiet = one_more(self.quiet);
            if self.ends {
                self.ended = true;
                return Ok(Got::End);
            }
            return Ok(Got::Nothing);
        };
        if piece.is_empty() {
            self.quiet = one_more(self.quiet);
            self.pieces.pass(0);
            return Ok(Got::Nothing);
        }
        let count = copy_front(piece, 0, out);
        self.read.add(&out[..count]);
        self.pieces.pass(count);
        Ok(Got::Bytes(count))
    }

    /// Takes the whole piece. It fails where this call is to fail, and where no memory is found.
    fn write(&mut self, bytes: &[u8]) -> Result<usize, Failed>
        ensures stays { self.new.fails ≡ self.old.fails }
        ensures never_falls { self.old.faults ≤ self.new.faults }
        ensures cause { OnErr result (Rose self.old.faults self.new.faults) }
        ensures counts { OnOk result (self.new.faults ≡ self.old.faults) }
        ensures bound { IfOk result (λ n. n ≤ length bytes.now) }
        ensures tells { IfOk result (λ n. self.new.told ≡ wrote bytes.now n self.old.told) }
        ensures same { OnErr result (self.new.told ≡ self.old.told) }
        ensures planned { IsTrue (fails_at self.old.fails self.old.next) → IsErr result }
        ensures whole { IfOk result (λ n. n ≡ length bytes.now) }
        ensures rest { self.new ≡ record self.old {
          told = self.new.told;
          next = min (self.old.next + 1) (2 ^ 64 - 1);
          faults = self.new.faults;
        } }
    {
        self.begin()?;
        let Ok(()) = self.written.extend_from_slice(bytes) else {
            return Err(self.faults.raise());
        };
        Ok(bytes.len())
    }

    ghost stays_same = { λ _. refl };

    ghost stays_on = { λ _ _ _ first second. second ∙ first };
}
