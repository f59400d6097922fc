//! The message that is to be sent next, as it is made.

use crate::reading::read_piece;
use file_messages::{PIECE, name_message};
use mt_base::NoMemory;
use mt_outside::{Failed, FileStore};
use std::alloc::Global;
use std::marker::Model;

/// A message, or the room for one. Clauses see the message, where there is one.
#[derive(Drop)]
pub(crate) struct Draft {
    room: Vec<u8>,
    length: usize,
    is_made: bool,
}

impl Model for Draft {
    ghost use Rattle.std.specs.Prelude.{◌≡◌, ◌≤◌, ℕ, List, Option, Some, None, take, vec_len, if◌then◌else◌};

    ghost Value = { Option (List ℕ) };

    ghost view = { λ d. if d.is_made then Some (take d.length d.room.items) else None };

    ghost invariant = { λ d. (vec_len d.room ≡ 65537) × (d.length ≤ 65537) };
}

impl Draft {
    ghost use Rattle.std.specs.Prelude.{◌≡◌, ◌≤◌, ◌<◌, ◌∷◌, [], ℕ, List, Some, None, length, take, drop, replicate, IfOk, OnOk, OnErr, option_copied, is_some};
    ghost use Rattle.mt_outside.specs.Faults.{Rose};
    ghost use Rattle.mt_outside.specs.Told.{added};
    ghost use Rattle.mt_outside.specs.Files.{Holds};
    ghost use Rattle.file_messages.specs.Files.{name_message};
    ghost use Rattle.file_transfer.specs.Reading.{drafted};

    /// No message yet.
    pub(crate) fn new(alloc: Global) -> Result<Draft, NoMemory>
        ensures { IfOk result (λ draft. draft ≡ None) }
    {
        let Ok(room) = vec![in alloc; 0u8; PIECE + 1] else {
            return Err(NoMemory);
        };
        Ok(Draft {
            room,
            length: 0,
            is_made: false,
        })
    }

    /// Whether there is a message.
    pub(crate) fn is_made(&self) -> bool
        ensures { result ≡ is_some self.now }
    {
        self.is_made
    }

    /// The message, where there is one.
    pub(crate) fn message(&self) -> Option<&[u8]>
        ensures { option_copied result ≡ self.now }
    {
        if self.is_made {
            Some(&self.room[..self.length])
        } else {
            None
        }
    }

    /// Lets the message go.
    pub(crate) fn clear(&mut self)
        ensures { self.new ≡ None }
    {
        self.is_made = false;
    }

    /// Makes the empty message.
    pub(crate) fn put_end(&mut self)
        ensures { self.new ≡ Some [] }
    {
        self.length = 0;
        self.is_made = true;
    }

    /// Makes the message by which a file of this name begins.
    pub(crate) fn put_name(&mut self, name: &str)
        requires { length name.now ≤ 200 }
        ensures { self.new ≡ Some (name_message name.now) }
    {
        self.length = name_message(name, &mut self.room);
        self.is_made = true;
    }

    /// Makes the message of the piece of a file that stands from place `from` on, where one does. Gives its length, 0
    /// where the file ends there.
    pub(crate) fn put_piece<F: FileStore>(
        &mut self,
        store: &mut F,
        path: &str,
        from: u64,
    ) -> Result<usize, Failed>
        requires { from ≤ 4294967296 }
        ensures never_falls { F.faults store.old ≤ F.faults store.new }
        ensures cause { OnErr result (Rose (F.faults store.old) (F.faults store.new)) }
        ensures counts { OnOk result (F.faults store.new ≡ F.faults store.old) }
        ensures same { F.told store.new ≡ F.told store.old }
        ensures names { (k : ℕ) × (F.named store.new ≡ added (F.named store.old) (replicate k path.now)) }
        ensures piece { IfOk result (λ n. (piece : List ℕ) × (length piece ≡ n) × (n ≤ 65536) × (self.new ≡ drafted piece)
            × ((content : List ℕ) → Holds (F.told store.old) path.now content → piece ≡ take 65536 (drop from content))) }
    {
        self.is_made = false;
        let count = read_piece(store, path, from, &mut self.room)?;
        self.length = count + 1;
        self.is_made = count > 0;
        Ok(count)
    }
}
