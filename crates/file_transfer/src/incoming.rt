//! The files that an end gets, message by message.

use crate::arrivals::{ArrivalFault, Arrivals};
use crate::coming::KeptFile;
use crate::lines::lines;
use file_messages::FileReader;
use mt_outside::{FileStore, Sink, write_all};
use std::alloc::Global;

/// Why a message is not taken.
#[derive(Clone, Copy, Debug, PartialEq, Eq)]
pub enum KeepFault {
    /// No list of file messages has it at its place. Nothing changed.
    BadMessage,
    /// The store failed.
    Failed,
    NoMemory,
}

/// Why the lines are not printed whole.
#[derive(Clone, Copy, Debug, PartialEq, Eq)]
pub enum PrintFault {
    /// The sink failed.
    Failed,
    NoMemory,
}

/// Reads the messages that carry files, and keeps the files in a store, each under a prefix and its name, in place of what
/// was there. Of each it keeps the name, the size and the SHA-256. After `Failed` and `NoMemory` it is not used again.
#[derive(Drop)]
pub struct Incoming {
    pub(crate) reader: FileReader,
    pub(crate) arrivals: Arrivals,
    pub(crate) messages: u64,
}

impl Incoming {
    ghost use Rattle.std.specs.Prelude.{◌≡◌, ◌≤◌, ◌∷◌, ◌++◌, [], ℕ, List, Option, None, Bool, true, IfOk, OnOk, OnErr, IsErrOf, IsTrue, ◌↔◌, string_bytes, take};
    ghost use Rattle.std.specs.Option.{option_map};
    ghost use Rattle.mt_outside.specs.Faults.{Rose};
    ghost use Rattle.mt_outside.specs.Told.{added};
    ghost use Rattle.mt_outside.specs.Files.{Contents};
    ghost use Rattle.file_messages.specs.Files.{Message, File, AreFiles, HaveCome};
    ghost use Rattle.file_messages.specs.Read.{after, HasRead};
    ghost use Rattle.file_transfer.specs.Keeping.{HasKept, CameAs, with_files, with_bytes};
    ghost use Rattle.file_transfer.specs.Lines.{got_lines};
    ghost use Rattle.file_transfer.specs.declared.incoming.KeepFault.{KeepFault};
    ghost use Rattle.file_transfer.specs.declared.incoming.PrintFault.{PrintFault};

    /// No message has come. The prefix stands before the name of each file that is kept.
    pub fn new(alloc: Global, prefix: String) -> Incoming
        ensures kept { HasKept result [] [] }
        ensures prefix { string_bytes result.arrivals.prefix ≡ string_bytes prefix }
    {
        Incoming {
            reader: FileReader::new(),
            arrivals: Arrivals::new(alloc, prefix),
            messages: 0,
        }
    }

    /// How many messages came; the count stands at the greatest number of 64 bits.
    pub fn messages(&self) -> u64
        ensures { result ≡ (self.now).messages }
    {
        self.messages
    }

    /// Whether the empty message has come.
    pub fn is_ended(&self) -> bool
        ensures { (messages : List Message) (files : List File) → HasKept self.now messages files → IsTrue result ↔ AreFiles messages files }
    {
        self.reader.is_ended()
    }

    /// What is known of the files that are whole, in the order in which they came.
    pub fn files(&self) -> &[KeptFile]
        ensures { result.now ≡ (self.now).arrivals.whole.items }
    {
        self.arrivals.whole.as_slice()
    }

    /// Reads the message that comes next, and keeps what it carries in the store.
    pub fn read<F: FileStore>(&mut self, message: &[u8], store: &mut F) -> Result<(), KeepFault>
        ensures never_falls { F.faults store.old ≤ F.faults store.new }
        ensures cause { IsErrOf result KeepFault.Failed → Rose (F.faults store.old) (F.faults store.new) }
        ensures counts { ¬ IsErrOf result KeepFault.Failed → F.faults store.new ≡ F.faults store.old }
        ensures prefix { string_bytes (self.new).arrivals.prefix ≡ string_bytes (self.old).arrivals.prefix }
        ensures kept { (messages : List Message) (files : List File) → HasKept self.old messages files →
            OnOk result ((later : List File) × HasKept self.new (messages ++ message.now ∷ []) later
            × ((first : Option Contents) → F.told store.old ≡ option_map (with_files (string_bytes (self.old).arrivals.prefix) files) first →
            F.told store.new ≡ option_map (with_files (string_bytes (self.old).arrivals.prefix) later) first)) }
        ensures bad { IsErrOf result KeepFault.BadMessage → (messages : List Message) (files : List File) → HasKept self.old messages files →
            (ended : Bool) (others : List File) → ¬ HaveCome ended (messages ++ message.now ∷ []) others }
    {
        let Ok(step) = self.reader.read(message) else {
            return Err(KeepFault::BadMessage);
        };
        match self.arrivals.take(step, store) {
            Ok(()) => {
                self.messages = self.messages.saturating_add(1);
                Ok(())
            }
            Err(ArrivalFault::Failed) => Err(KeepFault::Failed),
            Err(ArrivalFault::NoMemory) => Err(KeepFault::NoMemory),
        }
    }

    /// Prints a line for each file that came, in order, with its name, its size and its SHA-256, and one that says `done`.
    /// The mark stands before each line. Where the sink fails, a beginning of the lines was written.
    pub fn print<K: Sink>(&self, alloc: Global, mark: &str, out: &mut K) -> Result<(), PrintFault>
        ensures never_falls { K.faults out.old ≤ K.faults out.new }
        ensures cause { IsErrOf result PrintFault.Failed → Rose (K.faults out.old) (K.faults out.new) }
        ensures counts { ¬ IsErrOf result PrintFault.Failed → K.faults out.new ≡ K.faults out.old }
        ensures lines { (messages : List Message) (files : List File) → HasKept self.now messages files → AreFiles messages files →
            OnOk result (K.written out.new ≡ added (K.written out.old) (got_lines mark.now files)) }
        ensures part { (messages : List Message) (files : List File) → HasKept self.now messages files → AreFiles messages files →
            (k : ℕ) × (K.written out.new ≡ added (K.written out.old) (take k (got_lines mark.now files))) }
    {
        let Ok(text) = lines(alloc, mark, self.files()) else {
            return Err(PrintFault::NoMemory);
        };
        let Ok(()) = write_all(out, &text) else {
            return Err(PrintFault::Failed);
        };
        Ok(())
    }
}
