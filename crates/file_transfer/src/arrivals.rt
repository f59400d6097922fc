//! The files that came, kept in a store.

ghost use Rattle.std.specs.Prelude.{◌≡◌, ◌∷◌, ◌++◌, ◌<◌, ◌≤◌, [], ℕ, List, Option, None, length, IfOk, OnOk, OnErr, IsErrOf, string_bytes, option_map, Bool, true, false};
ghost use Rattle.mt_outside.specs.Faults.{Rose};
ghost use Rattle.mt_outside.specs.Files.{Contents};
ghost use Rattle.file_messages.specs.Files.{File};
ghost use Rattle.file_messages.specs.Read.{after, added, is_end, IsBehind};
ghost use Rattle.file_transfer.specs.Keeping.{CameAs, with_files};
ghost use Rattle.file_transfer.specs.declared.arrivals.ArrivalFault.{ArrivalFault};

use crate::coming::{Coming, KeptFile};
use file_messages::FileStep;
use mt_base::NoMemory;
use mt_outside::FileStore;
use std::alloc::Global;

/// Why a step of a file is not taken.
#[derive(Clone, Copy)]
pub(crate) enum ArrivalFault {
    Failed,
    NoMemory,
}

/// The files that came: those that are whole, and the last one, where it comes still.
#[derive(Drop)]
pub(crate) struct Arrivals {
    alloc: Global,
    pub(crate) prefix: String,
    pub(crate) whole: Vec<KeptFile>,
    pub(crate) coming: Option<Coming>,
}

impl Arrivals {
    /// No file came. The prefix stands before the name of each that is kept.
    pub(crate) fn new(alloc: Global, prefix: String) -> Arrivals
        ensures came { CameAs false result [] }
        ensures prefix { string_bytes result.prefix ≡ string_bytes prefix }
    {
        Arrivals {
            alloc,
            prefix,
            whole: Vec::new(alloc),
            coming: None,
        }
    }

    /// Takes a step, and keeps what it brings in the store.
    pub(crate) fn take<F: FileStore>(
        &mut self,
        step: FileStep,
        store: &mut F,
    ) -> Result<(), ArrivalFault>
        ensures never_falls { F.faults store.old ≤ F.faults store.new }
        ensures cause { IsErrOf result ArrivalFault.Failed → Rose (F.faults store.old) (F.faults store.new) }
        ensures counts { ¬ IsErrOf result ArrivalFault.Failed → F.faults store.new ≡ F.faults store.old }
        ensures prefix { string_bytes (self.new).prefix ≡ string_bytes (self.old).prefix }
        ensures came { (files : List File) → CameAs false self.old files → IsBehind step.entry (length files) → OnOk result (CameAs (is_end step.entry) self.new (after step.entry files)) }
        ensures kept { (files : List File) (first : Option Contents) → CameAs false self.old files → IsBehind step.entry (length files) → F.told store.old ≡ option_map (with_files (string_bytes (self.old).prefix) files) first →
            OnOk result (F.told store.new ≡ option_map (with_files (string_bytes (self.old).prefix) (after step.entry files)) first) }
    {
        match step {
            FileStep::Begins { name } => self.begin(name, store),
            FileStep::Adds { bytes } => self.add(bytes, store),
            FileStep::Ends => match self.finish() {
                Ok(()) => Ok(()),
                Err(NoMemory) => Err(ArrivalFault::NoMemory),
            },
        }
    }

    /// The file that comes is whole.
    fn finish(&mut self) -> Result<(), NoMemory>
        ensures prefix { string_bytes (self.new).prefix ≡ string_bytes (self.old).prefix }
        ensures came { (files : List File) → CameAs false self.old files → OnOk result (CameAs true self.new files) }
    {
        let Some(coming) = self.coming.take() else {
            return Ok(());
        };
        self.whole.push(coming.finish())?;
        Ok(())
    }

    /// A file of this name begins.
    fn begin<F: FileStore>(&mut self, name: &str, store: &mut F) -> Result<(), ArrivalFault>
        ensures never_falls { F.faults store.old ≤ F.faults store.new }
        ensures cause { IsErrOf result ArrivalFault.Failed → Rose (F.faults store.old) (F.faults store.new) }
        ensures counts { ¬ IsErrOf result ArrivalFault.Failed → F.faults store.new ≡ F.faults store.old }
        ensures prefix { string_bytes (self.new).prefix ≡ string_bytes (self.old).prefix }
        ensures came { (files : List File) → CameAs false self.old files → OnOk result (CameAs false self.new (files ++ record { name = name.now; content = [] } ∷ [])) }
        ensures kept { (files : List File) (first : Option Contents) → F.told store.old ≡ option_map (with_files (string_bytes (self.old).prefix) files) first →
            OnOk result (F.told store.new ≡ option_map (with_files (string_bytes (self.old).prefix) (files ++ record { name = name.now; content = [] } ∷ [])) first) }
    {
        let Ok(()) = self.finish() else {
            return Err(ArrivalFault::NoMemory);
        };
        let Ok(coming) = Coming::new(self.alloc, self.prefix.as_str(), name) else {
            return Err(ArrivalFault::NoMemory);
        };
        let Ok(()) = store.create(coming.path()) else {
            return Err(ArrivalFault::Failed);
        };
        self.coming = Some(coming);
        Ok(())
    }

    /// Bytes of the file that comes.
    fn add<F: FileStore>(&mut self, bytes: &[u8], store: &mut F) -> Result<(), ArrivalFault>
        ensures never_falls { F.faults store.old ≤ F.faults store.new }
        ensures cause { IsErrOf result ArrivalFault.Failed → Rose (F.faults store.old) (F.faults store.new) }
        ensures counts { ¬ IsErrOf result ArrivalFault.Failed → F.faults store.new ≡ F.faults store.old }
        ensures prefix { string_bytes (self.new).prefix ≡ string_bytes (self.old).prefix }
        ensures came { (files : List File) → CameAs false self.old files → 0 < length files → OnOk result (CameAs false self.new (added bytes.now files)) }
        ensures kept { (files : List File) (first : Option Contents) → CameAs false self.old files → 0 < length files → F.told store.old ≡ option_map (with_files (string_bytes (self.old).prefix) files) first →
            OnOk result (F.told store.new ≡ option_map (with_files (string_bytes (self.old).prefix) (added bytes.now files)) first) }
    {
        let Some(coming) = &mut self.coming else {
            return Ok(());
        };
        let Ok(()) = store.append(coming.path(), bytes) else {
            return Err(ArrivalFault::Failed);
        };
        coming.add(bytes);
        Ok(())
    }
}
