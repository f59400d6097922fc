//! The files that an end sends, message by message.

ghost use Rattle.std.specs.Prelude.{◌≤◌, vec_len};

use crate::draft::Draft;
use crate::own_file::OwnFile;
use file_messages::PIECE;
use mt_base::NoMemory;
use mt_outside::FileStore;
use std::alloc::Global;

/// The bytes that are read of all files at most.
const LIMIT: u64 = 4_294_967_296;

/// How far the messages are made.
#[derive(Clone, Copy, Debug, PartialEq, Eq)]
pub(crate) enum Stage {
    /// The files so far are whole.
    Between,
    /// The next file's name is made, and more of its pieces may be.
    Within,
    /// The empty message is made.
    Ended,
}

/// Why no message is made.
#[derive(Clone, Copy, Debug, PartialEq, Eq)]
pub enum MakeFault {
    /// The store failed.
    Failed,
    /// More than 4,294,967,296 bytes of files were read.
    Limit,
}

/// The messages that carry an end's own files, made one by one as the files are read: of each file its name and its
/// content in pieces, and the empty message behind the last. It keeps one message at a time.
#[derive(Drop)]
pub struct Outgoing {
    pub(crate) files: Vec<OwnFile>,
    /// How many of the files are whole.
    pub(crate) made: usize,
    pub(crate) stage: Stage,
    /// How many bytes of the next file are read.
    pub(crate) at: u64,
    /// How many bytes of all files are read.
    pub(crate) read: u64,
    pub(crate) draft: Draft,
    ghost few: { vec_len files ≤ 256 },
    ghost counted: { at ≤ read },
    ghost limited: { read ≤ 4294967296 },
}

impl Outgoing {
    ghost use Rattle.std.specs.Prelude.{◌≡◌, ◌≢◌, ◌≤◌, ◌<◌, ◌+◌, ◌∷◌, ◌++◌, ◌⊎◌, [], ℕ, List, Bool, true, false, Some, None, length, map, All, replicate, IfOk, IfErr, OnOk, OnErr, IsErrOf, IsTrue, ◌↔◌, option_copied, is_some, vec_len, Option, Contains};
    ghost use Rattle.mt_outside.specs.Faults.{Rose};
    ghost use Rattle.mt_outside.specs.Told.{added};
    ghost use Rattle.mt_outside.specs.Files.{Contents};
    ghost use Rattle.file_messages.specs.Files.{Message, File};
    ghost use Rattle.file_messages.specs.Written.{AreWritten};
    ghost use Rattle.file_transfer.specs.Own.{Own};
    ghost use Rattle.file_transfer.specs.Sending.{HasSent, AreHeld, Follow, waiting, contents_of, to_do};
    ghost use Rattle.file_transfer.specs.declared.outgoing.Stage.TheVariants as stage;
    ghost use Rattle.file_transfer.specs.declared.outgoing.MakeFault.{MakeFault};

    /// The messages of these files, at most 256, of which none is sent.
    pub fn new(alloc: Global, files: Vec<OwnFile>) -> Result<Outgoing, NoMemory>
        requires { vec_len files ≤ 256 }
        ensures files { IfOk result (λ o. o.files.items ≡ files.items) }
        ensures none { IfOk result (λ o. o.draft ≡ None) }
        ensures sent { IfOk result (λ o. HasSent o [] []) }
        ensures follows { IfOk result (λ o. (contents : List (List ℕ)) → Follow o contents []) }
    {
        Ok(Outgoing {
            files,
            made: 0,
            stage: Stage::Between,
            at: 0,
            read: 0,
            draft: Draft::new(alloc)?,
        })
    }

    /// How many bytes of files were read.
    pub fn bytes_read(&self) -> u64
        ensures { result ≡ (self.now).read }
    {
        self.read
    }

    /// The message that is to be sent next, where one is made.
    pub fn next(&self) -> Option<&[u8]>
        ensures { option_copied result ≡ (self.now).draft }
    {
        self.draft.message()
    }

    /// The message that was made is sent.
    pub fn pass(&mut self)
        ensures sent { (sent : List Message) (files : List File) → HasSent self.old sent files → HasSent self.new (sent ++ waiting (self.old).draft) files }
        ensures follows { (contents : List (List ℕ)) (files : List File) → Follow self.old contents files → Follow self.new contents files }
        ensures files { (self.new).files.items ≡ (self.old).files.items }
        ensures read { (self.new).read ≡ (self.old).read }
        ensures none { (self.new).draft ≡ None }
        ensures stage { (self.new).stage ≡ (self.old).stage }
        ensures goes { to_do self.new ≡ to_do self.old }
    {
        self.draft.clear();
    }

    /// Makes the next message, where none waits and the last is not made yet, and reads the store for it.
    ///
    /// For a store that tells the own files, the contents are those that it tells.
    pub fn make<F: FileStore>(&mut self, store: &mut F) -> Result<(), MakeFault>
        ensures never_falls { F.faults store.old ≤ F.faults store.new }
        ensures cause { IsErrOf result MakeFault.Failed → Rose (F.faults store.old) (F.faults store.new) }
        ensures counts { ¬ IsErrOf result MakeFault.Failed → F.faults store.new ≡ F.faults store.old }
        ensures same { F.told store.new ≡ F.told store.old }
        ensures names { (paths : List (List ℕ)) × (F.named store.new ≡ added (F.named store.old) paths) × All (Contains (map (λ (own : Own). own.path) (self.old).files.items)) paths }
        ensures files { (self.new).files.items ≡ (self.old).files.items }
        ensures sent { (sent : List Message) (files : List File) → HasSent self.old sent files →
            OnOk result ((later : List File) × HasSent self.new sent later
            × ((contents : List (List ℕ)) → AreHeld (F.told store.old) (self.old).files.items contents → Follow self.old contents files → Follow self.new contents later)) }
        ensures ready { (sent : List Message) (files : List File) → HasSent self.old sent files →
            OnOk result ((self.new).draft ≡ None → (self.new).stage ≡ stage.Ended) }
        ensures goes { (sent : List Message) (files : List File) → HasSent self.old sent files → (self.old).draft ≡ None → (self.old).stage ≢ stage.Ended →
            OnOk result (to_do self.new < to_do self.old) }
    {
        if self.draft.is_made() {
            return Ok(());
        }
        self.make_piece(store)?;
        self.make_heading();
        Ok(())
    }

    /// Makes the message of the next piece of a file that is not whole, where there is one. The file is whole behind a
    /// piece that is not full.
    fn make_piece<F: FileStore>(&mut self, store: &mut F) -> Result<(), MakeFault>
        requires { (self.old).draft ≡ None }
        ensures never_falls { F.faults store.old ≤ F.faults store.new }
        ensures cause { IsErrOf result MakeFault.Failed → Rose (F.faults store.old) (F.faults store.new) }
        ensures counts { ¬ IsErrOf result MakeFault.Failed → F.faults store.new ≡ F.faults store.old }
        ensures same { F.told store.new ≡ F.told store.old }
        ensures names { (paths : List (List ℕ)) × (F.named store.new ≡ added (F.named store.old) paths) × All (Contains (map (λ (own : Own). own.path) (self.old).files.items)) paths }
        ensures files { (self.new).files.items ≡ (self.old).files.items }
        ensures sent { (sent : List Message) (files : List File) → HasSent self.old sent files →
            OnOk result ((later : List File) × HasSent self.new sent later
            × ((contents : List (List ℕ)) → AreHeld (F.told store.old) (self.old).files.items contents → Follow self.old contents files → Follow self.new contents later)) }
        ensures goes_on { (sent : List Message) (files : List File) → HasSent self.old sent files →
            OnOk result ((self.new).draft ≡ None → (self.new).stage ≢ stage.Within) }
        ensures goes { (sent : List Message) (files : List File) → HasSent self.old sent files → (self.old).stage ≡ stage.Within → OnOk result (to_do self.new < to_do self.old) }
        ensures idle { (self.old).stage ≢ stage.Within → self.new ≡ self.old }
    {
        let Stage::Within = self.stage else {
            return Ok(());
        };
        if self.made >= self.files.len() {
            return Ok(());
        }
        let file = &self.files[self.made];
        let Ok(count) = self.draft.put_piece(store, file.path(), self.at) else {
            return Err(MakeFault::Failed);
        };
        if count as u64 > LIMIT - self.read {
            return Err(MakeFault::Limit);
        }
        self.read += count as u64;
        if count == PIECE {
            self.at += count as u64;
            return Ok(());
        }
        self.made += 1;
        self.stage = Stage::Between;
        self.at = 0;
        Ok(())
    }

    /// Where no message waits and each file so far is whole, makes the name of the next, or the empty message behind the
    /// last.
    fn make_heading(&mut self)
        ensures files { (self.new).files.items ≡ (self.old).files.items }
        ensures sent { (sent : List Message) (files : List File) → HasSent self.old sent files →
            ((later : List File) × HasSent self.new sent later
            × ((told : Option Contents) (contents : List (List ℕ)) → AreHeld told (self.old).files.items contents → Follow self.old contents files → Follow self.new contents later)) }
        ensures ready { ((self.old).draft ≡ None → (self.old).stage ≢ stage.Within) → (self.new).draft ≡ None → (self.new).stage ≡ stage.Ended }
        ensures goes { to_do self.new ≤ to_do self.old }
        ensures begins { (self.old).draft ≡ None → (self.old).stage ≡ stage.Between → to_do self.new < to_do self.old }
    {
        if self.draft.is_made() {
            return;
        }
        let Stage::Between = self.stage else {
            return;
        };
        if self.made < self.files.len() {
            let file = &self.files[self.made];
            self.draft.put_name(file.name());
            self.stage = Stage::Within;
            self.at = 0;
        } else {
            self.draft.put_end();
            self.stage = Stage::Ended;
        }
    }

    /// Whether all messages are sent, the empty one too: then they are those that are written for the own files, in
    /// order, with the contents that were read.
    pub fn is_done(&self) -> bool
        ensures whole { IsTrue result → (sent : List Message) (files : List File) → HasSent self.now sent files → AreWritten sent files × (map (λ (file : File). file.name) files ≡ map (λ (own : Own). own.name) (self.now).files.items) }
        ensures contents { IsTrue result → (contents : List (List ℕ)) (files : List File) → Follow self.now contents files → contents_of files ≡ contents }
        ensures ended { result ≡ true → ((self.now).stage ≡ stage.Ended) × ((self.now).draft ≡ None) }
        ensures going { result ≡ false → (self.now).draft ≡ None → (self.now).stage ≢ stage.Ended }
    {
        match self.stage {
            Stage::Ended => !self.draft.is_made(),
            _ => false,
        }
    }
}
