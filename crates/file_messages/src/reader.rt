//! The reader of file messages.

ghost use Rattle.std.specs.Prelude.{◌≡◌, ◌+◌, ◌++◌, ◌∷◌, [], ℕ, ◌≤◌, ◌<◌, List, Bool, false, is_ok, length, OnOk, OnErr, IfOk, IsTrue, ◌↔◌};
ghost use Rattle.file_messages.specs.Files.{Message, File, AreFiles, HaveCome, IsName, IsPiece};
ghost use Rattle.file_messages.specs.Read.{HasRead, IsStep, IsBeginning, IsAdding, after, after_beginning, is_end, IsBehind};

use crate::names::is_plain;

/// The files that a list of messages carries at most.
const FILES: u16 = 256;

/// The bytes of a piece at most.
pub const PIECE: usize = 65_536;

/// A message that no list of file messages has at its place: a piece before any name, a name that
/// no file may have, a name after 256 files, a piece of no bytes or of more than 65,536, another
/// first byte, or any message after the empty one. The reader stays as it was.
#[derive(Clone, Copy, Debug, PartialEq, Eq)]
pub struct BadFileMessage;

/// What a message does.
#[derive(Clone, Copy, Debug)]
pub enum FileStep<'a> {
    /// A file of this name begins, and the one before it, if any, is whole.
    Begins { name: &'a str },
    /// These bytes are added to the content of the file that began last.
    Adds { bytes: &'a [u8] },
    /// The last file is whole, and no message follows.
    Ends,
}

/// Reads file messages, one after the other. It keeps no bytes of them.
#[derive(Clone, Copy, Debug, PartialEq, Eq)]
pub struct FileReader {
    pub(crate) files: u16,
    pub(crate) is_ended: bool,
}

impl FileReader {
    /// A reader to which no message has come.
    pub fn new() -> FileReader
        ensures { HasRead result [] [] }
    {
        FileReader {
            files: 0,
            is_ended: false,
        }
    }

    /// Whether the empty message has come.
    pub fn is_ended(&self) -> bool
        ensures { (messages : List Message) (files : List File) → HasRead self.now messages files → IsTrue result ↔ AreFiles messages files }
    {
        self.is_ended
    }

    /// Reads the message that comes next.
    pub fn read<'a>(&mut self, message: &'a [u8]) -> Result<FileStep<'a>, BadFileMessage>
        ensures step { IfOk result (IsStep message.entry.now) }
        ensures read { (messages : List Message) (files : List File) → HasRead self.old messages files → IfOk result (λ step. HasRead self.new (messages ++ message.entry.now ∷ []) (after step files)) }
        ensures refused { OnErr result ((messages : List Message) (files : List File) → HasRead self.old messages files → (ended : Bool) (others : List File) → ¬ HaveCome ended (messages ++ message.entry.now ∷ []) others) }
        ensures unchanged { OnErr result (self.new ≡ self.old) }
        ensures going { OnOk result (self.old.is_ended ≡ false) }
        ensures ended { IfOk result (λ step. self.new.is_ended ≡ is_end step) }
        ensures behind { IfOk result (λ step. IsBehind step self.old.files) }
    {
        if self.is_ended {
            return Err(BadFileMessage);
        }
        let Some((first, rest)) = message.split_first() else {
            self.is_ended = true;
            return Ok(FileStep::Ends);
        };
        match *first {
            b'N' => self.begin(rest),
            b'D' => self.add(rest),
            _ => Err(BadFileMessage),
        }
    }

    /// Reads the rest of a message that begins with `N`.
    fn begin<'a>(&mut self, rest: &'a [u8]) -> Result<FileStep<'a>, BadFileMessage>
        ensures step { IfOk result (λ step. IsBeginning rest.entry.now step) }
        ensures after { self.new ≡ after_beginning (is_ok result) self.old }
        ensures taken { OnOk result (IsName rest.entry.now × (self.old.files < 256)) }
        ensures refused { OnErr result (¬ (IsName rest.entry.now × (self.old.files < 256))) }
    {
        if self.files >= FILES || !is_plain(rest) {
            return Err(BadFileMessage);
        }
        match str::from_utf8(rest) {
            Ok(name) => {
                self.files += 1;
                Ok(FileStep::Begins { name })
            }
            Err(_) => Err(BadFileMessage),
        }
    }

    /// Reads the rest of a message that begins with `D`.
    fn add<'a>(&self, rest: &'a [u8]) -> Result<FileStep<'a>, BadFileMessage>
        ensures step { IfOk result (λ step. IsAdding rest.entry.now step) }
        ensures taken { OnOk result (IsPiece rest.entry.now × (1 ≤ self.now.files)) }
        ensures refused { OnErr result (¬ (IsPiece rest.entry.now × (1 ≤ self.now.files))) }
    {
        if self.files == 0 || rest.is_empty() || rest.len() > PIECE {
            return Err(BadFileMessage);
        }
        Ok(FileStep::Adds { bytes: rest })
    }
}
