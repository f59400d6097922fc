//! The words of one line, taken one by one as what they spell.

ghost use Rattle.std.specs.Prelude.{◌≡◌, ◌≢◌, ◌∷◌, [], ℕ, List, ◌<◌, ◌^◌, MatchOption, OnOk, OnErr};
ghost use Rattle.std.specs.Fmt.{decimal};
ghost use Rattle.mt_script.specs.Lines.{Lacks};
ghost use Rattle.mt_script.specs.Spelling.{side_name, kind_name, hex_text, IsBytes, IsCookie, IsWord};
ghost use Rattle.mt_script.specs.declared.values.Command.{Command};
ghost use Rattle.mt_script.specs.declared.fault.LineFault.TheVariants as fault;
ghost use Rattle.mt_script.specs.Reading.{Takes, TakesName, TakesWord, command_name, words_left, split_at_blanks};

use crate::cut::cut_at;
use crate::fault::LineFault;
use crate::text::Text;
use crate::values::{
    Command, bytes_of, command_of, cookie_of, count_of, kind_of, name_of, number_of, side_of,
};
use mt_base::{Kind, Role};
use std::alloc::Global;

/// The words of a line that are left: none, or those that the bytes have, cut at each blank.
#[derive(Drop)]
pub struct Words<'a> {
    rest: Option<&'a [u8]>,
}

impl<'a> Words<'a> {
    /// All words of a line.
    pub fn new(line: &'a [u8]) -> Words<'a>
        ensures { words_left result ≡ split_at_blanks line.entry.now }
    {
        Words { rest: Some(line) }
    }

    /// The next word, with no blank in it.
    pub fn word(&mut self) -> Option<&'a [u8]>
        ensures { TakesWord (words_left self.old) (words_left self.new) result }
    {
        let (word, rest) = cut_at(b' ', self.rest?);
        self.rest = rest;
        Some(word)
    }

    /// A command.
    pub(crate) fn command(&mut self) -> Option<Command>
        ensures { TakesName command_name (words_left self.old) (words_left self.new) result }
    {
        match self.word() {
            Some(word) => command_of(word),
            None => None,
        }
    }

    /// A name: any word that is not empty.
    pub fn name(&mut self, alloc: Global) -> Result<Text, LineFault>
        ensures { Takes IsWord (λ name. name) (words_left self.old) (words_left self.new) result }
    {
        match self.word() {
            Some(word) => name_of(alloc, word),
            None => Err(LineFault::BadWords),
        }
    }

    /// A side: `server` or `client`.
    pub fn side(&mut self) -> Result<Role, LineFault>
        ensures { Takes (λ _. Unit {0}) side_name (words_left self.old) (words_left self.new) result }
    {
        match self.word() {
            Some(word) => side_of(word).ok_or(LineFault::BadWords),
            None => Err(LineFault::BadWords),
        }
    }

    /// A kind of link: `reliable` or `lossy`.
    pub fn kind(&mut self) -> Result<Kind, LineFault>
        ensures { Takes (λ _. Unit {0}) kind_name (words_left self.old) (words_left self.new) result }
    {
        match self.word() {
            Some(word) => kind_of(word).ok_or(LineFault::BadWords),
            None => Err(LineFault::BadWords),
        }
    }

    /// A number below 2^32, written with no zero in front.
    pub fn id(&mut self) -> Result<u32, LineFault>
        ensures { Takes (λ id. id < 2 ^ 32) decimal (words_left self.old) (words_left self.new) result }
    {
        match self.word() {
            Some(word) => number_of(word).ok_or(LineFault::BadWords),
            None => Err(LineFault::BadWords),
        }
    }

    /// A number below 2^64, written with no zero in front.
    pub fn count(&mut self) -> Result<u64, LineFault>
        ensures { Takes (λ n. n < 2 ^ 64) decimal (words_left self.old) (words_left self.new) result }
    {
        match self.word() {
            Some(word) => count_of(word).ok_or(LineFault::BadWords),
            None => Err(LineFault::BadWords),
        }
    }

    /// A security cookie: sixteen bytes as pairs of lower case digits.
    pub fn cookie(&mut self, alloc: Global) -> Result<[u8; 16], LineFault>
        ensures { Takes IsCookie hex_text (words_left self.old) (words_left self.new) result }
    {
        match self.word() {
            Some(word) => cookie_of(alloc, word),
            None => Err(LineFault::BadWords),
        }
    }

    /// Bytes: pairs of lower case digits, or `-` for none.
    pub fn message(&mut self, alloc: Global) -> Result<Text, LineFault>
        ensures { Takes IsBytes hex_text (words_left self.old) (words_left self.new) result }
    {
        match self.word() {
            Some(word) => bytes_of(alloc, word),
            None => Err(LineFault::BadWords),
        }
    }

    /// No words are left.
    pub fn end(&self) -> Result<(), LineFault>
        ensures ok { OnOk result (words_left self.now ≡ []) }
        ensures err { OnErr result ((words_left self.now ≢ []) × (result ≡ Err fault.BadWords)) }
    {
        match self.rest {
            None => Ok(()),
            Some(_) => Err(LineFault::BadWords),
        }
    }
}
