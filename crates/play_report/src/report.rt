//! The text of a report.

use crate::tally::Tally;
use mt_base::{Kind, NoMemory, Role};
use mt_script::Text;
use std::alloc::Global;
use std::marker::Model;

/// A report that is being written, line by line.
///
/// After a want of memory it is not to be used again: it may hold a part of a line.
#[derive(Drop)]
pub struct Report {
    alloc: Global,
    bytes: Vec<u8>,
}

impl Model for Report {
    ghost use Rattle.std.specs.Prelude.{ℕ, List};

    ghost Value = { List ℕ };

    ghost view = { λ r. r.bytes.items };
}

impl Report {
    ghost use Rattle.std.specs.Prelude.{◌≡◌, ℕ, List, [], ◌++◌, OnOk, codes};
    ghost use Rattle.std.specs.Fmt.{decimal};
    ghost use Rattle.hex.specs.Hex.{encode_lower};
    ghost use Rattle.mt_script.specs.Spelling.{side_name, kind_name};
    ghost use Rattle.play_report.specs.Tallying.{Counts};
    ghost use Rattle.play_report.specs.Lines.{counted, channel_line, tunnel_line, main_line};

    /// A report with no line.
    pub fn new(alloc: Global) -> Report
        ensures { result ≡ [] }
    {
        Report {
            alloc,
            bytes: Vec::new(alloc),
        }
    }

    /// The line of what one side sent on a channel, and of what came of it at the other:
    /// `channel ID NAME SIDE sent N DIGEST delivered M DIGEST`. Memory alone can be wanting.
    #[tactic(auto, unfolding(crate::specs::Lines::channel_line))]
    pub fn channel(
        &mut self,
        id: u32,
        name: &[u8],
        side: Role,
        sent: &Tally,
        delivered: &Tally,
    ) -> Result<(), NoMemory>
        ensures { (sent_messages : List (List ℕ)) (delivered_messages : List (List ℕ)) → Counts sent.now sent_messages → Counts delivered.now delivered_messages →
            OnOk result (self.new ≡ self.old ++ channel_line id name.now side sent_messages delivered_messages) }
    {
        self.heading(id, name, side)?;
        self.words(b" sent ")?;
        self.counted(sent)?;
        self.words(b" delivered ")?;
        self.counted(delivered)?;
        self.words(b"\n")
    }

    /// The line of a tunnel: its kind, the name of its state, and how many datagrams each side gave
    /// on its link: `tunnel KIND STATE server A client B`. Memory alone can be wanting.
    #[tactic(auto, unfolding(crate::specs::Lines::tunnel_line))]
    pub fn tunnel(
        &mut self,
        kind: Kind,
        state: &[u8],
        server: usize,
        client: usize,
    ) -> Result<(), NoMemory>
        ensures { OnOk result (self.new ≡ self.old ++ tunnel_line kind state.now server client) }
    {
        self.words(b"tunnel ")?;
        self.kind(kind)?;
        self.words(b" ")?;
        self.words(state)?;
        self.sides(server as u64, client as u64)
    }

    /// The line of the main stream: how many bytes of each side reached the other:
    /// `main server X client Y`. Memory alone can be wanting.
    #[tactic(auto, unfolding(crate::specs::Lines::main_line))]
    pub fn main(&mut self, server: u64, client: u64) -> Result<(), NoMemory>
        ensures { OnOk result (self.new ≡ self.old ++ main_line server client) }
    {
        self.words(b"main")?;
        self.sides(server, client)
    }

    /// The report as a text.
    pub fn into_text(self) -> Text
        ensures { result ≡ self }
    {
        Text::from_vec(self.bytes)
    }

    /// What a channel's line is about: the channel's id and name, and the side.
    fn heading(&mut self, id: u32, name: &[u8], side: Role) -> Result<(), NoMemory>
        ensures { OnOk result (self.new ≡
            self.old ++ codes "channel " ++ decimal id ++ codes " " ++ name.now ++ codes " " ++ side_name side) }
    {
        self.words(b"channel ")?;
        self.number(id as u64)?;
        self.words(b" ")?;
        self.words(name)?;
        self.words(b" ")?;
        self.side(side)
    }

    /// A number of each side, and the end of the line.
    fn sides(&mut self, server: u64, client: u64) -> Result<(), NoMemory>
        ensures { OnOk result (self.new ≡
            self.old ++ codes " server " ++ decimal server ++ codes " client " ++ decimal client ++ codes "\n") }
    {
        self.words(b" server ")?;
        self.number(server)?;
        self.words(b" client ")?;
        self.number(client)?;
        self.words(b"\n")
    }

    /// How many messages a tally counts, and the SHA-256 of their bytes.
    #[tactic(auto, unfolding(crate::specs::Lines::counted))]
    fn counted(&mut self, tally: &Tally) -> Result<(), NoMemory>
        ensures { (messages : List (List ℕ)) → Counts tally.now messages → OnOk result (self.new ≡ self.old ++ counted messages) }
    {
        self.number(tally.count())?;
        self.words(b" ")?;
        self.digits(&tally.digest())
    }

    /// The name of a side.
    fn side(&mut self, side: Role) -> Result<(), NoMemory>
        ensures { OnOk result (self.new ≡ self.old ++ side_name side) }
    {
        match side {
            Role::Server => self.words(b"server"),
            Role::Client => self.words(b"client"),
        }
    }

    /// The name of a kind of link.
    fn kind(&mut self, kind: Kind) -> Result<(), NoMemory>
        ensures { OnOk result (self.new ≡ self.old ++ kind_name kind) }
    {
        match kind {
            Kind::Reliable => self.words(b"reliable"),
            Kind::Lossy => self.words(b"lossy"),
        }
    }

    /// A number in decimal digits.
    fn number(&mut self, number: u64) -> Result<(), NoMemory>
        ensures { OnOk result (self.new ≡ self.old ++ decimal number) }
    {
        let digits = number.to_string(self.alloc)?;
        self.words(digits.as_bytes())
    }

    /// A digest in lower case digits.
    fn digits(&mut self, digest: &[u8; 32]) -> Result<(), NoMemory>
        ensures { OnOk result (self.new ≡ self.old ++ encode_lower digest.now) }
    {
        let digits = hex::encode(self.alloc, digest)?;
        self.words(digits.as_bytes())
    }

    /// Bytes as they are.
    fn words(&mut self, words: &[u8]) -> Result<(), NoMemory>
        ensures { OnOk result (self.new ≡ self.old ++ words.now) }
    {
        self.bytes.extend_from_slice(words)?;
        Ok(())
    }
}
