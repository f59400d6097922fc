//! The main streams of both sides so far.

ghost use Rattle.std.specs.Prelude.{◌≡◌, ◌<◌, ◌^◌, ◌++◌, ◌∷◌, ℕ, [], All, List, IfOk, IsTrue, IsFalse};
ghost use Rattle.tunnel_pdus.specs.Value.{Frame};
ghost use Rattle.capture_check.specs.declared.entry.Entry.{Entry};
ghost use Rattle.capture_check.specs.declared.entry.Entry.TheVariants.{Main};
ghost use Rattle.capture_check.specs.FramesSoFar.{AreHeard, AreStreams, Breaks, IsRead};
ghost use Rattle.capture_check.specs.MainFrames.{FramesMain, Sided, from};

use crate::entry::Entry;
use crate::words::Words;
use mt_base::{NoMemory, Role};
use std::alloc::Global;
use tunnel_pdus::{Part, read_frame};

/// The bytes of each side that no whole frame has yet, and what the frames said.
#[derive(Drop)]
pub(crate) struct MainStreams {
    server: Vec<u8>,
    client: Vec<u8>,
    words: Words,
}

impl MainStreams {
    /// Nothing came.
    pub(crate) fn new(alloc: Global) -> Result<MainStreams, NoMemory>
        ensures { IfOk result (AreStreams []) }
    {
        Ok(MainStreams {
            server: Vec::new(alloc),
            client: Vec::new(alloc),
            words: Words::new(alloc)?,
        })
    }

    /// Notes an entry; false where with its bytes the main stream of its side is no frames, or holds
    /// data of a channel behind the side's word for it.
    pub(crate) fn note(&mut self, entry: &Entry) -> Result<bool, NoMemory>
        ensures kept { IfOk result (λ kept. (before : List Entry) → AreStreams before self.old
            → IsTrue kept → FramesMain before entry.now × AreStreams (before ++ entry.now ∷ []) self.new) }
        ensures broken { IfOk result (λ kept. (before : List Entry) → AreStreams before self.old
            → IsFalse kept → ¬ FramesMain before entry.now) }
    {
        match entry {
            Entry::Main { side, bytes } => self.read(*side, bytes.bytes()),
            _ => Ok(true),
        }
    }

    /// Notes main stream bytes of a side.
    fn read(&mut self, side: Role, bytes: &[u8]) -> Result<bool, NoMemory>
        ensures kept { IfOk result (λ kept. (before : List Entry) → AreStreams before self.old
            → IsTrue kept → FramesMain before (Main side bytes.now)
            × AreStreams (before ++ Main side bytes.now ∷ []) self.new) }
        ensures broken { IfOk result (λ kept. (before : List Entry) → AreStreams before self.old
            → IsFalse kept → ¬ FramesMain before (Main side bytes.now)) }
    {
        match side {
            Role::Server => read_frames(&mut self.words, Role::Server, &mut self.server, bytes),
            Role::Client => read_frames(&mut self.words, Role::Client, &mut self.client, bytes),
        }
    }
}

/// Reads the frames that further bytes of a side make whole. `left` are the bytes of the side that no
/// whole frame has; no frame has more than 1,603.
fn read_frames(
    words: &mut Words,
    side: Role,
    left: &mut Vec<u8>,
    bytes: &[u8],
) -> Result<bool, NoMemory>
    ensures kept { IfOk result (λ kept. (main : List ℕ) (came : List Sided)
        → IsRead side main came left.old.items → AreHeard came words.old → IsTrue kept
        → (frames : List Frame) × IsRead side (main ++ bytes.now) (came ++ from side frames) left.new.items
        × AreHeard (came ++ from side frames) words.new) }
    ensures broken { IfOk result (λ kept. (main : List ℕ) (came : List Sided)
        → IsRead side main came left.old.items → AreHeard came words.old → IsFalse kept
        → Breaks side (main ++ bytes.now) came) }
{
    for byte in bytes {
        left.push(*byte).map_err(|_| NoMemory)?;
        if !read_front(words, side, left)? {
            return Ok(false);
        }
    }
    Ok(true)
}

/// Reads the frame that the bytes which are left have become with their last one, if any.
fn read_front(words: &mut Words, side: Role, left: &mut Vec<u8>) -> Result<bool, NoMemory>
    ensures kept { IfOk result (λ kept. (main fewer : List ℕ) (byte : ℕ) (came : List Sided)
        → IsRead side main came fewer → AreHeard came words.old → left.old.items ≡ fewer ++ byte ∷ []
        → byte < 2 ^ 8 → IsTrue kept
        → (frames : List Frame) × IsRead side (main ++ byte ∷ []) (came ++ from side frames) left.new.items
        × AreHeard (came ++ from side frames) words.new) }
    ensures broken { IfOk result (λ kept. (main fewer : List ℕ) (byte : ℕ) (came : List Sided)
        → IsRead side main came fewer → AreHeard came words.old → left.old.items ≡ fewer ++ byte ∷ []
        → byte < 2 ^ 8 → IsFalse kept → Breaks side (main ++ byte ∷ []) came) }
{
    match read_frame(left) {
        Ok(part) => match part {
            Part::Whole { value, .. } => {
                let keeps = words.hear(side, value)?;
                left.clear();
                Ok(keeps)
            }
            Part::More { .. } => Ok(true),
        },
        Err(_) => Ok(false),
    }
}
