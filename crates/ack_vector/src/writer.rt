//! Flags as elements.

ghost use Rattle.std.specs.Prelude.{◌≡◌, ◌<◌, ◌≤◌, ◌++◌, IfOk, IfErr, IsOk, OnErr, length, drop};
ghost use Rattle.ack_vector.specs.Longest.{element, elements_of};

use mt_base::{NoRoom, Out, stretch};

/// Writes elements for flags that come one after the other, the oldest datagram first.
///
/// An element is written as soon as no later flag can change it: once its run has 63 flags, or a
/// flag that is not equal follows. What is kept meanwhile is one run.
#[derive(Debug, Drop)]
pub struct RunWriter {
    received: bool,
    length: u8,
    ghost few: { length < 63 },
}

impl RunWriter {
    ghost use Rattle.std.specs.Prelude.{◌≡◌, ◌++◌, ◌∷◌, [], ℕ, Bool, List, OnErr, OnOk};
    ghost use Rattle.mt_base.specs.OutView.{spot};
    ghost use Rattle.mt_base.specs.Writing.{Writes, put};
    ghost use Rattle.ack_vector.specs.Longest.{elements_of};
    ghost use Rattle.ack_vector.specs.RunWriting.{Stands, decided, kept};

    /// A writer that went through no flag yet.
    pub fn new() -> RunWriter
        ensures { Stands result [] [] }
    {
        RunWriter {
            received: false,
            length: 0,
        }
    }

    /// Goes on by a flag, and writes the element that it decides, if any.
    ///
    /// Where the element finds no place it is `NoRoom`, and nothing changes.
    pub fn flag(&mut self, received: bool, out: &mut Out<'_>) -> Result<(), NoRoom>
        ensures same { out.new.bytes.ghost_name ≡ out.old.bytes.ghost_name }
        ensures written { let es = decided (kept self.old ++ received ∷ []) in
            Writes (spot out.new) result (put es (spot out.old)) }
        ensures stands { (flags : List Bool) (es : List ℕ) → Stands self.old flags es →
            let more = decided (kept self.old ++ received ∷ []) in
            OnOk result (Stands self.new (flags ++ received ∷ []) (es ++ more)) }
        ensures unchanged { OnErr result ((self.new ≡ self.old) × (spot out.new ≡ spot out.old)) }
    {
        if self.length == 0 {
            self.received = received;
            self.length = 1;
        } else if self.received != received {
            out.put_u8(element(self.received, self.length))?;
            self.received = received;
            self.length = 1;
        } else if self.length == 62 {
            out.put_u8(element(received, 63))?;
            self.length = 0;
        } else {
            self.length += 1;
        }
        Ok(())
    }

    /// Writes the element of the run that is kept, after which the writer is as a new one.
    ///
    /// What was written since it was new are then the elements of all flags that it went through.
    /// Where the element finds no place it is `NoRoom`, and nothing changes.
    pub fn end(&mut self, out: &mut Out<'_>) -> Result<(), NoRoom>
        ensures same { out.new.bytes.ghost_name ≡ out.old.bytes.ghost_name }
        ensures written { let es = elements_of (kept self.old) in
            Writes (spot out.new) result (put es (spot out.old)) }
        ensures all { (flags : List Bool) (es before : List ℕ) → Stands self.old flags es →
            (spot out.old).before ≡ before ++ es →
            OnOk result ((spot out.new).before ≡ before ++ elements_of flags) }
        ensures anew { OnOk result (Stands self.new [] []) }
        ensures unchanged { OnErr result ((self.new ≡ self.old) × (spot out.new ≡ spot out.old)) }
    {
        if self.length > 0 {
            out.put_u8(element(self.received, self.length))?;
            self.length = 0;
        }
        Ok(())
    }
}

/// Writes elements for the flags, from the first on, and gives how many.
///
/// Each element holds the longest stretch of equal flags that comes next, at most 63: 64
/// datagrams that were received are `3f 01`. Where an element finds no place it is `NoRoom`, and
/// the output stays as it was. The bytes behind what is written stay as they were.
pub fn write_runs(flags: &[bool], out: &mut [u8]) -> Result<usize, NoRoom>
    ensures ok { let es = elements_of flags.now in
        IfOk result (λ n. (n ≡ length es) × (out.new ≡ es ++ drop n out.old)) }
    ensures fits { length (elements_of flags.now) ≤ length out.old → IsOk result }
    ensures no_room { IfErr result (λ e. (length out.old < length (elements_of flags.now))
        × (e ≡ record { at = length out.old; need = 1 })) }
    ensures unchanged { OnErr result (out.new ≡ out.old) }
{
    if out.len() < count(flags) {
        return Err(NoRoom {
            at: out.len(),
            need: 1,
        });
    }
    let mut place = Out::new(out);
    let mut writer = RunWriter::new();
    for flag in flags {
        writer.flag(*flag, &mut place)?;
    }
    writer.end(&mut place)?;
    Ok(place.at())
}

/// How many elements are written for the flags.
fn count(flags: &[bool]) -> usize
    ensures { result ≡ length (elements_of flags.now) }
{
    let mut rest = flags;
    let mut elements = 0;
    while let Some(flag) = rest.first() {
        (_, rest) = rest.split_at(usize::from(stretch(*flag, rest)));
        elements += 1;
    }
    elements
}

/// The element of so many equal flags.
fn element(received: bool, length: u8) -> u8
    requires { length < 64 }
    ensures { result ≡ element received length }
{
    if received { length } else { 0xc0 | length }
}
