//! Flags that are written one after the other.

ghost use Rattle.std.specs.Prelude.{◌≡◌, ◌+◌, ◌<◌, ◌≤◌, ◌^◌, ◌++◌, ◌∷◌, [], ℕ, Bool, List, OnErr, OnOk, length, take};
ghost use Rattle.mt_base.specs.OutView.{spot};
ghost use Rattle.link_machine.specs.Flags.{AreSaid, size_of};

use mt_base::{NoRoom, Out};

/// A writer of flags that come one after the other, as those of a vector are.
///
/// Bytes are written as soon as no later flag can change them; the writer keeps the flags behind.
pub trait FlagWriter: Drop {
    /// The bytes that are written for flags.
    ghost bytes_of: { List Bool → List ℕ };

    /// It went through these flags, and wrote these bytes so far.
    ghost wrote: { Self → List Bool → List ℕ → Type 0 };

    /// Goes on by a flag, and writes what it decides, if anything.
    ///
    /// Where that finds no place it is `NoRoom`: the flags have more bytes than the buffer.
    fn flag(&mut self, received: bool, out: &mut Out<'_>) -> Result<(), NoRoom>
        ensures same { out.new.bytes.ghost_name ≡ out.old.bytes.ghost_name }
        ensures size { OnOk result (size_of (spot out.new) ≡ size_of (spot out.old)) }
        ensures wrote { (flags : List Bool) → wrote self.old flags (spot out.old).before →
            OnOk result (wrote self.new (flags ++ received ∷ []) (spot out.new).before) }
        ensures no_room { (flags : List Bool) → wrote self.old flags (spot out.old).before →
            OnErr result (size_of (spot out.old) < length (bytes_of (flags ++ received ∷ []))) };

    /// Writes what is left: then all bytes of the flags are written.
    ///
    /// Where that finds no place it is `NoRoom`: the flags have more bytes than the buffer.
    fn end(&mut self, out: &mut Out<'_>) -> Result<(), NoRoom>
        ensures same { out.new.bytes.ghost_name ≡ out.old.bytes.ghost_name }
        ensures wrote { (flags : List Bool) → wrote self.old flags (spot out.old).before →
            OnOk result ((spot out.new).before ≡ bytes_of flags) }
        ensures no_room { (flags : List Bool) → wrote self.old flags (spot out.old).before →
            OnErr result (size_of (spot out.old) < length (bytes_of flags)) };
}

/// Writes the flags that are said of so many numbers from one on, and gives how many bytes they have.
///
/// The buffer has room for the bytes of so many flags, whatever they are. Each flag is written as
/// it is said.
pub fn write_flags<W: FlagWriter, F: Fn(u64) -> bool>(
    mut writer: W,
    says: F,
    from: u64,
    count: u64,
    out: &mut [u8],
) -> usize
    requires starts { W.wrote writer [] [] }
    requires says { F.IsAlwaysCallable says }
    requires numbers { from + count ≤ 2 ^ 64 }
    requires room { (flags : List Bool) → length flags ≤ count →
        length (W.bytes_of flags) ≤ length out.old }
    ensures { (flags : List Bool) × (length flags ≡ count) × AreSaid (F.post says) from flags
        × (result ≡ length (W.bytes_of flags)) × (take result out.new ≡ W.bytes_of flags) }
{
    let mut place = Out::new(out);
    for ahead in 0..count {
        match writer.flag(says(from + ahead), &mut place) {
            Ok(()) => {}
            Err(_) => unreachable!(),
        }
    }
    match writer.end(&mut place) {
        Ok(()) => place.at(),
        Err(_) => unreachable!(),
    }
}
