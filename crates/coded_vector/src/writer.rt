//! Flags as coded bytes.

ghost use Rattle.std.specs.Prelude.{◌≡◌, ◌<◌, ◌≤◌, ◌++◌, ◌^◌, IfOk, IfErr, IsOk, OnErr, Some, length, drop, slice_get};
ghost use Rattle.mt_base.specs.OutView.{spot};
ghost use Rattle.mt_base.specs.Writing.{Writes, puts};
ghost use Rattle.coded_vector.specs.Written.{bits_byte, coded_of, next_count, run_byte, singles};

use mt_base::{NoRoom, Out, stretch};

/// Writes coded bytes for flags that come one after the other, the lowest number first.
///
/// A byte is written as soon as no later flag can change it: the byte of seven flags, and a run
/// once it has 63 flags or a flag that is not equal follows. What is kept meanwhile are fewer
/// than seven flags, or one run.
#[derive(Debug, Drop)]
pub struct CodedWriter {
    /// The flags that are kept, where they are fewer than seven; else nothing.
    flags: [bool; 7],
    count: u8,
    /// The flag of the run that is kept, where its flags are seven or more; else nothing.
    received: bool,
    ghost few: { count < 63 },
    ghost seven: { length flags ≡ 7 },
}

impl CodedWriter {
    ghost use Rattle.std.specs.Prelude.{◌≡◌, ◌++◌, ◌∷◌, [], ℕ, Bool, List, OnErr, OnOk};
    ghost use Rattle.mt_base.specs.OutView.{spot};
    ghost use Rattle.mt_base.specs.Writing.{Writes, put, puts};
    ghost use Rattle.coded_vector.specs.Written.{coded_of, singles};
    ghost use Rattle.coded_vector.specs.CodedWriting.{Stands, decided, kept};

    /// A writer that went through no flag yet.
    pub fn new() -> CodedWriter
        ensures { Stands result [] [] }
    {
        CodedWriter {
            flags: [false; 7],
            count: 0,
            received: false,
        }
    }

    /// Goes on by a flag, and writes the byte that it decides, if any.
    ///
    /// Where the byte finds no place it is `NoRoom`, and nothing changes.
    pub fn flag(&mut self, received: bool, out: &mut Out<'_>) -> Result<(), NoRoom>
        ensures same { out.new.bytes.ghost_name ≡ out.old.bytes.ghost_name }
        ensures written { let cs = decided (kept self.old ++ received ∷ []) in
            Writes (spot out.new) result (put cs (spot out.old)) }
        ensures stands { (flags : List Bool) (cs : List ℕ) → Stands self.old flags cs →
            let more = decided (kept self.old ++ received ∷ []) in
            OnOk result (Stands self.new (flags ++ received ∷ []) (cs ++ more)) }
        ensures unchanged { OnErr result ((kept self.new ≡ kept self.old) × (spot out.new ≡ spot out.old)) }
    {
        if self.count < 6 {
            self.flags[usize::from(self.count)] = received;
            self.count += 1;
        } else if self.count == 6 {
            self.flags[6] = received;
            if stretch(received, &self.flags) == 7 {
                self.received = received;
                self.count = 7;
            } else {
                out.put_u8(bits(&self.flags))?;
                self.count = 0;
            }
        } else if self.received != received {
            out.put_u8(run(self.received, self.count))?;
            self.flags[0] = received;
            self.count = 1;
        } else if self.count == 62 {
            out.put_u8(run(received, 63))?;
            self.count = 0;
        } else {
            self.count += 1;
        }
        Ok(())
    }

    /// Writes the bytes of the flags that are kept, after which the writer is as a new one.
    ///
    /// What was written since it was new are then the coded bytes of all flags that it went
    /// through. Where a byte finds no place it is `NoRoom`, and the writer keeps its flags.
    pub fn end(&mut self, out: &mut Out<'_>) -> Result<(), NoRoom>
        ensures same { out.new.bytes.ghost_name ≡ out.old.bytes.ghost_name }
        ensures written { let fields = singles (coded_of (kept self.old)) in
            Writes (spot out.new) result (puts fields (spot out.old)) }
        ensures all { (flags : List Bool) (cs before : List ℕ) → Stands self.old flags cs →
            (spot out.old).before ≡ before ++ cs →
            OnOk result ((spot out.new).before ≡ before ++ coded_of flags) }
        ensures anew { OnOk result (Stands self.new [] []) }
        ensures unchanged { OnErr result (self.new ≡ self.old) }
    {
        if self.count < 7 {
            write_few(&self.flags[..usize::from(self.count)], out)?;
        } else {
            out.put_u8(run(self.received, self.count))?;
        }
        self.count = 0;
        Ok(())
    }
}

/// Writes the runs of fewer than seven flags.
fn write_few(flags: &[bool], out: &mut Out<'_>) -> Result<(), NoRoom>
    requires { length flags.now < 7 }
    ensures same { out.new.bytes.ghost_name ≡ out.old.bytes.ghost_name }
    ensures written { let fields = singles (coded_of flags.now) in
        Writes (spot out.new) result (puts fields (spot out.old)) }
{
    let mut rest = flags;
    while let Some(flag) = rest.first() {
        let length = stretch(*flag, rest);
        out.put_u8(run(*flag, length))?;
        (_, rest) = rest.split_at(usize::from(length));
    }
    Ok(())
}

/// Writes coded bytes for the flags, from the first on, and gives how many.
///
/// Where the next seven flags or more are equal, or all that are left, the next byte is a run of
/// the longest such stretch, at most 63; else it holds the next seven flags. Fewer than seven
/// flags at the end are runs. The flags of `c3 05` are written `2f 83`. Where a byte finds no
/// place it is `NoRoom`, and the output stays as it was. The bytes behind what is written stay as
/// they were.
pub fn write_coded(flags: &[bool], out: &mut [u8]) -> Result<usize, NoRoom>
    ensures ok { let cs = coded_of flags.now in
        IfOk result (λ n. (n ≡ length cs) × (out.new ≡ cs ++ drop n out.old)) }
    ensures fits { length (coded_of flags.now) ≤ length out.old → IsOk result }
    ensures no_room { IfErr result (λ e. (length out.old < length (coded_of flags.now))
        × (e ≡ record { at = length out.old; need = 1 })) }
    ensures unchanged { OnErr result (out.new ≡ out.old) }
{
    if out.len() < count(flags) {
        return Err(NoRoom {
            at: out.len(),
            need: 1,
        });
    }
    let mut place = Out::new(out);
    let mut writer = CodedWriter::new();
    for flag in flags {
        writer.flag(*flag, &mut place)?;
    }
    writer.end(&mut place)?;
    Ok(place.at())
}

/// How many bytes are written for the flags.
fn count(flags: &[bool]) -> usize
    ensures { result ≡ length (coded_of flags.now) }
{
    let mut rest = flags;
    let mut bytes = 0;
    while let Some(flag) = rest.first() {
        (_, rest) = rest.split_at(next_count(*flag, rest));
        bytes += 1;
    }
    bytes
}

/// How many flags, the first of which is given, go into the next byte.
fn next_count(flag: bool, flags: &[bool]) -> usize
    requires { Some flag ≡ slice_get flags.now 0 }
    ensures exact { result ≡ next_count flag flags.now }
    ensures some { 0 < result }
    ensures within { result ≤ length flags.now }
{
    let length = stretch(flag, flags);
    if length >= 7 || flags.len() < 7 {
        usize::from(length)
    } else {
        7
    }
}

/// The byte of a run of so many equal flags.
fn run(received: bool, length: u8) -> u8
    requires { length < 64 }
    ensures { result ≡ run_byte received length }
{
    if received {
        0xc0 | length
    } else {
        0x80 | length
    }
}

/// The byte whose lowest bits are these flags, the first flag in the lowest bit.
fn bits(flags: &[bool]) -> u8
    requires { length flags.now ≤ 7 }
    ensures exact { result ≡ bits_byte flags.now }
    ensures small { result < 2 ^ length flags.now }
{
    match flags {
        [] => 0,
        [flag, rest @ ..] => u8::from(*flag) + 2 * bits(rest),
    }
}
