//! The elements of a vector, written flag by flag.

ghost use Rattle.std.specs.Prelude.{◌≡◌, ◌+◌, ◌≤◌, ◌^◌, [], Bool, List, All, length, take};
ghost use Rattle.ack_vector.specs.Elements.{IsGood};
ghost use Rattle.ack_vector.specs.Longest.{elements_of};
ghost use Rattle.ack_vector.specs.RunWriting.{Stands};
ghost use Rattle.link_machine.specs.Flags.{AreSaid};

use ack_vector::RunWriter;
use link_machine::{FlagWriter, write_flags};
use mt_base::{NoRoom, Out};
use mt_windows::WINDOW;

/// Elements of a vector at most: it tells of the last numbers that a window holds, and an element
/// tells of one number or more.
pub const ELEMENTS: usize = WINDOW as usize;

/// Writes the elements of a vector (MS-RDPEUDP section 2.2.2.7) for what is said of so many numbers
/// from one on, whether each was received, and gives how many elements they are.
pub fn write_elements<F: Fn(u64) -> bool>(
    received: F,
    from: u64,
    count: u64,
    out: &mut [u8; ELEMENTS],
) -> usize
    requires callable { F.IsAlwaysCallable received }
    requires few { count ≤ WINDOW }
    requires numbers { from + count ≤ 2 ^ 64 }
    ensures bound { result ≤ WINDOW }
    ensures good { All IsGood (take result out.new) }
    ensures elements { (flags : List Bool) × (length flags ≡ count)
        × AreSaid (F.post received) from flags × (take result out.new ≡ elements_of flags) }
{
    write_flags(ElementWriter::new(), received, from, count, out)
}

/// The writer of a vector, flag by flag.
#[derive(Drop)]
struct ElementWriter {
    runs: RunWriter,
}

impl ElementWriter {
    /// A writer that went through no flag yet.
    fn new() -> ElementWriter
        ensures { Stands result.runs [] [] }
    {
        ElementWriter {
            runs: RunWriter::new(),
        }
    }
}

impl FlagWriter for ElementWriter {
    ghost use Rattle.ack_vector.specs.Longest.{elements_of};
    ghost use Rattle.ack_vector.specs.RunWriting.{Stands};

    ghost bytes_of = { elements_of };

    ghost wrote = { λ w flags elements. Stands w.runs flags elements };

    fn flag(&mut self, received: bool, out: &mut Out<'_>) -> Result<(), NoRoom> {
        self.runs.flag(received, out)
    }

    fn end(&mut self, out: &mut Out<'_>) -> Result<(), NoRoom> {
        self.runs.end(out)
    }
}
