//! Printing.

ghost use Rattle.std.specs.Prelude.{ℕ, List};
ghost use Rattle.rdpmt_program.specs.Fate.{Tells, Printed};

use crate::fault::Fault;
use mt_outside::{Failed, Sink, write_all};
use mt_world::Text;

/// What is printed where the words are not those of a command.
const USAGE: &[u8] =
    b"usage: rdpmt play SCRIPT [CAPTURE] | serve PORT FILE.. | connect PORT FILE.. \
    | show FILE | check CAPTURE | bulk N K\n";

/// The status of a call that could not print.
const NOT_PRINTED: u8 = 4;

/// Prints what a command came to, and answers the status.
pub(crate) fn tell<K: Sink>(out: &mut K, ended: Result<Text, Fault>) -> u8
    ensures { (status : ℕ) × (output : List ℕ) × Tells ended status output × Printed status output result (K.written out.old) (K.written out.new) (K.faults out.old) (K.faults out.new) }
{
    match ended {
        Ok(report) => print(out, report.bytes(), 0),
        Err(Fault::Usage) => print(out, USAGE, 1),
        Err(Fault::Refused(line)) => print(out, line.as_bytes(), 2),
        Err(Fault::File) => print(out, b"file fault\n", 3),
        Err(Fault::Broken(line)) => print(out, line.as_bytes(), 8),
        Err(Fault::NoMemory) => print(out, b"no memory\n", 9),
        Err(Fault::Limit) => print(out, b"limit\n", 11),
    }
}

/// Prints the whole output and answers the status, or answers that it could not.
fn print<K: Sink>(out: &mut K, output: &[u8], status: u8) -> u8
    ensures { Printed status output.now result (K.written out.old) (K.written out.new) (K.faults out.old) (K.faults out.new) }
{
    match write_all(out, output) {
        Ok(()) => status,
        Err(Failed) => NOT_PRINTED,
    }
}
