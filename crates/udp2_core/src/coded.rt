//! The coded bytes of a vector, written flag by flag.

ghost use Rattle.std.specs.Prelude.{[]};
ghost use Rattle.coded_vector.specs.CodedWriting.{Stands};

use coded_vector::CodedWriter;
use link_machine::FlagWriter;
use mt_base::{NoRoom, Out};

/// Writes the coded bytes of a vector (MS-RDPEUDP2 section 2.2.1.2.6), flag by flag.
#[derive(Drop)]
pub struct VectorWriter {
    coded: CodedWriter,
}

impl VectorWriter {
    /// A writer that went through no flag yet.
    pub fn new() -> VectorWriter
        ensures { Stands result.coded [] [] }
    {
        VectorWriter {
            coded: CodedWriter::new(),
        }
    }
}

impl FlagWriter for VectorWriter {
    ghost use Rattle.coded_vector.specs.Written.{coded_of};
    ghost use Rattle.coded_vector.specs.CodedWriting.{Stands};

    ghost bytes_of = { coded_of };

    ghost wrote = { λ w flags bytes. Stands w.coded flags bytes };

    fn flag(&mut self, received: bool, out: &mut Out<'_>) -> Result<(), NoRoom> {
        self.coded.flag(received, out)
    }

    fn end(&mut self, out: &mut Out<'_>) -> Result<(), NoRoom> {
        self.coded.end(out)
    }
}
