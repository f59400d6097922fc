//! Whole files and whole texts over the devices.

ghost use Rattle.std.specs.Prelude.{◌≡◌, ℕ, ◌<◌, ◌≤◌, List, length, take, replicate, vec_len, IfOk, OnOk, OnErr, IsErrOf};
ghost use Rattle.mt_outside.specs.Faults.{Rose};
ghost use Rattle.mt_outside.specs.Told.{added};
ghost use Rattle.mt_outside.specs.Files.{Holds, Lacks};
ghost use Rattle.mt_outside.specs.declared.failed.ReadFault.{ReadFault};

use crate::failed::{Failed, ReadFault};
use crate::files::FileStore;
use crate::sink::Sink;
use std::alloc::Global;

/// The bytes of the buffer through which a file is read.
const PIECE: usize = 4096;

/// Reads the whole file of this name, where it has at most `limit` bytes.
///
/// For a store that tells its files, the bytes are those of the file, `TooLong` comes exactly where
/// it has more bytes than the limit, and a name without a file is `Failed`; `NoMemory` and a fault
/// of the store may come in place of each. No file changes, and every call names this file.
pub fn read_file<F: FileStore>(
    alloc: Global,
    files: &mut F,
    name: &str,
    limit: u64,
) -> Result<Vec<u8>, ReadFault>
    ensures never_falls { F.faults files.old ≤ F.faults files.new }
    ensures cause { IsErrOf result ReadFault.Failed →
        Rose (F.faults files.old) (F.faults files.new) }
    ensures counts { ¬ IsErrOf result ReadFault.Failed → F.faults files.new ≡ F.faults files.old }
    ensures content { (content : List ℕ) → Holds (F.told files.old) name.now content →
        IfOk result (λ bytes. bytes.items ≡ content) }
    ensures missing { Lacks (F.told files.old) name.now → IsErrOf result ReadFault.Failed }
    ensures within { IfOk result (λ bytes. vec_len bytes ≤ limit) }
    ensures too_long { (content : List ℕ) → Holds (F.told files.old) name.now content →
        IsErrOf result ReadFault.TooLong → limit < length content }
    ensures same { F.told files.new ≡ F.told files.old }
    ensures names { (k : ℕ) ×
        (F.named files.new ≡ added (F.named files.old) (replicate k name.now)) }
{
    let mut bytes = Vec::new(alloc);
    let mut piece = [0u8; PIECE];
    loop {
        let length = bytes.len() as u64;
        let Ok(count) = files.read(name, length, &mut piece) else {
            return Err(ReadFault::Failed);
        };
        if count == 0 {
            return Ok(bytes);
        }
        if count as u64 > limit - length {
            return Err(ReadFault::TooLong);
        }
        let Ok(()) = bytes.extend_from_slice(&piece[..count]) else {
            return Err(ReadFault::NoMemory);
        };
    }
}

/// Writes all bytes, in order. Where it fails, a prefix of them was written.
pub fn write_all<K: Sink>(sink: &mut K, bytes: &[u8]) -> Result<(), Failed>
    ensures never_falls { K.faults sink.old ≤ K.faults sink.new }
    ensures cause { OnErr result (Rose (K.faults sink.old) (K.faults sink.new)) }
    ensures counts { OnOk result (K.faults sink.new ≡ K.faults sink.old) }
    ensures all { OnOk result (K.written sink.new ≡ added (K.written sink.old) bytes.now) }
    ensures prefix { OnErr result ((k : ℕ) × (k < length bytes.now) ×
        (K.written sink.new ≡ added (K.written sink.old) (take k bytes.now))) }
{
    let mut rest = bytes;
    while !rest.is_empty() {
        let taken = sink.write(rest)?;
        rest = &rest[taken..];
    }
    Ok(())
}
