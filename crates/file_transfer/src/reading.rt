//! The reading of a piece of a file.

ghost use Rattle.std.specs.Prelude.{◌≡◌, ℕ, ◌+◌, ◌-◌, ◌<◌, ◌≤◌, ◌^◌, ◌∷◌, [], List, length, take, drop, replicate, IfOk, OnOk, OnErr};
ghost use Rattle.mt_outside.specs.Faults.{Rose};
ghost use Rattle.mt_outside.specs.Told.{added};
ghost use Rattle.mt_outside.specs.Files.{Holds};
ghost use Rattle.file_transfer.specs.Reading.{Reaches};

use mt_outside::{Failed, FileStore};

/// Reads bytes of the file from place `from` on into the room from place `at` on, and gives how many came: none only
/// at the file's end, or where there is no room.
fn read_behind<F: FileStore>(
    store: &mut F,
    path: &str,
    from: u64,
    room: &mut [u8],
    at: usize,
) -> Result<usize, Failed>
    requires { at ≤ length room.old }
    ensures never_falls { F.faults store.old ≤ F.faults store.new }
    ensures cause { OnErr result (Rose (F.faults store.old) (F.faults store.new)) }
    ensures counts { OnOk result (F.faults store.new ≡ F.faults store.old) }
    ensures same { F.told store.new ≡ F.told store.old }
    ensures name { F.named store.new ≡ added (F.named store.old) (path.now ∷ []) }
    ensures bound { IfOk result (λ n. at + n ≤ length room.old) }
    ensures front { take at room.new ≡ take at room.old }
    ensures bytes { (content : List ℕ) → Holds (F.told store.old) path.now content → at < length room.old → IfOk result (λ n. Reaches content from at n room.new) }
{
    store.read(path, from, &mut room[at..])
}

/// Puts `D` at the front of the room, and behind it the bytes of the file from place `from` on, until the room is full
/// or the file ends. Gives how many came; for a store that tells the file they are as many as there are and fit.
pub(crate) fn read_piece<F: FileStore>(
    store: &mut F,
    path: &str,
    from: u64,
    room: &mut [u8],
) -> Result<usize, Failed>
    requires some { 0 < length room.old }
    requires fits { from + length room.old < 2 ^ 64 }
    ensures never_falls { F.faults store.old ≤ F.faults store.new }
    ensures cause { OnErr result (Rose (F.faults store.old) (F.faults store.new)) }
    ensures counts { OnOk result (F.faults store.new ≡ F.faults store.old) }
    ensures same { F.told store.new ≡ F.told store.old }
    ensures names { (k : ℕ) × (F.named store.new ≡ added (F.named store.old) (replicate k path.now)) }
    ensures bound { IfOk result (λ n. n + 1 ≤ length room.old) }
    ensures front { OnOk result (take 1 room.new ≡ 68 ∷ []) }
    ensures bytes { (content : List ℕ) → Holds (F.told store.old) path.now content → IfOk result (λ n. take n (drop 1 room.new) ≡ take (length room.old - 1) (drop from content)) }
{
    room[0] = b'D';
    let mut count = 0;
    while count + 1 < room.len() {
        let more = read_behind(store, path, from + count as u64, room, count + 1)?;
        if more == 0 {
            break;
        }
        count += more;
    }
    Ok(count)
}
