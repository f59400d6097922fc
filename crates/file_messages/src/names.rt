//! The names of files.

ghost use Rattle.std.specs.Prelude.{◌↔◌, ℕ, List, IsTrue, IfSome, IfNone};
ghost use Rattle.file_messages.specs.Files.{IsName, IsPlain};
ghost use Rattle.file_messages.specs.Names.{IsLastPart};

/// The bytes that a name has at most.
const NAME_LIMIT: usize = 200;

/// Whether these bytes are 1 to 200, with no `/` and no zero byte.
pub(crate) fn is_plain(name: &[u8]) -> bool
    ensures { IsTrue result ↔ IsPlain name.now }
{
    !name.is_empty() && name.len() <= NAME_LIMIT && !name.contains(&b'/') && !name.contains(&0)
}

/// Whether a file may have this name: 1 to 200 bytes, with no `/` and no zero byte.
pub fn is_file_name(name: &str) -> bool
    ensures { IsTrue result ↔ IsName name.now }
{
    is_plain(name.as_bytes())
}

/// The name under which the file of a path is sent: what stands behind its last `/`, or the whole
/// path where it has none; None where no file may have this name.
pub fn sent_name(path: &str) -> Option<&str>
    ensures sent { IfSome result (λ name. IsLastPart path.entry.now name.now × IsName name.now) }
    ensures none { IfNone result ((name : List ℕ) → IsLastPart path.entry.now name → ¬ IsName name) }
{
    let name = last_part(path);
    if is_file_name(name) { Some(name) } else { None }
}

/// The last part of a path.
fn last_part(path: &str) -> &str
    ensures { IsLastPart path.entry.now result.now }
{
    match path.rfind('/') {
        Some(at) => &path[at + 1..],
        None => path,
    }
}
