//! What holds of lists of file messages.

ghost use Rattle.std.specs.Prelude.{◌≡◌, ◌≢◌, ◌≤◌, List, length, All, AllPairs, Contains};
ghost use Rattle.file_messages.specs.Files.{Message, File, AreFiles, AreUnderWay, IsName};
ghost use Rattle.file_messages.specs.Kept.{kept_after, IsLast};
ghost use Rattle.file_messages.specs.Written.{AreWritten};

/// A list of messages carries at most one list of files, and so does a beginning of one.
pub fn one_meaning()
    ensures whole { (messages : List Message) (files others : List File) → AreFiles messages files → AreFiles messages others → files ≡ others }
    ensures under_way { (messages : List Message) (files others : List File) → AreUnderWay messages files → AreUnderWay messages others → files ≡ others }
{}

/// A list of messages that is whole is no beginning of another.
pub fn whole_or_under_way()
    ensures { (messages : List Message) (files others : List File) → AreFiles messages files → ¬ AreUnderWay messages others }
{}

/// What an end of this project writes for files carries these files.
pub fn written_is_read()
    ensures { (messages : List Message) (files : List File) → AreWritten messages files → AreFiles messages files }
{}

/// An end of this project writes files in one way alone.
pub fn one_writing()
    ensures { (messages others : List Message) (files : List File) → AreWritten messages files → AreWritten others files → messages ≡ others }
{}

/// At most 256 files whose names are names of files can be written, whatever their contents.
pub fn each_writing()
    ensures { (files : List File) → All (λ (file : File). IsName file.name) files → length files ≤ 256 → (messages : List Message) × AreWritten messages files }
{}

/// Of the files that came each name is kept once, with the content that came last under it.
pub fn each_name_once()
    ensures once { (files : List File) → AllPairs (λ (a b : File). a.name ≢ b.name) (kept_after files) }
    ensures last { (files : List File) → All (IsLast files) (kept_after files) }
    ensures kept { (files : List File) (file : File) → IsLast files file → Contains (kept_after files) file }
{}
