//! What holds of the files that are sent, and of those that are kept.

ghost use Rattle.std.specs.Prelude.{◌≡◌, ◌≢◌, ◌++◌, ℕ, List, Some, All, length};
ghost use Rattle.mt_outside.specs.Files.{Contents};
ghost use Rattle.file_messages.specs.Files.{File, Message, IsName};
ghost use Rattle.file_messages.specs.Kept.{IsLast};
ghost use Rattle.file_transfer.specs.Own.{Own};
ghost use Rattle.file_transfer.specs.Sending.{HasSent, Follow, IsFront};
ghost use Rattle.file_transfer.specs.Keeping.{with_files};
ghost use Rattle.file_transfer.specs.declared.outgoing.Outgoing.{Outgoing};

/// Of the files that came each name is kept under the prefix, with the content that came last under it, and every other
/// file of the store is as it was.
pub fn what_is_kept()
    ensures kept { (prefix : List ℕ) (files : List File) (contents : Contents) (file : File) → IsLast files file → with_files prefix files contents (prefix ++ file.name) ≡ Some file.content }
    ensures others { (prefix : List ℕ) (files : List File) (contents : Contents) (name : List ℕ) → All (λ (file : File). name ≢ prefix ++ file.name) files → with_files prefix files contents name ≡ contents name }
{}

/// What was sent so far is the front of the messages that are written for the own files, with the contents that were read
/// so far and any that go on with them.
pub fn what_was_sent_is_a_front()
    ensures { (o : Outgoing) (contents : List (List ℕ)) (sent : List Message) (files : List File) →
        All (λ (own : Own). IsName own.name) o.files.items → length contents ≡ length o.files.items →
        HasSent o sent files → Follow o contents files → IsFront o.files.items contents sent }
{}
