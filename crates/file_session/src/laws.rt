//! What holds of the messages of files in the calls of an end.

ghost use Rattle.std.specs.Prelude.{◌≡◌, ◌++◌, ℕ, List, All, length};
ghost use Rattle.mt_base.specs.Trace.{Trace};
ghost use Rattle.end_calls.specs.Calls.{Entry};
ghost use Rattle.file_messages.specs.Files.{File, Message, IsName};
ghost use Rattle.file_transfer.specs.Own.{Own};
ghost use Rattle.file_transfer.specs.Sending.{HasSent, Follow, IsFront};
ghost use Rattle.file_transfer.specs.declared.outgoing.Outgoing.{Outgoing};
ghost use Rattle.file_session.specs.Messages.{handed, sent, with_sends, with_takes};

use file_transfer::what_was_sent_is_a_front;

/// Messages that are sent stand behind those that were sent, and leave what was handed out as it was; and the other way
/// round for those that are handed out.
pub fn calls_are_apart()
    ensures sends { (t : Trace Entry) (messages : List Message) → (sent (with_sends t messages) ≡ sent t ++ messages) × (handed (with_sends t messages) ≡ handed t) }
    ensures takes { (t : Trace Entry) (messages : List Message) → (handed (with_takes t messages) ≡ handed t ++ messages) × (sent (with_takes t messages) ≡ sent t) }
{}

/// What an end sent on channel 1 is the front of the messages that are written for its own files, with the contents that
/// were read so far and any that go on with them.
pub fn an_end_sends_a_front()
    ensures { (o : Outgoing) (contents : List (List ℕ)) (t : Trace Entry) (files : List File) →
        All (λ (own : Own). IsName own.name) o.files.items → length contents ≡ length o.files.items →
        HasSent o (sent t) files → Follow o contents files → IsFront o.files.items contents (sent t) }
{
    what_was_sent_is_a_front();
}
