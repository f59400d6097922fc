//! Laws of two ends and the stream between them.

ghost use Rattle.std.specs.Prelude.{◌≡◌, ℕ, List, Ok};
ghost use Rattle.mt_base.specs.declared.kinds.Role.{Role};
ghost use Rattle.mt_base.specs.declared.kinds.Role.TheVariants.{Server, Client};
ghost use Rattle.mt_base.specs.Ends.{other};
ghost use Rattle.mt_base.specs.Trace.{Trace};
ghost use Rattle.dvc_pdus.specs.Value.{Pdu};
ghost use Rattle.mt_world.specs.Acts.{Entry, past, reads, taken, written, sent, delivered};
ghost use Rattle.mt_script.specs.declared.event.Event.TheVariants.{Main};
ghost use Rattle.mt_script.specs.declared.event.Line.{Line};
ghost use Rattle.mt_script.specs.Meaning.{ReadsAs};
ghost use Rattle.mt_world.specs.Net.{Net, Safe, at, acts_of};
ghost use Rattle.mt_world.specs.Play.{play, played, start};
ghost use Rattle.mt_world.specs.Stream.{IsCut};

use dvc_pdus::{reading_by_layout, written_is_read};

/// Where both sides are ends, and each took the front of what left the other, the messages that
/// came on a channel are the first of those that were sent on it, each once and in order.
pub fn net_is_safe()
    ensures { (w : Trace (Role × Entry)) → Net w → Safe w }
{
    reading_by_layout();
    written_is_read();
}

/// Where a side took all that the other wrote, all messages that were sent to it came.
pub fn all_arrives()
    ensures to_server { (w : Trace (Role × Entry)) → Net w → taken (at Server w) ≡ written Client (acts_of Client w) → (id : ℕ) → delivered id (acts_of Server w) ≡ sent id (acts_of Client w) }
    ensures to_client { (w : Trace (Role × Entry)) → Net w → taken (at Client w) ≡ written Server (acts_of Server w) → (id : ℕ) → delivered id (acts_of Client w) ≡ sent id (acts_of Server w) }
{
    reading_by_layout();
    written_is_read();
}

/// The list that Play gives for the lines of a script is that of two ends of which each took what
/// left the other, and so the messages that came are the first of those that were sent. Where it is
/// followed by a line by which all bytes of a side arrive, all messages that the side sent came.
pub fn plays_safely()
    ensures net { (text : List ℕ) (lines : List Line) → ReadsAs text (Ok lines) → Net (play start lines).0 }
    ensures safe { (text : List ℕ) (lines : List Line) → ReadsAs text (Ok lines) → Safe (play start lines).0 }
    ensures arrives { (text : List ℕ) (lines : List Line) (side : Role) (v : Trace (Role × Entry)) → ReadsAs text (Ok lines) → played (play start lines).0 (Main side) ≡ Ok v → (id : ℕ) → delivered id (acts_of (other side) v) ≡ sent id (acts_of side v) }
{
    net_is_safe();
    reading_by_layout();
    written_is_read();
}

/// What an end has read of the stream that it took is the longest list of whole frames at its front,
/// and a stream has one such list. So it doesn't matter in which pieces the stream came.
pub fn stream_is_read()
    ensures read { (role : Role) (t : Trace Entry) → IsCut (other role) (taken t) (reads (past role t).acts) (past role t).part }
    ensures only { (from : Role) (stream : List ℕ) (p q : List Pdu) (r s : List ℕ) → IsCut from stream p r → IsCut from stream q s → (p ≡ q) × (r ≡ s) }
{}
