//! Where an end stops reading.

use crate::session::Session;
use end_calls::{ANSWER, CONTROL, INBOX, MAIN_QUEUE};

impl Session {
    ghost use Rattle.std.specs.Prelude.{◌≡◌, ◌+◌, ◌*◌, ◌≤◌, ◌||◌, nat_le, nat_lt, false, length};
    ghost use Rattle.mt_base.specs.Trace.{Trace};
    ghost use Rattle.dvc_channels.specs.Acts.{waiting};
    ghost use Rattle.mt_endpoint.specs.Acts.{Act};
    ghost use Rattle.mt_endpoint.specs.Channels.{table};
    ghost use Rattle.end_calls.specs.declared.limits.TheConstants.{ANSWER, CONTROL, INBOX, MAIN_QUEUE};
    ghost use Rattle.end_calls.specs.Stops.{answers_owed};
    ghost use Rattle.end_session.specs.Standing.{Gone, Stands};

    /// Whether reading stops until messages are taken, or bytes of the main stream handed out: messages of
    /// [`INBOX`] bytes wait, each counted with 64 more, or the main queue has fewer than [`CONTROL`] bytes free
    /// beside [`ANSWER`] for each Soft-Sync request that isn't answered.
    pub fn is_full(&self) -> bool
        ensures acts { (t : Trace Act) (gone : Gone) → Stands self.now t gone → result ≡ (nat_le INBOX (waiting (table (self.now).role t)) || nat_lt MAIN_QUEUE (length ((self.now).outgoing).main + (CONTROL + answers_owed t))) }
        ensures room { result ≡ false → length ((self.now).outgoing).main + (CONTROL + ANSWER * (self.now).owed) ≤ MAIN_QUEUE }
    {
        let needed = CONTROL + ANSWER * self.owed;
        self.channels.waiting() >= INBOX || self.outgoing.main_len() + needed > MAIN_QUEUE
    }
}
