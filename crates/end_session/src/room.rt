//! The room of the main queue.

use crate::session::Session;
use end_calls::{ANSWER, CONTROL, MAIN_QUEUE};

impl Session {
    ghost use Rattle.std.specs.Prelude.{◌≡◌, ◌≤◌, length};
    ghost use Rattle.mt_base.specs.Trace.{Trace};
    ghost use Rattle.mt_endpoint.specs.Acts.{Act};
    ghost use Rattle.end_calls.specs.Refusing.{main_limit, passes, when};
    ghost use Rattle.end_calls.specs.declared.limits.TheConstants.{MAIN_QUEUE};
    ghost use Rattle.end_session.specs.Standing.{Gone, Stands};

    /// The bytes that control PDUs may fill of the main queue: 3,072 are left for what reading adds, and
    /// 17 for each Soft-Sync request that is not answered yet.
    pub(crate) fn main_limit(&self) -> usize
        ensures { (t : Trace Act) (gone : Gone) → Stands self.now t gone → result ≡ main_limit t }
    {
        MAIN_QUEUE - (CONTROL + ANSWER * self.owed)
    }

    /// The limit of the main queue that so many bytes of control more would pass.
    pub(crate) fn full_main(&self, size: usize) -> Option<usize>
        requires { size ≤ MAIN_QUEUE }
        ensures { (t : Trace Act) (gone : Gone) → Stands self.now t gone → result ≡ when (passes (length ((self.now).outgoing).main) size (main_limit t)) (main_limit t) }
    {
        let limit = self.main_limit();
        if self.outgoing.main_len() + size > limit {
            Some(limit)
        } else {
            None
        }
    }
}
