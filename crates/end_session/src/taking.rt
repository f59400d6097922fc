//! Messages are handed out.

use crate::session::Session;
use dvc_channels::Message;

impl Session {
    ghost use Rattle.std.specs.Prelude.{◌≡◌, slice_get, IfSome, IfNone};
    ghost use Rattle.mt_base.specs.Trace.{Trace, ◌▷◌};
    ghost use Rattle.dvc_channels.specs.Acts.{untaken};
    ghost use Rattle.mt_endpoint.specs.Acts.{Act, Takes};
    ghost use Rattle.mt_endpoint.specs.Channels.{table};
    ghost use Rattle.end_session.specs.Standing.{Gone, Stands};

    /// Hands out the oldest whole message of a channel that was not handed out yet, also of a closed
    /// channel, and where the end is broken. Takes no memory.
    pub fn take(&mut self, id: u32) -> Option<Message>
        ensures taken { (t : Trace Act) (gone : Gone) → Stands self.old t gone → IfSome result (λ message. Stands self.new (t ▷ Takes id message) gone) }
        ensures oldest { (t : Trace Act) (gone : Gone) → Stands self.old t gone → result ≡ slice_get (untaken (table (self.old).role t) id) 0 }
        ensures none { IfNone result (self.new ≡ self.old) }
        ensures same { ((self.new).role ≡ (self.old).role) × ((self.new).broken ≡ (self.old).broken) }
    {
        self.channels.take(id)
    }
}
