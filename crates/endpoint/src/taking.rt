//! Messages are handed out.

use crate::endpoint::Endpoint;
use carrier::{Carrier, Post};
use dvc_channels::Message;

impl<C: Carrier + Drop, P: Post + Drop> Endpoint<C, P> {
    ghost use Rattle.std.specs.Prelude.{◌≡◌, slice_get, IfSome, IfNone};
    ghost use Rattle.mt_base.specs.declared.kinds.Role.{Role};
    ghost use Rattle.mt_base.specs.Trace.{Trace, ◌▷◌};
    ghost use Rattle.dvc_channels.specs.Acts.{untaken};
    ghost use Rattle.mt_endpoint.specs.Acts.{Takes};
    ghost use Rattle.mt_endpoint.specs.Channels.{table};
    ghost use Rattle.end_calls.specs.Calls.{Entry, Own, acts};
    ghost use Rattle.endpoint.specs.Laws.{KeepsLaws};
    ghost use Rattle.endpoint.specs.Standing.{EndStands};

    /// Hands out the oldest whole message of a channel that was not handed out yet, also of a closed channel,
    /// and where the end is broken; `None` where there is none, and then nothing changes. Takes no memory.
    pub fn take(&mut self, id: u32) -> Option<Message>
        ensures taken { (role : Role) (t : Trace Entry) → EndStands C.stands C.left C.condition P.stands P.left P.condition self.old role t → IfSome result (λ message. EndStands C.stands C.left C.condition P.stands P.left P.condition self.new role (t ▷ Own (Takes id message))) }
        ensures oldest { (role : Role) (t : Trace Entry) → EndStands C.stands C.left C.condition P.stands P.left P.condition self.old role t → result ≡ slice_get (untaken (table role (acts role t)) id) 0 }
        ensures none { IfNone result (self.new ≡ self.old) }
        ensures laws { KeepsLaws C.law P.law self.old self.new }
    {
        self.reader.session.take(id)
    }
}
