//! A channel is closed.

use crate::endpoint::Endpoint;
use crate::giving::{give_if, load_of};
use carrier::{Carrier, Post};
use end_calls::CloseRefusal;
use mt_base::Kind;

impl<C: Carrier + Drop, P: Post + Drop> Endpoint<C, P> {
    ghost use Rattle.std.specs.Prelude.{◌≡◌, length, None, Some, OnOk, IfErr, OnErr};
    ghost use Rattle.mt_base.specs.declared.kinds.Role.{Role};
    ghost use Rattle.mt_base.specs.Trace.{Trace, ◌▷◌};
    ghost use Rattle.mt_endpoint.specs.Acts.{Closes};
    ghost use Rattle.end_calls.specs.Calls.{Entry, Own, acts, past};
    ghost use Rattle.end_calls.specs.Law.{unsent};
    ghost use Rattle.end_calls.specs.Refusing.{why_not_closed};
    ghost use Rattle.endpoint.specs.Attached.{load_in};
    ghost use Rattle.endpoint.specs.Laws.{KeepsLaws};
    ghost use Rattle.endpoint.specs.Standing.{EndStands};

    /// Closes an open channel, and tells the other end (MS-RDPEDYC section 2.2.4), on the main stream or through
    /// the reliable tunnel: what came of a message that isn't whole and what is held of the channel are dropped,
    /// and whole messages stay to be taken. The refusals are looked at in the order in which [`CloseRefusal`]
    /// lists them. Takes no memory.
    pub fn close_channel(&mut self, id: u32) -> Result<(), CloseRefusal>
        ensures closed { (role : Role) (t : Trace Entry) → EndStands C.stands C.left C.condition P.stands P.left P.condition self.old role t → OnOk result (EndStands C.stands C.left C.condition P.stands P.left P.condition self.new role (t ▷ Own (Closes id))) }
        ensures allowed { (role : Role) (t : Trace Entry) → EndStands C.stands C.left C.condition P.stands P.left P.condition self.old role t → OnOk result (why_not_closed (past role t).broken role (acts role t) (record { unsent = length (unsent role t); reliable = load_in C.load self.old.reliable; lossy = load_in P.load self.old.lossy }) id ≡ None) }
        ensures refused { (role : Role) (t : Trace Entry) → EndStands C.stands C.left C.condition P.stands P.left P.condition self.old role t → IfErr result (λ why. why_not_closed (past role t).broken role (acts role t) (record { unsent = length (unsent role t); reliable = load_in C.load self.old.reliable; lossy = load_in P.load self.old.lossy }) id ≡ Some why) }
        ensures unchanged { OnErr result (self.new ≡ self.old) }
        ensures laws { KeepsLaws C.law P.law self.old self.new }
    {
        let load = load_of(&self.reliable);
        if let Err(why) = self.reader.session.close_channel(id, load) {
            return Err(why);
        }
        give_if(
            &mut self.reliable,
            self.reader.session.waiting(Kind::Reliable),
        );
        self.reader.session.given(Kind::Reliable);
        Ok(())
    }
}
