//! A link is given what waits for it.

use crate::session::Session;
use mt_base::Kind;

impl Session {
    ghost use Rattle.std.specs.Prelude.{◌≡◌};
    ghost use Rattle.mt_base.specs.Trace.{Trace};
    ghost use Rattle.mt_endpoint.specs.Acts.{Act};
    ghost use Rattle.end_session.specs.Giving.{all_given};
    ghost use Rattle.end_session.specs.Outgoing.{emptied, waiting_for};
    ghost use Rattle.end_session.specs.Standing.{Gone, Stands};

    /// The bytes of the tunnel PDUs that were written for the link of this kind and that it was not
    /// given.
    pub fn waiting(&self, kind: Kind) -> &[u8]
        ensures { result.now ≡ waiting_for kind (self.now).outgoing }
    {
        self.outgoing.waiting(kind)
    }

    /// The link of this kind was given all that waited for it.
    pub fn given(&mut self, kind: Kind)
        ensures stands { (t : Trace Act) (gone : Gone) → Stands self.old t gone → Stands self.new t (all_given (self.old).role kind t gone) }
        ensures left { self.new ≡ record self.old { outgoing = emptied kind (self.old).outgoing } }
    {
        self.outgoing.clear(kind);
    }
}
