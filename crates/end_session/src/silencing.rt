//! A tunnel falls silent.

use crate::by_kind;
use crate::session::Session;
use mt_base::Kind;

impl Session {
    ghost use Rattle.std.specs.Prelude.{◌≡◌, true};
    ghost use Rattle.mt_base.specs.Trace.{Trace, ◌▷◌};
    ghost use Rattle.mt_endpoint.specs.Acts.{Act, Silences};
    ghost use Rattle.end_session.specs.OfKind.{tunnel_of};
    ghost use Rattle.end_session.specs.Standing.{Gone, Stands};

    /// The link of this kind is closed after so many expiries, or its create request was posted so often
    /// and never answered: the tunnel is silent, also where the end is broken. The call adds the act
    /// `Silences`.
    pub fn silence(&mut self, kind: Kind, expiries: u32)
        requires { (tunnel_of kind self.old).is_attached ≡ true }
        ensures stands { (t : Trace Act) (gone : Gone) → Stands self.old t gone → Stands self.new (t ▷ Silences kind expiries) gone }
        ensures same { ((self.new).role ≡ (self.old).role) × ((self.new).broken ≡ (self.old).broken) }
    {
        by_kind::silence(kind, &mut self.reliable, &mut self.lossy, expiries);
        self.paths.set_open(kind, false);
    }
}
