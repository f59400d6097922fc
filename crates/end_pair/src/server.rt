//! Steps of the server.

use crate::pair::Pair;
use carrier::{Carrier, Post};
use end_calls::{AskRefusal, MoveRefusal, OpenRefusal};
use mt_base::Kind;

impl<C: Carrier + Drop, P: Post + Drop> Pair<C, P> {
    ghost use Rattle.std.specs.Prelude.{◌≡◌, length, None, Some, IfErr, IfOk, OnErr, OnOk};
    ghost use Rattle.mt_base.specs.Trace.{Trace, ◌▷◌};
    ghost use Rattle.mt_base.specs.declared.kinds.Role.{Role as Side};
    ghost use Rattle.mt_base.specs.declared.kinds.Role.TheVariants.{Server};
    ghost use Rattle.mt_endpoint.specs.Acts.{Asks, Opens, Syncs};
    ghost use Rattle.end_calls.specs.Calls.{Entry, Own, acts, past};
    ghost use Rattle.end_calls.specs.Law.{unsent};
    ghost use Rattle.end_calls.specs.Net.{at};
    ghost use Rattle.end_calls.specs.Refusing.{next_id, why_not_asked, why_not_moved, why_not_opened};
    ghost use Rattle.end_session.specs.Causes.{IsOpenCause};
    ghost use Rattle.end_pair.specs.Joined.{PairStands};
    ghost use Rattle.end_pair.specs.Laws.{PairKeepsLaws};

    /// The server creates a channel, as [`Endpoint::open_channel`](endpoint::Endpoint::open_channel) says.
    pub fn open_channel(&mut self, name: &[u8]) -> Result<u32, OpenRefusal>
        ensures opened { (w : Trace (Side × Entry)) → PairStands C.stands C.left C.condition P.stands P.left P.condition self.old w → IfOk result (λ id. (id ≡ next_id (acts Server (at Server w))) × PairStands C.stands C.left C.condition P.stands P.left P.condition self.new (w ▷ (Server, Own (Opens id name.now)))) }
        ensures allowed { (w : Trace (Side × Entry)) → PairStands C.stands C.left C.condition P.stands P.left P.condition self.old w → OnOk result (why_not_opened (past Server (at Server w)).broken (acts Server (at Server w)) (length (unsent Server (at Server w))) name.now ≡ None) }
        ensures refused { (w : Trace (Side × Entry)) → PairStands C.stands C.left C.condition P.stands P.left P.condition self.old w → IfErr result (λ why. IsOpenCause (why_not_opened (past Server (at Server w)).broken (acts Server (at Server w)) (length (unsent Server (at Server w))) name.now) why) }
        ensures unchanged { OnErr result (self.new ≡ self.old) }
        ensures laws { PairKeepsLaws C.law P.law self.old self.new }
    {
        self.server.open_channel(name)
    }

    /// The server asks for a tunnel, as [`Endpoint::ask_tunnel`](endpoint::Endpoint::ask_tunnel) says.
    pub fn ask_tunnel(&mut self, kind: Kind, id: u32, cookie: &[u8; 16]) -> Result<(), AskRefusal>
        ensures asked { (w : Trace (Side × Entry)) → PairStands C.stands C.left C.condition P.stands P.left P.condition self.old w → OnOk result (PairStands C.stands C.left C.condition P.stands P.left P.condition self.new (w ▷ (Server, Own (Asks kind id cookie.now)))) }
        ensures allowed { (w : Trace (Side × Entry)) → PairStands C.stands C.left C.condition P.stands P.left P.condition self.old w → OnOk result (why_not_asked (past Server (at Server w)).broken (acts Server (at Server w)) (length (unsent Server (at Server w))) kind id cookie.now ≡ None) }
        ensures refused { (w : Trace (Side × Entry)) → PairStands C.stands C.left C.condition P.stands P.left P.condition self.old w → IfErr result (λ why. why_not_asked (past Server (at Server w)).broken (acts Server (at Server w)) (length (unsent Server (at Server w))) kind id cookie.now ≡ Some why) }
        ensures unchanged { OnErr result (self.new ≡ self.old) }
        ensures laws { PairKeepsLaws C.law P.law self.old self.new }
    {
        self.server.ask_tunnel(kind, id, cookie)
    }

    /// The server moves channels to tunnels, as [`Endpoint::soft_sync`](endpoint::Endpoint::soft_sync) says.
    pub fn soft_sync(&mut self, reliable: &[u32], lossy: &[u32]) -> Result<(), MoveRefusal>
        ensures moved { (w : Trace (Side × Entry)) → PairStands C.stands C.left C.condition P.stands P.left P.condition self.old w → OnOk result (PairStands C.stands C.left C.condition P.stands P.left P.condition self.new (w ▷ (Server, Own (Syncs reliable.now lossy.now)))) }
        ensures allowed { (w : Trace (Side × Entry)) → PairStands C.stands C.left C.condition P.stands P.left P.condition self.old w → OnOk result (why_not_moved (past Server (at Server w)).broken (acts Server (at Server w)) (length (unsent Server (at Server w))) reliable.now lossy.now ≡ None) }
        ensures refused { (w : Trace (Side × Entry)) → PairStands C.stands C.left C.condition P.stands P.left P.condition self.old w → IfErr result (λ why. why_not_moved (past Server (at Server w)).broken (acts Server (at Server w)) (length (unsent Server (at Server w))) reliable.now lossy.now ≡ Some why) }
        ensures unchanged { OnErr result (self.new ≡ self.old) }
        ensures laws { PairKeepsLaws C.law P.law self.old self.new }
    {
        self.server.soft_sync(reliable, lossy)
    }
}
