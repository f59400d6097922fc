//! The steps of a server: it creates channels, asks for tunnels, and moves channels to them.

use crate::endpoint::Endpoint;
use carrier::{Carrier, Post};
use end_calls::{AskRefusal, MoveRefusal, OpenRefusal};
use mt_base::Kind;

impl<C: Carrier + Drop, P: Post + Drop> Endpoint<C, P> {
    ghost use Rattle.std.specs.Prelude.{◌≡◌, length, None, Some, IfOk, OnOk, IfErr, OnErr};
    ghost use Rattle.mt_base.specs.declared.kinds.Role.{Role};
    ghost use Rattle.mt_base.specs.declared.kinds.Role.TheVariants.{Server};
    ghost use Rattle.mt_base.specs.Trace.{Trace, ◌▷◌};
    ghost use Rattle.mt_endpoint.specs.Acts.{Asks, Opens, Syncs};
    ghost use Rattle.end_calls.specs.Calls.{Entry, Own, acts, past};
    ghost use Rattle.end_calls.specs.Law.{unsent};
    ghost use Rattle.end_calls.specs.Refusing.{next_id, why_not_asked, why_not_moved, why_not_opened};
    ghost use Rattle.end_session.specs.Causes.{IsOpenCause};
    ghost use Rattle.endpoint.specs.Laws.{KeepsLaws};
    ghost use Rattle.endpoint.specs.Standing.{EndStands};

    /// A server creates a channel (MS-RDPEDYC section 2.2.2.1), and gives its id: 1, 2, 3 and so on. The
    /// refusals are looked at in the order in which [`OpenRefusal`] lists them.
    pub fn open_channel(&mut self, name: &[u8]) -> Result<u32, OpenRefusal>
        requires { (self.old.reader.session).role ≡ Server }
        ensures opened { (role : Role) (t : Trace Entry) → EndStands C.stands C.left C.condition P.stands P.left P.condition self.old role t → IfOk result (λ id. (id ≡ next_id (acts role t)) × EndStands C.stands C.left C.condition P.stands P.left P.condition self.new role (t ▷ Own (Opens id name.now))) }
        ensures allowed { (role : Role) (t : Trace Entry) → EndStands C.stands C.left C.condition P.stands P.left P.condition self.old role t → OnOk result (why_not_opened (past role t).broken (acts role t) (length (unsent role t)) name.now ≡ None) }
        ensures refused { (role : Role) (t : Trace Entry) → EndStands C.stands C.left C.condition P.stands P.left P.condition self.old role t → IfErr result (λ why. IsOpenCause (why_not_opened (past role t).broken (acts role t) (length (unsent role t)) name.now) why) }
        ensures unchanged { OnErr result (self.new ≡ self.old) }
        ensures laws { KeepsLaws C.law P.law self.old self.new }
    {
        self.reader.session.open_channel(name)
    }

    /// A server asks the client for a tunnel of this kind with an id and a cookie (MS-RDPBCGR section
    /// 2.2.15.1). The refusals are looked at in the order in which [`AskRefusal`] lists them. Takes no memory.
    pub fn ask_tunnel(&mut self, kind: Kind, id: u32, cookie: &[u8; 16]) -> Result<(), AskRefusal>
        requires { (self.old.reader.session).role ≡ Server }
        ensures asked { (role : Role) (t : Trace Entry) → EndStands C.stands C.left C.condition P.stands P.left P.condition self.old role t → OnOk result (EndStands C.stands C.left C.condition P.stands P.left P.condition self.new role (t ▷ Own (Asks kind id cookie.now))) }
        ensures allowed { (role : Role) (t : Trace Entry) → EndStands C.stands C.left C.condition P.stands P.left P.condition self.old role t → OnOk result (why_not_asked (past role t).broken (acts role t) (length (unsent role t)) kind id cookie.now ≡ None) }
        ensures refused { (role : Role) (t : Trace Entry) → EndStands C.stands C.left C.condition P.stands P.left P.condition self.old role t → IfErr result (λ why. why_not_asked (past role t).broken (acts role t) (length (unsent role t)) kind id cookie.now ≡ Some why) }
        ensures unchanged { OnErr result (self.new ≡ self.old) }
        ensures laws { KeepsLaws C.law P.law self.old self.new }
    {
        self.reader.session.ask_tunnel(kind, id, cookie)
    }

    /// A server moves open channels to its open tunnels by a Soft-Sync request (MS-RDPEDYC sections 2.2.5.1
    /// and 3.1.5.3): what it sends on them goes through the tunnels from now on. The refusals are looked at
    /// in the order in which [`MoveRefusal`] lists them. Takes no memory.
    pub fn soft_sync(&mut self, reliable: &[u32], lossy: &[u32]) -> Result<(), MoveRefusal>
        requires { (self.old.reader.session).role ≡ Server }
        ensures moved { (role : Role) (t : Trace Entry) → EndStands C.stands C.left C.condition P.stands P.left P.condition self.old role t → OnOk result (EndStands C.stands C.left C.condition P.stands P.left P.condition self.new role (t ▷ Own (Syncs reliable.now lossy.now))) }
        ensures allowed { (role : Role) (t : Trace Entry) → EndStands C.stands C.left C.condition P.stands P.left P.condition self.old role t → OnOk result (why_not_moved (past role t).broken (acts role t) (length (unsent role t)) reliable.now lossy.now ≡ None) }
        ensures refused { (role : Role) (t : Trace Entry) → EndStands C.stands C.left C.condition P.stands P.left P.condition self.old role t → IfErr result (λ why. why_not_moved (past role t).broken (acts role t) (length (unsent role t)) reliable.now lossy.now ≡ Some why) }
        ensures unchanged { OnErr result (self.new ≡ self.old) }
        ensures laws { KeepsLaws C.law P.law self.old self.new }
    {
        self.reader.session.soft_sync(reliable, lossy)
    }
}
