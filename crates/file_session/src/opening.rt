//! A server creates the channel of files, asks for its tunnel, and moves it there.

ghost use Rattle.std.specs.Prelude.{◌≡◌, ◌≢◌, ◌∷◌, [], true, false, None, OnErr, IfOk, Ok, length, ◌&&◌};
ghost use Rattle.mt_base.specs.declared.kinds.Kind.TheVariants as kinds;
ghost use Rattle.mt_base.specs.declared.kinds.Role.{Role as Side};
ghost use Rattle.mt_base.specs.declared.kinds.Role.TheVariants as sides;
ghost use Rattle.mt_base.specs.Trace.{Trace, ◌▷◌};
ghost use Rattle.mt_endpoint.specs.Channels.{is_open};
ghost use Rattle.mt_endpoint.specs.Tunnels.{tunnel};
ghost use Rattle.end_calls.specs.Calls.{Entry, acts, past};
ghost use Rattle.end_calls.specs.Law.{unsent};
ghost use Rattle.end_calls.specs.Refusing.{why_not_moved};
ghost use Rattle.end_session.specs.Known.{state_of};
ghost use Rattle.endpoint.specs.Laws.{KeepsLaws};
ghost use Rattle.endpoint.specs.Standing.{EndStands};
ghost use Rattle.file_session.specs.Opening.{CreatesChannel, is_open_state, moving};

use carrier::{Carrier, Post};
use dvc_channels::ChannelState;
use end_calls::OpenRefusal;
use end_session::TunnelState;
use endpoint::Endpoint;
use mt_base::{Kind, NoMemory};

/// A server creates the channel of files, where it may, and asks in the same turn for a reliable tunnel with this id
/// and cookie. Tells whether the channel was created.
pub fn open_files<C: Carrier + Drop, P: Post + Drop>(
    end: &mut Endpoint<C, P>,
    id: u32,
    cookie: &[u8; 16],
) -> Result<bool, NoMemory>
    requires stands { (t : Trace Entry) × EndStands C.stands C.left C.condition P.stands P.left P.condition end.old sides.Server t }
    ensures created { (role : Side) (t : Trace Entry) → EndStands C.stands C.left C.condition P.stands P.left P.condition end.old role t → result ≡ Ok true →
        (later : Trace Entry) × CreatesChannel role id cookie.now t later × EndStands C.stands C.left C.condition P.stands P.left P.condition end.new role later }
    ensures waits { result ≡ Ok false → end.new ≡ end.old }
    ensures laws { KeepsLaws C.law P.law end.old end.new }
    ensures unchanged { OnErr result (end.new ≡ end.old) }
{
    match end.open_channel(b"files") {
        Ok(_) => {
            let _asked = end.ask_tunnel(Kind::Reliable, id, cookie);
            Ok(true)
        }
        Err(OpenRefusal::NoMemory) => Err(NoMemory),
        Err(_) => Ok(false),
    }
}

/// Whether the tunnel is open.
fn is_open_tunnel(state: TunnelState) -> bool
    ensures { result ≡ is_open_state state }
{
    match state {
        TunnelState::None => false,
        TunnelState::Asked => false,
        TunnelState::Attached => false,
        TunnelState::Open => true,
        TunnelState::Refused { .. } => false,
        TunnelState::Silent { .. } => false,
    }
}

/// A server moves channel 1 to its reliable tunnel in a turn in which both are open. Tells whether it did.
#[tactic(auto, using(crate::proofs::LawsKept::laws_same))]
pub fn move_files<C: Carrier + Drop, P: Post + Drop>(end: &mut Endpoint<C, P>) -> bool
    requires { (end.old.reader.session).role ≡ sides.Server }
    ensures moved { (role : Side) (t : Trace Entry) → EndStands C.stands C.left C.condition P.stands P.left P.condition end.old role t → result ≡ true →
        EndStands C.stands C.left C.condition P.stands P.left P.condition end.new role (t ▷ moving) }
    ensures open { (role : Side) (t : Trace Entry) → EndStands C.stands C.left C.condition P.stands P.left P.condition end.old role t → result ≡ true →
        (is_open role 1 (acts role t) ≡ true) × (is_open_state (state_of (tunnel role kinds.Reliable (acts role t))) ≡ true) }
    ensures refused { (role : Side) (t : Trace Entry) → EndStands C.stands C.left C.condition P.stands P.left P.condition end.old role t → result ≡ false →
        is_open role 1 (acts role t) ≡ true → is_open_state (state_of (tunnel role kinds.Reliable (acts role t))) ≡ true →
        why_not_moved (past role t).broken (acts role t) (length (unsent role t)) (1 ∷ []) [] ≢ None }
    ensures unmoved { result ≡ false → end.new ≡ end.old }
    ensures laws { KeepsLaws C.law P.law end.old end.new }
{
    let ChannelState::Open = end.channel(1) else {
        return false;
    };
    if !is_open_tunnel(end.tunnel(Kind::Reliable)) {
        return false;
    }
    match end.soft_sync(&[1], &[]) {
        Ok(()) => true,
        Err(_) => false,
    }
}
