//! An end without its links.

ghost use Rattle.std.specs.Prelude.{◌≡◌, IfOk};
ghost use Rattle.mt_base.specs.Trace.{Start, ◌▷◌};
ghost use Rattle.mt_endpoint.specs.Acts.{Began};
ghost use Rattle.end_session.specs.Standing.{Waits, nothing_gone};

use crate::outgoing::Outgoing;
use crate::spelled::Spelled;
use crate::tunnel::Tunnel;
use dvc_channels::Channels;
use dvc_pdus::DvcPdu;
use end_calls::Fault;
use hold_queue::Hold;
use mt_base::{NoMemory, Role};
use soft_sync::Paths;
use std::alloc::Global;
use std::marker::Model;
use tunnel_cookies::Issued;

/// The version of the capabilities that an end tells (MS-RDPEDYC section 2.2.1).
pub(crate) const VERSION: u16 = 3;

/// One end of a session, without its links and without the streams that it reads. Clauses see it as
/// what it keeps, which stands for the acts so far.
#[derive(Drop)]
pub struct Session {
    pub(crate) role: Role,
    pub(crate) channels: Channels,
    pub(crate) paths: Paths,
    pub(crate) issued: Issued,
    pub(crate) reliable: Tunnel,
    pub(crate) lossy: Tunnel,
    pub(crate) held_reliable: Hold,
    pub(crate) held_lossy: Hold,
    pub(crate) is_ready: bool,
    pub(crate) owed: usize,
    pub(crate) outgoing: Outgoing,
    pub(crate) broken: Option<Fault>,
}

impl Model for Session {
    ghost use Rattle.end_session.specs.Store.{Store};
    ghost use Rattle.end_session.specs.Standing.{IsLawful};

    ghost Value = { Store };

    ghost view = { λ s. record { role = s.role; channels = s.channels; paths = s.paths; issued = s.issued; reliable = s.reliable; lossy = s.lossy; held_reliable = s.held_reliable; held_lossy = s.held_lossy; is_ready = s.is_ready; owed = s.owed; outgoing = s.outgoing; broken = s.broken } };

    ghost invariant = { λ s. IsLawful (record { role = s.role; channels = s.channels; paths = s.paths; issued = s.issued; reliable = s.reliable; lossy = s.lossy; held_reliable = s.held_reliable; held_lossy = s.held_lossy; is_ready = s.is_ready; owed = s.owed; outgoing = s.outgoing; broken = s.broken }) };
}

/// What an end of this role writes as it is made: a server its capabilities (MS-RDPEDYC section 2.2.1.1),
/// with priority charges of zero.
fn greeting(alloc: Global, role: Role) -> Result<Outgoing, NoMemory>
    ensures { IfOk result (λ outgoing. Waits role outgoing (Start ▷ Began) nothing_gone) }
{
    let mut outgoing = Outgoing::new(alloc)?;
    match role {
        Role::Server => {
            let capabilities = Spelled::of(&DvcPdu::Caps {
                version: VERSION,
                charges: Some([0; 4]),
            });
            outgoing.say(capabilities.bytes());
            Ok(outgoing)
        }
        Role::Client => Ok(outgoing),
    }
}

impl Session {
    ghost use Rattle.std.specs.Prelude.{◌≡◌, None, IfOk};
    ghost use Rattle.mt_base.specs.Trace.{Start, ◌▷◌};
    ghost use Rattle.mt_endpoint.specs.Acts.{Began};
    ghost use Rattle.end_session.specs.Standing.{Stands, nothing_gone};

    /// An end that was made. A server's capabilities wait.
    pub fn new(alloc: Global, role: Role) -> Result<Session, NoMemory>
        ensures stands { IfOk result (λ session. Stands session (Start ▷ Began) nothing_gone) }
        ensures role { IfOk result (λ session. session.role ≡ role) }
        ensures whole { IfOk result (λ session. session.broken ≡ None) }
    {
        let outgoing = greeting(alloc, role)?;
        Ok(Session {
            role,
            channels: Channels::new(alloc)?,
            paths: Paths::new(alloc)?,
            issued: Issued::new(alloc)?,
            reliable: Tunnel::new(),
            lossy: Tunnel::new(),
            held_reliable: Hold::new(alloc)?,
            held_lossy: Hold::new(alloc)?,
            is_ready: false,
            owed: 0,
            outgoing,
            broken: None,
        })
    }
}
