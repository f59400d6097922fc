//! A channel is closed, and its close is written.

ghost use Rattle.std.specs.Prelude.{◌≡◌, false};
ghost use Rattle.mt_base.specs.Trace.{Trace, ◌▷◌};
ghost use Rattle.dvc_channels.specs.Acts.{Act as Change, Ended, TakesData, state};
ghost use Rattle.dvc_channels.specs.Table as table;
ghost use Rattle.hold_queue.specs.Held as hold;
ghost use Rattle.soft_sync.specs.Words.{HasPlace, told};

use crate::outgoing::Outgoing;
use crate::spelled::Spelled;
use dvc_channels::Channels;
use dvc_pdus::DvcPdu;
use hold_queue::Hold;
use mt_base::Kind;
use soft_sync::{Path, Paths};

/// A channel that takes data is closed, and what is held of it is dropped.
pub(crate) fn end_channel(
    id: u32,
    channels: &mut Channels,
    paths: &mut Paths,
    reliable: &mut Hold,
    lossy: &mut Hold,
)
    requires takes { (u : Trace Change) × table.Stands channels.old u × TakesData (state u id) }
    requires place { HasPlace id (paths.old).channels }
    ensures ended { (u : Trace Change) → table.Stands channels.old u → table.Stands channels.new (u ▷ Ended id) }
    ensures paths { paths.new ≡ record paths.old { channels = told id false (paths.old).channels } }
    ensures reliable { reliable.new ≡ hold.without id reliable.old }
    ensures lossy { lossy.new ≡ hold.without id lossy.old }
{
    let Ok(()) = channels.close(id) else {
        unreachable!()
    };
    paths.set_channel(id, false);
    reliable.drop_all(id);
    lossy.drop_all(id);
}

impl Outgoing {
    ghost use Rattle.std.specs.Prelude.{◌≡◌, ◌+◌, ◌≤◌, length};
    ghost use Rattle.mt_base.specs.declared.kinds.Kind.TheVariants.{Reliable};
    ghost use Rattle.mt_endpoint.specs.Writing.{closing};
    ghost use Rattle.end_calls.specs.declared.limits.TheConstants.{MAIN_QUEUE};
    ghost use Rattle.end_session.specs.Outgoing.{waiting_for};
    ghost use Rattle.end_session.specs.Writes.{writes};

    /// Writes the close of a channel whose data go this way (MS-RDPEDYC section 2.2.4): through the
    /// reliable tunnel, unless that is silent, and else on the main stream.
    pub fn close(&mut self, path: Path, id: u32, is_silent: bool)
        requires room { length (self.old).main + 8 ≤ MAIN_QUEUE }
        requires waits { length (waiting_for Reliable self.old) + 9 ≤ 3072 }
        ensures { self.new ≡ writes is_silent (closing path id) self.old }
    {
        let pdu = Spelled::of(&DvcPdu::Close { id });
        match path {
            Path::Main => self.say(pdu.bytes()),
            Path::Tunnel(kind) => match kind {
                Kind::Lossy => self.say(pdu.bytes()),
                Kind::Reliable => {
                    if is_silent {
                        return;
                    }
                    self.carry(Kind::Reliable, pdu.bytes());
                }
            },
        }
    }
}
