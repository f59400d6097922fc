//! A socket for datagrams on this machine as a wire.

ghost use Rattle.std.specs.Prelude.{◌≡◌, ℕ, ◌<◌, ◌≤◌, length, take, None, Some, IfSome, IsNone, IfOk};
ghost use Rattle.mt_outside.specs.Wires.{WireTold};

use crate::bell::Bell;
use crate::failed::Failed;
use crate::faults::{Faults, one_more};
use crate::line::Line;
use crate::wire::Wire;
use mt_base::Role;
use std::net::Net;

/// A UDP socket on 127.0.0.1. It tells no datagrams.
///
/// The client's peer is the port that it opens, the server's is the source of the first datagram
/// that it takes. A take drops datagrams of other sources, empty ones, and those above 1,232 bytes,
/// and answers `None` after 64 of them, and after 16 datagrams in a row that it gave.
#[derive(Drop)]
pub struct UdpWire<'a, R> {
    rt: &'a R,
    bell: &'a Bell,
    line: Option<Line>,
    faults: Faults,
    quiet: u64,
}

impl<'a, R: Net> UdpWire<'a, R> {
    /// A wire that isn't open.
    pub fn new(rt: &'a R, bell: &'a Bell) -> UdpWire<'a, R>
        ensures { ⟦<UdpWire<'a, R> as Wire>⟧.faults result ≡ 0 }
    {
        UdpWire {
            rt,
            bell,
            line: None,
            faults: Faults::new(),
            quiet: 0,
        }
    }
}

impl<R: Net> Wire for UdpWire<'_, R> {
    ghost faults = { λ s. s.faults.count };

    ghost told = { λ s. record { opened = None; taken = None; sent = None; quiet = s.quiet } };

    ghost stays = { λ _ _. Unit {0} };

    fn open(&mut self, role: Role, port: u16) -> Result<(), Failed> {
        let Ok(line) = Line::open(self.rt, role, port) else {
            return Err(self.faults.raise());
        };
        self.bell.hang(&line.socket);
        self.line = Some(line);
        Ok(())
    }

    fn send(&mut self, datagram: &[u8]) -> Result<(), Failed> {
        let sent = match &self.line {
            Some(line) => line.send(datagram),
            None => Err(Failed),
        };
        let Ok(()) = sent else {
            return Err(self.faults.raise());
        };
        Ok(())
    }

    fn take(&mut self, out: &mut [u8; 1232]) -> Result<Option<usize>, Failed> {
        let taken = match &mut self.line {
            Some(line) => line.next(out),
            None => Err(Failed),
        };
        match taken {
            Ok(Some(count)) => Ok(Some(count)),
            Ok(None) => {
                self.quiet = one_more(self.quiet);
                Ok(None)
            }
            Err(_) => Err(self.faults.raise()),
        }
    }

    ghost stays_same = { λ _. tt };

    ghost stays_on = { λ _ _ _ _ _. tt };
}
