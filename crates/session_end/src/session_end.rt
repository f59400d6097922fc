//! An end with its links as the end of a session.

use carrier::{Carrier, Post, Took};
use endpoint::Endpoint;
use mt_base::Kind;
use mt_session::End;

/// An end with its links, as a session calls it.
#[derive(Drop)]
pub struct SessionEnd<C: Carrier + Drop, P: Post + Drop> {
    /// Its other calls are made between two turns.
    pub endpoint: Endpoint<C, P>,
}

impl<C: Carrier + Drop, P: Post + Drop> End for SessionEnd<C, P> {
    ghost use Rattle.endpoint.specs.Standing.{EndStands};
    ghost use Rattle.end_calls.specs.Calls.{Entry};

    ghost stands = { λ e role t. EndStands C.stands C.left C.condition P.stands P.left P.condition e.endpoint role t };

    fn main_in(&mut self, bytes: &[u8]) -> usize {
        self.endpoint.main_in(bytes)
    }

    fn main_out(&mut self, out: &mut [u8]) -> usize {
        self.endpoint.main_out(out)
    }

    fn wire_in(&mut self, link: Kind, now: u64, datagram: &[u8]) -> Took {
        self.endpoint.wire_in(link, now, datagram)
    }

    fn wire_out(&mut self, link: Kind, now: u64, out: &mut [u8; 1232]) -> Option<usize> {
        self.endpoint.wire_out(link, now, out)
    }

    fn attached(&self, link: Kind) -> bool {
        self.endpoint.attached(link)
    }

    ghost lawful = { λ e role t h. h.tells.law };
}
