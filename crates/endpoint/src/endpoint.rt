//! One end of a session.

use crate::postings::Postings;
use carrier::{Carrier, Post};
use end_reader::Reader;
use mt_base::{NoMemory, Role};
use std::alloc::Global;
use std::marker::Model;

/// One end of a session with its links. Clauses see it as what it keeps, which stands for the calls that were
/// made of it.
#[derive(Drop)]
pub struct Endpoint<C: Carrier + Drop, P: Post + Drop> {
    pub(crate) reader: Reader,
    pub(crate) postings: Postings,
    pub(crate) reliable: Option<C>,
    pub(crate) lossy: Option<P>,
}

impl<C: Carrier + Drop, P: Post + Drop> Model for Endpoint<C, P> {
    ghost use Rattle.endpoint.specs.Kept.{Kept};
    ghost use Rattle.endpoint.specs.Standing.{IsLawful};

    ghost Value = { Kept C P };

    ghost view = { λ s. record { reader = s.reader; postings = s.postings; reliable = s.reliable; lossy = s.lossy } };

    ghost invariant = { λ s. IsLawful C.stands C.left C.condition P.stands P.left P.condition (record { reader = s.reader; postings = s.postings; reliable = s.reliable; lossy = s.lossy }) };
}

impl<C: Carrier + Drop, P: Post + Drop> Endpoint<C, P> {
    ghost use Rattle.std.specs.Prelude.{◌≡◌, IfOk};
    ghost use Rattle.mt_base.specs.Trace.{Start, ◌▷◌};
    ghost use Rattle.mt_endpoint.specs.Acts.{Began};
    ghost use Rattle.end_calls.specs.Calls.{Own};
    ghost use Rattle.endpoint.specs.Standing.{EndStands};

    /// An end that was made. A server's capabilities wait.
    pub fn new(alloc: Global, role: Role) -> Result<Endpoint<C, P>, NoMemory>
        ensures { IfOk result (λ made. EndStands C.stands C.left C.condition P.stands P.left P.condition made role (Start ▷ Own Began)) }
    {
        let reader = Reader::new(alloc, role)?;
        Ok(Endpoint {
            reader,
            postings: Postings::new(),
            reliable: None,
            lossy: None,
        })
    }
}
