//! An end with the streams that it reads.

use end_session::{Session, Stream};
use mt_base::{NoMemory, Role};
use std::alloc::Global;

/// One end of a session, and how far its main stream and the stream of its reliable link were read.
#[derive(Drop)]
pub struct Reader {
    pub session: Session,
    pub main: Stream,
    pub tunnel: Stream,
}

impl Reader {
    ghost use Rattle.std.specs.Prelude.{◌≡◌, IfOk};
    ghost use Rattle.mt_endpoint.specs.Acts.{Began};
    ghost use Rattle.end_calls.specs.Streams.{grows, nothing};
    ghost use Rattle.end_session.specs.Standing.{nothing_gone};
    ghost use Rattle.end_reader.specs.Standing.{Reads};

    /// An end that was made, and has read nothing. A server's capabilities wait.
    pub fn new(alloc: Global, role: Role) -> Result<Reader, NoMemory>
        ensures reads { IfOk result (λ reader. Reads reader (grows role Began nothing) nothing_gone) }
        ensures role { IfOk result (λ reader. (reader.session).role ≡ role) }
    {
        Ok(Reader {
            session: Session::new(alloc, role)?,
            main: Stream::new(),
            tunnel: Stream::new(),
        })
    }
}
