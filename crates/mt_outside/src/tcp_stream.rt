//! A connection on this machine as a stream.

ghost use Rattle.std.specs.Prelude.{◌≡◌, ℕ, ◌≤◌, length, None, IfOk, OnErr};
ghost use Rattle.std.specs.Io.KnownBytes.{Keeps, WriteAppends};
ghost use Rattle.mt_outside.specs.Streams.{StreamTold, IsWithin};
ghost use Rattle.mt_outside.specs.Reading.{Gave};

use crate::bell::Bell;
use crate::failed::Failed;
use crate::faults::{Faults, one_more};
use crate::got::Got;
use crate::stream::Stream;
use mt_base::Role;
use std::io;
use std::io::{ErrorKind, Read, Write};
use std::net::{Ipv4Addr, Net, OpenListener, OpenStream, TcpListener, TcpStream};

/// A TCP connection on 127.0.0.1. It tells no bytes. A read waits at most a millisecond, and not
/// where the wire beside it has a datagram; a write doesn't wait.
#[derive(Drop)]
pub struct TcpStreamOf<'a, R: Net> {
    rt: &'a R,
    bell: &'a Bell,
    stream: Option<R::Stream>,
    faults: Faults,
    quiet: u64,
    stuck: u64,
    ended: bool,
}

impl<'a, R: Net> TcpStreamOf<'a, R> {
    /// A stream that isn't open.
    pub fn new(rt: &'a R, bell: &'a Bell) -> TcpStreamOf<'a, R>
        ensures { ⟦<TcpStreamOf<'a, R> as Stream>⟧.faults result ≡ 0 }
    {
        TcpStreamOf {
            rt,
            bell,
            stream: None,
            faults: Faults::new(),
            quiet: 0,
            stuck: 0,
            ended: false,
        }
    }
}

impl<R: Net> Stream for TcpStreamOf<'_, R> {
    ghost faults = { λ s. s.faults.count };

    ghost told = { λ s. record {
      opened = None;
      read = None;
      written = None;
      quiet = s.quiet;
      stuck = s.stuck;
      ended = s.ended;
    } };

    ghost stays = { λ _ _. Unit {0} };

    fn open(&mut self, role: Role, port: u16) -> Result<(), Failed> {
        let Ok(stream) = connected(self.rt, role, port) else {
            return Err(self.faults.raise());
        };
        self.stream = Some(stream);
        Ok(())
    }

    fn read(&mut self, out: &mut [u8]) -> Result<Got, Failed> {
        let got = match &mut self.stream {
            Some(stream) => {
                self.bell.wait(stream);
                read_front(stream, out)
            }
            None => Err(Failed),
        };
        match got {
            Ok(Got::Bytes(count)) => Ok(Got::Bytes(count)),
            Ok(Got::Nothing) => {
                self.quiet = one_more(self.quiet);
                Ok(Got::Nothing)
            }
            Ok(Got::End) => {
                self.quiet = one_more(self.quiet);
                self.ended = true;
                Ok(Got::End)
            }
            Err(_) => Err(self.faults.raise()),
        }
    }

    fn write(&mut self, bytes: &[u8]) -> Result<usize, Failed> {
        let written = match &mut self.stream {
            Some(stream) => write_now(stream, bytes),
            None => Err(Failed),
        };
        let Ok(count) = written else {
            return Err(self.faults.raise());
        };
        if count == 0 && !bytes.is_empty() {
            self.stuck = one_more(self.stuck);
        }
        Ok(count)
    }

    ghost stays_same = { λ _. tt };

    ghost stays_on = { λ _ _ _ _ _. tt };
}

/// The connection with the peer at this port: the server takes one client, and then listens no
/// more.
fn connected<R: Net>(rt: &R, role: Role, port: u16) -> io::Result<R::Stream> {
    let address = (Ipv4Addr::LOCALHOST, port);
    let stream = match role {
        Role::Server => TcpListener::bind(rt, address)?.accept()?.0,
        Role::Client => TcpStream::connect(rt, address)?,
    };
    stream.set_nodelay(true)?;
    stream.set_nonblocking(true)?;
    Ok(stream)
}

/// What a reader that doesn't wait has now.
fn read_front<S: Read>(from: &mut S, out: &mut [u8]) -> Result<Got, Failed>
    ensures bound { IfOk result (λ got. IsWithin got out.new) }
    ensures gave { IfOk result (λ got. Gave (S.remaining from.old) (S.remaining from.new) got out.new) }
    ensures same { OnErr result (Keeps (S.remaining from.old) (S.remaining from.new)) }
{
    if out.is_empty() {
        return Ok(Got::Nothing);
    }
    match from.read(out) {
        Ok(0) => Ok(Got::End),
        Ok(count) => Ok(Got::Bytes(count)),
        Err(error) if is_for_later(error.kind()) => Ok(Got::Nothing),
        Err(_) => Err(Failed),
    }
}

/// How many bytes a writer that doesn't wait takes now.
fn write_now<S: Write>(to: &mut S, bytes: &[u8]) -> Result<usize, Failed>
    ensures bound { IfOk result (λ n. n ≤ length bytes.now) }
    ensures took { WriteAppends (S.contents to.old) (S.contents to.new) result bytes.now }
{
    match to.write(bytes) {
        Ok(count) => Ok(count),
        Err(error) if is_for_later(error.kind()) => Ok(0),
        Err(_) => Err(Failed),
    }
}

/// Whether an error says that a call is to be made again later.
fn is_for_later(kind: ErrorKind) -> bool {
    matches!(kind, ErrorKind::WouldBlock | ErrorKind::Interrupted)
}
