//! A socket with one peer.

ghost use Rattle.std.specs.Prelude.{◌≡◌, ◌≢◌, ◌⊎◌, ℕ, ◌+◌, ◌<◌, ◌≤◌, length, take, None, Some, Ok, IfSome, IsSome, IsNone, IfOk};
ghost use Rattle.std.specs.declared.net.socket_addr.SocketAddr.{SocketAddr};

use crate::failed::Failed;
use libc::net::{SO_RCVBUF, SO_SNDBUF, SOL_SOCKET, setsockopt};
use mt_base::Role;
use std::io;
use std::io::ErrorKind;
use std::net::{Ipv4Addr, Net, SocketAddr, UdpSocket};
use std::os::fd::AsRawFd;

/// The most bytes of a datagram that is taken.
const MOST: usize = 1232;

/// How many datagrams are given in a row: as many numbers as one telling of the second layout can
/// speak of (MS-RDPEUDP2 section 2.2.1.2.1).
const IN_A_ROW: u32 = 16;

/// How many datagrams one call drops.
const DROPS: u32 = 64;

/// How many bytes of datagrams the socket is asked to hold, in each direction.
const HELD: i32 = 4_194_304;

/// A socket that doesn't wait, and its peer, once that is known.
#[derive(Drop)]
pub(crate) struct Line {
    pub(crate) socket: UdpSocket,
    peer: Option<SocketAddr>,
    in_a_row: u32,
}

/// What one try to receive found.
enum Came {
    /// A datagram of the peer, of so many bytes.
    Datagram(usize),
    /// A datagram that is dropped.
    Dropped,
    /// None.
    Nothing,
}

impl Line {
    /// The server's end at this port, or the client's end for the server at this port.
    pub(crate) fn open<R: Net>(rt: &R, role: Role, port: u16) -> io::Result<Line> {
        let peer = match role {
            Role::Server => None,
            Role::Client => Some(SocketAddr::from((Ipv4Addr::LOCALHOST, port))),
        };
        let own = match role {
            Role::Server => port,
            Role::Client => 0,
        };
        let socket = UdpSocket::bind(rt, (Ipv4Addr::LOCALHOST, own))?;
        socket.set_nonblocking(true)?;
        ask_for_room(&socket);
        Ok(Line {
            socket,
            peer,
            in_a_row: 0,
        })
    }

    /// Sends a datagram to the peer. It is lost where no peer is known, where the peer's port is
    /// closed, and where the socket has no room for it now.
    pub(crate) fn send(&self, datagram: &[u8]) -> Result<(), Failed> {
        let Some(peer) = self.peer else {
            return Ok(());
        };
        match self.socket.send_to(datagram, peer) {
            Ok(_) => Ok(()),
            Err(error) if is_no_fault(error.kind()) => Ok(()),
            Err(_) => Err(Failed),
        }
    }

    /// The next datagram of the peer, at the front of `out`, and its length; none where none is
    /// there, and after so many in a row.
    pub(crate) fn next(&mut self, out: &mut [u8; 1232]) -> Result<Option<usize>, Failed>
        ensures bound { IfOk result (λ got. IfSome got (λ n. n ≤ 1232)) }
        ensures more { (n : ℕ) → result ≡ Ok (Some n) →
            (self.old.in_a_row < 16) × (self.new.in_a_row ≡ self.old.in_a_row + 1) }
        ensures none { result ≡ Ok None → self.new.in_a_row ≡ 0 }
    {
        if self.in_a_row >= IN_A_ROW {
            self.in_a_row = 0;
            return Ok(None);
        }
        let found = next_of(&self.socket, &mut self.peer, out)?;
        self.in_a_row = if found.is_some() {
            self.in_a_row + 1
        } else {
            0
        };
        Ok(found)
    }
}

/// The next datagram of the peer that the socket holds. So many others may be dropped before it.
fn next_of(
    socket: &UdpSocket,
    peer: &mut Option<SocketAddr>,
    out: &mut [u8; 1232],
) -> Result<Option<usize>, Failed>
    ensures bound { IfOk result (λ got. IfSome got (λ n. n ≤ 1232)) }
{
    for _ in 0..DROPS {
        match receive(socket, peer, out)? {
            Came::Datagram(count) => return Ok(Some(count)),
            Came::Dropped => {}
            Came::Nothing => return Ok(None),
        }
    }
    Ok(None)
}

/// One try to receive.
fn receive(
    socket: &UdpSocket,
    peer: &mut Option<SocketAddr>,
    out: &mut [u8; 1232],
) -> Result<Came, Failed>
    ensures bound { (n : ℕ) → result ≡ Ok (Came.Datagram n) → n ≤ 1232 }
{
    let mut room = [0u8; MOST + 1];
    let (count, source) = match socket.recv_from(&mut room) {
        Ok(received) => received,
        Err(error) if is_no_fault(error.kind()) => return Ok(Came::Nothing),
        Err(_) => return Err(Failed),
    };
    match keep(peer, source, &room[..count], out) {
        Some(count) => Ok(Came::Datagram(count)),
        None => Ok(Came::Dropped),
    }
}

/// Keeps a datagram of the peer in `out`, and answers its length; its source is the peer from then
/// on. One of another source, an empty one and one of more than 1,232 bytes are dropped, and then
/// the peer is as it was.
fn keep(
    peer: &mut Option<SocketAddr>,
    source: SocketAddr,
    datagram: &[u8],
    out: &mut [u8; 1232],
) -> Option<usize>
    ensures bytes { IfSome result (λ n. take n out.new ≡ datagram.now) }
    ensures length { IfSome result (λ n. (n ≡ length datagram.now) × (0 < n) × (n ≤ 1232)) }
    ensures peer { IfSome result (λ n. peer.new ≡ Some source) }
    ensures same { IsNone result → peer.new ≡ peer.old }
    ensures foreign { (known : SocketAddr) → peer.old ≡ Some known → known ≢ source → IsNone result }
    ensures takes { peer.old ≡ None ⊎ peer.old ≡ Some source → 0 < length datagram.now →
        length datagram.now ≤ 1232 → IsSome result }
{
    if datagram.is_empty() || datagram.len() > MOST {
        return None;
    }
    if peer.is_some_and(|known| known != source) {
        return None;
    }
    *peer = Some(source);
    out[..datagram.len()].copy_from_slice(datagram);
    Some(datagram.len())
}

/// Whether an error says that nothing is there or has room now, or that the peer's port is closed.
fn is_no_fault(kind: ErrorKind) -> bool {
    matches!(
        kind,
        ErrorKind::WouldBlock | ErrorKind::Interrupted | ErrorKind::ConnectionRefused
    )
}

/// Asks for room for many datagrams. A machine that gives less is no fault.
fn ask_for_room(socket: &UdpSocket) {
    let mut value = [0u8; 16];
    value[..4].copy_from_slice(&HELD.to_ne_bytes());
    let socket = socket.as_raw_fd();
    let _received = unsafe { setsockopt(socket, SOL_SOCKET, SO_RCVBUF, &value, 4) };
    let _sent = unsafe { setsockopt(socket, SOL_SOCKET, SO_SNDBUF, &value, 4) };
}
