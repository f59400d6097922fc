//! What wakes a stream that waits: its own bytes, and the datagrams of the wire beside it.

use libc::net::{POLLIN, poll};
use libc::types::pollfd;
use std::cell::Cell;
use std::os::fd::{AsRawFd, RawFd};

/// How long a stream waits at most, in milliseconds.
const WAIT: i32 = 1;

/// The socket of a wire, so that a stream which waits for bytes also wakes for datagrams. The
/// stream and the wire of one session are made with the same bell.
#[derive(Drop)]
pub struct Bell {
    wire: Cell<RawFd>,
}

impl Bell {
    /// A bell of a wire that isn't open.
    pub fn new() -> Bell {
        Bell {
            wire: Cell::new(-1),
        }
    }

    /// The wire was opened, with this socket.
    pub(crate) fn hang<S: AsRawFd>(&self, socket: &S) {
        self.wire.set(socket.as_raw_fd());
    }

    /// Waits until the stream or the wire has something to read, and at most a millisecond. A
    /// socket that isn't open is left out, and a wait that is cut short is no fault.
    pub(crate) fn wait<S: AsRawFd>(&self, stream: &S) {
        let watched = |fd| pollfd {
            fd,
            events: POLLIN,
            revents: 0,
        };
        let mut sockets = [watched(stream.as_raw_fd()), watched(self.wire.get())];
        let _ready = poll(&mut sockets, WAIT);
    }
}
