//! A buffer of bytes that wait.

ghost use Rattle.std.specs.Prelude.{◌≡◌, ◌≤◌, vec_len, length, drop, [], IfOk, nat_lt, not};

use mt_base::NoMemory;
use std::alloc::Global;

/// The bytes from `start` to `end` of its room wait.
#[derive(Drop)]
pub struct Buffer {
    pub(crate) room: Vec<u8>,
    pub(crate) start: usize,
    pub(crate) end: usize,
    ghost ordered: { start ≤ end },
    ghost within: { end ≤ vec_len room },
    ghost size: { vec_len room ≡ 65536 },
}

/// The size of a buffer.
pub(crate) const PIECE: usize = 65536;

impl Buffer {
    ghost use Rattle.mt_session.specs.Buffer.{held};

    /// A buffer in which nothing waits.
    pub(crate) fn new(alloc: Global) -> Result<Buffer, NoMemory>
        ensures { IfOk result (λ buffer. held buffer ≡ []) }
    {
        let Ok(room) = vec![in alloc; 0u8; PIECE] else {
            return Err(NoMemory);
        };
        Ok(Buffer {
            room,
            start: 0,
            end: 0,
        })
    }

    /// The bytes that wait.
    pub(crate) fn bytes(&self) -> &[u8]
        ensures { result.now ≡ held self.now }
    {
        &self.room[self.start..self.end]
    }

    /// How many bytes wait.
    pub(crate) fn len(&self) -> usize
        ensures { result ≡ length (held self.now) }
    {
        self.end - self.start
    }

    /// Whether none waits.
    pub(crate) fn is_empty(&self) -> bool
        ensures { result ≡ not (nat_lt 0 (length (held self.now))) }
    {
        self.start == self.end
    }

    /// Lets all bytes go.
    pub(crate) fn clear(&mut self)
        ensures end { self.new.end ≡ 0 }
        ensures start { self.new.start ≡ 0 }
    {
        self.start = 0;
        self.end = 0;
    }

    /// Moves the bytes to the front of the room.
    pub(crate) fn move_to_front(&mut self)
        ensures held { held self.new ≡ held self.old }
        ensures start { self.new.start ≡ 0 }
    {
        if self.start == 0 {
            return;
        }
        let count = self.end - self.start;
        self.room.copy_within(self.start..self.end, 0);
        self.start = 0;
        self.end = count;
    }

    /// Lets the first bytes go.
    pub(crate) fn pass(&mut self, count: usize)
        requires { count ≤ length (held self.old) }
        ensures { held self.new ≡ drop count (held self.old) }
    {
        self.start += count;
    }
}
