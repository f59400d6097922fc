//! Queues of bytes of a fixed capacity.

ghost use Rattle.std.specs.Prelude.{◌≡◌, ◌+◌, ◌≤◌, ◌++◌, length, take, drop};
ghost use Rattle.std.specs.VecDeque.{deque_capacity};
ghost use Rattle.carrier.specs.Law.{IsBytes};

use std::collections::VecDeque;

/// Puts these bytes at the end, where there is room for them.
pub fn append(queue: &mut VecDeque<u8>, bytes: &[u8])
    requires { length queue.old.items + length bytes.now ≤ deque_capacity queue.old }
    ensures items { queue.new.items ≡ queue.old.items ++ bytes.now }
    ensures capacity { deque_capacity queue.old ≤ deque_capacity queue.new }
    ensures bytes { IsBytes bytes.now }
{
    for byte in bytes {
        match queue.push_back(*byte) {
            Ok(()) => {}
            Err(_) => unreachable!(),
        }
    }
}

/// Takes so many bytes from the front, and writes them to the front of `out`.
pub fn take_front(queue: &mut VecDeque<u8>, count: usize, out: &mut [u8])
    requires there { count ≤ length queue.old.items }
    requires fits { count ≤ length out.old }
    ensures items { queue.new.items ≡ drop count queue.old.items }
    ensures bytes { take count out.new ≡ take count queue.old.items }
    ensures rest { drop count out.new ≡ drop count out.old }
    ensures capacity { deque_capacity queue.old ≤ deque_capacity queue.new }
{
    for place in 0..count {
        match queue.pop_front() {
            Some(byte) => out[place] = byte,
            None => unreachable!(),
        }
    }
}
