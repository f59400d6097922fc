//! Rings of a fixed capacity.

ghost use Rattle.std.specs.Prelude.{◌≡◌, ◌+◌, ◌-◌, ◌≤◌, ◌++◌, ◌∷◌, [], length, min, take, drop};

use circular_buffer::HeapCircularBuffer;

/// Puts these bytes at the end, where there is room for them.
pub fn append(queue: &mut HeapCircularBuffer<u8>, bytes: &[u8])
    requires { length queue.old.items + length bytes.now ≤ queue.old.capacity }
    ensures items { queue.new.items ≡ queue.old.items ++ bytes.now }
    ensures capacity { queue.new.capacity ≡ queue.old.capacity }
{
    let _ = queue.fill_from_slice(bytes);
}

/// Takes as many bytes from the front as there are and fit; how many.
pub fn take_front(queue: &mut HeapCircularBuffer<u8>, out: &mut [u8; 1000]) -> usize
    ensures count { result ≡ min (length queue.old.items) 1000 }
    ensures items { queue.new.items ≡ drop result queue.old.items }
    ensures bytes { take result out.new ≡ take result queue.old.items }
    ensures rest { drop result out.new ≡ drop result out.old }
    ensures capacity { queue.new.capacity ≡ queue.old.capacity }
{
    queue.read_into(out)
}

/// Puts a number at the end, and lets the oldest go where the ring was full.
pub fn remember(queue: &mut HeapCircularBuffer<u64>, number: u64)
    ensures items { queue.new.items ≡ drop (length queue.old.items + 1 - queue.old.capacity) (queue.old.items ++ number ∷ []) }
    ensures capacity { queue.new.capacity ≡ queue.old.capacity }
{
    let _ = queue.push_back(number);
}
