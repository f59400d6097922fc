//! Bytes that go from one end of a link to the other.

ghost use Rattle.std.specs.Prelude.{◌≡◌, ◌≤◌, ◌+◌, [], length, take, drop, IfSome, OnOk};
ghost use Rattle.link_bench.specs.Passing.{Passes};

use crate::fault::Fault;
use crate::network::Network;
use carrier::Carrier;

/// Bytes that are given at a time.
pub(crate) const PIECE: usize = 1_000;

/// Bytes that are pulled at a time, at most.
const PULLED: usize = 4_096;

/// Turns in which nothing has to go over.
const SPARE: usize = 1_000;

/// Lets all of the bytes go from one end to the other over a network that loses each datagram whose
/// number can be divided by `lost`. About `ahead` bytes are given before the first datagram goes, as
/// far as they find room, and in each turn a piece where it finds room: so each give but the last
/// ones finds about so many bytes waiting.
///
/// Where it is `Ok`, just these bytes were given to the near end, and just these were pulled from the
/// far one.
pub(crate) fn cross<C: Carrier>(
    near: &mut C,
    far: &mut C,
    bytes: &[u8],
    lost: u64,
    ahead: usize,
) -> Result<(), Fault>
    ensures near { OnOk result (Passes (C.stands near.old) (C.stands near.new) bytes.now []) }
    ensures far { OnOk result (Passes (C.stands far.old) (C.stands far.new) [] bytes.now) }
{
    let mut network = Network::new(lost);
    let mut piece = [0; PULLED];
    let mut given = give_ahead(near, bytes, ahead);
    let mut pulled = 0;
    for _turn in 0..bytes.len().saturating_add(SPARE) {
        given += give(near, &bytes[given..]);
        let forth = network.carry(near, far);
        let back = network.carry(far, near);
        let Some(count) = pull(far, &bytes[pulled..], &mut piece) else {
            return Err(Fault::Wrong);
        };
        pulled += count;
        if given == bytes.len() && pulled == bytes.len() {
            return Ok(());
        }
        if !forth && !back && !network.wait(near, far) {
            return Err(Fault::GaveUp);
        }
    }
    Err(Fault::GaveUp)
}

/// Gives about so many of the bytes to a link, as far as they find room, and answers how many it
/// took.
fn give_ahead<C: Carrier>(link: &mut C, bytes: &[u8], ahead: usize) -> usize
    ensures bound { result ≤ length bytes.now }
    ensures passes { Passes (C.stands link.old) (C.stands link.new) (take result bytes.now) [] }
{
    let mut given = 0;
    for _piece in 0..ahead / PIECE {
        given += give(link, &bytes[given..]);
    }
    given
}

/// Gives the next bytes to a link, and answers how many it took.
fn give<C: Carrier>(link: &mut C, rest: &[u8]) -> usize
    ensures bound { result ≤ length rest.now }
    ensures passes { Passes (C.stands link.old) (C.stands link.new) (take result rest.now) [] }
{
    let count = rest.len().min(PIECE);
    if count == 0 {
        return 0;
    }
    match link.give(&rest[..count]) {
        Ok(()) => count,
        Err(_) => 0,
    }
}

/// Pulls bytes from a link into a piece, and answers how many there were; `None` where they are not
/// the next of `rest`.
fn pull<C: Carrier>(link: &mut C, rest: &[u8], piece: &mut [u8; PULLED]) -> Option<usize>
    ensures { IfSome result (λ n. (n ≤ length rest.now) × Passes (C.stands link.old) (C.stands link.new) [] (take n rest.now)) }
{
    let count = link.pull(piece);
    if count <= rest.len() && piece[..count] == rest[..count] {
        Some(count)
    } else {
        None
    }
}
