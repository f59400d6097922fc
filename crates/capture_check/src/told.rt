//! Whether the numbers came that a datagram tells as received.

ghost use Rattle.std.specs.Prelude.{◌≡◌, ◌⊎◌, ◌≤◌, ◌<◌, ℕ, true, false, [], length, IsTrue, IsFalse, IfSome};
ghost use Rattle.std.specs.Option.{option_copied};
ghost use Rattle.ack_vector.specs.Elements.{flags_of as flags_of_elements};
ghost use Rattle.coded_vector.specs.CodedBytes.{flags_of as flags_of_coded};
ghost use Rattle.udp1_packets.specs.Views.{body_of};
ghost use Rattle.udp2_packets.specs.Layout.{IsAck, IsVector, ack_in, vector_in};
ghost use Rattle.udp2_packets.specs.Views.{telling_of};
ghost use Rattle.capture_check.specs.Arrivals.{has};
ghost use Rattle.capture_check.specs.Tellings.{IsAcked, IsFlaggedFrom, IsFlaggedUpTo, Tells, TellsSecond, elements_in};
ghost use Rattle.capture_check.specs.TellingsSoFar.{MayTell, MayTellZero};

use crate::came::NumbersCame;
use crate::layout::{GREATEST, Layout};
use coded_vector::read_coded;
use udp1_packets::{Body1, read1};
use udp2_packets::{Telling2, read2};

/// Numbers of the first layout go round at this one.
const FIRST_ROUND: u64 = 1 << 32;

/// Numbers of the second layout go round at this one.
const SECOND_ROUND: u64 = 1 << 16;

impl Layout {
    /// Whether a datagram tells only numbers as received that came, or SeqNum 0 where none came.
    pub(crate) fn tells_what_came(self, datagram: &[u8], came: &NumbersCame) -> bool
        ensures kept { IsTrue result → (n : ℕ) → Tells self datagram.now n
            → MayTell came.now self datagram.now n }
        ensures broken { IsFalse result → (n : ℕ) × Tells self datagram.now n
            × ¬ MayTell came.now self datagram.now n }
    {
        match self {
            Layout::First => first_came(datagram, came),
            Layout::Second => second_came(datagram, came),
        }
    }
}

/// Whether a datagram of the first layout tells only numbers that came.
fn first_came(datagram: &[u8], came: &NumbersCame) -> bool
    ensures kept { IsTrue result → (n : ℕ) → Tells Layout.First datagram.now n
        → MayTell came.now Layout.First datagram.now n }
    ensures broken { IsFalse result → (n : ℕ) × Tells Layout.First datagram.now n
        × ¬ MayTell came.now Layout.First datagram.now n }
{
    match read1(datagram) {
        Ok(packet) => match elements(&packet.body) {
            Some(elements) => flagged_came(elements, packet.ack, came),
            None => true,
        },
        Err(_) => true,
    }
}

/// The elements of the vector in a packet of the first layout.
fn elements<'a>(body: &Body1<'a>) -> Option<&'a [u8]>
    ensures { option_copied result ≡ elements_in (body_of body.now) }
{
    match *body {
        Body1::Syn(_) => None,
        Body1::Data { vector, .. } => vector,
        Body1::Fec { vector, .. } => vector,
        Body1::Bare { vector, .. } => vector,
    }
}

/// Whether each number came that elements tell as received, of which the last flag is that of this
/// number.
fn flagged_came(elements: &[u8], last: u32, came: &NumbersCame) -> bool
    requires { length elements.now ≤ 2048 }
    ensures kept { IsTrue result → (n : ℕ) → IsFlaggedUpTo last (flags_of_elements elements.now) n
        → has came.now n ≡ true }
    ensures broken { IsFalse result → (n : ℕ) × IsFlaggedUpTo last (flags_of_elements elements.now) n
        × (has came.now n ≡ false) }
{
    let mut first = FIRST_ROUND + u64::from(last) + 1;
    let mut rest = elements;
    while let Some((element, before)) = rest.split_last() {
        let count = u64::from(element & 0x3f);
        first -= count;
        if element >> 6 == 0 && !came.has_run(first, count, FIRST_ROUND) {
            return false;
        }
        rest = before;
    }
    true
}

/// Whether a datagram of the second layout tells only numbers that came, or SeqNum 0 where none
/// came.
fn second_came(datagram: &[u8], came: &NumbersCame) -> bool
    ensures kept { IsTrue result → (n : ℕ) → Tells Layout.Second datagram.now n
        → MayTell came.now Layout.Second datagram.now n }
    ensures broken { IsFalse result → (n : ℕ) × Tells Layout.Second datagram.now n
        × ¬ MayTell came.now Layout.Second datagram.now n }
{
    if datagram.len() > GREATEST {
        return true;
    }
    let mut scratch = [0; GREATEST];
    match read2(datagram, &mut scratch) {
        Ok(packet) => told_came(&packet.telling, came),
        Err(_) => true,
    }
}

/// Whether the numbers came that a packet of the second layout tells.
fn told_came(telling: &Telling2<'_>, came: &NumbersCame) -> bool
    requires ack { IfSome (ack_in (telling_of telling.now)) IsAck }
    requires vector { IfSome (vector_in (telling_of telling.now)) IsVector }
    ensures kept { IsTrue result → (n : ℕ) → TellsSecond (telling_of telling.now) n
        → MayTellZero came.now (telling_of telling.now) n }
    ensures broken { IsFalse result → (n : ℕ) × TellsSecond (telling_of telling.now) n
        × ¬ MayTellZero came.now (telling_of telling.now) n }
{
    match *telling {
        Telling2::Nothing => true,
        Telling2::Ack(ack) => acked_came(ack.number, ack.delays.len() as u64, came),
        Telling2::Vector(vector) => coded_came(vector.coded, vector.base, came),
    }
}

/// Whether SeqNum and so many delayed numbers before it came; SeqNum 0 may be told where none came.
fn acked_came(number: u16, delayed: u64, came: &NumbersCame) -> bool
    requires { delayed < 16 }
    ensures kept { IsTrue result → (n : ℕ) → IsAcked number delayed n
        → (has came.now n ≡ true) ⊎ ((number ≡ 0) × (n ≡ 0) × (came.now ≡ [])) }
    ensures broken { IsFalse result → (n : ℕ) × IsAcked number delayed n
        × (has came.now n ≡ false) × ((number ≡ 0) → (n ≡ 0) → (came.now ≡ []) → ⊥) }
{
    let number = u64::from(number);
    if number == 0 && came.is_empty() {
        return delayed == 0;
    }
    came.has_run(SECOND_ROUND + number - delayed, delayed + 1, SECOND_ROUND)
}

/// Whether each number came that coded bytes tell as received, of which the first flag is that of
/// this number.
fn coded_came(coded: &[u8], base: u16, came: &NumbersCame) -> bool
    requires { length coded.now < 128 }
    ensures kept { IsTrue result → (n : ℕ) → IsFlaggedFrom base (flags_of_coded coded.now) n
        → has came.now n ≡ true }
    ensures broken { IsFalse result → (n : ℕ) × IsFlaggedFrom base (flags_of_coded coded.now) n
        × (has came.now n ≡ false) }
{
    let base = u64::from(base);
    for (offset, received) in read_coded(coded) {
        if received && !came.has((base + offset) % SECOND_ROUND) {
            return false;
        }
    }
    true
}
