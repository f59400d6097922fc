//! The text of a datagram up to the bytes of its part.

ghost use Rattle.std.specs.Prelude.{◌≡◌, ◌+◌, ◌-◌, ◌<◌, ◌≤◌, ◌++◌, ℕ, List, All, Some, length, replicate, take, drop, max, true};
ghost use Rattle.mt_windows.specs.Noted.{is_seen};
ghost use Rattle.mt_windows.specs.NotedView.{Notes};
ghost use Rattle.coded_vector.specs.Written.{coded_of};
ghost use Rattle.carrier.specs.Layout.{Upto};
ghost use Rattle.link_machine.specs.Flags.{flags_from};
ghost use Rattle.udp2_packets.specs.Layout.{IsAck};
ghost use Rattle.udp2_packets.specs.Value.{AckTelling};
ghost use Rattle.udp2_packets.specs.Views.{ack_of, packet_of, telling_of};
ghost use Rattle.udp2_core.specs.TellingView.{IsShort};
ghost use Rattle.udp2_core.specs.SecondLayout.{all_seen, count_of, head_body, last_of, low, made_of, packet_telling, second_wire, telling_of as told_of, telling_where, told_from};

use crate::coded::VectorWriter;
use carrier::WITH_TELLING;
use link_machine::{Got, Numbers};
use mt_base::{W16, Width};
use mt_windows::{PART, TELL};
use udp2_packets::{Ack2, Body2, Packet2, Telling2, Vector2, write_fields2};

/// Coded bytes of a vector at most: it tells of the last numbers that one telling can cover, and what
/// is written of n flags has at most a seventh of n + 36 bytes.
const CODED: usize = (TELL as usize + 36) / 7;

/// Of how many numbers an acknowledgement tells.
const ALL_SEEN: u64 = 16;

/// The power of two that the window is.
const LOG_WINDOW: u8 = 6;

/// No delays.
const ZEROS: [u8; 15] = [0; 15];

/// Writes a datagram up to the bytes of its part, and gives its length.
pub fn write_fields(
    got: &Got<'_, W16>,
    tells: bool,
    above: Option<u64>,
    numbers: Option<Numbers>,
    out: &mut [u8; 1232],
) -> usize
    requires { 1 ≤ got.now.peer }
    ensures bound { result + PART ≤ WITH_TELLING }
    ensures text { (seen : List ℕ) → Notes got.now.seen.now seen →
        let text = second_wire.head (told_of got.now.peer got.now.floor seen) tells above numbers in
        (result ≡ length text) × (out.new ≡ text ++ drop result out.old) }
    ensures rest { drop result out.new ≡ drop result out.old }
{
    let mut coded = [0; CODED];
    let telling = telling_where(got, tells, &mut coded);
    let packet = head_packet(telling, above, numbers);
    match write_fields2(&packet, out) {
        Ok(end) => end,
        Err(_) => unreachable!(),
    }
}

/// What a datagram tells: what was received, or nothing.
fn telling_where<'a>(got: &Got<'_, W16>, tells: bool, coded: &'a mut [u8; CODED]) -> Telling2<'a>
    requires { 1 ≤ got.now.peer }
    ensures short { IsShort (telling_of result) }
    ensures told { (seen : List ℕ) → Notes got.now.seen.now seen →
        telling_of result ≡ telling_where tells (told_of got.now.peer got.now.floor seen) }
{
    if !tells {
        return Telling2::Nothing;
    }
    telling(got, coded)
}

/// What is told of what was received: an acknowledgement where the last numbers were all seen, else
/// a vector.
fn telling<'a>(got: &Got<'_, W16>, coded: &'a mut [u8; CODED]) -> Telling2<'a>
    requires { 1 ≤ got.now.peer }
    ensures short { IsShort (telling_of result) }
    ensures told { (seen : List ℕ) → Notes got.now.seen.now seen →
        telling_of result ≡ packet_telling (told_of got.now.peer got.now.floor seen) }
{
    let last = last(got);
    let count = count_up_to(last, got.peer);
    if all_seen(got, last, count) {
        return Telling2::Ack(acknowledgement(last, count));
    }
    let base = told_from(got, last);
    let length = write_flags(got, last, base, coded);
    Telling2::Vector(Vector2 {
        base: low_part(base),
        stamp: None,
        coded: &coded[..length],
    })
}

/// The greatest transmission that was seen, or one less than the first.
fn last(got: &Got<'_, W16>) -> u64
    requires { 1 ≤ got.now.peer }
    ensures { (seen : List ℕ) → Notes got.now.seen.now seen → result ≡ last_of got.now.peer seen }
{
    match got.seen.greatest() {
        Some(number) => number,
        None => got.peer - 1,
    }
}

/// How many numbers there are from one on, up to the last one.
fn numbers_from(first: u64, last: u64) -> u64
    requires { 1 ≤ first }
    ensures { result ≡ last + 1 - first }
{
    if last < first {
        return 0;
    }
    last - first + 1
}

/// Of how many of the last numbers an acknowledgement tells.
fn count_up_to(last: u64, first: u64) -> u64
    requires { 1 ≤ first }
    ensures { result ≡ count_of first last }
{
    ALL_SEEN.min(numbers_from(first, last))
}

/// Whether so many numbers up to the last one were seen of late.
fn all_seen(got: &Got<'_, W16>, last: u64, count: u64) -> bool
    requires { count ≤ last + 1 }
    ensures { (seen : List ℕ) → Notes got.now.seen.now seen →
        result ≡ all_seen seen (last + 1 - count) count }
{
    for behind in 0..count {
        if !got.seen.has(last - behind) {
            return false;
        }
    }
    true
}

/// The least number that a vector tells of.
fn told_from(got: &Got<'_, W16>, last: u64) -> u64
    ensures { result ≡ told_from got.now.peer got.now.floor last }
{
    got.peer.max(got.floor).max(last.saturating_sub(TELL - 1))
}

/// Writes the coded bytes that tell which numbers from one on were seen, up to the last one, and
/// gives how many.
fn write_flags(got: &Got<'_, W16>, last: u64, from: u64, out: &mut [u8; CODED]) -> usize
    requires some { 1 ≤ from }
    requires near { last + 1 ≤ from + TELL }
    ensures bound { result ≤ CODED }
    ensures bytes { All (λ b. b < 256) (take result out.new) }
    ensures coded { (seen : List ℕ) → Notes got.now.seen.now seen →
        take result out.new ≡ coded_of (flags_from (is_seen TELL seen) from (last + 1 - from)) }
{
    let has = |number: u64| got.seen.has(number);
    let count = numbers_from(from, last);
    link_machine::write_flags(VectorWriter::new(), has, from, count, out)
}

/// The low part of a number, as it is shown.
fn low_part(number: u64) -> u16
    ensures { result ≡ low number }
{
    (number % W16::MODULUS) as u16
}

/// The acknowledgement of a number and of those below it, so many in all, or of the number alone.
fn acknowledgement(named: u64, count: u64) -> Ack2<'static>
    requires { count ≤ 16 }
    ensures good { IsAck (ack_of result) }
    ensures told { AckTelling (ack_of result) ≡ packet_telling (Upto named (replicate (max 1 count) true)) }
{
    let below = (count.max(1) - 1) as usize;
    Ack2 {
        number: low_part(named),
        received_ts: 0,
        gap: 0,
        scale: 0,
        delays: &ZEROS[..below],
    }
}

/// The packet without the bytes of its part.
fn head_packet<'a>(
    telling: Telling2<'a>,
    floor: Option<u64>,
    numbers: Option<Numbers>,
) -> Packet2<'a>
    ensures { packet_of result ≡ made_of (telling_of telling.entry) floor (head_body numbers) }
{
    let body = match numbers {
        None => Body2::Nothing,
        Some(numbers) => Body2::Data {
            number: low_part(numbers.transmission),
            part: low_part(numbers.part),
            bytes: &[],
        },
    };
    Packet2 {
        log_window: LOG_WINDOW,
        telling,
        overhead: None,
        delay: None,
        aoa: floor.map(low_part),
        body,
    }
}
