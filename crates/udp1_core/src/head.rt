//! The text of a datagram up to the bytes of its part.

ghost use Rattle.std.specs.Prelude.{◌≡◌, ◌+◌, ◌≤◌, ◌^◌, ◌++◌, ℕ, All, Some, length, take, drop, option_map, option_copied};
ghost use Rattle.mt_windows.specs.Arrived.{Parts, has_part};
ghost use Rattle.mt_windows.specs.ArrivedView.{Receives};
ghost use Rattle.ack_vector.specs.Elements.{IsGood};
ghost use Rattle.ack_vector.specs.Longest.{elements_of};
ghost use Rattle.link_machine.specs.Flags.{flags_from};
ghost use Rattle.udp1_packets.specs.Views.{packet_of};
ghost use Rattle.udp1_core.specs.ContentsView.{head_body};
ghost use Rattle.udp1_core.specs.FirstLayout.{first_wire, flags_in, telling_of, named_of, low};

use crate::elements::{ELEMENTS, write_elements};
use carrier::WITH_TELLING;
use link_machine::{Got, Numbers};
use mt_base::{W32, Width};
use mt_windows::{PART, WINDOW};
use udp1_packets::{Body1, Packet1, write1};

/// Writes a datagram up to the bytes of its part, and gives its length.
pub fn write_head(
    got: &Got<'_, W32>,
    tells: bool,
    above: Option<u64>,
    numbers: Option<Numbers>,
    out: &mut [u8; 1232],
) -> usize
    requires peer { 1 ≤ got.now.peer }
    ensures bound { result + PART ≤ WITH_TELLING }
    ensures text { (parts : Parts) (n : ℕ) → Receives got.now.window.now got.now.peer parts n →
        let text = first_wire.head (telling_of got.now.peer got.now.floor parts) tells above numbers in
        (result ≡ length text) × (out.new ≡ text ++ drop result out.old) }
    ensures rest { drop result out.new ≡ drop result out.old }
{
    let named = named(got);
    let mut elements = [0; ELEMENTS];
    let mut vector = None;
    if tells {
        let count = write_vector(got, &mut elements);
        vector = Some(&elements[..count]);
    }
    let packet = head_packet(named, vector, above, numbers);
    match write1(&packet, out) {
        Ok(length) => length,
        Err(_) => unreachable!(),
    }
}

/// The greatest part that was accepted, or one less than the first.
fn named(got: &Got<'_, W32>) -> u64
    requires { 1 ≤ got.now.peer }
    ensures { (parts : Parts) (n : ℕ) → Receives got.now.window.now got.now.peer parts n →
        result ≡ named_of got.now.peer parts }
{
    match got.window.greatest() {
        Some(part) => part,
        None => got.peer - 1,
    }
}

/// Writes the elements of the vector that tells what was received, and gives how many.
fn write_vector(got: &Got<'_, W32>, out: &mut [u8; ELEMENTS]) -> usize
    requires { 1 ≤ got.now.peer }
    ensures bound { result ≤ WINDOW }
    ensures good { All IsGood (take result out.new) }
    ensures elements { (parts : Parts) (n : ℕ) → Receives got.now.window.now got.now.peer parts n →
        take result out.new ≡ elements_of (flags_in (telling_of got.now.peer got.now.floor parts)) }
{
    let named = named(got);
    let from = got
        .peer
        .max(got.floor)
        .max(named.saturating_sub(WINDOW - 1));
    let count = if from <= named { named - from + 1 } else { 0 };
    write_flags(got, from, count, out)
}

/// Writes the elements that say of so many numbers from one on which were received, and gives how
/// many.
fn write_flags(got: &Got<'_, W32>, from: u64, count: u64, out: &mut [u8; ELEMENTS]) -> usize
    requires few { count ≤ WINDOW }
    requires bound { from + count ≤ 2 ^ 64 }
    ensures bound { result ≤ WINDOW }
    ensures good { All IsGood (take result out.new) }
    ensures elements { (parts : Parts) (n : ℕ) → Receives got.now.window.now got.now.peer parts n →
        take result out.new ≡ elements_of (flags_from (has_part got.now.peer parts) from count) }
{
    let has = |number: u64| got.window.has(number);
    write_elements(has, from, count, out)
}

/// The low part of a number, as it is shown.
fn low_part(number: u64) -> u32
    ensures { result ≡ low number }
{
    (number % W32::MODULUS) as u32
}

/// The packet without its data.
fn head_packet(
    named: u64,
    vector: Option<&[u8]>,
    floor: Option<u64>,
    numbers: Option<Numbers>,
) -> Packet1<'_>
    ensures { packet_of result ≡
        record { ack = low named; window = WINDOW; marks = 0; body = head_body (option_copied vector.entry) (option_map low floor) numbers } }
{
    let aoa = floor.map(low_part);
    let body = match numbers {
        None => Body1::Bare {
            vector,
            aoa,
            rest: &[],
        },
        Some(numbers) => Body1::Data {
            vector,
            aoa,
            coded: low_part(numbers.transmission),
            start: low_part(numbers.part),
            bytes: &[],
        },
    };
    Packet1 {
        ack: low_part(named),
        window: WINDOW as u16,
        marks: 0,
        body,
    }
}
