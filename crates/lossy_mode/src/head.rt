//! The text of a datagram up to the bytes of its part.

ghost use Rattle.std.specs.Prelude.{◌≡◌, ◌+◌, ◌-◌, ◌<◌, ◌≤◌, ◌^◌, ◌++◌, ℕ, List, All, None, length, take, drop, option_map, option_copied};
ghost use Rattle.mt_windows.specs.Noted.{is_seen};
ghost use Rattle.mt_windows.specs.NotedView.{Notes};
ghost use Rattle.ack_vector.specs.Elements.{IsGood};
ghost use Rattle.ack_vector.specs.Longest.{elements_of};
ghost use Rattle.link_machine.specs.Flags.{flags_from};
ghost use Rattle.udp1_packets.specs.Views.{packet_of};
ghost use Rattle.udp1_core.specs.ContentsView.{head_body};
ghost use Rattle.udp1_core.specs.FirstLayout.{first_wire, low, told_from};
ghost use Rattle.lossy_mode.specs.LossyView.{both_numbers};
ghost use Rattle.lossy_mode.specs.Thin.{last_number, telling_of};

use carrier::WITH_TELLING;
use mt_base::{W32, Width};
use mt_windows::{PART, Seen, TELL, WINDOW};
use udp1_core::{ELEMENTS, write_elements};
use udp1_packets::{Body1, Packet1, write1};

/// Writes a datagram up to the bytes of its part, and gives its length: the last number accepted;
/// where it tells so, which of the numbers from one up to it were; and the number of the part.
pub fn write_head(
    seen: &Seen<W32>,
    from: u64,
    last: u64,
    tells: bool,
    number: Option<u64>,
    out: &mut [u8; 1232],
) -> usize
    requires near { last + 1 ≤ from + WINDOW }
    requires bound { last < 2 ^ 62 }
    ensures bound { result + PART ≤ WITH_TELLING }
    ensures text { (peer floor : ℕ) (numbers : List ℕ) → Notes seen.now numbers →
        last ≡ last_number peer numbers → from ≡ told_from peer floor last →
        let text = first_wire.head (telling_of peer numbers floor) tells None (option_map both_numbers number) in
        (result ≡ length text) × (out.new ≡ text ++ drop result out.old) }
    ensures rest { drop result out.new ≡ drop result out.old }
{
    let mut elements = [0; ELEMENTS];
    let mut vector = None;
    if tells {
        let count = write_vector(seen, from, last, &mut elements);
        vector = Some(&elements[..count]);
    }
    let packet = head_packet(last, vector, number);
    match write1(&packet, out) {
        Ok(length) => length,
        Err(_) => unreachable!(),
    }
}

/// Writes the elements of the vector that tells which of the numbers from one up to another were
/// accepted, and gives how many.
fn write_vector(seen: &Seen<W32>, from: u64, last: u64, out: &mut [u8; ELEMENTS]) -> usize
    requires near { last + 1 ≤ from + WINDOW }
    requires bound { last < 2 ^ 62 }
    ensures bound { result ≤ WINDOW }
    ensures good { All IsGood (take result out.new) }
    ensures elements { (numbers : List ℕ) → Notes seen.now numbers →
        take result out.new ≡ elements_of (flags_from (is_seen TELL numbers) from (last + 1 - from)) }
{
    let has = |number: u64| seen.has(number);
    let count = (last + 1).saturating_sub(from);
    write_elements(has, from, count, out)
}

/// The low part of a number, as it is shown.
fn low_part(number: u64) -> u32
    ensures { result ≡ low number }
{
    (number % W32::MODULUS) as u32
}

/// The packet without its data.
fn head_packet(last: u64, vector: Option<&[u8]>, number: Option<u64>) -> Packet1<'_>
    ensures { packet_of result ≡
        record { ack = low last; window = WINDOW; marks = 0; body = head_body (option_copied vector.entry) None (option_map both_numbers number) } }
{
    let body = match number {
        None => Body1::Bare {
            vector,
            aoa: None,
            rest: &[],
        },
        Some(number) => Body1::Data {
            vector,
            aoa: None,
            coded: low_part(number),
            start: low_part(number),
            bytes: &[],
        },
    };
    Packet1 {
        ack: low_part(last),
        window: WINDOW as u16,
        marks: 0,
        body,
    }
}
