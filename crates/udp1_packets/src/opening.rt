//! Reading openings.

ghost use Rattle.std.specs.Prelude.{◌≡◌, ◌<◌, length, not, eqb, IfSome};
ghost use Rattle.std.specs.List.{position_from};
ghost use Rattle.std.specs.Option.{option_copied, option_map};
ghost use Rattle.mt_base.specs.CursorView.{left};
ghost use Rattle.udp1_packets.specs.Reading.{Reads, Answers, mtu_at, version_at, block32_at, extension_at, extended_at, zeros_at, syn_at, opening_at};
ghost use Rattle.udp1_packets.specs.Views.{extended_of, syn_of, body_of};

use crate::flags;
use crate::packet::{Body1, Extension, Syn1};
use carrier::Refusal1;
use mt_base::Cursor;

#[tactic(auto, unfolding(crate::specs::Reading::mtu_at))]
fn mtu(from: &mut Cursor<'_>) -> Result<u16, Refusal1>
    ensures { Reads (λ x. x) (left from.new) result (mtu_at (left from.old)) }
{
    let at = from.at();
    let mtu = from.u16_be()?;
    if mtu < 1132 || 1232 < mtu {
        return Err(Refusal1::BadMtu { at });
    }
    Ok(mtu)
}

#[tactic(auto, unfolding(crate::specs::Reading::version_at))]
fn version(from: &mut Cursor<'_>, valid: bool) -> Result<u16, Refusal1>
    ensures { Reads (λ x. x) (left from.new) result (version_at valid (left from.old)) }
{
    let at = from.at();
    let version = from.u16_be()?;
    if valid && version != 0x0001 && version != 0x0002 && version != 0x0101 {
        return Err(Refusal1::BadVersion { at });
    }
    Ok(version)
}

#[tactic(auto, unfolding(crate::specs::Reading::block32_at))]
fn block32<'a>(from: &mut Cursor<'a>, there: bool) -> Result<Option<&'a [u8]>, Refusal1>
    ensures { Reads option_copied (left from.new) result (block32_at there (left from.old)) }
{
    if !there {
        return Ok(None);
    }
    Ok(Some(from.take(32)?))
}

#[tactic(auto, unfolding(crate::specs::Reading::extension_at))]
fn extension<'a>(from: &mut Cursor<'a>, answer: bool) -> Result<Extension<'a>, Refusal1>
    ensures { Reads extended_of (left from.new) result (extension_at answer (left from.old)) }
{
    let flags = from.u16_be()?;
    let valid = flags::has(flags, 0x0001);
    let version = version(from, valid)?;
    let hash = block32(from, !answer && valid && version == 0x0101)?;
    Ok(Extension {
        flags,
        version,
        hash,
    })
}

#[tactic(auto, unfolding(crate::specs::Reading::extended_at))]
fn extended<'a>(
    from: &mut Cursor<'a>,
    there: bool,
    answer: bool,
) -> Result<Option<Extension<'a>>, Refusal1>
    ensures { let read = extended_at there answer (left from.old) in
        Reads (option_map extended_of) (left from.new) result read }
{
    if !there {
        return Ok(None);
    }
    Ok(Some(extension(from, answer)?))
}

/// The place of the first byte that is not zero.
fn not_zero(bytes: &[u8]) -> Option<usize>
    ensures first { result ≡ position_from (λ b. not (eqb b 0)) 0 bytes.now }
    ensures within { IfSome result (λ i. i < length bytes.now) }
{
    bytes.iter().position(|byte| *byte != 0)
}

/// How many zeros are left up to the end, where nothing else is.
#[tactic(auto, unfolding(crate::specs::Reading::zeros_at))]
fn zeros(from: &Cursor<'_>) -> Result<usize, Refusal1>
    ensures { Answers (λ x. x) result (zeros_at (left from.now)) }
{
    let rest = from.rest();
    match not_zero(rest) {
        None => Ok(rest.len()),
        Some(i) => Err(Refusal1::PaddingNotZero { at: from.at() + i }),
    }
}

#[tactic(auto, unfolding(crate::specs::Reading::syn_with))]
fn syn<'a>(from: &mut Cursor<'a>, flags: u16) -> Result<Syn1<'a>, Refusal1>
    ensures { Answers syn_of result (syn_at flags (left from.old)) }
{
    let answer = flags::has(flags, flags::ACK);
    let initial = from.u32_be()?;
    let up = mtu(from)?;
    let down = mtu(from)?;
    let correlation = block32(from, flags::has(flags, flags::CORRELATION_ID))?;
    let extension = extended(from, flags::has(flags, flags::SYNEX), answer)?;
    let padding = zeros(from)?;
    Ok(Syn1 {
        answer,
        initial,
        up,
        down,
        correlation,
        extension,
        padding,
    })
}

/// Reads what stands behind the header of an opening with these flags.
#[tactic(auto, unfolding(crate::specs::Reading::opening_at))]
pub fn opening<'a>(from: &mut Cursor<'a>, flags: u16) -> Result<Body1<'a>, Refusal1>
    ensures { Answers body_of result (opening_at flags (left from.old)) }
{
    if flags::has(flags, flags::NOT_WITH_SYN) {
        return Err(Refusal1::SynWithData { at: 6 });
    }
    Ok(Body1::Syn(syn(from, flags)?))
}
