//! Numbers of which only the low part is shown.

ghost use Rattle.std.specs.Prelude.{◌≡◌, ◌*◌, ◌<◌, ◌≤◌, ◌^◌, ℕ};

/// How many low parts there are of a number that is shown in a field of so many bits.
pub trait Width {
    ghost MODULUS: { ℕ };

    ghost half: { ℕ };

    const MODULUS: u64;

    ghost is_even: { MODULUS ≡ 2 * half };

    ghost has_parts: { 0 < half };

    ghost is_narrow: { MODULUS ≤ 2 ^ 32 };
}

/// A number shown in 16 bits (MS-RDPEUDP2 section 2.2).
pub struct W16;

impl Width for W16 {
    ghost use Rattle.std.specs.Prelude.{◌^◌, refl};
    ghost use Rattle.std.proofs.Common.{lit<, lit≤};

    ghost MODULUS = { 65536 };

    ghost half = { 32768 };

    const MODULUS: u64 = 65_536;

    ghost is_even = { refl };

    ghost has_parts = { lit< tt };

    ghost is_narrow = { lit≤ tt };
}

/// A number shown in 32 bits (MS-RDPEUDP section 2.2).
pub struct W32;

impl Width for W32 {
    ghost use Rattle.std.specs.Prelude.{◌^◌, refl};
    ghost use Rattle.std.proofs.Common.{lit<, lit≤};

    ghost MODULUS = { 4294967296 };

    ghost half = { 2147483648 };

    const MODULUS: u64 = 4_294_967_296;

    ghost is_even = { refl };

    ghost has_parts = { lit< tt };

    ghost is_narrow = { lit≤ tt };
}

ghost use Rattle.mt_base.specs.Nearness.{Near, nearest};

/// The number with the low part `low` that lies at most half the modulus below the reference, or
/// less than half of it above. There is one such integer; it is `None` exactly where that integer
/// is negative.
pub fn near<W: Width>(reference: u64, low: u64) -> Option<u64>
    requires shown { low < W.MODULUS }
    requires reference { reference < 2 ^ 63 }
    ensures near { Near W.MODULUS reference low result }
    ensures value { result ≡ nearest W.MODULUS reference low }
{
    let modulus = W::MODULUS;
    let end = reference + modulus / 2;
    if end <= low {
        return None;
    }
    let above = (end - 1 - low) % modulus;
    Some(end - 1 - above)
}
