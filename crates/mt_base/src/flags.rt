//! Stretches of equal flags.

ghost use Rattle.std.specs.Prelude.{◌≡◌, ◌≤◌, length};
ghost use Rattle.mt_base.specs.Longest.{longest};

/// How many of the next 63 flags are this one, up to the first that is not.
pub fn stretch(received: bool, flags: &[bool]) -> u8
    ensures exact { result ≡ longest received flags.now }
    ensures short { result ≤ 63 }
    ensures within { result ≤ length flags.now }
{
    let next = flags.iter().take(63);
    next.take_while(|flag| **flag == received).count() as u8
}
