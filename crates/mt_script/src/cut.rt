//! A text cut in two at a byte.

ghost use Rattle.std.specs.Prelude.{◌≡◌, ◌∷◌, ◌<◌, length};
ghost use Rattle.mt_script.specs.Lines.{Lacks, lines_of};
ghost use Rattle.mt_script.specs.Reading.{IsCut};

use memchr::memchr;

/// The bytes before the first `byte`, and those behind it where there is one.
pub(crate) fn cut_at(byte: u8, text: &[u8]) -> (&[u8], Option<&[u8]>)
    ensures { IsCut byte text.now result.0.now result.1 }
{
    match memchr(byte, text) {
        Some(end) => (&text[..end], Some(&text[end + 1..])),
        None => (text, None),
    }
}

/// The first line of a text that is not empty, and the text behind it. The line's byte 10, where it
/// has one, stands in neither.
pub fn cut_line(text: &[u8]) -> (&[u8], &[u8])
    requires { 0 < length text.now }
    ensures lines { lines_of text.now ≡ result.0.now ∷ lines_of result.1.now }
    ensures no_end { Lacks 10 result.0.now }
    ensures shorter { length result.1.now < length text.now }
{
    let (line, rest) = cut_at(b'\n', text);
    match rest {
        Some(rest) => (line, rest),
        None => (line, &[]),
    }
}
