//! The first word of a line.

ghost use Rattle.std.specs.Prelude.{◌≡◌, ◌≢◌};
ghost use Rattle.mt_script.specs.Reading.{IsNameOf};
ghost use Rattle.capture_check.specs.declared.first.First.{First};
ghost use Rattle.capture_check.specs.Reading.{first_name};

/// The first word of an entry's line.
#[derive(Clone, Copy)]
pub(crate) enum First {
    Issue,
    Open,
    Sent,
    Got,
    Main,
    Word,
    Out,
    In,
}

/// The first word that a word is.
pub(crate) fn first_of(word: &[u8]) -> Option<First>
    ensures { IsNameOf first_name word.now result }
{
    match word {
        b"issue" => Some(First::Issue),
        b"open" => Some(First::Open),
        b"sent" => Some(First::Sent),
        b"got" => Some(First::Got),
        b"main" => Some(First::Main),
        b"word" => Some(First::Word),
        b"out" => Some(First::Out),
        b"in" => Some(First::In),
        _ => None,
    }
}
