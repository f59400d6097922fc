//! The words of a call, as a command.

ghost use Rattle.std.specs.Prelude.{◌↔◌, IsTrue};
ghost use Rattle.rdpmt_program.specs.Command.{words_of, IsOption};
ghost use Rattle.rdpmt_program.specs.Fate.{IsRead, IsReadOf};

/// What the words of a call ask for.
#[derive(Clone, Copy)]
pub(crate) enum Command<'a> {
    /// `play SCRIPT`: the script of this name is played.
    Play(&'a str),
    /// `show FILE`: the show file of this name is shown.
    Show(&'a str),
    /// `check CAPTURE`: the capture of this name is checked.
    Check(&'a str),
}

/// The command that these words are, `None` where they are not those of one.
pub(crate) fn read_words(words: &Vec<String>) -> Option<Command<'_>>
    ensures { IsRead (words_of words.now.items) result }
{
    let [first, name] = words.as_slice() else {
        return None;
    };
    if is_option(name.as_str()) {
        return None;
    }
    command_of(first.as_str(), name.as_str())
}

/// The command that a first word and the name of a file are.
fn command_of<'a>(first: &str, name: &'a str) -> Option<Command<'a>>
    ensures { IsReadOf first.now name.entry.now result }
{
    match first {
        "play" => Some(Command::Play(name)),
        "show" => Some(Command::Show(name)),
        "check" => Some(Command::Check(name)),
        _ => None,
    }
}

/// Whether a word begins with `-`.
fn is_option(word: &str) -> bool
    ensures { IsTrue result ↔ IsOption word.now }
{
    word.starts_with('-')
}
