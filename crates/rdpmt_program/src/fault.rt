//! Why a command does not go to its end.

use thiserror::Error;

/// What ends a command before its output is there.
#[derive(Debug, Drop, Error)]
pub(crate) enum Fault {
    /// The words are not those of a command.
    #[error("the words are not those of a command")]
    Usage,
    /// A line of the file is refused; this is what is printed of it.
    #[error("a line is refused")]
    Refused(String),
    /// A line of the capture breaks a rule; this is what is printed of it.
    #[error("a line breaks a rule")]
    Broken(String),
    /// The store failed.
    #[error("a file could not be read")]
    File,
    /// The script is longer than one may be.
    #[error("the script is too long")]
    Limit,
    /// Memory ran out.
    #[error("memory ran out")]
    NoMemory,
}
