//! Why nothing is shown of a text.

/// Why a text is no show file. Lines are counted from 1.
#[derive(Clone, Copy, Debug, PartialEq, Eq)]
pub enum ShowRefusal {
    /// The line is none of a show file.
    BadLine { line: u64 },
    /// There are more lines than a show file may have.
    TooManyLines { limit: u64 },
    /// Memory ran out.
    NoMemory,
}
