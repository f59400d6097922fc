//! The counts of a session.

/// How many bytes were read and written on the main stream, and how many datagrams taken; whether the turn that
/// began last moved any; and the turns in a row, up to now, that moved none. A count at the greatest value stands.
#[derive(Clone, Copy)]
pub struct Tally {
    pub read: u64,
    pub written: u64,
    pub taken: u64,
    pub moves: bool,
    pub idle: u64,
}

impl Tally {
    ghost use Rattle.std.specs.Prelude.{◌≡◌, false};
    ghost use Rattle.mt_session.specs.Steps.{begun, ended, noted_read, noted_taken, noted_written};

    pub(crate) fn new() -> Tally
        ensures { result ≡ record { read = 0; written = 0; taken = 0; moves = false; idle = 0 } }
    {
        Tally {
            read: 0,
            written: 0,
            taken: 0,
            moves: false,
            idle: 0,
        }
    }

    /// A turn begins.
    pub(crate) fn begin(&mut self)
        ensures { self.new ≡ begun self.old }
    {
        self.moves = false;
    }

    /// So many bytes were read.
    pub(crate) fn note_read(&mut self, count: usize)
        ensures { self.new ≡ noted_read count self.old }
    {
        if 0 < count {
            self.read = self.read.saturating_add(count as u64);
            self.moves = true;
        }
    }

    /// A datagram was taken.
    pub(crate) fn note_taken(&mut self)
        ensures { self.new ≡ noted_taken self.old }
    {
        self.taken = self.taken.saturating_add(1);
        self.moves = true;
    }

    /// So many bytes were written.
    pub(crate) fn note_written(&mut self, count: usize)
        ensures { self.new ≡ noted_written count self.old }
    {
        if 0 < count {
            self.written = self.written.saturating_add(count as u64);
            self.moves = true;
        }
    }

    /// A turn ends.
    pub(crate) fn end(&mut self)
        ensures { self.new ≡ ended self.old }
    {
        self.idle = if self.moves {
            0
        } else {
            self.idle.saturating_add(1)
        };
    }
}
