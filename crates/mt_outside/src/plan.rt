//! Which calls of a form in memory are to fail.

ghost use Rattle.std.specs.Prelude.{◌≡◌, ◌+◌, ◌-◌, ◌^◌, min, []};
ghost use Rattle.mt_outside.specs.Memory.{fails_at};

/// The numbers, from 0, of the calls that are to fail, and the number of the next call. At the
/// greatest value that number stands still.
#[derive(Drop)]
pub(crate) struct Plan {
    pub(crate) fails: Vec<u64>,
    pub(crate) next: u64,
}

impl Plan {
    pub(crate) fn new(fails: Vec<u64>) -> Plan
        ensures fails { result.fails.items ≡ fails.items }
        ensures next { result.next ≡ 0 }
    {
        Plan { fails, next: 0 }
    }

    /// Counts a call, and answers whether it is to fail.
    pub(crate) fn is_to_fail(&mut self) -> bool
        ensures value { result ≡ fails_at self.old.fails.items self.old.next }
        ensures fails { self.new.fails.items ≡ self.old.fails.items }
        ensures next { self.new.next ≡ min (self.old.next + 1) (2 ^ 64 - 1) }
    {
        let number = self.next;
        self.next = number.saturating_add(1);
        self.fails.contains(&number)
    }
}
